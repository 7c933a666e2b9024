// What a report adds up over the polygons: how many have a finding of their own, and the six-volume.

#![tactic(auto)]

ghost use Rattle.std.specs.Prelude.{◌≡◌, ◌≤◌, ltb, length, take};
ghost use Rattle.whole.specs.Lists.{tally, sum_of};
ghost use Rattle.totals.specs.held.Scans.{Summable};

// How many of at most 256 findings are not 0: counted in a word as wide as theirs, many are tested at a time.
fn faults_in(part: &[u16]) -> u16
    requires { length part.now ≤ 256 }
    ensures { result ≡ tally (ltb 0) part.now }
{
    let mut count: u16 = 0;
    for finding in part {
        count += u16::from(*finding != 0);
    }
    count
}

// "number of polygons with a finding of their own", of the first n.
pub fn faults_of(findings: &[u16; 256], n: usize) -> usize
    requires { (n ≤ 256) × (length findings.now ≡ 256) }
    ensures { result ≡ tally (ltb 0) (take n findings.now) }
{
    usize::from(faults_in(&findings[..n]))
}

// "The building's six-volume is the sum of the parts": of the first n.
pub fn six_volume(parts: &[i64; 256], n: usize) -> i64
    requires { Summable parts.now n }
    ensures { result ≡ sum_of (λ z. z) (take n parts.now) }
{
    let mut total: i64 = 0;
    for part in &parts[..n] {
        total += *part;
    }
    total
}
