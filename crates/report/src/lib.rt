// The report: the first check that fails with its elements, the faults and the six-volume, from what is kept.

#![tactic(auto)]

ghost use Rattle.std.specs.Prelude.{◌≡◌, ◌/◌, ◌%◌, ◌<◌, ◌≤◌, ◌≢◌, ltb, take, slice_index, MatchOption};
ghost use Rattle.whole.specs.Lists.{tally, sum_of};
ghost use Rattle.polygon.specs.held.Findings.{finding_of};
ghost use Rattle.building.specs.Report.{verdict};
ghost use Rattle.building.specs.held.Holds.{tables_in, LoadedIn, KeptIn};
ghost use Rattle.report.specs.held.Lowest.{NoneFound};

use building::{Arrays, Scalars, Verdict};
use polygon::Finding;

// The finding that is kept so.
#[tactic(auto, unfolding(polygon::specs::held::Findings::finding_of))]
fn finding_from(kept: u16) -> Finding
    ensures { result ≡ finding_of (kept % 16) (kept / 16) }
{
    let at = kept / 16;
    match kept % 16 {
        0 => Finding::Sound,
        1 => Finding::Short,
        2 => Finding::Unclosed,
        3 => Finding::Repeated(at),
        4 => Finding::NoNormal,
        5 => Finding::Crossed(at),
        14 => Finding::Shared,
        15 => Finding::Misplaced,
        _ => Finding::Uneven(at),
    }
}

// The lowest of the first n polygons that has a finding.
fn lowest_of(findings: &[u16; 256], n: usize) -> Option<usize>
    requires { n ≤ 256 }
    ensures { MatchOption result (NoneFound findings.now n) (λ i. (i < n) × (NoneFound findings.now i × (slice_index findings.now i ≢ 0))) }
{
    findings[..n].iter().position(|kept| *kept != 0)
}

// The first check that fails, from what is kept: the lowest finding, else the check of the whole, else the six-volume's sign. The lowest
// is looked for only where there is one.
pub fn verdict_of(arrays: &Arrays, s: Scalars, faults: usize, volume: i64) -> Verdict
    requires loaded { LoadedIn arrays.now s }
    requires kept { KeptIn arrays.now s }
    requires faults_value { (faults ≡ tally (ltb 0) (take s.polygons arrays.now.findings)) × (volume ≡ sum_of (λ z. z) (take s.polygons arrays.now.parts)) }
    ensures { result ≡ verdict (tables_in arrays.now s) }
{
    if faults != 0 {
        if let Some(low) = lowest_of(&arrays.findings, s.polygons) {
            return Verdict::Faulty(low, finding_from(arrays.findings[low]));
        }
    }
    let shape = s.shape;
    if verdict::shape_number(shape) != 0 {
        return Verdict::Unsound(shape);
    }
    if volume <= 0 {
        return Verdict::Inward;
    }
    Verdict::Accepted
}
