// Every polygon looked at, and end of load: the edge table built, whatever the findings.

#![tactic(auto)]

ghost use Rattle.std.specs.Prelude.{◌≡◌, ◌≤◌, ◌<◌, take, MatchOption};
ghost use Rattle.building.specs.Tables.{loaded};
ghost use Rattle.building.specs.held.Holds.{tables_in, LoadedIn, Beside, Shown, Did};
ghost use Rattle.checks.specs.held.Steps.{Checked};
ghost use Rattle.checks.specs.held.Early.{is_early_of, NoneEarly, EarlyAt};
ghost use Rattle.checks.specs.held.Writes.{checked, LoadWrites};

use building::{Arrays, Scalars};
use shell::Shape;

// Every polygon's finding and part.
fn check_rings(arrays: &mut Arrays, s: Scalars)
    requires loaded { LoadedIn arrays.old s }
    ensures checked { Checked s.tolerance arrays.old.points.flat arrays.old.rings.entries arrays.old.rings.starts arrays.old.rings.firsts s.polygons arrays.old.findings arrays.old.parts arrays.new.findings arrays.new.parts }
    ensures beside { Beside arrays.old arrays.new }
    ensures stamps { arrays.new.stamps ≡ arrays.old.stamps }
{
    for p in 0..s.polygons {
        renew::refresh(arrays, s.tolerance, p);
    }
}

// Whether a finding as it is kept is one of checks 01 to 03.
fn is_early(kept: u16) -> bool
    ensures { result ≡ is_early_of kept }
{
    let n = kept % 16;
    (1 <= n) & (n <= 3)
}

// The lowest of the first n polygons that fails one of checks 01 to 03.
fn lowest_early(findings: &[u16; 256], n: usize) -> Option<usize>
    requires { n ≤ 256 }
    ensures { MatchOption result (NoneEarly findings.now n n) (λ i. (i < n) × EarlyAt findings.now n i) }
{
    findings[..n].iter().position(|kept| is_early(*kept))
}

// The scalars after end of load, with the check of the whole that fails first as the rings stand now.
fn held_shape(
    table: &[u64; 1024],
    turned: &[u8; 256],
    s: Scalars,
    edges: usize,
    fixed: Shape,
) -> Scalars
    requires { edges ≤ 1024 }
    ensures { (result ≡ checked s edges fixed result.shape) × Shown table.now edges turned.now fixed result.shape }
{
    let shape = directions::shape_now(&table[..edges], turned, fixed);
    Scalars {
        last: 0,
        edges,
        fixed,
        shape,
        ..s
    }
}

// End of load: "checks the building and holds it with last correction number 0 and all stamps 0". The edge table is the list of edges
// too, and is built whatever the findings; checks 07 to 0C are tried only where every ring passes 01 to 03, since where one does not no
// correction mends it.
pub fn check_all(arrays: &mut Arrays, s: Scalars) -> Scalars
    requires loaded { LoadedIn arrays.old s }
    ensures did { Did (loaded (tables_in arrays.old s)) arrays.new result }
    ensures points { arrays.new.points.flat ≡ arrays.old.points.flat }
    ensures rings { arrays.new.rings ≡ arrays.old.rings }
    ensures load_writes { LoadWrites arrays.old s arrays.new.stamps arrays.new.findings arrays.new.parts arrays.new.table arrays.new.turned result }
{
    check_rings(arrays, s);
    arrays.stamps.fill(0);
    arrays.turned.fill(0);
    let n = s.polygons;
    let early = lowest_early(&arrays.findings, n);
    let sound = early.is_none();
    let kept = shell::built(&arrays.rings, n, &mut arrays.table, sound);
    held_shape(&arrays.table, &arrays.turned, s, kept.count, kept.fixed)
}
