// A point moved: the polygons that list it looked at again and stamped.

#![tactic(auto)]

ghost use Rattle.std.specs.Prelude.{◌≡◌, false, ◌+◌, ◌<◌, ◌≤◌, get_or};
ghost use Rattle.whole.specs.Lists.{lists};
ghost use Rattle.places.specs.held.Places.{point3};
ghost use Rattle.places.specs.Points.{is_far_of};
ghost use Rattle.building.specs.Tables.{moved};
ghost use Rattle.building.specs.held.Holds.{held_building, LoadedIn, Beside, Held, Did};
ghost use Rattle.building.specs.held.Rings.{cut, Stands};
ghost use Rattle.moves.specs.held.Rings.{Span};
ghost use Rattle.moves.specs.held.Steps.{Touched, Looked, LookedFrom};
ghost use Rattle.moves.specs.held.Writes.{MoveWrites};

use building::{Arrays, Scalars};
use ring::Rings;

// Whether one of the polygons from p up to q lists point n: their rings stand one after another, so that all are asked at once.
fn uses(rings: &Rings, p: usize, q: usize, n: u16) -> bool
    requires { Span rings.now.entries rings.now.starts rings.now.firsts p q }
    ensures { result ≡ lists n (cut (get_or rings.now.starts (get_or rings.now.firsts p 0) 0) (get_or rings.now.starts (get_or rings.now.firsts q 0) 0) rings.now.entries) }
{
    let first = usize::from(rings.firsts[p]);
    let last = usize::from(rings.firsts[q]);
    let from = usize::from(rings.starts[first]);
    let to = usize::from(rings.starts[last]);
    ring::lists(&rings.entries[from..to], n)
}

// Polygon p looked at again and stamped, if one of its rings lists point n.
fn touch(arrays: &mut Arrays, tolerance: u16, p: usize, n: u16, number: u32)
    requires stands { Stands arrays.old.rings.entries arrays.old.rings.starts arrays.old.rings.firsts p × Span arrays.old.rings.entries arrays.old.rings.starts arrays.old.rings.firsts p (p + 1) }
    requires tolerance_bound { tolerance ≤ 1000 }
    ensures touched { Touched tolerance arrays.old.points.flat arrays.old.rings.entries arrays.old.rings.starts arrays.old.rings.firsts number n p arrays.old.stamps arrays.old.findings arrays.old.parts arrays.new.stamps arrays.new.findings arrays.new.parts }
    ensures beside { Beside arrays.old arrays.new }
{
    if uses(&arrays.rings, p, p + 1, n) {
        renew::refresh(arrays, tolerance, p);
        arrays.stamps[p] = number;
    }
}

// The polygons from one up to another looked at again whose rings list point n.
fn look_at_each(arrays: &mut Arrays, s: Scalars, from: usize, to: usize, n: u16, number: u32)
    requires loaded { LoadedIn arrays.old s }
    requires from_le_to { (from ≤ to) × (to ≤ s.polygons) }
    ensures looked { LookedFrom s.tolerance arrays.old.points.flat arrays.old.rings.entries arrays.old.rings.starts arrays.old.rings.firsts number n from to arrays.old.stamps arrays.old.findings arrays.old.parts arrays.new.stamps arrays.new.findings arrays.new.parts }
    ensures beside { Beside arrays.old arrays.new }
{
    for p in from..to {
        touch(arrays, s.tolerance, p, n, number);
    }
}

// The same, where no polygon need be touched if none of them lists the point.
fn look_through(arrays: &mut Arrays, s: Scalars, from: usize, to: usize, n: u16, number: u32)
    requires loaded { LoadedIn arrays.old s }
    requires from_le_to { (from ≤ to) × (to ≤ s.polygons) }
    ensures looked { LookedFrom s.tolerance arrays.old.points.flat arrays.old.rings.entries arrays.old.rings.starts arrays.old.rings.firsts number n from to arrays.old.stamps arrays.old.findings arrays.old.parts arrays.new.stamps arrays.new.findings arrays.new.parts }
    ensures beside { Beside arrays.old arrays.new }
{
    if uses(&arrays.rings, from, to, n) {
        look_at_each(arrays, s, from, to, n, number);
    }
}

// All polygons looked at again whose rings list point n: eight are asked at once whether one lists it.
fn look_again(arrays: &mut Arrays, s: Scalars, n: u16, number: u32)
    requires { LoadedIn arrays.old s }
    ensures looked { Looked s.tolerance arrays.old.points.flat arrays.old.rings.entries arrays.old.rings.starts arrays.old.rings.firsts number n s.polygons arrays.old.stamps arrays.old.findings arrays.old.parts arrays.new.stamps arrays.new.findings arrays.new.parts }
    ensures beside { Beside arrays.old arrays.new }
{
    let mut p = 0;
    while p < s.polygons {
        let q = s.polygons.min(p + 8);
        look_through(arrays, s, p, q, n, number);
        p = q;
    }
}

// The point stands elsewhere, and the polygons that list it are stamped.
pub fn move_point(
    arrays: &mut Arrays,
    s: Scalars,
    number: u32,
    n: usize,
    x: i64,
    y: i64,
    z: i64,
) -> Scalars
    requires held { Held arrays.old s }
    requires n_lt_points { n < s.points }
    requires z_value { is_far_of (point3 x y z) ≡ false }
    ensures did { Did (moved number n (point3 x y z) (held_building arrays.old s)) arrays.new result }
    ensures rings { arrays.new.rings ≡ arrays.old.rings }
    ensures table { arrays.new.table ≡ arrays.old.table }
    ensures turned { arrays.new.turned ≡ arrays.old.turned }
    ensures move_writes { MoveWrites arrays.old s number n (point3 x y z) arrays.new.points.flat arrays.new.stamps arrays.new.findings arrays.new.parts result }
{
    places::place(&mut arrays.points.flat, n, x, y, z);
    look_again(arrays, s, n as u16, number);
    Scalars { last: number, ..s }
}
