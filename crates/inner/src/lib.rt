// A polygon of several rings: its finding, with its position, and its part of the six-volume.

#![tactic(auto)]

mod met;
mod rings;

ghost use Rattle.std.specs.Prelude.{◌≡◌, true, ◌≤◌, ◌<◌, length, IfSome, unwrap_or};
ghost use Rattle.whole.specs.Lists.{first};
ghost use Rattle.whole.specs.held.Rows.{rows};
ghost use Rattle.space.specs.Space.{places};
ghost use Rattle.space.specs.held.Points.{points_of, as_point, Near};
ghost use Rattle.normal.specs.Normal.{normal};
ghost use Rattle.even.specs.Even.{uneven_at};
ghost use Rattle.ring.specs.Polygon.{one, rings_of, entries_from};
ghost use Rattle.ring.specs.held.Rings.{ring_at, polygon_of};
ghost use Rattle.holes.specs.held.Rings.{Ring, Lies};
ghost use Rattle.polygon.specs.declared.Finding.TheVariants.{Sound};
ghost use Rattle.polygon.specs.Ring.{finding_number_of, finding_position_of};
ghost use Rattle.polygon.specs.held.Position.{has_position_of};
ghost use Rattle.inner.specs.Finding.{finding, part};
ghost use Rattle.inner.specs.laws.Rows.{rings_finding};
ghost use Rattle.inner.specs.held.LastChecks.{last_checks};

use polygon::{Finding, Look};
use ring::Rings;
use space::{Place, Points};

// The normal of ring q.
fn normal_of(points: &Points, rings: &Rings, q: usize) -> Place
    requires ring { (Ring rings.now.entries rings.now.starts q) × (1 ≤ length (ring_at rings.now.entries rings.now.starts q)) }
    ensures { as_point result ≡ normal (places (points_of points.now.flat) (ring_at rings.now.entries rings.now.starts q)) }
{
    let ring = rings.ring(q);
    normal::normal(points, ring)
}

// 06 of all entries, with a normal n: the entries of a polygon's rings stand one after another.
fn first_uneven(
    points: &Points,
    rings: &Rings,
    from: usize,
    to: usize,
    tolerance: u16,
    n: Place,
) -> Option<usize>
    requires lies { Lies rings.now.entries rings.now.starts from to }
    requires in_bounds { (1 ≤ length (ring_at rings.now.entries rings.now.starts from)) × (tolerance ≤ 1000) }
    requires near { Near 10160000000000 (as_point n) }
    ensures few { IfSome result (λ i. i < length (entries_from (polygon_of rings.now.entries rings.now.starts from to))) }
    ensures first { unwrap_or result (length (entries_from (polygon_of rings.now.entries rings.now.starts from to))) ≡ uneven_at tolerance (as_point n) (places (points_of points.now.flat) (entries_from (polygon_of rings.now.entries rings.now.starts from to))) }
{
    let first = rings.starts[from] as usize;
    let last = rings.starts[to] as usize;
    even::first_uneven(points, &rings.entries[first..last], tolerance, n)
}

// 06, 0E and 0F, in this order, of a polygon whose rings all pass 01 to 05: the first that fails.
fn last_three(points: &Points, rings: &Rings, from: usize, to: usize, tolerance: u16) -> Finding
    requires lies { Lies rings.now.entries rings.now.starts from to }
    requires tolerance_bound { tolerance ≤ 1000 }
    requires to_value { rings_finding (points_of points.now.flat) 0 (rings_of (polygon_of rings.now.entries rings.now.starts from to)) ≡ Sound }
    ensures found { result ≡ first Sound (rows (last_checks tolerance (points_of points.now.flat) (polygon_of rings.now.entries rings.now.starts from to))) }
    ensures few { finding_position_of result ≤ 1024 }
{
    let n = normal_of(points, rings, from);
    if let Some(uneven) = first_uneven(points, rings, from, to, tolerance, n) {
        return Finding::Uneven(uneven as u16);
    }
    let axis = axes::largest_axis(n);
    if holes::is_shared(points, rings, from, to, axis) {
        return Finding::Shared;
    }
    if misplaced::is_misplaced(points, rings, from, to, n, axis) {
        return Finding::Misplaced;
    }
    Finding::Sound
}

// A polygon's finding and its part, where it has one ring, that of number q.
fn look_at_one(points: &Points, rings: &Rings, q: usize, tolerance: u16) -> Look
    requires ring { Ring rings.now.entries rings.now.starts q }
    requires tolerance_bound { tolerance ≤ 1000 }
    ensures finding_value { result.finding ≡ finding tolerance (points_of points.now.flat) (one (ring_at rings.now.entries rings.now.starts q)) }
    ensures few { finding_position_of result.finding ≤ 1152 }
    ensures part_value { result.part ≡ part (points_of points.now.flat) (one (ring_at rings.now.entries rings.now.starts q)) }
{
    let ring = rings.ring(q);
    polygon::look_at(points, ring, tolerance)
}

// The finding and the part of the polygon of the rings `from` up to `to`: 01 to 05 ring by ring, then what is told of them together.
pub fn look_at(points: &Points, rings: &Rings, from: usize, to: usize, tolerance: u16) -> Look
    requires lies { Lies rings.now.entries rings.now.starts from to }
    requires tolerance_bound { tolerance ≤ 1000 }
    ensures finding_value { result.finding ≡ finding tolerance (points_of points.now.flat) (polygon_of rings.now.entries rings.now.starts from to) }
    ensures few { finding_position_of result.finding ≤ 1152 }
    ensures part_value { result.part ≡ part (points_of points.now.flat) (polygon_of rings.now.entries rings.now.starts from to) }
{
    if to == from + 1 {
        return look_at_one(points, rings, from, tolerance);
    }
    let early = rings::look_at_rings(points, rings, from, to);
    match early.finding {
        Finding::Sound => {}
        _ => return early,
    }
    let finding = last_three(points, rings, from, to, tolerance);
    Look { finding, ..early }
}

// Where the finding is met whose number is known: of 03, 05 and 06 only that one is looked for.
pub fn position_of(
    points: &Points,
    rings: &Rings,
    from: usize,
    to: usize,
    tolerance: u16,
    number: u16,
) -> usize
    requires lies { Lies rings.now.entries rings.now.starts from to }
    requires tolerance_bound { tolerance ≤ 1000 }
    requires number_value { (number ≡ finding_number_of (finding tolerance (points_of points.now.flat) (polygon_of rings.now.entries rings.now.starts from to))) × (has_position_of (finding tolerance (points_of points.now.flat) (polygon_of rings.now.entries rings.now.starts from to)) ≡ true) }
    ensures { result ≡ finding_position_of (finding tolerance (points_of points.now.flat) (polygon_of rings.now.entries rings.now.starts from to)) }
{
    if number == 6 {
        let outer = normal_of(points, rings, from);
        let all = rings::entries_of(rings, from, to);
        return first_uneven(points, rings, from, to, tolerance, outer).unwrap_or(all);
    }
    met::first_met(points, rings, from, to, number).unwrap_or(0)
}
