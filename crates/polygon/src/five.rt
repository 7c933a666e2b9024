// What a ring shows by itself: the first of checks 01 to 05 that fails, with its position, and its part of the six-volume.
ghost use Rattle.std.specs.Prelude.{◌≡◌, ◌+◌, ◌-◌, ◌*◌, ◌<◌, ◌≤◌, length, false, IfSome, unwrap_or};
ghost use Rattle.space.specs.Space.{places};
ghost use Rattle.space.specs.held.Points.{points_of, Known, as_point, Near};
ghost use Rattle.ring.specs.Entries.{is_unclosed};
ghost use Rattle.normal.specs.Normal.{normal, is_zero_of};
ghost use Rattle.crossing.specs.Crossed.{crossed_at};
ghost use Rattle.plane.specs.Plane.{largest_axis_of};
ghost use Rattle.volume.specs.Part.{part};
ghost use Rattle.polygon.specs.Ring.{edges_in, ring_finding};

use crate::{Finding, Look, columns};
use space::{Place, Points};

// 04: "N is zero in all three components"
fn is_zero(n: Place) -> bool
    requires { Near 10160000000000 (as_point n) }
    ensures { result ≡ is_zero_of (as_point n) }
{
    (n.x == 0) & (n.y == 0) & (n.z == 0)
}

// The first of checks 03 to 05 that fails, of a ring that passes 01 and 02, and whose normal is n.
fn third_to_fifth(points: &Points, ring: &[u16], n: Place) -> Finding
    requires known { Known ring.now }
    requires in_bounds { (4 ≤ length ring.now) × (is_unclosed ring.now ≡ false) }
    requires n_value { as_point n ≡ normal (places (points_of points.now.flat) ring.now) }
    ensures { result ≡ ring_finding (points_of points.now.flat) ring.now }
{
    if let Some(repeated) = marks::first_repeated(ring) {
        return Finding::Repeated(repeated as u16);
    }
    if is_zero(n) {
        return Finding::NoNormal;
    }
    if let Some(crossed) = columns::first_crossed(points, ring, axes::largest_axis(n)) {
        return Finding::Crossed(crossed as u16);
    }
    Finding::Sound
}

// The same, where places that fan out are told first: where N is not zero, they pass.
fn fan_first(points: &Points, ring: &[u16], n: Place) -> Finding
    requires known { Known ring.now }
    requires in_bounds { (4 ≤ length ring.now) × (is_unclosed ring.now ≡ false) }
    requires n_value { as_point n ≡ normal (places (points_of points.now.flat) ring.now) }
    ensures { result ≡ ring_finding (points_of points.now.flat) ring.now }
{
    if is_zero(n) {
        return third_to_fifth(points, ring, n);
    }
    if fan::is_fan(points, ring, axes::largest_axis(n)) {
        return Finding::Sound;
    }
    third_to_fifth(points, ring, n)
}

// The first of checks 01 to 05 that fails, of a ring whose normal is n. Three corners whose normal is not zero pass them all.
pub fn first_of_five(points: &Points, ring: &[u16], n: Place) -> Finding
    requires known { Known ring.now }
    requires n_value { as_point n ≡ normal (places (points_of points.now.flat) ring.now) }
    ensures { result ≡ ring_finding (points_of points.now.flat) ring.now }
{
    if ring.len() < 4 {
        return Finding::Short;
    }
    if !ring::is_closed(ring) {
        return Finding::Unclosed;
    }
    if ring.len() == 4 {
        if !is_zero(n) {
            return Finding::Sound;
        }
    }
    fan_first(points, ring, n)
}

// Where a ring has an edge with a forbidden meeting, by its own normal: the least such edge.
pub fn first_crossed(points: &Points, ring: &[u16]) -> Option<usize>
    requires known { Known ring.now }
    requires in_bounds { 1 ≤ length ring.now }
    ensures few { IfSome result (λ i. i < length ring.now - 1) }
    ensures first { unwrap_or result (length ring.now - 1) ≡ crossed_at (edges_in (largest_axis_of (normal (places (points_of points.now.flat) ring.now))) (places (points_of points.now.flat) ring.now)) }
{
    let n = normal::normal(points, ring);
    columns::first_crossed(points, ring, axes::largest_axis(n))
}

// A ring's part of the six-volume, from its normal n: first·N.
pub fn part_of(points: &Points, ring: &[u16], n: Place) -> i64
    requires known { Known ring.now }
    requires in_bounds { 1 ≤ length ring.now }
    requires n_value { as_point n ≡ normal (places (points_of points.now.flat) ring.now) }
    ensures { result ≡ part (points_of points.now.flat) ring.now }
{
    let first = ring[0];
    space::dot(n, points.place(first))
}

// The first of checks 01 to 05 that fails, each asked in its turn. What polygons of one ring go by is called from one place alone, since
// the compiler takes out of line what it finds called from two.
fn one_by_one(points: &Points, ring: &[u16], n: Place) -> Finding
    requires known { Known ring.now }
    requires n_value { as_point n ≡ normal (places (points_of points.now.flat) ring.now) }
    ensures { result ≡ ring_finding (points_of points.now.flat) ring.now }
{
    if ring.len() < 4 {
        return Finding::Short;
    }
    if !ring::is_closed(ring) {
        return Finding::Unclosed;
    }
    third_to_fifth(points, ring, n)
}

// What one of several rings shows by itself: the first of checks 01 to 05 that it fails, and its part.
pub fn look_at_ring(points: &Points, ring: &[u16]) -> Look
    requires known { Known ring.now }
    ensures finding_value { result.finding ≡ ring_finding (points_of points.now.flat) ring.now }
    ensures part_value { result.part ≡ part (points_of points.now.flat) ring.now }
{
    if ring.len() == 0 {
        return Look {
            finding: Finding::Short,
            part: 0,
        };
    }
    let n = normal::normal(points, ring);
    let part = part_of(points, ring, n);
    let finding = one_by_one(points, ring, n);
    Look { finding, part }
}
