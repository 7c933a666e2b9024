// Check 05 and where it is met: a ring's places in two columns, those of the plane left by dropping an axis.
ghost use Rattle.std.specs.Prelude.{◌≡◌, ◌-◌, ◌<◌, ◌≤◌, length, IfSome, unwrap_or};
ghost use Rattle.crossing.specs.Crossed.{crossed_at};
ghost use Rattle.polygon.specs.Ring.{edges_in};
ghost use Rattle.whole.specs.Lists.{steps};
ghost use Rattle.space.specs.Space.{places};
ghost use Rattle.space.specs.held.Points.{points_of, Known};
ghost use Rattle.polygon.specs.held.Columns.{Filled, seen_spots};

use fan::Plane;
use space::{Axis, Points};

// Coordinate k of the ring's entries, one after another, into lent room.
fn fill(points: &Points, ring: &[u16], k: usize, room: &mut [i64])
    requires known { Known ring.now }
    requires k_bound { (k ≤ 2) × (length ring.now ≤ length room.old) }
    ensures { Filled points.now.flat ring.now k (length room.old) room.new }
{
    for (i, p) in ring.iter().enumerate() {
        room[i] = points.coordinate(*p, k);
    }
}

// 05 of a ring that fits small room, in a plane: most rings are such, and large room costs more to clear.
fn crossed_few(points: &Points, ring: &[u16], plane: Plane) -> Option<usize>
    requires known { Known ring.now }
    requires in_bounds { (1 ≤ length ring.now) × (length ring.now ≤ 8) }
    ensures few { IfSome result (λ i. i < length ring.now - 1) }
    ensures first { unwrap_or result (length ring.now - 1) ≡ crossed_at (steps (seen_spots points.now.flat ring.now plane.u plane.v)) }
{
    let mut us: [i64; 8] = [0; 8];
    let mut vs: [i64; 8] = [0; 8];
    fill(points, ring, plane.u, &mut us);
    fill(points, ring, plane.v, &mut vs);
    crossing::first_crossed(&us, &vs, ring.len() - 1)
}

// 05 of any ring, in a plane.
fn crossed_many(points: &Points, ring: &[u16], plane: Plane) -> Option<usize>
    requires known { Known ring.now }
    requires in_bounds { (2 ≤ length ring.now) × (length ring.now ≤ 128) }
    ensures few { IfSome result (λ i. i < length ring.now - 1) }
    ensures first { unwrap_or result (length ring.now - 1) ≡ crossed_at (steps (seen_spots points.now.flat ring.now plane.u plane.v)) }
{
    let mut us: [i64; 128] = [0; 128];
    let mut vs: [i64; 128] = [0; 128];
    fill(points, ring, plane.u, &mut us);
    fill(points, ring, plane.v, &mut vs);
    boxes::first_crossed(&us, &vs, ring.len() - 1)
}

// 05 in a plane.
fn crossed_in(points: &Points, ring: &[u16], plane: Plane) -> Option<usize>
    requires known { Known ring.now }
    requires in_bounds { (1 ≤ length ring.now) }
    ensures few { IfSome result (λ i. i < length ring.now - 1) }
    ensures first { unwrap_or result (length ring.now - 1) ≡ crossed_at (steps (seen_spots points.now.flat ring.now plane.u plane.v)) }
{
    if ring.len() <= 8 {
        return crossed_few(points, ring, plane);
    }
    crossed_many(points, ring, plane)
}

// 05 in the plane left by dropping an axis: the least edge that has a forbidden meeting.
pub fn first_crossed(points: &Points, ring: &[u16], axis: Axis) -> Option<usize>
    requires known { Known ring.now }
    requires in_bounds { 1 ≤ length ring.now }
    ensures few { IfSome result (λ i. i < length ring.now - 1) }
    ensures first { unwrap_or result (length ring.now - 1) ≡ crossed_at (edges_in axis (places (points_of points.now.flat) ring.now)) }
{
    crossed_in(points, ring, Plane::left_by(axis))
}
