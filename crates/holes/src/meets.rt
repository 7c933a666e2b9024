// Check 0E: whether two rings share a point. Boxes tell most rings and edges apart, before anything is multiplied.
ghost use Rattle.std.specs.Prelude.{◌≡◌, ◌+◌, ◌-◌, length};
ghost use Rattle.whole.specs.Lists.{any, any_two, steps};
ghost use Rattle.whole.specs.held.Spans.{span};
ghost use Rattle.space.specs.held.Points.{Known};
ghost use Rattle.plane.specs.Plane.{share};
ghost use Rattle.plane.specs.held.Edges.{as_segment, Ends};
ghost use Rattle.fan.specs.held.Fan.{spot_in};
ghost use Rattle.rays.specs.held.Seen.{spots_in};
ghost use Rattle.holes.specs.Holes.{meet};
ghost use Rattle.holes.specs.held.Boxes.{Bounded};
ghost use Rattle.holes.specs.held.Rings as Held;
ghost use Rattle.holes.specs.held.Rings.{Ring, Lies, spots_at};

use super::bounds;
use super::bounds::Bounds;
use fan::Plane;
use plane::Edge;
use ring::Rings;
use space::Points;

// Whether edge e and some edge of a ring, whose box is b, share a point.
fn edge_meets(points: &Points, ring: &[u16], plane: Plane, e: Edge, b: Bounds) -> bool
    requires known { Known ring.now }
    requires ends { Ends (as_segment e) }
    requires bounded { Bounded (spot_in points.now.flat plane.u plane.v) ring.now (length ring.now) b }
    ensures { result ≡ any (share (as_segment e)) (steps (spots_in points.now.flat plane.u plane.v ring.now)) }
{
    if bounds::beside(b, e) {
        return false;
    }
    for i in 0..ring.len().saturating_sub(1) {
        let f = plane.edge(points, ring[i], ring[i + 1]);
        if plane::share(e, f) {
            return true;
        }
    }
    false
}

// Whether some edge of ring r and some edge of ring s, whose box is b, do.
fn rings_meet(points: &Points, r: &[u16], s: &[u16], plane: Plane, b: Bounds) -> bool
    requires known { (Known r.now) × (Known s.now) }
    requires bounded { Bounded (spot_in points.now.flat plane.u plane.v) s.now (length s.now) b }
    ensures { result ≡ meet (spots_in points.now.flat plane.u plane.v r.now) (spots_in points.now.flat plane.u plane.v s.now) }
{
    for i in 0..r.len().saturating_sub(1) {
        let e = plane.edge(points, r[i], r[i + 1]);
        if edge_meets(points, s, plane, e, b) {
            return true;
        }
    }
    false
}

// Whether ring r, whose box is b, shares a point with ring q of the table.
fn meets_ring(points: &Points, rings: &Rings, q: usize, r: &[u16], plane: Plane, b: Bounds) -> bool
    requires ring { Ring rings.now.entries rings.now.starts q }
    requires known { Known r.now }
    requires bounded { Bounded (spot_in points.now.flat plane.u plane.v) r.now (length r.now) b }
    ensures { result ≡ meet (spots_in points.now.flat plane.u plane.v r.now) (spots_at points.now.flat plane.u plane.v rings.now.entries rings.now.starts q) }
{
    let s = rings.ring(q);
    let c = bounds::bounds_of(points, s, plane);
    if bounds::parted(b, c) {
        return false;
    }
    rings_meet(points, r, s, plane, c)
}

// Whether ring r, whose box is found once, shares a point with one of the rings from p up to another.
fn meets_one(points: &Points, rings: &Rings, p: usize, to: usize, r: &[u16], plane: Plane) -> bool
    requires rings { Held.Rings rings.now.entries rings.now.starts p to }
    requires known { Known r.now }
    ensures { result ≡ any (meet (spots_in points.now.flat plane.u plane.v r.now)) (span (spots_at points.now.flat plane.u plane.v rings.now.entries rings.now.starts) p (to - p)) }
{
    let b = bounds::bounds_of(points, r, plane);
    for q in p..to {
        if meets_ring(points, rings, q, r, plane, b) {
            return true;
        }
    }
    false
}

// Whether ring p of the table shares a point with one of the rings after it.
fn meets_later(points: &Points, rings: &Rings, p: usize, to: usize, plane: Plane) -> bool
    requires { (Ring rings.now.entries rings.now.starts p) × (Held.Rings rings.now.entries rings.now.starts (p + 1) to) }
    ensures { result ≡ any (meet (spots_at points.now.flat plane.u plane.v rings.now.entries rings.now.starts p)) (span (spots_at points.now.flat plane.u plane.v rings.now.entries rings.now.starts) (p + 1) (to - (p + 1))) }
{
    meets_one(points, rings, p + 1, to, rings.ring(p), plane)
}

// Whether two of the rings from one up to another share a point: each is held against those after it, of which the last has none.
pub fn two_meet(points: &Points, rings: &Rings, from: usize, to: usize, plane: Plane) -> bool
    requires { Lies rings.now.entries rings.now.starts from to }
    ensures { result ≡ any_two meet (span (spots_at points.now.flat plane.u plane.v rings.now.entries rings.now.starts) from (to - from)) }
{
    for p in from..to - 1 {
        if meets_later(points, rings, p, to, plane) {
            return true;
        }
    }
    false
}
