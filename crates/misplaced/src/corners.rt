// Check 0F, where 0E passed: whether a ring stands in another. One corner tells, since all are inside or none is.
ghost use Rattle.std.specs.Prelude.{◌≡◌, not, ◌+◌, ◌-◌, ◌<◌, ◌≤◌, length};
ghost use Rattle.whole.specs.Lists.{any, any_two};
ghost use Rattle.whole.specs.held.Spans.{span};
ghost use Rattle.fan.specs.held.Fan.{spot_in};
ghost use Rattle.ring.specs.held.Rings.{ring_at};
ghost use Rattle.holes.specs.held.Rings as Held;
ghost use Rattle.holes.specs.held.Rings.{Ring, Filled, spots_at};
ghost use Rattle.holes.specs.held.Corners.{stands, nested};

use fan::Plane;
use ring::Rings;
use space::Points;

// Whether the first corner of ring p is inside ring q.
fn stands_in(points: &Points, rings: &Rings, p: usize, q: usize, plane: Plane) -> bool
    requires ring { (Ring rings.now.entries rings.now.starts p) × (1 ≤ length (ring_at rings.now.entries rings.now.starts p)) }
    requires ring_2 { Ring rings.now.entries rings.now.starts q }
    ensures { result ≡ stands (spot_in points.now.flat plane.u plane.v 0) (spots_at points.now.flat plane.u plane.v rings.now.entries rings.now.starts p) (spots_at points.now.flat plane.u plane.v rings.now.entries rings.now.starts q) }
{
    let own = rings.ring(p);
    let corner = plane.spot(points, own[0]);
    let other = rings.ring(q);
    rays::inside(points, other, plane, corner)
}

// Whether one of the rings after the first does not stand in it.
pub fn one_outside(points: &Points, rings: &Rings, from: usize, to: usize, plane: Plane) -> bool
    requires rings { (Held.Rings rings.now.entries rings.now.starts from to) × (from < to) }
    requires filled { Filled rings.now.entries rings.now.starts from to }
    ensures { result ≡ any (λ s. not (stands (spot_in points.now.flat plane.u plane.v 0) s (spots_at points.now.flat plane.u plane.v rings.now.entries rings.now.starts from))) (span (spots_at points.now.flat plane.u plane.v rings.now.entries rings.now.starts) (from + 1) (to - (from + 1))) }
{
    for q in from + 1..to {
        if !stands_in(points, rings, q, from, plane) {
            return true;
        }
    }
    false
}

// Whether one of two rings stands in the other.
fn two_nested(points: &Points, rings: &Rings, p: usize, q: usize, plane: Plane) -> bool
    requires ring { (Ring rings.now.entries rings.now.starts p) × (1 ≤ length (ring_at rings.now.entries rings.now.starts p)) }
    requires ring_2 { (Ring rings.now.entries rings.now.starts q) × (1 ≤ length (ring_at rings.now.entries rings.now.starts q)) }
    ensures { result ≡ nested (spot_in points.now.flat plane.u plane.v 0) (spots_at points.now.flat plane.u plane.v rings.now.entries rings.now.starts p) (spots_at points.now.flat plane.u plane.v rings.now.entries rings.now.starts q) }
{
    let within = stands_in(points, rings, p, q, plane);
    let around = stands_in(points, rings, q, p, plane);
    within | around
}

// Whether ring p and one of the rings after it are nested.
fn nested_later(points: &Points, rings: &Rings, p: usize, to: usize, plane: Plane) -> bool
    requires rings { (Held.Rings rings.now.entries rings.now.starts p to) × (p < to) }
    requires filled { Filled rings.now.entries rings.now.starts p to }
    ensures { result ≡ any (nested (spot_in points.now.flat plane.u plane.v 0) (spots_at points.now.flat plane.u plane.v rings.now.entries rings.now.starts p)) (span (spots_at points.now.flat plane.u plane.v rings.now.entries rings.now.starts) (p + 1) (to - (p + 1))) }
{
    for q in p + 1..to {
        if two_nested(points, rings, p, q, plane) {
            return true;
        }
    }
    false
}

// Whether two of the rings from one up to another are nested.
pub fn some_nested(points: &Points, rings: &Rings, from: usize, to: usize, plane: Plane) -> bool
    requires rings { Held.Rings rings.now.entries rings.now.starts from to }
    requires filled { Filled rings.now.entries rings.now.starts from to }
    ensures { result ≡ any_two (nested (spot_in points.now.flat plane.u plane.v 0)) (span (spots_at points.now.flat plane.u plane.v rings.now.entries rings.now.starts) from (to - from)) }
{
    for p in from..to {
        if nested_later(points, rings, p, to, plane) {
            return true;
        }
    }
    false
}
