// Places that fan out from the first of a ring: one pass tells that no two edges cross and that no number stands twice.

#![tactic(auto)]

ghost use Rattle.std.specs.Prelude.{◌≡◌, ◌-◌, ◌<◌, ◌≤◌, length, get_or};
ghost use Rattle.plane.specs.Plane.{drop_axis};
ghost use Rattle.plane.specs.held.Edges.{as_spot, as_segment, Close, Ends};
ghost use Rattle.space.specs.held.Points.{Known, place_at};
ghost use Rattle.fan.specs.held.Fan.{spot_in, is_fan_of};
ghost use Rattle.fan.specs.laws.Planes.{u_of, v_of};

use plane::{Edge, Spot};
use space::{Axis, Points};

// A plane of two axes, told by which two coordinates of a point it keeps.
#[derive(Clone, Copy)]
pub struct Plane {
    pub u: usize,
    pub v: usize,
    pub ghost within: { (u ≤ 2) × (v ≤ 2) },
}

impl Plane {
    // The plane that is left by dropping an axis.
    pub fn left_by(axis: Axis) -> Plane
        ensures { (result.u ≡ u_of axis) × (result.v ≡ v_of axis) }
    {
        match axis {
            Axis::X => Plane { u: 1, v: 2 },
            Axis::Y => Plane { u: 2, v: 0 },
            Axis::Z => Plane { u: 0, v: 1 },
        }
    }

    // Where point p stands in it.
    pub fn spot(self, points: &Points, p: u16) -> Spot
        requires { p < 512 }
        ensures place { as_spot result ≡ spot_in points.now.flat self.u self.v p }
        ensures close { Close (as_spot result) }
    {
        let u = points.coordinate(p, self.u);
        let v = points.coordinate(p, self.v);
        Spot { u, v }
    }

    // The edge from point p to point q in it.
    pub fn edge(self, points: &Points, p: u16, q: u16) -> Edge
        requires { (p < 512) × (q < 512) }
        ensures places { as_segment result ≡ (spot_in points.now.flat self.u self.v p, spot_in points.now.flat self.u self.v q) }
        ensures ends { Ends (as_segment result) }
    {
        let a = self.spot(points, p);
        let b = self.spot(points, q);
        Edge { a, b }
    }
}

// Whether a ring's places fan out in a plane, one way about or the other.
fn fans_in(points: &Points, ring: &[u16], plane: Plane) -> bool
    requires known { Known ring.now }
    requires in_bounds { 4 ≤ length ring.now }
    ensures { result ≡ is_fan_of (λ i. spot_in points.now.flat plane.u plane.v (get_or ring.now i 0)) (length ring.now - 3) }
{
    let n = ring.len() - 3;
    let first = plane.spot(points, ring[0]);
    let second = plane.spot(points, ring[1]);
    let mut up = true;
    let mut down = true;
    for i in 0..n {
        if !(up | down) {
            return false;
        }
        let p = plane.spot(points, ring[i + 1]);
        let q = plane.spot(points, ring[i + 2]);
        let c = plane::side(first, p, q);
        let d = plane::side(first, second, q);
        up = up & ((0 < c) & (0 < d));
        down = down & ((c < 0) & (d < 0));
    }
    up | down
}

// The same in the plane left by dropping an axis.
pub fn is_fan(points: &Points, ring: &[u16], axis: Axis) -> bool
    requires known { Known ring.now }
    requires in_bounds { 4 ≤ length ring.now }
    ensures { result ≡ is_fan_of (λ i. drop_axis axis (place_at points.now.flat (get_or ring.now i 0))) (length ring.now - 3) }
{
    fans_in(points, ring, Plane::left_by(axis))
}
