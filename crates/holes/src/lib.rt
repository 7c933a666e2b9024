// Check 0E of document 02 (iv): whether two rings of one polygon share a point.

#![tactic(auto)]

mod bounds;
mod meets;

ghost use Rattle.std.specs.Prelude.{◌≡◌, map};
ghost use Rattle.space.specs.held.Points.{points_of};
ghost use Rattle.ring.specs.Polygon.{rings_of};
ghost use Rattle.ring.specs.held.Rings.{polygon_of};
ghost use Rattle.holes.specs.Holes.{seen, is_shared};
ghost use Rattle.holes.specs.held.Rings.{Lies};

use fan::Plane;
use ring::Rings;
use space::{Axis, Points};

// 0E: "two rings share a point".
pub fn is_shared(points: &Points, rings: &Rings, from: usize, to: usize, axis: Axis) -> bool
    requires { Lies rings.now.entries rings.now.starts from to }
    ensures { result ≡ is_shared (map (seen axis (points_of points.now.flat)) (rings_of (polygon_of rings.now.entries rings.now.starts from to))) }
{
    let plane = Plane::left_by(axis);
    meets::two_meet(points, rings, from, to, plane)
}
