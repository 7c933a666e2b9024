// Check 0F of document 02 (iv): whether an inner ring of a polygon is not where or as it should be.

#![tactic(auto)]

mod corners;
mod facing;

ghost use Rattle.std.specs.Prelude.{◌≡◌, false, map};
ghost use Rattle.space.specs.held.Points.{points_of, as_point, Near};
ghost use Rattle.ring.specs.Polygon.{rings_of};
ghost use Rattle.ring.specs.held.Rings.{polygon_of};
ghost use Rattle.holes.specs.Holes.{seen, component, component_of, is_shared, is_misplaced_of};
ghost use Rattle.holes.specs.held.Rings.{Lies, Filled, Closings};

use fan::Plane;
use ring::Rings;
use space::{Axis, Place, Points};

// 0F, where 0E passed: an inner ring is not inside the outer one, one is inside another, or one's component is not opposite to the
// outer's, n being the outer ring's normal.
pub fn is_misplaced(
    points: &Points,
    rings: &Rings,
    from: usize,
    to: usize,
    n: Place,
    axis: Axis,
) -> bool
    requires lies { Lies rings.now.entries rings.now.starts from to }
    requires filled { (Filled rings.now.entries rings.now.starts from to) × (Closings rings.now.entries rings.now.starts from to) }
    requires to_value { is_shared (map (seen axis (points_of points.now.flat)) (rings_of (polygon_of rings.now.entries rings.now.starts from to))) ≡ false }
    requires near { Near 10160000000000 (as_point n) }
    ensures { result ≡ is_misplaced_of (seen axis (points_of points.now.flat) (polygon_of rings.now.entries rings.now.starts from to).outer) (map (seen axis (points_of points.now.flat)) (polygon_of rings.now.entries rings.now.starts from to).inner) (component axis (as_point n)) (map (component_of axis (points_of points.now.flat)) (polygon_of rings.now.entries rings.now.starts from to).inner) }
{
    let plane = Plane::left_by(axis);
    if corners::one_outside(points, rings, from, to, plane) {
        return true;
    }
    let inner = from + 1;
    if corners::some_nested(points, rings, inner, to, plane) {
        return true;
    }
    let c = facing::component(n, axis);
    facing::one_faces(points, rings, inner, to, c, axis)
}
