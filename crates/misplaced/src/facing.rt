// Check 0F: whether a ring's normal is opposite to the outer's on the axis that is dropped.
ghost use Rattle.std.specs.Prelude.{◌≡◌, not, ◌-◌, ◌≤◌, length};
ghost use Rattle.whole.specs.Lists.{any};
ghost use Rattle.whole.specs.held.Small.{Small};
ghost use Rattle.whole.specs.held.Spans.{span};
ghost use Rattle.space.specs.held.Points.{points_of, Known, as_point, Near};
ghost use Rattle.ring.specs.held.Rings.{ring_at};
ghost use Rattle.holes.specs.Holes.{component, component_of, is_opposite};
ghost use Rattle.holes.specs.held.Rings as Held;
ghost use Rattle.holes.specs.held.Rings.{Filled};

use ring::Rings;
use space::{Axis, Place, Points};

// The component of a normal on an axis.
pub fn component(n: Place, axis: Axis) -> i64
    requires { Near 10160000000000 (as_point n) }
    ensures { result ≡ component axis (as_point n) }
{
    match axis {
        Axis::X => n.x,
        Axis::Y => n.y,
        Axis::Z => n.z,
    }
}

// Whether a ring's component is not opposite to c.
fn faces(points: &Points, ring: &[u16], c: i64, axis: Axis) -> bool
    requires known { Known ring.now }
    requires in_bounds { (1 ≤ length ring.now) × (Small 10160000000000 c) }
    ensures { result ≡ not (is_opposite c (component_of axis (points_of points.now.flat) ring.now)) }
{
    let n = normal::normal(points, ring);
    let d = component(n, axis);
    !(((0 < c) & (d < 0)) | ((c < 0) & (0 < d)))
}

// Whether that of one of the rings from p up to another is not.
pub fn one_faces(points: &Points, rings: &Rings, p: usize, to: usize, c: i64, axis: Axis) -> bool
    requires rings { Held.Rings rings.now.entries rings.now.starts p to }
    requires filled { Filled rings.now.entries rings.now.starts p to }
    requires small { Small 10160000000000 c }
    ensures { result ≡ any (λ d. not (is_opposite c d)) (span (λ q. component_of axis (points_of points.now.flat) (ring_at rings.now.entries rings.now.starts q)) p (to - p)) }
{
    for q in p..to {
        let ring = rings.ring(q);
        if faces(points, ring, c, axis) {
            return true;
        }
    }
    false
}
