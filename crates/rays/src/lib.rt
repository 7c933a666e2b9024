// Whether a place is inside a ring in the plane that an axis leaves, for check 0F: the parity of the edges that cross its ray.

#![tactic(auto)]

ghost use Rattle.std.specs.Prelude.{◌≡◌};
ghost use Rattle.whole.specs.Lists.{steps};
ghost use Rattle.space.specs.held.Points.{Known};
ghost use Rattle.plane.specs.held.Edges.{as_spot, as_segment, Close, Ends};
ghost use Rattle.rays.specs.Inside.{crosses, inside};
ghost use Rattle.rays.specs.held.Seen.{spots_in};

use fan::Plane;
use plane::{Edge, Spot};
use space::Points;

// Whether an edge crosses the ray from q: most edges are told by their ends' heights alone.
fn crosses(q: Spot, e: Edge) -> bool
    requires { (Close (as_spot q)) × (Ends (as_segment e)) }
    ensures { result ≡ crosses (as_spot q) (as_segment e) }
{
    let low = e.a.v <= q.v;
    let high = e.b.v <= q.v;
    if low {
        if high {
            return false;
        }
        return 0 < plane::side(e.a, e.b, q);
    }
    if high {
        return plane::side(e.a, e.b, q) < 0;
    }
    false
}

// Whether the place q is inside a ring, in a plane: one pass, edge by edge.
pub fn inside(points: &Points, ring: &[u16], plane: Plane, q: Spot) -> bool
    requires known { Known ring.now }
    requires close { Close (as_spot q) }
    ensures { result ≡ inside (as_spot q) (steps (spots_in points.now.flat plane.u plane.v ring.now)) }
{
    let mut odd = false;
    if ring.is_empty() {
        return odd;
    }
    for i in 0..ring.len() - 1 {
        let c = crosses(q, plane.edge(points, ring[i], ring[i + 1]));
        odd = odd ^ c;
    }
    odd
}
