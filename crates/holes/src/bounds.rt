// The box around a ring in a plane: rings, or an edge and a ring, whose boxes have no place in common share none.
ghost use Rattle.std.specs.Prelude.{◌≡◌, length};
ghost use Rattle.space.specs.held.Points.{Known};
ghost use Rattle.plane.specs.held.Edges.{as_spot, as_segment, Close, Ends};
ghost use Rattle.fan.specs.held.Fan.{spot_in};
ghost use Rattle.holes.specs.held.Boxes.{Sized, Widened, Bounded, parted, beside};

use fan::Plane;
use plane::{Edge, Spot};
use space::Points;

// The least and the largest numbers of places, on either axis.
#[derive(Clone, Copy)]
pub struct Bounds {
    pub lu: i64,
    pub hu: i64,
    pub lv: i64,
    pub hv: i64,
}

// The box that holds one place more.
fn widened(b: Bounds, p: Spot) -> Bounds
    requires { (Sized b) × (Close (as_spot p)) }
    ensures { Widened b (as_spot p) result }
{
    let lu = b.lu.min(p.u);
    let hu = b.hu.max(p.u);
    let lv = b.lv.min(p.v);
    let hv = b.hv.max(p.v);
    Bounds { lu, hu, lv, hv }
}

// The box around a ring in a plane.
pub fn bounds_of(points: &Points, ring: &[u16], plane: Plane) -> Bounds
    requires { Known ring.now }
    ensures { Bounded (spot_in points.now.flat plane.u plane.v) ring.now (length ring.now) result }
{
    let mut b = Bounds {
        lu: 100000,
        hu: -100000,
        lv: 100000,
        hv: -100000,
    };
    for p in ring {
        b = widened(b, plane.spot(points, *p));
    }
    b
}

// Whether two boxes have no place in common.
pub fn parted(a: Bounds, b: Bounds) -> bool
    requires { (Sized a) × (Sized b) }
    ensures { result ≡ parted a b }
{
    (a.hu < b.lu) | (b.hu < a.lu) | (a.hv < b.lv) | (b.hv < a.lv)
}

// Whether an edge lies wholly on one side of a box.
pub fn beside(b: Bounds, e: Edge) -> bool
    requires { (Sized b) × (Ends (as_segment e)) }
    ensures { result ≡ beside b (as_segment e) }
{
    ((e.a.u < b.lu) & (e.b.u < b.lu))
        | ((b.hu < e.a.u) & (b.hu < e.b.u))
        | ((e.a.v < b.lv) & (e.b.v < b.lv))
        | ((b.hv < e.a.v) & (b.hv < e.b.v))
}
