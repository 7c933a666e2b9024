// Edges that follow one another in the plane that is left by dropping an axis.

#![tactic(auto)]

ghost use Rattle.std.specs.Prelude.{◌≡◌, ◌+◌, ◌<◌, length};
ghost use Rattle.plane.specs.Plane.{turn_off_of, ahead, share_more_of};
ghost use Rattle.plane.specs.held.Edges.{as_segment, Ends, edge_at};

use plane::{Edge, Spot};

// How far f turns off e, and how far it goes e's way.
fn turn_off(e: Edge, f: Edge) -> i64
    requires { (Ends (as_segment e)) × (Ends (as_segment f)) }
    ensures { result ≡ turn_off_of (as_segment e) (as_segment f) }
{
    (e.b.u - e.a.u) * (f.b.v - f.a.v) - (e.b.v - e.a.v) * (f.b.u - f.a.u)
}

fn ahead(e: Edge, f: Edge) -> i64
    requires { (Ends (as_segment e)) × (Ends (as_segment f)) }
    ensures { result ≡ ahead (as_segment e) (as_segment f) }
{
    (e.b.u - e.a.u) * (f.b.u - f.a.u) + (e.b.v - e.a.v) * (f.b.v - f.a.v)
}

// Whether f, which begins where e ends, shares more with it than that end.
pub fn share_more(e: Edge, f: Edge) -> bool
    requires { (Ends (as_segment e)) × (Ends (as_segment f)) }
    ensures { result ≡ share_more_of (as_segment e) (as_segment f) }
{
    (turn_off(e, f) == 0) & (ahead(e, f) < 0)
}

// Edge i of those between places that follow one another.
pub fn edge_at(us: &[i64], vs: &[i64], i: usize) -> Edge
    requires { (i + 1 < length us.now) × (i + 1 < length vs.now) }
    ensures { as_segment result ≡ edge_at us.now vs.now i }
{
    let j = i + 1;
    let a = Spot { u: us[i], v: vs[i] };
    let b = Spot { u: us[j], v: vs[j] };
    Edge { a, b }
}
