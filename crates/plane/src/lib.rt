// The plane that is left by dropping an axis: two edges in it.

#![tactic(auto)]

ghost use Rattle.std.specs.Prelude.{◌≡◌, not};
ghost use Rattle.plane.specs.Plane.{side, same_sign, overlap, share};
ghost use Rattle.plane.specs.held.Edges.{as_spot, as_segment, Close, Ends};

// A place in the plane that is left.
#[derive(Clone, Copy)]
pub struct Spot {
    pub u: i64,
    pub v: i64,
}

// An edge in it, from a to b.
#[derive(Clone, Copy)]
pub struct Edge {
    pub a: Spot,
    pub b: Spot,
}

// Which side of the line from a to b the place c is on.
pub fn side(a: Spot, b: Spot, c: Spot) -> i64
    requires { (Close (as_spot a)) × (Close (as_spot b)) × (Close (as_spot c)) }
    ensures { result ≡ side (as_spot a) (as_spot b) (as_spot c) }
{
    (b.u - a.u) * (c.v - a.v) - (b.v - a.v) * (c.u - a.u)
}

// Whether f lies wholly on one side of e's line.
fn one_side(e: Edge, f: Edge) -> bool
    requires { (Ends (as_segment e)) × (Ends (as_segment f)) }
    ensures { result ≡ same_sign (side (as_segment e).0 (as_segment e).1 (as_segment f).0) (side (as_segment e).0 (as_segment e).1 (as_segment f).1) }
{
    let p = side(e.a, e.b, f.a);
    let q = side(e.a, e.b, f.b);
    ((0 < p) & (0 < q)) | ((p < 0) & (q < 0))
}

// Whether the stretches from p to q and from c to d have no number in common.
fn apart(p: i64, q: i64, c: i64, d: i64) -> bool
    ensures { result ≡ not (overlap p q c d) }
{
    let lo = p.min(q);
    let hi = p.max(q);
    ((hi < c) & (hi < d)) | ((c < lo) & (d < lo))
}

// Whether two edges share a point; most are told apart by their boxes, before anything is multiplied.
pub fn share(e: Edge, f: Edge) -> bool
    requires { (Ends (as_segment e)) × (Ends (as_segment f)) }
    ensures { result ≡ share (as_segment e) (as_segment f) }
{
    let beside = apart(e.a.u, e.b.u, f.a.u, f.b.u);
    let above = apart(e.a.v, e.b.v, f.a.v, f.b.v);
    if beside | above {
        return false;
    }
    if one_side(e, f) {
        return false;
    }
    !one_side(f, e)
}
