// Check 05 of longer rings: neighbours first; most others are told apart by their boxes, eight at a time, and by the boxes
// of blocks of eight edges, or because they lie beside the line of another.
// Room of 176 numbers holds the ends of edges' boxes from 0 on and of blocks' boxes from 144 on; both are followed by room for eight more.

#![tactic(auto)]

ghost use Rattle.std.specs.Prelude.{◌≡◌, true, ◌||◌, ◌⊎◌, ◌+◌, ◌-◌, ◌*◌, ◌<◌, ◌≤◌, IfSome, unwrap_or};
ghost use Rattle.whole.specs.Lists.{tab};
ghost use Rattle.crossing.specs.Crossed.{forbidden, crossed_at};
ghost use Rattle.plane.specs.held.Edges.{edge_at};
ghost use Rattle.crossing.specs.held.Columns.{Spread};
ghost use Rattle.crossing.specs.held.Between.{edge, edges, clashes_from};
ghost use Rattle.boxes.specs.held.Around.{Beside, Free, Nexts, FirstNext, FirstNear};
ghost use Rattle.boxes.specs.held.Boxes.{Boxes, parted, Parted, Apart};

use crossing::Columns;
use extents::Extents;
use plane::Spot;

// Whether an edge and the next one have in common what they may not.
fn clash_next(columns: &Columns, i: usize) -> bool
    requires { i + 1 < columns.now.m }
    ensures { result ≡ forbidden columns.now.m (edge columns.now i) (edge columns.now (i + 1)) }
{
    neighbours::share_more(columns.edge(i), columns.edge(i + 1))
}

// Whether some edge and the next one do, all being looked at: no step of this branches.
fn clash_nexts(columns: &Columns) -> bool
    ensures { Nexts columns.now columns.now.m result }
{
    let mut found = false;
    for i in 0..columns.m.saturating_sub(1) {
        found |= clash_next(columns, i);
    }
    found
}

// The first edge that does with the next one; m if there is none.
fn first_next(columns: &Columns) -> usize
    ensures { FirstNext columns.now result }
{
    for i in 0..columns.m.saturating_sub(1) {
        if clash_next(columns, i) {
            return i;
        }
    }
    columns.m
}

// Whether the first edge and the last, which goes before it, do.
fn clash_last(columns: &Columns) -> bool
    requires { 3 ≤ columns.now.m }
    ensures { result ≡ forbidden columns.now.m (edge columns.now 0) (edge columns.now (columns.now.m - 1)) }
{
    neighbours::share_more(columns.edge(columns.m - 1), columns.edge(0))
}

// The first edge that does with a neighbour after it, the last being one of the first; m if there is none. It is looked for only
// where there is one.
fn first_near(columns: &Columns) -> usize
    ensures { FirstNear columns.now result }
{
    if columns.m < 3 {
        return first_next(columns);
    }
    if clash_last(columns) {
        return 0;
    }
    if clash_nexts(columns) {
        return first_next(columns);
    }
    columns.m
}

// Whether the nine places of the eight edges from j on lie all on one side of edge i's line: no step of this branches.
fn eight_beside(columns: &Columns, i: usize, j: usize) -> bool
    requires { (i < columns.now.m) × (j + 8 ≤ columns.now.m) }
    ensures { Beside columns.now i j result }
{
    let e = columns.edge(i);
    let mut left = true;
    let mut right = true;
    for k in j..j + 9 {
        let place = Spot {
            u: columns.us[k],
            v: columns.vs[k],
        };
        let s = plane::side(e.a, e.b, place);
        left &= 0 < s;
        right &= s < 0;
    }
    left | right
}

// The same where there are as many edges; of fewer nothing is known.
fn lie_beside(columns: &Columns, i: usize, j: usize) -> bool
    requires { (i < columns.now.m) × (j < columns.now.m) × (columns.now.m ≤ 128) }
    ensures { Beside columns.now i j result }
{
    if columns.m < j + 8 {
        return false;
    }
    eight_beside(columns, i, j)
}

// Whether boxes i and k have no step in common on one axis.
fn parted(x: &Extents, i: usize, k: usize) -> bool
    requires { (i < 176) × (k < 176) }
    ensures { result ≡ parted x.now i k }
{
    (x.highs[i] < x.lows[k]) | (x.highs[k] < x.lows[i])
}

// Where the edges end that are no neighbours of edge i of m, from past the next one on: the last is one of the first.
fn end_of(m: usize, i: usize) -> usize
    requires { 1 ≤ m }
    ensures { (result ≤ m) × (Apart m i result) × ((result ≡ m) ⊎ ((i ≡ 0) × (result + 1 ≡ m))) }
{
    if i == 0 { m - 1 } else { m }
}

// A ring's edges with their boxes, and those of their blocks, on either axis.
#[derive(Clone, Copy)]
struct Boxed<'a> {
    columns: Columns<'a>,
    u: &'a Extents,
    v: &'a Extents,
    ghost boxes: { Boxes columns u.now v.now },
}

impl Boxed<'_> {
    // Whether boxes i and k, of edges or of blocks, are parted on either axis: no step of this branches.
    fn parted(&self, i: usize, k: usize) -> bool
        requires { (i < 176) × (k < 176) }
        ensures { result ≡ (parted self.now.u.now i k || parted self.now.v.now i k) }
    {
        parted(self.u, i, k) | parted(self.v, i, k)
    }

    // Whether the eight boxes from j on, of edges or of blocks, are parted from edge i's: no step of this branches. Counted from 0 on,
    // they are known to be eight; from j to j + 8 there might be none.
    fn eight_parted(&self, i: usize, j: usize) -> bool
        requires { (i < 144) × (j + 8 ≤ 176) }
        ensures { Parted self.now.u.now self.now.v.now i j (j + 8) result }
    {
        let mut all = true;
        for n in 0..8 {
            all &= self.parted(i, j + n);
        }
        all
    }

    // Whether edges i and k, k past the neighbours of i, have in common what they may not.
    fn clash_past(&self, i: usize, k: usize) -> bool
        requires { (i + 1 < k) × (k < self.now.columns.m) × Apart self.now.columns.m i (k + 1) }
        ensures { result ≡ forbidden self.now.columns.m (edge self.now.columns i) (edge self.now.columns k) }
    {
        if self.parted(i, k) {
            return false;
        }
        plane::share(self.columns.edge(i), self.columns.edge(k))
    }

    // Whether edge i and one from j up to e, past its neighbours, do.
    fn clashes_in(&self, i: usize, j: usize, e: usize) -> bool
        requires { (i + 1 < j) × (j ≤ e) × (e ≤ self.now.columns.m) × Apart self.now.columns.m i e }
        ensures { clashes_from self.now.columns i j ≡ (result || clashes_from self.now.columns i e) }
    {
        for k in j..e {
            if self.clash_past(i, k) {
                return true;
            }
        }
        false
    }

    // The same of at most eight edges: most are told apart all at once, by their boxes or because they lie beside edge i's line.
    fn clashes_eight(&self, i: usize, j: usize, e: usize) -> bool
        requires { (i + 1 < j) × (j < self.now.columns.m) × (j ≤ e) × (e ≤ self.now.columns.m) × (e ≤ j + 8) × Apart self.now.columns.m i e }
        ensures { clashes_from self.now.columns i j ≡ (result || clashes_from self.now.columns i e) }
    {
        if self.eight_parted(i, j) {
            return false;
        }
        if lie_beside(&self.columns, i, j) {
            return false;
        }
        self.clashes_in(i, j, e)
    }

    // The first block from b on, of those of the edges before the end, that is among eight which are not all parted from edge i; or one
    // past the last.
    fn far(&self, end: usize, i: usize, b: usize) -> usize
        requires { (end ≤ self.now.columns.m) × (i < self.now.columns.m) × (8 * b < end) }
        ensures { (b ≤ result) × (result ≤ 16) × Parted self.now.u.now self.now.v.now i (144 + b) (144 + result) true }
    {
        let blocks = end.div_ceil(8);
        for c in (b..blocks).step_by(8) {
            if !self.eight_parted(i, 144 + c) {
                return c;
            }
        }
        blocks
    }

    // The first block from b on that is not parted from edge i, or one past the last.
    fn near(&self, end: usize, i: usize, b: usize) -> usize
        requires { (end ≤ self.now.columns.m) × (i < self.now.columns.m) × (8 * b < end) }
        ensures { (b ≤ result) × (result ≤ 16) × Parted self.now.u.now self.now.v.now i (144 + b) (144 + result) true }
    {
        let blocks = end.div_ceil(8);
        for c in self.far(end, i, b)..blocks {
            if !self.parted(i, 144 + c) {
                return c;
            }
        }
        blocks
    }

    // The first edge from e on, of those before the end, that is in a block not parted from edge i, or the end.
    fn next_near(&self, end: usize, i: usize, e: usize) -> usize
        requires { (end ≤ self.now.columns.m) × (i < self.now.columns.m) × (e ≤ end) }
        ensures { (e ≤ result) × (result ≤ end) × Parted self.now.u.now self.now.v.now i e result true }
    {
        if e == end {
            return end;
        }
        let c = self.near(end, i, e / 8);
        (8 * c).clamp(e, end)
    }

    // Whether edge i and a later one before the end, past its neighbours, do.
    fn clashes_past(&self, i: usize, end: usize) -> bool
        requires { (i + 2 ≤ end) × (end ≤ self.now.columns.m) × Apart self.now.columns.m i end }
        ensures { clashes_from self.now.columns i (i + 2) ≡ (result || clashes_from self.now.columns i end) }
    {
        let mut j = i + 2;
        while j < end {
            let e = end.min(j + 8);
            if self.clashes_eight(i, j, e) {
                return true;
            }
            j = self.next_near(end, i, e);
        }
        false
    }

    // Whether edge i and a later one do, where its neighbours after it do not.
    fn clashes_boxed(&self, i: usize) -> bool
        requires { (Free self.now.columns i) × (i < self.now.columns.m) }
        ensures { result ≡ clashes_from self.now.columns i (i + 1) }
    {
        let end = end_of(self.columns.m, i);
        if end < i + 2 {
            return false;
        }
        self.clashes_past(i, end)
    }

    // The first edge that does with a later one, where near is the first that does with a neighbour: only those before it are left to
    // look at, and their neighbours do not.
    fn first_past(&self, near: usize) -> usize
        requires { FirstNear self.now.columns near }
        ensures few { result ≤ self.now.columns.m }
        ensures first { result ≡ crossed_at (edges self.now.columns) }
    {
        for i in 0..near {
            if self.clashes_boxed(i) {
                return i;
            }
        }
        near
    }
}

// The least of m edges that does with any other. Neighbours first, then the others by their boxes. What no edge fills is parted from
// every box.
pub fn first_crossed(us: &[i64], vs: &[i64], m: usize) -> Option<usize>
    requires spread { Spread us.now vs.now m }
    requires le_m { (1 ≤ m) × (m ≤ 128) }
    ensures few { IfSome result (λ i. i < m) }
    ensures first { unwrap_or result m ≡ crossed_at (tab (edge_at us.now vs.now) m) }
{
    let columns = Columns { us, vs, m };
    let near = first_near(&columns);
    let mut u = Extents {
        lows: [65535; 176],
        highs: [0; 176],
    };
    let mut v = Extents {
        lows: [65535; 176],
        highs: [0; 176],
    };
    extents::sides(us, m, &mut u);
    extents::sides(vs, m, &mut v);
    let boxed = Boxed {
        columns,
        u: &u,
        v: &v,
    };
    let first = boxed.first_past(near);
    if first < m { Some(first) } else { None }
}
