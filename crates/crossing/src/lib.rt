// Check 05 over the columns of a ring's places: pair by pair of edges.

#![tactic(auto)]

ghost use Rattle.std.specs.Prelude.{◌≡◌, ◌+◌, ◌<◌, IfSome, unwrap_or};
ghost use Rattle.whole.specs.Lists.{tab};
ghost use Rattle.crossing.specs.Crossed.{forbidden, crossed_at};
ghost use Rattle.plane.specs.held.Edges.{as_segment, edge_at};
ghost use Rattle.crossing.specs.held.Columns.{Spread};

use plane::Edge;

// The places of a ring of m edges in two columns, one after another: u and v of each.
#[derive(Clone, Copy)]
pub struct Columns<'a> {
    pub us: &'a [i64],
    pub vs: &'a [i64],
    pub m: usize,
    pub ghost spread: { Spread us.now vs.now m },
}

impl Columns<'_> {
    ghost use Rattle.crossing.specs.held.Between.{segment, edge, edges, clashes_from};

    // Edge i.
    pub fn edge(&self, i: usize) -> Edge
        requires { i < self.now.m }
        ensures { as_segment result ≡ segment self.now i }
    {
        neighbours::edge_at(self.us, self.vs, i)
    }

    // Whether edges i and j, i before j, have in common what they may not.
    fn clash(&self, i: usize, j: usize) -> bool
        requires { (i < j) × (j < self.now.m) }
        ensures { result ≡ forbidden self.now.m (edge self.now i) (edge self.now j) }
    {
        let e = self.edge(i);
        let f = self.edge(j);
        if i + 1 == j {
            return neighbours::share_more(e, f);
        }
        if (i == 0) & (j + 1 == self.m) {
            return neighbours::share_more(f, e);
        }
        plane::share(e, f)
    }

    // Whether edge i and a later one do.
    fn clashes(&self, i: usize) -> bool
        requires { i < self.now.m }
        ensures { result ≡ clashes_from self.now i (i + 1) }
    {
        for j in i + 1..self.m {
            if self.clash(i, j) {
                return true;
            }
        }
        false
    }

    // The first edge that does so with a later one, and so the least that does with any.
    fn first_crossed(&self) -> Option<usize>
        ensures few { IfSome result (λ i. i < self.now.m) }
        ensures first { unwrap_or result self.now.m ≡ crossed_at (edges self.now) }
    {
        for i in 0..self.m {
            if self.clashes(i) {
                return Some(i);
            }
        }
        None
    }
}

// The least of the m edges between places in two columns that does with any other.
pub fn first_crossed(us: &[i64], vs: &[i64], m: usize) -> Option<usize>
    requires { Spread us.now vs.now m }
    ensures few { IfSome result (λ i. i < m) }
    ensures first { unwrap_or result m ≡ crossed_at (tab (edge_at us.now vs.now) m) }
{
    Columns { us, vs, m }.first_crossed()
}
