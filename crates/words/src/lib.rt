// What a word of the edge table tells of its edge and of the nodes that it joins, and where the other word of its pair stands.

#![tactic(auto)]

ghost use Rattle.std.specs.Prelude.{◌≡◌, ◌<◌};
ghost use Rattle.words.specs.held.Words.{key_from, node_of, number_of, Mate};

// The edge that a word is of.
pub fn key_of(w: u64) -> u64
    ensures { result ≡ key_from w }
{
    w / 536870912
}

// What a word joins: its polygon, its corner at the edge's smaller end, and that at the larger.
#[derive(Clone, Copy)]
pub enum Node {
    Polygon,
    Smaller,
    Larger,
}

// The one of a number: 0 the polygon, 1 the smaller end's corner, any other the larger end's.
impl From<u8> for Node {
    ghost use Rattle.std.specs.Prelude.{◌≡◌, ℕ};
    ghost use Rattle.words.specs.held.Words.{node_of, number_of};

    ghost from_gives = { λ which r. (w : ℕ) → node_of (number_of r) w ≡ node_of which w };

    fn from(which: u8) -> Node {
        match which {
            0 => Node::Polygon,
            1 => Node::Smaller,
            _ => Node::Larger,
        }
    }
}

// One of the three. The two corners are swapped by arithmetic: a branch on the direction, which follows no rule, would cost more. Which
// of the three is asked for is mostly known when the call is compiled, so that the match costs nothing.
pub fn node_of(w: u64, which: Node) -> usize
    ensures { (result ≡ node_of (number_of which) w) × (result < 1024) }
{
    let s = w / 2048 % 1024;
    let t = w / 2 % 1024;
    let swap = (s ^ t) * (w % 2);
    match which {
        Node::Polygon => (w / 2097152 % 256) as usize,
        Node::Smaller => (s ^ swap) as usize,
        Node::Larger => (t ^ swap) as usize,
    }
}

// The place of the other word of a pair; its own where the last word has none.
pub fn mate(n: usize, i: usize) -> usize
    requires { i < n }
    ensures { Mate n i result }
{
    if i % 2 == 1 {
        return i - 1;
    }
    if n - i == 1 {
        return i;
    }
    i + 1
}
