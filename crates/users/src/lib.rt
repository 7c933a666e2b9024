// The users of an edge, read off the sorted words of the edge table: a word is an edge and then a polygon, so the words of one edge
// stand together, the lowest polygon first.

#![tactic(auto)]

ghost use Rattle.std.specs.Prelude.{◌≡◌, ◌+◌, ◌<◌, ◌≤◌, length, take};
ghost use Rattle.edges.specs.Edges.{edge};
ghost use Rattle.edges.specs.held.Ascending.{Asc};
ghost use Rattle.users.specs.held.Users.{users_in, Halving, Bound, UserAt, Told};

use words::Node;

// The number of users of an edge and the two lowest, 65,535 where there is none: the number that frame 0C answers ("`FFFF`"), which
// the contract (`Told`) names, and so no Option.
#[derive(Clone, Copy)]
pub struct Users {
    pub count: usize,
    pub lowest: usize,
    pub second: usize,
}

// The edge between two points, whichever is named first.
fn edge_of(a: u16, b: u16) -> u64
    ensures { (result ≡ edge a b) × (result < 4294967296) }
{
    u64::from(a.min(b)) * 65536 + u64::from(a.max(b))
}

// Where the words of edge e and of those after it begin, which is not before `low`. By halves: some 10 reads, however many words. The
// loop is written out: with `partition_point`, which reads a word more, the searches of an edge question took twice as long.
fn first_of(words: &[u64], e: u64, low: usize) -> usize
    requires { Asc words.now × Halving words.now e low (length words.now) }
    ensures { Bound words.now e result }
{
    let mut lo = low;
    let mut hi = words.len();
    while lo < hi {
        let mid = lo + (hi - lo) / 2;
        if words::key_of(words[mid]) < e {
            lo = mid + 1;
        } else {
            hi = mid;
        }
    }
    lo
}

// Where the words of edge e end, which begin at `from`. Most edges have two users at the most, and then the third word from there is
// past it; how many of the two before it are not is counted without a branch.
fn end_of(words: &[u64], e: u64, from: usize) -> usize
    requires { Asc words.now × Bound words.now e from × (length words.now ≤ 1024) × (e < 4294967296) }
    ensures { Bound words.now (e + 1) result }
{
    if from + 2 < words.len() && e < words::key_of(words[from + 2]) {
        return from
            + usize::from(words::key_of(words[from]) <= e)
            + usize::from(words::key_of(words[from + 1]) <= e);
    }
    first_of(words, e + 1, from)
}

// The polygon of the word at i, where it stands before `end`.
fn user_at(words: &[u64], i: usize, end: usize) -> usize
    requires { end ≤ length words.now }
    ensures { UserAt words.now i end result }
{
    if i < end {
        return words::node_of(words[i], Node::Polygon);
    }
    65535
}

// "Frame 0C asks for two point numbers in either order": the users of the edge between them.
pub fn users_of(words: &[u64], a: u16, b: u16) -> Users
    requires { (length words.now ≤ 1024) × Asc words.now }
    ensures { Told (users_in (edge a b) words.now) result.count result.lowest result.second }
{
    let e = edge_of(a, b);
    let from = first_of(words, e, 0);
    let to = end_of(words, e, from);
    let lowest = user_at(words, from, to);
    let second = user_at(words, from + 1, to);
    Users {
        count: to - from,
        lowest,
        second,
    }
}
