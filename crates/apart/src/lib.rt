// Check 0B: what polygons polygon 0 reaches across the edges. The marks of the 256 polygons are bits in four words.

#![tactic(auto)]

ghost use Rattle.std.specs.Prelude.{◌≡◌, true, ◌+◌, ◌%◌, ◌≤◌, ◌<◌, length, set, IfSome, unwrap_or};
ghost use Rattle.bits.specs.held.Bits.{marks_of};
ghost use Rattle.words.specs.held.Words.{poly_from};
ghost use Rattle.reach.specs.held.Marking.{Marked, Joined, Flooded};
ghost use Rattle.apart.specs.held.Reaching.{SweptUp, SweptDown, Spread, LowestBare, LowestCut, Seeded, Listed, Queue, Widened};

use words::Node;

// Joins the polygons of each pair of words, from the first to the last. Where the last pair ends at which one was marked, or 0: from there
// on both of a pair are marked or neither.
fn sweep_up(words: &[u64], marks: &mut [u64; 4]) -> usize
    ensures { SweptUp words.now (marks_of marks.old) (marks_of marks.new) result }
{
    let mut last: usize = 0;
    for i in 0..words.len() / 2 {
        let p = words::node_of(words[2 * i], Node::Polygon);
        let q = words::node_of(words[2 * i + 1], Node::Polygon);
        if reach::join(marks, p, q) {
            last = 2 * i + 2;
        }
    }
    last
}

// The same from a place down to the first; whether some polygon was marked.
fn sweep_down(words: &[u64], from: usize, marks: &mut [u64; 4]) -> bool
    requires { (from ≤ length words.now) × (from % 2 ≡ 0) }
    ensures { SweptDown words.now from (marks_of marks.old) (marks_of marks.new) result }
{
    let mut some = false;
    for i in (0..from / 2).rev() {
        let p = words::node_of(words[2 * i], Node::Polygon);
        let q = words::node_of(words[2 * i + 1], Node::Polygon);
        some |= reach::join(marks, p, q);
    }
    some
}

// The lowest of the first n polygons that has no mark.
fn lowest_below(marks: &[u64; 4], n: usize) -> Option<usize>
    requires { n ≤ 256 }
    ensures { IfSome result (λ p. p < n) × LowestBare (marks_of marks.now) n (unwrap_or result n) }
{
    let r = bits::lowest_bare(marks);
    if r < n { Some(r) } else { None }
}

// Marks what polygons the marks reach across the pairs, by a sweep up and one down, which are the quickest where they are enough: where
// all of the first n are marked, or the second marks none. It need not look at the pairs that agree since the first.
fn spread(words: &[u64], n: usize, marks: &mut [u64; 4]) -> bool
    requires { n ≤ 256 }
    ensures { result ≡ true → Spread (Joined words.now poly_from) n (marks_of marks.old) (marks_of marks.new) }
{
    let last = sweep_up(words, marks);
    if lowest_below(marks, n).is_none() {
        return true;
    }
    if !sweep_down(words, last, marks) {
        return true;
    }
    lowest_below(marks, n).is_none()
}

// The places of each polygon's words: by polygon the last of them, and by place the one before it, each one up; 0 ends a list.
#[derive(Drop)]
struct Places {
    head: [u16; 256],
    chain: [u16; 1024],
}

// Lists the places of each polygon's words.
fn lists(words: &[u64], places: &mut Places)
    requires { (length words.now ≤ 1024) × Listed words.now places.old.head places.old.chain 0 }
    ensures { Listed words.now places.new.head places.new.chain (length words.now) }
{
    for (i, w) in words.iter().enumerate() {
        let p = words::node_of(*w, Node::Polygon);
        places.chain[i] = places.head[p];
        places.head[p] = (i + 1) as u16;
    }
}

// The polygons found, in the order in which they are, and how many there are.
#[derive(Drop)]
struct Found {
    list: [u16; 256],
    len: usize,
}

impl Found {
    // Puts a polygon last.
    fn push(&mut self, q: usize)
        requires { (self.old.len < 256) × (q < 256) }
        ensures { (self.new.list ≡ set self.old.list self.old.len q) × (self.new.len ≡ self.old.len + 1) }
    {
        self.list[self.len] = q as u16;
        self.len += 1;
    }
}

// Marks a polygon that has no mark, and puts it last among those found.
fn note(marks: &mut [u64; 4], found: &mut Found, q: usize)
    requires { Queue (marks_of marks.old) found.old.list found.old.len × (q < 256) }
    ensures { Widened (λ p. p ≡ q) (marks_of marks.old) found.old.list found.old.len (marks_of marks.new) found.new.list found.new.len }
{
    if bits::is_marked(marks, q) {
        return;
    }
    bits::mark(marks, q);
    found.push(q);
}

// Marks the polygons across from p, each word of p once.
fn visit(words: &[u64], places: &Places, p: usize, marks: &mut [u64; 4], found: &mut Found)
    requires { (length words.now ≤ 1024) × Listed words.now places.now.head places.now.chain (length words.now) × Queue (marks_of marks.old) found.old.list found.old.len × Marked (marks_of marks.old) p × (p < 256) }
    ensures { Widened (Joined words.now poly_from p) (marks_of marks.old) found.old.list found.old.len (marks_of marks.new) found.new.list found.new.len }
{
    let n = words.len();
    let mut j = usize::from(places.head[p]);
    while j != 0 {
        let i = j - 1;
        let q = words::node_of(words[words::mate(n, i)], Node::Polygon);
        note(marks, found, q);
        j = usize::from(places.chain[i]);
    }
}

// Takes each polygon once, in the order in which they are found, and so each word once, whatever the numbering.
fn take_all(words: &[u64], places: &Places, marks: &mut [u64; 4])
    requires { (length words.now ≤ 1024) × Listed words.now places.now.head places.now.chain (length words.now) × Seeded (marks_of marks.old) }
    ensures { Flooded (Joined words.now poly_from) (marks_of marks.old) (marks_of marks.new) }
{
    let mut found = Found {
        list: [0u16; 256],
        len: 1,
    };
    let mut from: usize = 0;
    while from < found.len {
        let p = usize::from(found.list[from]);
        visit(words, places, p, marks, &mut found);
        from += 1;
    }
}

// Marks what polygon 0 reaches across the pairs.
fn take(words: &[u64], marks: &mut [u64; 4])
    requires { (length words.now ≤ 1024) × Seeded (marks_of marks.old) }
    ensures { Flooded (Joined words.now poly_from) (marks_of marks.old) (marks_of marks.new) }
{
    let mut places = Places {
        head: [0u16; 256],
        chain: [0u16; 1024],
    };
    lists(words, &mut places);
    take_all(words, &places, marks);
}

// Polygon 0 alone is marked.
fn seeded() -> [u64; 4]
    ensures { Seeded (marks_of result) }
{
    let mut marks = [0u64; 4];
    bits::mark(&mut marks, 0);
    marks
}

// Check 0B with each polygon taken once, for as many words as the table can have.
fn unreached_taken(words: &[u64], polygons: usize) -> Option<usize>
    requires { polygons ≤ 256 }
    ensures { IfSome result (λ p. p < polygons) × (length words.now ≤ 1024 → LowestCut words.now polygons (unwrap_or result polygons)) }
{
    if 1024 < words.len() {
        return None;
    }
    let mut marks = seeded();
    take(words, &mut marks);
    lowest_below(&marks, polygons)
}

// Check 0B: the lowest polygon that polygon 0 does not reach across pairs; none where it reaches all.
pub fn unreached(words: &[u64], polygons: usize) -> Option<usize>
    requires { polygons ≤ 256 }
    ensures { IfSome result (λ p. p < polygons) × (length words.now ≤ 1024 → LowestCut words.now polygons (unwrap_or result polygons)) }
{
    let mut marks = seeded();
    if spread(words, polygons, &mut marks) {
        return lowest_below(&marks, polygons);
    }
    unreached_taken(words, polygons)
}
