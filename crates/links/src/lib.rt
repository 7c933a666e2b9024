// Check 0C: what corners the first corner of each point reaches across the edges that end there.

#![tactic(auto)]

ghost use Rattle.std.specs.Prelude.{◌≡◌, List, ℕ, ◌+◌, ◌-◌, ◌<◌, ◌≤◌, length, set, IfSome, unwrap_or};
ghost use Rattle.bits.specs.held.Bits.{marks_of};
ghost use Rattle.words.specs.held.Words.{step_of, next_of, dir_of, node_of, number_of};
ghost use Rattle.reach.specs.held.Marking.{Marked, Flooded, Blank};
ghost use Rattle.whole.specs.Least.{LeastBelow};
ghost use Rattle.links.specs.held.Linking.{Joins, Pointed, Cornered, Met, Begun, Cut, Unlinks, Selves, Nodes, Links, Lone, Crossed, Onward, Walked, Traced};

use words::Node;

// No marks.
fn blank() -> [u64; 16]
    ensures { Blank 1024 (marks_of result) }
{
    [0u64; 16]
}

// One end of an edge, at point v, where the edge joins corners x and y: where v is not yet seen, x is its first corner and is marked; then
// the two are joined.
fn meet(seen: &mut [u64; 16], marks: &mut [u64; 16], v: usize, x: usize, y: usize)
    requires { (v < 1024) × (x < 1024) × (y < 1024) }
    ensures { Met v x y (marks_of seen.old) (marks_of marks.old) (marks_of seen.new) (marks_of marks.new) }
{
    if !bits::is_marked(seen, v) {
        bits::mark(seen, v);
        bits::mark(marks, x);
    }
    reach::join(marks, x, y);
}

// One pass over the pairs of words: marks the first corner that is met at each point, and the corners that the pass finds linked to it.
// The points are taken from the edge, below 1,024 so that each has its mark whatever the words are: of loaded rings all are below 512.
fn pass(words: &[u64], marks: &mut [u64; 16])
    requires { Blank 1024 (marks_of marks.old) }
    ensures { (es : List ℕ) → Cornered es words.now → Begun es words.now (marks_of marks.new) }
{
    let mut seen = blank();
    for i in 0..words.len() / 2 {
        let v = words[2 * i];
        let w = words[2 * i + 1];
        let k = words::key_of(v);
        let low = (k / 65536 % 1024) as usize;
        let high = (k % 1024) as usize;
        meet(
            &mut seen,
            marks,
            low,
            words::node_of(v, Node::Smaller),
            words::node_of(w, Node::Smaller),
        );
        meet(
            &mut seen,
            marks,
            high,
            words::node_of(v, Node::Larger),
            words::node_of(w, Node::Larger),
        );
    }
}

// Each corner across from itself.
fn selves(t: &mut [u16; 1024])
    ensures { Selves t.new }
{
    for (i, e) in t.iter_mut().enumerate() {
        *e = i as u16;
    }
}

// Which of its edge's ends a word's step starts at, and which it ends at.
fn ends_of(w: u64) -> (Node, Node)
    ensures { (number_of result.0 ≡ 1 + dir_of w) × (number_of result.1 ≡ 3 - (1 + dir_of w)) }
{
    if w % 2 == 0 {
        (Node::Smaller, Node::Larger)
    } else {
        (Node::Larger, Node::Smaller)
    }
}

// The corner where a word's step starts.
fn step_of(w: u64) -> usize
    ensures { (result ≡ step_of w) × (result < 1024) }
{
    (w / 2048 % 1024) as usize
}

// The corner where it ends.
fn next_of(w: u64) -> usize
    ensures { (result ≡ next_of w) × (result < 1024) }
{
    (w / 2 % 1024) as usize
}

// Of two numbers the one that is not p, where the other is.
fn onward(x: usize, y: usize, p: usize) -> usize
    ensures { Onward x y p result }
{
    if x == p { y } else { x }
}

// For each corner the two across from it: by the pair of the step that starts there, and by that of the step that ends there.
#[derive(Drop)]
struct Tables {
    out: [u16; 1024],
    inn: [u16; 1024],
}

impl Tables {
    // Writes down, for the corner where a word's step starts and for the one where it ends, the corner across its pair, of word w.
    fn across(&mut self, v: u64, w: u64)
        ensures { (self.new.out ≡ set self.old.out (step_of v) (node_of (1 + dir_of v) w)) × (self.new.inn ≡ set self.old.inn (next_of v) (node_of (3 - (1 + dir_of v)) w)) }
    {
        let (start, end) = ends_of(v);
        self.out[step_of(v)] = words::node_of(w, start) as u16;
        self.inn[next_of(v)] = words::node_of(w, end) as u16;
    }

    // The same for both words of each pair.
    fn cross(&mut self, words: &[u64])
        requires { Selves self.old.out × Selves self.old.inn }
        ensures { Crossed words.now self.new.out self.new.inn }
    {
        for i in 0..words.len() / 2 {
            let v = words[2 * i];
            let w = words[2 * i + 1];
            self.across(v, w);
            self.across(w, v);
        }
    }

    // Marks corner after corner, from each to the one that it was not come from, up to one that has a mark. Each turn takes a corner that
    // had none.
    fn walk(&self, marks: &mut [u64; 16], from: usize, to: usize)
        requires { Nodes self.now.out × Nodes self.now.inn × Marked (marks_of marks.old) from × Links self.now.out self.now.inn from to × (to < 1024) }
        ensures { Walked (Links self.now.out self.now.inn) to (marks_of marks.old) (marks_of marks.new) }
    {
        let mut p = from;
        let mut c = to;
        while !bits::is_marked(marks, c) {
            bits::mark(marks, c);
            let n = onward(usize::from(self.out[c]), usize::from(self.inn[c]), p);
            p = c;
            c = n;
        }
    }

    // Walks both ways from each marked corner.
    fn walks(&self, marks: &mut [u64; 16])
        requires { Nodes self.now.out × Nodes self.now.inn }
        ensures { Traced (Links self.now.out self.now.inn) (marks_of marks.old) (marks_of marks.new) }
    {
        for e in 0..1024 {
            if bits::is_marked(marks, e) {
                self.walk(marks, e, usize::from(self.out[e]));
                self.walk(marks, e, usize::from(self.inn[e]));
            }
        }
    }
}

// Marks whatever corner the marks reach across the pairs, where each corner has one pair of its own step and one of the step before.
// Whatever the numbering, the tables take one turn an entry and one a word, and no corner begins more than two walks or is taken twice.
fn trace(words: &[u64], marks: &mut [u64; 16])
    ensures { Lone step_of words.now → Lone next_of words.now → Flooded (Joins 1 2 words.now) (marks_of marks.old) (marks_of marks.new) }
{
    let mut tables = Tables {
        out: [0u16; 1024],
        inn: [0u16; 1024],
    };
    selves(&mut tables.out);
    selves(&mut tables.inn);
    tables.cross(words);
    tables.walks(marks);
}

// The lowest point with a corner that has no mark.
fn lowest_cut(words: &[u64], entries: &[u16; 1024], marks: &[u64; 16]) -> Option<usize>
    requires { Pointed entries.now words.now }
    ensures { IfSome result (λ v. v < 65536) × LeastBelow (Cut entries.now words.now (marks_of marks.now)) 65536 (unwrap_or result 65536) }
{
    let mut best: Option<usize> = None;
    for w in words {
        let s = step_of(*w);
        if !bits::is_marked(marks, s) {
            let v = usize::from(entries[s]);
            best = Some(best.map_or(v, |b| b.min(v)));
        }
    }
    best
}

// Check 0C: the lowest point with a corner that its first corner does not reach across pairs that end at it; none where each reaches all.
// There are as many corners as words, so that counting the marks tells whether each has one: mostly after the pass already, else after
// the walks.
pub fn unlinked(words: &[u64], entries: &[u16; 1024]) -> Option<usize>
    requires { Pointed entries.now words.now }
    ensures { IfSome result (λ v. v < 65536) × (Cornered entries.now words.now → Unlinks entries.now words.now (unwrap_or result 65536)) }
{
    let mut marks = blank();
    pass(words, &mut marks);
    if bits::count(&marks) == words.len() {
        return None;
    }
    trace(words, &mut marks);
    if bits::count(&marks) == words.len() {
        return None;
    }
    lowest_cut(words, entries, &marks)
}
