// Marks as bits: one bit of a word read and set, and the marks that several words hold together, read, set, counted, and the lowest
// number that has none.

#![tactic(auto)]

ghost use Rattle.std.specs.Prelude.{◌≡◌, ◌/◌, ◌≤◌, ◌<◌, eqb, length, get_or, set};
ghost use Rattle.bits.specs.Lowest.{lowest_bare_of};
ghost use Rattle.bits.specs.held.Bits.{bits_of, marks_of, sum_of};

// Whether bit k of a word is set.
pub fn is_set(word: u64, k: u64) -> bool
    requires { k < 64 }
    ensures { result ≡ eqb (get_or (bits_of 64 word) k 0) 1 }
{
    (word >> k) % 2 == 1
}

// The word with its bit k set.
pub fn with_set(word: u64, k: u64) -> u64
    requires { k < 64 }
    ensures { bits_of 64 result ≡ set (bits_of 64 word) k 1 }
{
    word | (1 << k)
}

// Whether p is marked: its mark is bit p % 64 of word p / 64.
pub fn is_marked(marks: &[u64], p: usize) -> bool
    requires { p / 64 < length marks.now }
    ensures { result ≡ eqb (get_or (marks_of marks.now) p 0) 1 }
{
    let k = (p % 64) as u64;
    is_set(marks[p / 64], k)
}

// Marks p.
pub fn mark(marks: &mut [u64], p: usize)
    requires { p / 64 < length marks.old }
    ensures { (length marks.new ≡ length marks.old) × (marks_of marks.new ≡ set (marks_of marks.old) p 1) }
{
    let w = p / 64;
    let bit = (p % 64) as u64;
    marks[w] = with_set(marks[w], bit);
}

// How many of a word's lowest bits are set, up to the first that is not: the trailing zeros of its complement.
fn trailing_ones(word: u64) -> usize
    ensures { (result ≡ lowest_bare_of (bits_of 64 word)) × (result ≤ 64) }
{
    (!word).trailing_zeros() as usize
}

// The lowest number that has no mark, or how many numbers there are: the trailing ones of each word in turn, up to the first that is not full.
pub fn lowest_bare(marks: &[u64]) -> usize
    requires { length marks.now ≤ 16 }
    ensures { result ≡ lowest_bare_of (marks_of marks.now) }
{
    for (i, word) in marks.iter().enumerate() {
        let k = trailing_ones(*word);
        if k < 64 {
            return i * 64 + k;
        }
    }
    marks.len() * 64
}

// How many are marked.
pub fn count(marks: &[u64]) -> usize
    requires { length marks.now ≤ 16 }
    ensures { result ≡ sum_of (marks_of marks.now) }
{
    marks.iter().map(|word| word.count_ones() as usize).sum()
}
