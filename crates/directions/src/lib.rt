// Check 0A among the others: the first of checks 07 to 0C that fails for the rings as they stand now.

#![tactic(auto)]

ghost use Rattle.std.specs.Prelude.{◌≡◌, ◌<◌, ◌≤◌, length, take};
ghost use Rattle.shell.specs.held.Kept.{early, or_alike, now_of, heading_of, alike_in};

use shell::Shape;

// The direction in which a word's step is gone now.
fn heading(w: u64, turned: &[u8; 256]) -> u64
    ensures { result ≡ heading_of turned.now w }
{
    let p = (w / 2097152 % 256) as usize;
    let f = u64::from(turned[p]);
    (w % 2 + f) % 2
}

// Check 0A, where each edge is used twice: the edge of the first pair gone in one direction, or the verdict without it.
fn alike(words: &[u64], turned: &[u8; 256], fixed: Shape) -> Shape
    ensures { result ≡ or_alike fixed (alike_in turned.now words.now) }
{
    for pair in words.chunks_exact(2) {
        let a = heading(pair[0], turned);
        let b = heading(pair[1], turned);
        if a == b {
            let k = words::key_of(pair[0]);
            return Shape::Alike((k / 65536) as usize, (k % 65536) as usize);
        }
    }
    fixed
}

// Whether a verdict comes before 0A.
fn is_early(s: Shape) -> bool
    ensures { result ≡ early s }
{
    matches!(s, Shape::Few(_) | Shape::Once(_, _) | Shape::Often(_, _))
}

// The check of 07 to 0C that fails first for the rings as they stand now: `turned` has 1 for each polygon that stands turned.
// `laws/Now` (`now_is`) says so of the rings that words, flags and verdict belong to.
pub fn shape_now(words: &[u64], turned: &[u8; 256], fixed: Shape) -> Shape
    ensures { result ≡ now_of fixed (alike_in turned.now words.now) }
{
    if is_early(fixed) {
        return fixed;
    }
    alike(words, turned, fixed)
}
