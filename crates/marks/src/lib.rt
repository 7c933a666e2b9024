// Check 03 in one pass: a mark for each point that a ring has met, made anew for each ring.

#![tactic(auto)]

ghost use Rattle.std.specs.Prelude.{◌≡◌, ◌-◌, ◌<◌, length, IfSome, unwrap_or};
ghost use Rattle.space.specs.held.Points.{Known};
ghost use Rattle.ring.specs.Entries.{repeated_at};

// "the least entry index whose number stood earlier, the closing entry aside": the first entry whose mark stands; none where each number
// stands once. Point x is bit x % 64 of word x / 64. Each entry is read once, so a ring of n entries is read n - 1 times at most.
pub fn first_repeated(ring: &[u16]) -> Option<usize>
    requires { Known ring.now }
    ensures few { IfSome result (λ i. i < length ring.now - 1) }
    ensures first { unwrap_or result (length ring.now - 1) ≡ repeated_at ring.now }
{
    let last = ring.len().saturating_sub(1);
    let mut marks: [u64; 8] = [0; 8];
    for (i, x) in ring[..last].iter().enumerate() {
        let x = usize::from(*x);
        let w = x / 64;
        let k = (x % 64) as u64;
        let word = marks[w];
        let marked = bits::with_set(word, k);
        if bits::is_set(word, k) {
            return Some(i);
        }
        marks[w] = marked;
    }
    None
}
