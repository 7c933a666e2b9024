// The runs of words of one edge.
ghost use Rattle.std.specs.Prelude.{◌≡◌, true, false, ◌<◌, ◌≤◌, length, map, MatchOption};
ghost use Rattle.words.specs.held.Words.{key_from};
ghost use Rattle.edges.specs.held.Ascending.{Asc};
ghost use Rattle.shell.specs.held.Runs.{LeastAt, Between, Twice};

// Where the words of the least edge with at least `least` and at most `most` uses begin.
pub fn find_run(words: &[u64], least: usize, most: usize) -> Option<usize>
    requires { Asc words.now × (1 ≤ least) }
    ensures { MatchOption result (LeastAt (Between least most (map key_from words.now)) (map key_from words.now) (length words.now)) (λ i. (i < length words.now) × LeastAt (Between least most (map key_from words.now)) (map key_from words.now) i) }
{
    let mut i = 0;
    for run in words.chunk_by(|v, w| words::key_of(*v) == words::key_of(*w)) {
        let n = run.len();
        if least <= n && n <= most {
            return Some(i);
        }
        i += n;
    }
    None
}

// Whether each edge has two words. It is a sweep without branches, which spares two searches of runs where all is well.
pub fn paired(words: &[u64]) -> bool
    requires { Asc words.now }
    ensures { (result ≡ true → Twice (map key_from words.now)) × (result ≡ false → Twice (map key_from words.now) → ⊥) }
{
    let n = words.len();
    let mut two = true;
    // Each pair but the last, with the word after it.
    for p in 0..n.saturating_sub(1) / 2 {
        let i = 2 * p;
        let a = words::key_of(words[i]);
        let b = words::key_of(words[i + 1]);
        let c = words::key_of(words[i + 2]);
        two &= (a == b) & (b != c);
    }
    if n == 0 {
        return true;
    }
    if n % 2 == 1 {
        return false;
    }
    let last = n - 2;
    two & (words::key_of(words[last]) == words::key_of(words[last + 1]))
}
