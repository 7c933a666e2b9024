// A ring as the numbers of its points: whether it lists one, and check 02. Check 03 is in crate marks.

#![tactic(auto)]

ghost use Rattle.std.specs.Prelude.{◌≡◌, ◌<◌, ◌≤◌, ◌+◌, get_or, not};
ghost use Rattle.ring.specs.Entries.{is_unclosed};
ghost use Rattle.whole.specs.Lists.{lists};
ghost use Rattle.ring.specs.held.Rings.{ring_at};

// Whether the ring lists point n: no step of this branches, so that many entries are held against it at a time.
pub fn lists(ring: &[u16], n: u16) -> bool
    ensures { result ≡ lists n ring.now }
{
    let mut found = false;
    for x in ring {
        found |= n == *x;
    }
    found
}

// Whether the ring's last entry is its first: check 02 holds.
pub fn is_closed(ring: &[u16]) -> bool
    ensures { result ≡ not (is_unclosed ring.now) }
{
    ring.first() == ring.last()
}

// Polygons as rings one after another: the entries of all rings, where each ring starts, and which ring is each polygon's first.
#[derive(Drop)]
pub struct Rings {
    pub entries: [u16; 1024],
    pub starts: [u16; 1025],
    pub firsts: [u16; 257],
}

impl Rings {
    // The entries of ring r, from its start up to the next one's.
    pub fn ring(&self, r: usize) -> &[u16]
        requires few { r < 1024 }
        requires forward { get_or self.now.starts r 0 ≤ get_or self.now.starts (r + 1) 0 }
        requires inside { get_or self.now.starts (r + 1) 0 ≤ 1024 }
        ensures { result.now ≡ ring_at self.now.entries self.now.starts r }
    {
        let from = usize::from(self.starts[r]);
        let to = usize::from(self.starts[r + 1]);
        &self.entries[from..to]
    }
}
