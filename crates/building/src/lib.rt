// The held building: its tables and what is held beside the arrays.

#![tactic(auto)]

ghost use Rattle.std.specs.Prelude.{◌≡◌, ◌+◌, ◌<◌, ◌≤◌, set};
ghost use Rattle.polygon.specs.Ring.{finding_number_of, finding_position_of};

use polygon::Finding;
use ring::Rings;
use shell::Shape;
use space::Points;

// The check that a report names, with its elements. `check_number_of`, `element_a_of` and `element_b_of` give document 01's numbers.
#[derive(Clone, Copy)]
pub enum Verdict {
    Accepted,
    Faulty(usize, Finding),
    Unsound(Shape),
    Inward,
}

// What is held beside the arrays: the numbers of points, polygons and words of the edge table in use, the last accepted
// correction number, the check of the whole that no correction changes, and the one that fails first as the rings stand now, which only
// a turn changes.
#[derive(Clone, Copy)]
pub struct Scalars {
    pub tolerance: u16,
    pub points: usize,
    pub polygons: usize,
    pub last: u32,
    pub edges: usize,
    pub fixed: Shape,
    pub shape: Shape,
}

// The arrays: the points and the polygons of a load, and what is kept of each polygon beside them, namely its stamp, its finding, its
// part and whether it stands turned; and the table of edges.
#[derive(Drop)]
pub struct Arrays {
    pub points: Points,
    pub rings: Rings,
    pub stamps: [u32; 256],
    pub findings: [u16; 256],
    pub parts: [i64; 256],
    pub table: [u64; 1024],
    pub turned: [u8; 256],
}

// Ring n ends where the next one starts; or polygon n ends where the next one's first ring stands.
pub fn close<const N: usize>(starts: &mut [u16; N], n: usize, end: usize)
    requires { (n + 1 < N) × (end ≤ 1024) }
    ensures { starts.new ≡ set starts.old (n + 1) end }
{
    starts[n + 1] = end as u16;
}

// Document 01's number of a finding.
#[tactic(auto, unfolding(polygon::specs::Ring::finding_number_of))]
pub fn finding_number(f: Finding) -> u8
    ensures { result ≡ finding_number_of f }
{
    match f {
        Finding::Sound => 0,
        Finding::Short => 1,
        Finding::Unclosed => 2,
        Finding::Repeated(_) => 3,
        Finding::NoNormal => 4,
        Finding::Crossed(_) => 5,
        Finding::Uneven(_) => 6,
        Finding::Shared => 14,
        Finding::Misplaced => 15,
    }
}

// Where in the ring a finding is met; 0 where it has no position.
#[tactic(auto, unfolding(polygon::specs::Ring::finding_position_of))]
pub fn finding_position(f: Finding) -> u16
    ensures { result ≡ finding_position_of f }
{
    match f {
        Finding::Sound => 0,
        Finding::Short => 0,
        Finding::Unclosed => 0,
        Finding::Repeated(i) => i,
        Finding::NoNormal => 0,
        Finding::Crossed(i) => i,
        Finding::Uneven(i) => i,
        Finding::Shared => 0,
        Finding::Misplaced => 0,
    }
}
