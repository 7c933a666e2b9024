// The rings of a polygon one by one: the first of checks 01 to 05 that one of them fails, and the sum of their parts.
ghost use Rattle.std.specs.Prelude.{◌≡◌, ◌+◌, ◌-◌, ◌≤◌, ◌<◌, length, get_or};
ghost use Rattle.whole.specs.Lists.{sum_of};
ghost use Rattle.whole.specs.held.Spans.{span};
ghost use Rattle.space.specs.held.Points.{points_of};
ghost use Rattle.ring.specs.held.Rings.{ring_at};
ghost use Rattle.volume.specs.Part.{part};
ghost use Rattle.holes.specs.held.Rings.{Ring, Lies};
ghost use Rattle.polygon.specs.Ring.{ring_finding, finding_position_of};
ghost use Rattle.inner.specs.Finding.{later};
ghost use Rattle.inner.specs.held.Told.{Told};
ghost use Rattle.inner.specs.laws.Rows.{rings_finding};

use polygon::{Finding, Look};
use ring::Rings;
use space::Points;

// What ring q shows by itself.
fn look_at_ring(points: &Points, rings: &Rings, q: usize) -> Look
    requires ring { Ring rings.now.entries rings.now.starts q }
    ensures finding_value { result.finding ≡ ring_finding (points_of points.now.flat) (ring_at rings.now.entries rings.now.starts q) }
    ensures part_value { result.part ≡ part (points_of points.now.flat) (ring_at rings.now.entries rings.now.starts q) }
{
    let ring = rings.ring(q);
    polygon::five::look_at_ring(points, ring)
}

// A ring's own finding as it is told of the polygon: "a position in a later ring adds the entries of all rings before it, an edge's too".
#[tactic(auto, unfolding(crate::specs::Finding::later, polygon::specs::Ring::finding_position_of))]
fn later(own: Finding, before: usize) -> Finding
    requires { (finding_position_of own ≤ 128) × (before ≤ 1024) }
    ensures found { result ≡ later before own }
    ensures few { finding_position_of result ≤ 1152 }
{
    let before = before as u16;
    match own {
        Finding::Repeated(i) => Finding::Repeated(before + i),
        Finding::Crossed(i) => Finding::Crossed(before + i),
        Finding::Uneven(i) => Finding::Uneven(before + i),
        _ => own,
    }
}

// What is told once a ring is looked at that has so many entries before it: "a ring's first failure ends the search".
fn told(found: Finding, own: Finding, before: usize) -> Finding
    requires { (finding_position_of found ≤ 1152) × (finding_position_of own ≤ 128) × (before ≤ 1024) }
    ensures told { Told found own before result }
    ensures few { finding_position_of result ≤ 1152 }
{
    match found {
        Finding::Sound => later(own, before),
        _ => found,
    }
}

// How many entries rings `from` up to `to` have together.
pub fn entries_of(rings: &Rings, from: usize, to: usize) -> usize
    requires starts_len { (length rings.now.starts ≡ 1025) × (from ≤ 1024) × (to ≤ 1024) }
    requires from_bound { (get_or rings.now.starts from 0 ≤ get_or rings.now.starts to 0) × (get_or rings.now.starts to 0 ≤ 1024) }
    ensures { result ≡ get_or rings.now.starts to 0 - get_or rings.now.starts from 0 }
{
    usize::from(rings.starts[to]) - usize::from(rings.starts[from])
}

// The rings `from` up to `to`: the first of checks 01 to 05 that one of them fails, and the sum of their parts.
pub fn look_at_rings(points: &Points, rings: &Rings, from: usize, to: usize) -> Look
    requires lies { Lies rings.now.entries rings.now.starts from to }
    ensures finding_value { result.finding ≡ rings_finding (points_of points.now.flat) 0 (span (ring_at rings.now.entries rings.now.starts) from (to - from)) }
    ensures few { finding_position_of result.finding ≤ 1152 }
    ensures part_value { result.part ≡ sum_of (part (points_of points.now.flat)) (span (ring_at rings.now.entries rings.now.starts) from (to - from)) }
{
    let mut finding = Finding::Sound;
    let mut part: i64 = 0;
    for q in from..to {
        let look = look_at_ring(points, rings, q);
        let before = entries_of(rings, from, q);
        finding = told(finding, look.finding, before);
        part += look.part;
    }
    Look { finding, part }
}
