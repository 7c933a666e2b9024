// A polygon turned: its ring backwards in its place, its finding, its part, its stamp and its flag. Each polygon has one ring, that of
// its own number.

#![tactic(auto)]

ghost use Rattle.std.specs.Prelude.{◌≡◌, reverse, ◌%◌, ◌<◌, ◌≤◌, get_or, set, pos};
ghost use Rattle.volume.specs.Part.{part};
ghost use Rattle.polygon.specs.Ring.{finding};
ghost use Rattle.space.specs.held.Points.{points_of, Known};
ghost use Rattle.ring.specs.held.Rings.{ring_at};
ghost use Rattle.holes.specs.held.Rings.{Ring};
ghost use Rattle.building.specs.Tables as Tables;
ghost use Rattle.polygon.specs.held.Findings.{kept_finding, is_placed};
ghost use Rattle.building.specs.held.Holds.{held_building, Held, Did};
ghost use Rattle.turns.specs.held.Rings.{turned_entries};
ghost use Rattle.turns.specs.held.Writes.{TurnWrites};

use building::{Arrays, Scalars};
use ring::Rings;
use space::Points;

// The part of a ring that has been turned, from what it was: negated where the ring is closed, and otherwise summed anew, since
// another entry is its first.
fn turned_part(points: &Points, ring: &[u16], before: i64) -> i64
    requires known { Known ring.now }
    requires before_value { before ≡ part (points_of points.now.flat) (reverse ring.now) }
    ensures { result ≡ part (points_of points.now.flat) ring.now }
{
    if ring::is_closed(ring) {
        return -before;
    }
    volume::part_of(points, ring)
}

// The part of ring p, which has been turned.
fn renew_part(points: &Points, rings: &Rings, parts: &mut [i64; 256], p: usize)
    requires ring { Ring rings.now.entries rings.now.starts p }
    requires part_was { get_or parts.old p (pos 0) ≡ part (points_of points.now.flat) (reverse (ring_at rings.now.entries rings.now.starts p)) }
    requires p_bound { p < 256 }
    ensures { parts.new ≡ set parts.old p (part (points_of points.now.flat) (ring_at rings.now.entries rings.now.starts p)) }
{
    let before = parts[p];
    let after = turned_part(points, rings.ring(p), before);
    parts[p] = after;
}

// Whether a finding as it is kept has a position, which a turn changes.
#[tactic(auto, unfolding(polygon::specs::held::Findings::is_placed))]
fn has_position(kept: u16) -> bool
    ensures { result ≡ is_placed (kept % 16) }
{
    let n = kept % 16;
    (n == 3) | (n == 5) | (n == 6)
}

// The finding of ring p, which has been turned. Its number stands; where in the ring it is met is looked for again, if it has a position.
fn renew_finding(
    points: &Points,
    rings: &Rings,
    findings: &mut [u16; 256],
    tolerance: u16,
    p: usize,
)
    requires ring { Ring rings.now.entries rings.now.starts p }
    requires tolerance_bound { tolerance ≤ 1000 }
    requires finding_was { get_or findings.old p 0 ≡ kept_finding (finding tolerance (points_of points.now.flat) (reverse (ring_at rings.now.entries rings.now.starts p))) }
    requires p_bound { p < 256 }
    ensures { findings.new ≡ set findings.old p (kept_finding (finding tolerance (points_of points.now.flat) (ring_at rings.now.entries rings.now.starts p))) }
{
    let kept = findings[p];
    if !has_position(kept) {
        return;
    }
    let number = kept % 16;
    let ring = rings.ring(p);
    let at = polygon::position_of(points, ring, tolerance, number);
    findings[p] = polygon::kept_at(number, at);
}

// Ring p backwards in its place, its finding and its part.
fn turn_ring(
    points: &Points,
    rings: &mut Rings,
    findings: &mut [u16; 256],
    parts: &mut [i64; 256],
    tolerance: u16,
    p: usize,
)
    requires ring { Ring rings.old.entries rings.old.starts p }
    requires tolerance_bound { tolerance ≤ 1000 }
    requires finding_was { get_or findings.old p 0 ≡ kept_finding (finding tolerance (points_of points.now.flat) (ring_at rings.old.entries rings.old.starts p)) }
    requires part_was { get_or parts.old p (pos 0) ≡ part (points_of points.now.flat) (ring_at rings.old.entries rings.old.starts p) }
    requires p_bound { p < 256 }
    ensures entries_after { rings.new.entries ≡ turned_entries rings.old.entries rings.old.starts p }
    ensures starts { rings.new.starts ≡ rings.old.starts }
    ensures firsts { rings.new.firsts ≡ rings.old.firsts }
    ensures findings_after { findings.new ≡ set findings.old p (kept_finding (finding tolerance (points_of points.now.flat) (reverse (ring_at rings.old.entries rings.old.starts p)))) }
    ensures parts_after { parts.new ≡ set parts.old p (part (points_of points.now.flat) (reverse (ring_at rings.old.entries rings.old.starts p))) }
{
    let from = usize::from(rings.starts[p]);
    let to = usize::from(rings.starts[p + 1]);
    rings.entries[from..to].reverse();
    renew_finding(points, rings, findings, tolerance, p);
    renew_part(points, rings, parts, p);
}

// "Turn reverses the polygon's whole list of entries, closing entry included", and stamps it.
pub fn turn_polygon(arrays: &mut Arrays, s: Scalars, number: u32, n: usize) -> Scalars
    requires held { Held arrays.old s }
    requires n_lt_polygons { n < s.polygons }
    ensures did { Did (Tables.turned number n (held_building arrays.old s)) arrays.new result }
    ensures points { arrays.new.points.flat ≡ arrays.old.points.flat }
    ensures starts { arrays.new.rings.starts ≡ arrays.old.rings.starts }
    ensures firsts { arrays.new.rings.firsts ≡ arrays.old.rings.firsts }
    ensures table { arrays.new.table ≡ arrays.old.table }
    ensures turn_writes { TurnWrites arrays.old s number n arrays.new.rings.entries arrays.new.stamps arrays.new.findings arrays.new.parts arrays.new.turned result }
{
    turn_ring(
        &arrays.points,
        &mut arrays.rings,
        &mut arrays.findings,
        &mut arrays.parts,
        s.tolerance,
        n,
    );
    arrays.stamps[n] = number;
    arrays.turned[n] = 1 - arrays.turned[n];
    let shape = directions::shape_now(&arrays.table[..s.edges], &arrays.turned, s.fixed);
    Scalars {
        last: number,
        shape,
        ..s
    }
}
