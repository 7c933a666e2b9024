// Where the finding is met in the ring that fails first, where it is known to be 03 or 05: only that check is looked for.
ghost use Rattle.std.specs.Prelude.{◌≡◌, ◌⊎◌, ◌-◌, ◌≤◌, ◌<◌, length, Some, IfSome, unwrap_or};
ghost use Rattle.whole.specs.held.Spans.{span};
ghost use Rattle.space.specs.Space.{places};
ghost use Rattle.space.specs.held.Points.{points_of};
ghost use Rattle.plane.specs.Plane.{largest_axis_of};
ghost use Rattle.ring.specs.Entries.{repeated_at};
ghost use Rattle.ring.specs.held.Rings.{ring_at};
ghost use Rattle.normal.specs.Normal.{normal};
ghost use Rattle.crossing.specs.Crossed.{crossed_at};
ghost use Rattle.holes.specs.held.Rings.{Ring, Lies};
ghost use Rattle.polygon.specs.Ring.{edges_in, finding_number_of, finding_position_of};
ghost use Rattle.inner.specs.held.Told.{met_at};
ghost use Rattle.inner.specs.laws.Rows.{rings_finding};

use crate::rings;
use ring::Rings;
use space::Points;

// 03 of ring q.
fn repeated_in(rings: &Rings, q: usize) -> Option<usize>
    requires { Ring rings.now.entries rings.now.starts q }
    ensures few { IfSome result (λ i. i < length (ring_at rings.now.entries rings.now.starts q) - 1) }
    ensures first { unwrap_or result (length (ring_at rings.now.entries rings.now.starts q) - 1) ≡ repeated_at (ring_at rings.now.entries rings.now.starts q) }
{
    let ring = rings.ring(q);
    marks::first_repeated(ring)
}

// 05 of ring q.
fn crossed_in(points: &Points, rings: &Rings, q: usize) -> Option<usize>
    requires ring { (Ring rings.now.entries rings.now.starts q) × (1 ≤ length (ring_at rings.now.entries rings.now.starts q)) }
    ensures few { IfSome result (λ i. i < length (ring_at rings.now.entries rings.now.starts q) - 1) }
    ensures first { unwrap_or result (length (ring_at rings.now.entries rings.now.starts q) - 1) ≡ crossed_at (edges_in (largest_axis_of (normal (places (points_of points.now.flat) (ring_at rings.now.entries rings.now.starts q)))) (places (points_of points.now.flat) (ring_at rings.now.entries rings.now.starts q))) }
{
    let ring = rings.ring(q);
    polygon::five::first_crossed(points, ring)
}

// The one of the two that has this number.
fn met_in(points: &Points, rings: &Rings, q: usize, number: u16) -> Option<usize>
    requires ring { (Ring rings.now.entries rings.now.starts q) × (1 ≤ length (ring_at rings.now.entries rings.now.starts q)) }
    ensures few { IfSome result (λ i. i < length (ring_at rings.now.entries rings.now.starts q) - 1) }
    ensures first { unwrap_or result (length (ring_at rings.now.entries rings.now.starts q) - 1) ≡ met_at number (points_of points.now.flat) (ring_at rings.now.entries rings.now.starts q) }
{
    if number == 3 {
        return repeated_in(rings, q);
    }
    crossed_in(points, rings, q)
}

// Where it is met, with the entries of all rings before it: a ring in which it is met nowhere passes.
pub fn first_met(
    points: &Points,
    rings: &Rings,
    from: usize,
    to: usize,
    number: u16,
) -> Option<usize>
    requires lies { Lies rings.now.entries rings.now.starts from to }
    requires fact { (number ≡ 3) ⊎ (number ≡ 5) }
    requires number_value { number ≡ finding_number_of (rings_finding (points_of points.now.flat) 0 (span (ring_at rings.now.entries rings.now.starts) from (to - from))) }
    ensures { result ≡ Some (finding_position_of (rings_finding (points_of points.now.flat) 0 (span (ring_at rings.now.entries rings.now.starts) from (to - from)))) }
{
    for q in from..to {
        if let Some(at) = met_in(points, rings, q, number) {
            return Some(rings::entries_of(rings, from, q) + at);
        }
    }
    None
}
