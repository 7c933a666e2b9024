// One ring: its finding, the first of checks 01 to 06 that fails, with its position, and its part of the six-volume.

#![tactic(auto)]

mod columns;
pub mod five;

ghost use Rattle.std.specs.Prelude.{◌≡◌, ◌≤◌, ◌<◌, ◌+◌, ◌*◌, true};
ghost use Rattle.space.specs.Space.{places};
ghost use Rattle.space.specs.held.Points.{points_of, Known, as_point};
ghost use Rattle.normal.specs.Normal.{normal};
ghost use Rattle.polygon.specs.Ring.{finding, finding_number_of, finding_position_of};
ghost use Rattle.polygon.specs.held.Findings.{kept_finding};
ghost use Rattle.polygon.specs.held.Position.{has_position_of};
ghost use Rattle.volume.specs.Part.{part};

use space::{Place, Points};

// A polygon's finding, with its position where it has one; `Sound` where no check fails. `finding_number_of` gives document 01's number,
// `finding_position_of` the position that is told.
#[derive(Clone, Copy)]
pub enum Finding {
    Sound,
    Short,
    Unclosed,
    Repeated(u16),
    NoNormal,
    Crossed(u16),
    Uneven(u16),
    Shared,
    Misplaced,
}

// What is told of a polygon alone: its finding, and its part of the six-volume.
#[derive(Clone, Copy)]
pub struct Look {
    pub finding: Finding,
    pub part: i64,
}

// A finding of a number that has a position, as it is kept: the number of its check, and above that hexadecimal digit where it is met.
pub fn kept_at(number: u16, at: usize) -> u16
    requires { (number < 16) × (at < 4096) }
    ensures { result ≡ 16 * at + number }
{
    16 * (at as u16) + number
}

// A finding as it is kept, in half the room.
#[tactic(auto, unfolding(crate::specs::held::Findings::kept_finding, crate::specs::Ring::finding_number_of, crate::specs::Ring::finding_position_of))]
pub fn kept(f: Finding) -> u16
    requires { finding_position_of f < 4096 }
    ensures { result ≡ kept_finding f }
{
    match f {
        Finding::Sound => 0,
        Finding::Short => 1,
        Finding::Unclosed => 2,
        Finding::Repeated(i) => kept_at(3, i as usize),
        Finding::NoNormal => 4,
        Finding::Crossed(i) => kept_at(5, i as usize),
        Finding::Uneven(i) => kept_at(6, i as usize),
        Finding::Shared => 14,
        Finding::Misplaced => 15,
    }
}

// The finding of a ring whose normal is n: "the first of checks 01 to 06 that fails". Three corners are in one plane.
fn first_failing(points: &Points, ring: &[u16], tolerance: u16, n: Place) -> Finding
    requires known { Known ring.now }
    requires tolerance_bound { tolerance ≤ 1000 }
    requires n_value { as_point n ≡ normal (places (points_of points.now.flat) ring.now) }
    ensures { result ≡ finding tolerance (points_of points.now.flat) ring.now }
{
    match five::first_of_five(points, ring, n) {
        Finding::Sound => {}
        early => return early,
    }
    if ring.len() == 4 {
        return Finding::Sound;
    }
    if let Some(uneven) = even::first_uneven_closed(points, ring, tolerance, n) {
        return Finding::Uneven(uneven as u16);
    }
    Finding::Sound
}

// Where in a ring the finding is met whose number is known: of 03, 05 and 06 only that one is looked for.
pub fn position_of(points: &Points, ring: &[u16], tolerance: u16, number: u16) -> usize
    requires known { Known ring.now }
    requires tolerance_bound { tolerance ≤ 1000 }
    requires number_value { (number ≡ finding_number_of (finding tolerance (points_of points.now.flat) ring.now)) × (has_position_of (finding tolerance (points_of points.now.flat) ring.now) ≡ true) }
    ensures { result ≡ finding_position_of (finding tolerance (points_of points.now.flat) ring.now) }
{
    if number == 3 {
        return marks::first_repeated(ring).unwrap_or(ring.len() - 1);
    }
    let n = normal::normal(points, ring);
    if number == 5 {
        let axis = axes::largest_axis(n);
        return columns::first_crossed(points, ring, axis).unwrap_or(ring.len() - 1);
    }
    even::first_uneven(points, ring, tolerance, n).unwrap_or(ring.len())
}

// A polygon's finding and its part, where it has one ring: the normal serves both.
pub fn look_at(points: &Points, ring: &[u16], tolerance: u16) -> Look
    requires known { Known ring.now }
    requires tolerance_bound { tolerance ≤ 1000 }
    ensures finding_value { result.finding ≡ finding tolerance (points_of points.now.flat) ring.now }
    ensures part_value { result.part ≡ part (points_of points.now.flat) ring.now }
{
    if ring.len() == 0 {
        return Look {
            finding: Finding::Short,
            part: 0,
        };
    }
    let n = normal::normal_of(points, ring);
    let part = five::part_of(points, ring, n);
    let finding = first_failing(points, ring, tolerance, n);
    Look { finding, part }
}
