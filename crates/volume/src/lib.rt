// A polygon's part of the six-volume.

#![tactic(auto)]

ghost use Rattle.std.specs.Prelude.{◌≡◌, ◌<◌};
ghost use Rattle.space.specs.held.Points.{points_of, Known, place_at};
ghost use Rattle.space.specs.Space.{determinant};
ghost use Rattle.volume.specs.held.Rows.{row_of, Rows};
ghost use Rattle.volume.specs.Part.{part};

use space::Points;

// "the three points taken as three rows of three numbers"
fn determinant(m: [[i64; 3]; 3]) -> i64
    requires { Rows m }
    ensures { result ≡ determinant (row_of m 0) (row_of m 1) (row_of m 2) }
{
    let [a, b, c] = m;
    a[0] * (b[1] * c[2] - b[2] * c[1]) - a[1] * (b[0] * c[2] - b[2] * c[0])
        + a[2] * (b[0] * c[1] - b[1] * c[0])
}

// "the determinant of first, p, q"
fn determinant_of(points: &Points, first: u16, p: u16, q: u16) -> i64
    requires { (first < 512) × (p < 512) × (q < 512) }
    ensures { result ≡ determinant (place_at points.now.flat first) (place_at points.now.flat p) (place_at points.now.flat q) }
{
    let a = points.place(first);
    let b = points.place(p);
    let c = points.place(q);
    determinant([[a.x, a.y, a.z], [b.x, b.y, b.z], [c.x, c.y, c.z]])
}

// A polygon's part of the six-volume: "the sum, over consecutive entries p, q, of the determinant of first, p, q".
pub fn part_of(points: &Points, ring: &[u16]) -> i64
    requires { Known ring.now }
    ensures { result ≡ part (points_of points.now.flat) ring.now }
{
    if ring.is_empty() {
        return 0;
    }
    let first = ring[0];
    let mut last = first;
    let mut sum: i64 = 0;
    for next in &ring[1..] {
        sum += determinant_of(points, first, last, *next);
        last = *next;
    }
    sum
}
