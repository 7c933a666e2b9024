// The normal of a ring, for checks 04 to 06.

#![tactic(auto)]

ghost use Rattle.std.specs.Prelude.{◌≡◌, ◌<◌, ◌≤◌, length};
ghost use Rattle.space.specs.Space.{places, relative_to, cross, plus};
ghost use Rattle.space.specs.held.Points.{points_of, Known, place_at, as_point, Near};
ghost use Rattle.normal.specs.Normal.{normal};

use space::{Place, Points};

// The cross product of two ways.
fn cross(a: Place, b: Place) -> Place
    requires { (Near 200000 (as_point a)) × (Near 200000 (as_point b)) }
    ensures { as_point result ≡ cross (as_point a) (as_point b) }
{
    let x = a.y * b.z - a.z * b.y;
    let y = a.z * b.x - a.x * b.z;
    let z = a.x * b.y - a.y * b.x;
    Place { x, y, z }
}

// What is summed of cross products so far, and one more.
fn plus(p: Place, q: Place) -> Place
    requires { (Near 10160000000000 (as_point p)) × (Near 80000000000 (as_point q)) }
    ensures { as_point result ≡ plus (as_point p) (as_point q) }
{
    let x = p.x + q.x;
    let y = p.y + q.y;
    let z = p.z + q.z;
    Place { x, y, z }
}

// "the normal N is the sum, over consecutive entries, of the cross product of the two". Each entry's way from the first is
// found once, and kept for the next step.
pub fn normal(points: &Points, ring: &[u16]) -> Place
    requires known { Known ring.now }
    requires in_bounds { 1 ≤ length ring.now }
    ensures { as_point result ≡ normal (places (points_of points.now.flat) ring.now) }
{
    let first = ring[0];
    let mut last = points.toward(first, first);
    let mut sum = Place { x: 0, y: 0, z: 0 };
    for entry in &ring[1..] {
        let next = points.toward(first, *entry);
        let c = cross(last, next);
        sum = plus(sum, c);
        last = next;
    }
    sum
}

// N of the corners a, b, c.
fn normal_of_three(points: &Points, a: u16, b: u16, c: u16) -> Place
    requires { (a < 512) × (b < 512) × (c < 512) }
    ensures { as_point result ≡ cross (relative_to (place_at points.now.flat a) (place_at points.now.flat b)) (relative_to (place_at points.now.flat a) (place_at points.now.flat c)) }
{
    let p = points.toward(a, b);
    let q = points.toward(a, c);
    cross(p, q)
}

// N of the corners a, b, c, d: that of a, b, c and that of a, c, d.
fn normal_of_four(points: &Points, a: u16, b: u16, c: u16, d: u16) -> Place
    requires { (a < 512) × (b < 512) × (c < 512) × (d < 512) }
    ensures { as_point result ≡ plus (cross (relative_to (place_at points.now.flat a) (place_at points.now.flat b)) (relative_to (place_at points.now.flat a) (place_at points.now.flat c))) (cross (relative_to (place_at points.now.flat a) (place_at points.now.flat c)) (relative_to (place_at points.now.flat a) (place_at points.now.flat d))) }
{
    plus(
        normal_of_three(points, a, b, c),
        normal_of_three(points, a, c, d),
    )
}

// The normal of a ring: that of few corners needs no loop.
pub fn normal_of(points: &Points, ring: &[u16]) -> Place
    requires known { Known ring.now }
    requires in_bounds { 1 ≤ length ring.now }
    ensures { as_point result ≡ normal (places (points_of points.now.flat) ring.now) }
{
    if ring::is_closed(ring) {
        match ring {
            [a, b, c, _] => return normal_of_three(points, *a, *b, *c),
            [a, b, c, d, _] => return normal_of_four(points, *a, *b, *c, *d),
            _ => {}
        }
    }
    normal(points, ring)
}
