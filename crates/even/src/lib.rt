// Check 06: how far a ring's points are off its plane, told exactly in two machine words. Most points are settled by one.

#![tactic(auto)]

ghost use Rattle.std.specs.Prelude.{◌≡◌, ◌<◌, ◌≤◌, ◌*◌, max, length, pos, nat_abs, ◌*ℤ◌, false, leb, ltb, IfSome, unwrap_or};
ghost use Rattle.space.specs.Space.{places, relative_to, dot};
ghost use Rattle.space.specs.held.Points.{points_of, Known, place_at, as_point, Near};
ghost use Rattle.ring.specs.Entries.{is_unclosed};
ghost use Rattle.normal.specs.Normal.{normal};
ghost use Rattle.even.specs.Even.{uneven_at, square, squares};
ghost use Rattle.even.specs.held.Offs.{largest, Listed, Next};
ghost use Rattle.wide.specs.Value.{value};

use space::{Place, Points};
use wide::Wide;

// The tolerance times the largest of N's components: where the size of N·(p - first) is no more, p is within the tolerance.
fn reach_of(tolerance: u16, n: Place) -> u64
    requires tolerance_bound { tolerance ≤ 1000 }
    requires near { Near 10160000000000 (as_point n) }
    ensures { result ≡ tolerance * largest (as_point n) }
{
    let a = wide::size(n.x);
    let b = wide::size(n.y);
    let c = wide::size(n.z);
    (tolerance as u64) * a.max(b.max(c))
}

// "tolerance squared times the sum of the squares of N's components": each component times the tolerance, squared.
fn limit_of(tolerance: u16, n: Place) -> Wide
    requires tolerance_bound { tolerance ≤ 1000 }
    requires near { Near 10160000000000 (as_point n) }
    ensures { pos (value result) ≡ square (pos tolerance) *ℤ squares (as_point n) }
{
    let t = tolerance as u64;
    let a = t * wide::size(n.x);
    let b = t * wide::size(n.y);
    let c = t * wide::size(n.z);
    wide::squares(a, b, c)
}

// The size of N·(p - first).
fn off(points: &Points, n: Place, first: u16, p: u16) -> u64
    requires first_bound { (first < 512) × (p < 512) }
    requires near { Near 10160000000000 (as_point n) }
    ensures { result ≡ nat_abs (dot (as_point n) (relative_to (place_at points.now.flat first) (place_at points.now.flat p))) }
{
    wide::size(space::dot(n, points.toward(first, p)))
}

// Whether the square of a size exceeds a limit.
fn is_beyond(size: u64, limit: Wide) -> bool
    ensures { result ≡ ltb (value limit) (size * size) }
{
    wide::is_less(limit, wide::product(size, size))
}

// Whether N·(p - first) is within the reach: then p is within the tolerance.
fn is_near(points: &Points, n: Place, tolerance: u16, first: u16, p: u16) -> bool
    requires first_bound { (first < 512) × (p < 512) × (tolerance ≤ 1000) }
    requires near { Near 10160000000000 (as_point n) }
    ensures { result ≡ leb (nat_abs (dot (as_point n) (relative_to (place_at points.now.flat first) (place_at points.now.flat p)))) (tolerance * largest (as_point n)) }
{
    off(points, n, first, p) <= reach_of(tolerance, n)
}

// The first entry that is off by more than a reach.
fn first_off(points: &Points, ring: &[u16], n: Place, reach: u64) -> Option<usize>
    requires listed { Listed ring.now }
    requires in_bounds { 1 ≤ length ring.now }
    requires near { Near 10160000000000 (as_point n) }
    ensures few { IfSome result (λ i. i < length ring.now) }
    ensures next { Next points.now.flat (as_point n) ring.now reach 0 (unwrap_or result (length ring.now)) }
{
    for (i, p) in ring.iter().enumerate() {
        if reach < off(points, n, ring[0], *p) {
            return Some(i);
        }
    }
    None
}

// 06: the least entry p for which "the square of N·(p - first) exceeds tolerance squared times the sum of the squares of N's
// components". The limit is made once, and not at all where every entry is within the reach; no entry within it is squared.
pub fn first_uneven(points: &Points, ring: &[u16], tolerance: u16, n: Place) -> Option<usize>
    requires listed { Listed ring.now }
    requires in_bounds { (1 ≤ length ring.now) × (tolerance ≤ 1000) }
    requires near { Near 10160000000000 (as_point n) }
    ensures few { IfSome result (λ i. i < length ring.now) }
    ensures first { unwrap_or result (length ring.now) ≡ uneven_at tolerance (as_point n) (places (points_of points.now.flat) ring.now) }
{
    let reach = reach_of(tolerance, n);
    let from = first_off(points, ring, n, reach)?;
    let limit = limit_of(tolerance, n);
    for i in from..ring.len() {
        let size = off(points, n, ring[0], ring[i]);
        if reach < size && is_beyond(size, limit) {
            return Some(i);
        }
    }
    None
}

// 06 of a closed ring whose normal is n. Of four corners the second and the fourth are equally far off, and the third is not off:
// where the second is within the reach, all are.
pub fn first_uneven_closed(points: &Points, ring: &[u16], tolerance: u16, n: Place) -> Option<usize>
    requires known { Known ring.now }
    requires in_bounds { (1 ≤ length ring.now) × (is_unclosed ring.now ≡ false) × (tolerance ≤ 1000) }
    requires n_value { as_point n ≡ normal (places (points_of points.now.flat) ring.now) }
    ensures few { IfSome result (λ i. i < length ring.now) }
    ensures first { unwrap_or result (length ring.now) ≡ uneven_at tolerance (as_point n) (places (points_of points.now.flat) ring.now) }
{
    if ring.len() == 5 {
        let first = ring[0];
        let second = ring[1];
        if is_near(points, n, tolerance, first, second) {
            return None;
        }
    }
    first_uneven(points, ring, tolerance, n)
}
