// Whether a place is that of another point: looked for among all points, or along the chain of its bucket.

#![tactic(auto)]

ghost use Rattle.std.specs.Prelude.{◌≡◌, false, ◌<◌, ◌≤◌, length, take};
ghost use Rattle.whole.specs.held.Small.{Small};
ghost use Rattle.whole.specs.held.Stored.{zeroed};
ghost use Rattle.space.specs.Space.{same_place_of};
ghost use Rattle.space.specs.held.Points.{points_of, place_at};
ghost use Rattle.places.specs.held.Places.{point3};
ghost use Rattle.places.specs.Points.{is_far_of, stands_else_of};
ghost use Rattle.taken.specs.held.Else.{else_at_of};
ghost use Rattle.taken.specs.held.Buckets.{lift, bucket_of};
ghost use Rattle.taken.specs.held.Chains.{linked, Chained};

// Whether a place is that of point p.
fn same_place(points: &[i32; 1536], p: usize, x: i64, y: i64, z: i64) -> bool
    requires { (length points.now ≡ 1536) × (p < 512) }
    ensures { result ≡ same_place_of (point3 x y z) (place_at points.now p) }
{
    let i = 3 * p;
    (x == i64::from(points[i])) & (y == i64::from(points[i + 1])) & (z == i64::from(points[i + 2]))
}

// The same, of a point that is not number n.
fn else_at(points: &[i32; 1536], p: usize, n: usize, x: i64, y: i64, z: i64) -> bool
    requires { (length points.now ≡ 1536) × (p < 512) }
    ensures { result ≡ else_at_of p n (point3 x y z) (place_at points.now p) }
{
    if p == n {
        return false;
    }
    same_place(points, p, x, y, z)
}

// "the place is that of another point": of one of the first count, but for number n.
pub fn stands_else(points: &[i32; 1536], count: usize, n: usize, x: i64, y: i64, z: i64) -> bool
    requires { (length points.now ≡ 1536) × (count ≤ 512) }
    ensures { result ≡ stands_else_of n (point3 x y z) (take count (points_of points.now)) }
{
    for i in 0..count {
        if else_at(points, i, n, x, y, z) {
            return true;
        }
    }
    false
}

// A coordinate within its bound, from that bound on.
fn lifted(x: i64) -> u64
    requires { Small 100000 x }
    ensures { result ≡ lift x }
{
    (x + 100000) as u64
}

// The bucket of a place within its bounds.
fn bucket(x: i64, y: i64, z: i64) -> usize
    requires { is_far_of (point3 x y z) ≡ false }
    ensures { result ≡ bucket_of (point3 x y z) }
{
    let sum = lifted(x) * 2654435761 + lifted(y) * 2246822519 + lifted(z) * 3266489917;
    (sum / 4194304 % 512) as usize
}

// Every chain is empty: the chains of no point.
pub fn clear(table: &mut [u64; 1024])
    requires { length table.old ≡ 1024 }
    ensures { table.new ≡ zeroed table.old 512 }
{
    table[..512].fill(0);
}

// "the place is that of another point": of one of the first n, looked for along the chain of its bucket.
pub fn is_taken(points: &[i32; 1536], table: &[u64; 1024], n: usize, x: i64, y: i64, z: i64) -> bool
    requires points_len { (length points.now ≡ 1536) × ((n ≤ 512) × (Chained points.now table.now n)) }
    requires z_value { is_far_of (point3 x y z) ≡ false }
    ensures { result ≡ stands_else_of n (point3 x y z) (take n (points_of points.now)) }
{
    let b = bucket(x, y, z);
    let mut k = table[b] as usize;
    while let Some(i) = k.checked_sub(1) {
        if same_place(points, i, x, y, z) {
            return true;
        }
        k = table[512 + i] as usize;
    }
    false
}

// Point n, which stands at a place within the bounds, becomes the first of its chain.
pub fn link(table: &mut [u64; 1024], n: usize, x: i64, y: i64, z: i64)
    requires table_len { (length table.old ≡ 1024) × (n < 512) }
    requires z_value { is_far_of (point3 x y z) ≡ false }
    ensures { table.new ≡ linked table.old n (point3 x y z) }
{
    let b = bucket(x, y, z);
    table[512 + n] = table[b];
    table[b] = (n + 1) as u64;
}
