// The table of points: a place held against its bound, and written there.

#![tactic(auto)]

ghost use Rattle.std.specs.Prelude.{◌≡◌, false, ◌<◌, ltb, length, nat_abs};
ghost use Rattle.places.specs.held.Places.{point3, placed};
ghost use Rattle.places.specs.Points.{is_far_of};

// Whether a coordinate is beyond its bound.
fn beyond(x: i64) -> bool
    ensures { result ≡ ltb 100000 (nat_abs x) }
{
    x.unsigned_abs() > 100000
}

// "tolerance or coordinate beyond its bound"
pub fn is_far(x: i64, y: i64, z: i64) -> bool
    ensures { result ≡ is_far_of (point3 x y z) }
{
    beyond(x) | beyond(y) | beyond(z)
}

// Point n at another place, within the bounds: a coordinate is held in half the room.
pub fn place(points: &mut [i32; 1536], n: usize, x: i64, y: i64, z: i64)
    requires points_len { (length points.old ≡ 1536) × (n < 512) }
    requires z_value { is_far_of (point3 x y z) ≡ false }
    ensures { points.new ≡ placed points.old n (point3 x y z) }
{
    let i = 3 * n;
    points[i] = x as i32;
    points[i + 1] = y as i32;
    points[i + 2] = z as i32;
}
