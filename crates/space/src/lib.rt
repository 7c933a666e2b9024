// Places and ways in space: where points stand.

#![tactic(auto)]

ghost use Rattle.std.specs.Prelude.{◌≡◌, ◌+◌, ◌<◌, ◌≤◌, ◌*◌, get_or, pos};
ghost use Rattle.space.specs.held.Points.{Coords, place_at, as_point, Near};
ghost use Rattle.space.specs.Space.{relative_to, dot};

// An axis of space; one is dropped for check 05.
#[derive(Clone, Copy)]
pub enum Axis {
    X,
    Y,
    Z,
}

// A place, or the way from one place to another.
#[derive(Clone, Copy)]
pub struct Place {
    pub x: i64,
    pub y: i64,
    pub z: i64,
}

// The points: three numbers to a point, one after another, each within its bound.
#[derive(Drop)]
pub struct Points {
    pub flat: [i32; 1536],
    pub ghost coords: { Coords flat },
}

impl Points {
    // Where point p stands.
    pub fn place(&self, p: u16) -> Place
        requires { p < 512 }
        ensures { as_point result ≡ place_at self.now.flat p }
    {
        let i = 3 * usize::from(p);
        let x = i64::from(self.flat[i]);
        let y = i64::from(self.flat[i + 1]);
        let z = i64::from(self.flat[i + 2]);
        Place { x, y, z }
    }

    // Coordinate k of point p.
    pub fn coordinate(&self, p: u16, k: usize) -> i64
        requires { (p < 512) × (k ≤ 2) }
        ensures { result ≡ get_or self.now.flat (3 * p + k) (pos 0) }
    {
        let i = 3 * usize::from(p) + k;
        i64::from(self.flat[i])
    }

    // q relative to p.
    pub fn toward(&self, p: u16, q: u16) -> Place
        requires { (p < 512) × (q < 512) }
        ensures { as_point result ≡ relative_to (place_at self.now.flat p) (place_at self.now.flat q) }
    {
        let a = self.place(p);
        let b = self.place(q);
        let x = b.x - a.x;
        let y = b.y - a.y;
        let z = b.z - a.z;
        Place { x, y, z }
    }
}

// N·p, for a normal and a way.
pub fn dot(a: Place, b: Place) -> i64
    requires { (Near 10160000000000 (as_point a)) × (Near 200000 (as_point b)) }
    ensures { result ≡ dot (as_point a) (as_point b) }
{
    a.x * b.x + a.y * b.y + a.z * b.z
}
