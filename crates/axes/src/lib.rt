// The axis that is dropped for check 05.

#![tactic(auto)]

ghost use Rattle.std.specs.Prelude.{◌≡◌};
ghost use Rattle.plane.specs.Plane.{largest_axis_of};
ghost use Rattle.space.specs.held.Points.{as_point, Near};

use space::{Axis, Place};

// "the axis where N is largest in size (ties: x, then y)"
#[tactic(auto, using(space::specs::laws::Numbers::size_is, std::proofs::lemmas::Bool::Decides::nat_tests), unfolding(plane::specs::Plane::largest_axis_of))]
pub fn largest_axis(n: Place) -> Axis
    requires { Near 10160000000000 (as_point n) }
    ensures { result ≡ largest_axis_of (as_point n) }
{
    let x = wide::size(n.x);
    let y = wide::size(n.y);
    let z = wide::size(n.z);
    if y <= x && z <= x {
        Axis::X
    } else if z <= y {
        Axis::Y
    } else {
        Axis::Z
    }
}
