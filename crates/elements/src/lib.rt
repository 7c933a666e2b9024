// The elements a and b of the check that a verdict names.

#![tactic(auto)]

ghost use Rattle.std.specs.Prelude.{◌≡◌};
ghost use Rattle.shell.specs.Shell.{shape_a_of, shape_b_of};
ghost use Rattle.building.specs.Report.{element_a_of, element_b_of};

use building::Verdict;
use shell::Shape;

// Element a of the check that a shape names.
fn shape_a(s: Shape) -> usize
    ensures { result ≡ shape_a_of s }
{
    match s {
        Shape::Whole => 0,
        Shape::Few(n) => n,
        Shape::Once(a, _) => a,
        Shape::Often(a, _) => a,
        Shape::Alike(a, _) => a,
        Shape::Apart(p) => p,
        Shape::Unlinked(v) => v,
    }
}

// Its element b.
fn shape_b(s: Shape) -> usize
    ensures { result ≡ shape_b_of s }
{
    match s {
        Shape::Whole => 0,
        Shape::Few(_) => 0,
        Shape::Once(_, b) => b,
        Shape::Often(_, b) => b,
        Shape::Alike(_, b) => b,
        Shape::Apart(_) => 0,
        Shape::Unlinked(_) => 0,
    }
}

// Element a of the check that a verdict names.
pub fn element_a(v: Verdict) -> usize
    ensures { result ≡ element_a_of v }
{
    match v {
        Verdict::Accepted => 0,
        Verdict::Faulty(a, _) => a,
        Verdict::Unsound(s) => shape_a(s),
        Verdict::Inward => 0,
    }
}

// Its element b: of a polygon's finding, its position.
pub fn element_b(v: Verdict) -> usize
    ensures { result ≡ element_b_of v }
{
    match v {
        Verdict::Accepted => 0,
        Verdict::Faulty(_, f) => building::finding_position(f) as usize,
        Verdict::Unsound(s) => shape_b(s),
        Verdict::Inward => 0,
    }
}
