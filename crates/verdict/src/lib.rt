// Document 01's number of the check that a verdict names.

#![tactic(auto)]

ghost use Rattle.std.specs.Prelude.{◌≡◌};
ghost use Rattle.shell.specs.Shell.{shape_number_of};
ghost use Rattle.building.specs.Report.{check_number_of};

use building::Verdict;
use shell::Shape;

// Document 01's number of the check that a shape names.
pub fn shape_number(s: Shape) -> u8
    ensures { result ≡ shape_number_of s }
{
    match s {
        Shape::Whole => 0,
        Shape::Few(_) => 7,
        Shape::Once(_, _) => 8,
        Shape::Often(_, _) => 9,
        Shape::Alike(_, _) => 10,
        Shape::Apart(_) => 11,
        Shape::Unlinked(_) => 12,
    }
}

// The number of the check that a verdict names.
pub fn check_number(v: Verdict) -> u8
    ensures { result ≡ check_number_of v }
{
    match v {
        Verdict::Accepted => 0,
        Verdict::Faulty(_, f) => building::finding_number(f),
        Verdict::Unsound(s) => shape_number(s),
        Verdict::Inward => 13,
    }
}
