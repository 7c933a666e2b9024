// What nodes reach along links, by marks: two nodes that are linked, of which one is marked.

#![tactic(auto)]

ghost use Rattle.std.specs.Prelude.{◌≡◌, ◌/◌, ◌<◌, length};
ghost use Rattle.bits.specs.held.Bits.{marks_of};
ghost use Rattle.reach.specs.held.Marking.{Joint};

// Marks both of two nodes where one is marked; whether the other was not. Two tests are quicker than one that compares the marks: each
// ends where it knows, and the word of the marked node need not be stored again.
pub fn join(marks: &mut [u64], x: usize, y: usize) -> bool
    requires { (x / 64 < length marks.old) × (y / 64 < length marks.old) }
    ensures { (length marks.new ≡ length marks.old) × Joint x y (marks_of marks.old) (marks_of marks.new) result }
{
    let a = bits::is_marked(marks, x);
    let b = bits::is_marked(marks, y);
    if a {
        if b {
            return false;
        }
        bits::mark(marks, y);
        return true;
    }
    if b {
        bits::mark(marks, x);
        return true;
    }
    false
}
