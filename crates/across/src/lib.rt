// Frame 0C, who is across an edge: why it is refused, and what it is answered.

#![tactic(auto)]

ghost use Rattle.std.specs.Prelude.{◌≡◌, ◌+◌, ◌≤◌, length};
ghost use Rattle.frame.specs.Frame as F;
ghost use Rattle.building.specs.declared.Arrays.{Arrays};
ghost use Rattle.desk.specs.held.Holds.{service, Valid, Did, does};
ghost use Rattle.across.specs.held.Across.{Sorted, AcrossRow};

use desk::Desk;
use service::Refusal;

// Why it is refused: "02 with no building held; 05 for an unknown point; two equal numbers also 05".
fn of_across(d: Desk, m: usize, n: usize) -> Result<(), Refusal>
    ensures { AcrossRow d m n result }
{
    let points = d.held.points;
    if !modes::is_holding(d.mode) {
        return Err(Refusal::Misplaced);
    }
    if points <= m || points <= n || m == n {
        return Err(Refusal::Absent);
    }
    Ok(())
}

// The users of the edge between points m and n, from the edge table that is kept with the building.
pub fn ask(table: &[u64; 1024], room: &mut [u8], d: Desk, m: u16, n: u16) -> Desk
    requires { (d.at + 33 ≤ length room.old) × Sorted table.now d }
    ensures { (a : Arrays) → a.table ≡ table.now → Valid a d → Did (does (service a d) (F.across m n)) room.old d.at a room.new result }
{
    if let Err(refusal) = of_across(d, usize::from(m), usize::from(n)) {
        return desk::refuse(room, d, refusal);
    }
    let users = users::users_of(&table[..d.held.edges], m, n);
    let at = answer::put_across(room, d.at, users.count, users.lowest, users.second);
    Desk { at, ..d }
}
