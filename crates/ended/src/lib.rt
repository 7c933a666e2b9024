// Frame 04, end of load: why it is refused, and what it does.

#![tactic(auto)]

ghost use Rattle.std.specs.Prelude.{◌≡◌, ◌+◌, ◌≤◌, length};
ghost use Rattle.frame.specs.Frame as F;
ghost use Rattle.desk.specs.held.Holds.{service, Valid, Did, does};
ghost use Rattle.ended.specs.held.Ended.{EndRow};

use building::Arrays;
use desk::Desk;
use modes::Mode;
use service::Refusal;

// Why end of load is refused.
fn of_end(d: Desk) -> Result<(), Refusal>
    ensures { EndRow d result }
{
    if !modes::is_loading(d.mode) {
        return Err(Refusal::Misplaced);
    }
    Ok(())
}

// End of load ends the load, checks the building and holds it.
pub fn end_load(arrays: &mut Arrays, room: &mut [u8], d: Desk) -> Desk
    requires { (d.at + 33 ≤ length room.old) × Valid arrays.old d }
    ensures did { Did (does (service arrays.old d) F.end_of_load) room.old d.at arrays.new room.new result }
    ensures points { arrays.new.points.flat ≡ arrays.old.points.flat }
    ensures rings { arrays.new.rings ≡ arrays.old.rings }
{
    if let Err(refusal) = of_end(d) {
        return desk::refuse(room, d, refusal);
    }
    let held = checks::check_all(arrays, d.held);
    let at = telling::put_report(arrays, room, d.at, held);
    Desk {
        mode: Mode::Holding,
        held,
        at,
    }
}
