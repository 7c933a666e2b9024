// Frame 06, a turn: why it is refused, and what it does.

#![tactic(auto)]

ghost use Rattle.std.specs.Prelude.{◌≡◌, ◌+◌, ◌≤◌, length};
ghost use Rattle.frame.specs.Frame as F;
ghost use Rattle.desk.specs.held.Holds.{service, Valid, Did, does};
ghost use Rattle.turning.specs.held.Turning.{TurnRow};

use building::Arrays;
use desk::Desk;
use modes::Mode;
use service::Refusal;

// Why a turn is refused.
fn of_turn(d: Desk, number: u32, p: usize) -> Result<(), Refusal>
    ensures { TurnRow d number p result }
{
    if !modes::is_holding(d.mode) {
        return Err(Refusal::Misplaced);
    }
    if number <= d.held.last {
        return Err(Refusal::Late);
    }
    if d.held.polygons <= p {
        return Err(Refusal::Absent);
    }
    Ok(())
}

// A polygon turned, and the report.
pub fn turn_polygon(arrays: &mut Arrays, room: &mut [u8], d: Desk, number: u32, p: usize) -> Desk
    requires { (d.at + 33 ≤ length room.old) × Valid arrays.old d }
    ensures did { Did (does (service arrays.old d) (F.turn number p)) room.old d.at arrays.new room.new result }
    ensures points { arrays.new.points.flat ≡ arrays.old.points.flat }
    ensures starts { arrays.new.rings.starts ≡ arrays.old.rings.starts }
    ensures firsts { arrays.new.rings.firsts ≡ arrays.old.rings.firsts }
    ensures table { arrays.new.table ≡ arrays.old.table }
{
    if let Err(refusal) = of_turn(d, number, p) {
        return desk::refuse(room, d, refusal);
    }
    let held = turns::turn_polygon(arrays, d.held, number, p);
    let at = telling::put_report(arrays, room, d.at, held);
    Desk {
        mode: Mode::Holding,
        held,
        at,
    }
}
