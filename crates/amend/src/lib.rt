// Frame 05, a move: why it is refused, and what it does.

#![tactic(auto)]

ghost use Rattle.std.specs.Prelude.{◌≡◌, ◌+◌, ◌≤◌, length};
ghost use Rattle.frame.specs.Frame as F;
ghost use Rattle.desk.specs.held.Holds.{service, Valid, Did, does};
ghost use Rattle.amend.specs.held.Amend.{MoveRow};

use building::Arrays;
use desk::Desk;
use modes::Mode;
use service::Refusal;

// Why a move is refused: the rows that can refuse it, in their order.
fn of_move(
    points: &[i32; 1536],
    d: Desk,
    number: u32,
    p: usize,
    x: i64,
    y: i64,
    z: i64,
) -> Result<(), Refusal>
    requires { d.held.points ≤ 512 }
    ensures { MoveRow points.now d number p x y z result }
{
    let n = d.held.points;
    if !modes::is_holding(d.mode) {
        return Err(Refusal::Misplaced);
    }
    if number <= d.held.last {
        return Err(Refusal::Late);
    }
    if n <= p {
        return Err(Refusal::Absent);
    }
    if places::is_far(x, y, z) {
        return Err(Refusal::Beyond);
    }
    if taken::stands_else(points, n, p, x, y, z) {
        return Err(Refusal::Taken);
    }
    Ok(())
}

// A point moved, and the report.
pub fn move_point(
    arrays: &mut Arrays,
    room: &mut [u8],
    d: Desk,
    number: u32,
    p: usize,
    x: i64,
    y: i64,
    z: i64,
) -> Desk
    requires { (d.at + 33 ≤ length room.old) × Valid arrays.old d }
    ensures did { Did (does (service arrays.old d) (F.move number p x y z)) room.old d.at arrays.new room.new result }
    ensures rings { arrays.new.rings ≡ arrays.old.rings }
    ensures table { arrays.new.table ≡ arrays.old.table }
    ensures turned { arrays.new.turned ≡ arrays.old.turned }
{
    if let Err(refusal) = of_move(&arrays.points.flat, d, number, p, x, y, z) {
        return desk::refuse(room, d, refusal);
    }
    let held = moves::move_point(arrays, d.held, number, p, x, y, z);
    let at = telling::put_report(arrays, room, d.at, held);
    Desk {
        mode: Mode::Holding,
        held,
        at,
    }
}
