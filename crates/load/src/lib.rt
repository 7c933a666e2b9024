// Frames 01 and 02: begin, and a point more.

#![tactic(auto)]

use building::Scalars;
use desk::Desk;
use modes::Mode;
use service::Refusal;
use shell::Shape;

mod points;

ghost use Rattle.std.specs.Prelude.{◌≡◌, ◌+◌, ◌≤◌, length};
ghost use Rattle.frame.specs.Frame as F;
ghost use Rattle.building.specs.declared.Arrays.{Arrays};
ghost use Rattle.desk.specs.held.Holds.{service, Valid, Did, does};
ghost use Rattle.load.specs.held.Load.{unchained, with_points};

pub use points::add_point;

// No point is linked. Before the first load of a call none has been, so that there is nothing to clear.
fn clear_chains(table: &mut [u64; 1024], mode: Mode)
    ensures { table.new ≡ unchained mode table.old }
{
    match mode {
        Mode::Nothing => {}
        Mode::Loading | Mode::Holding => taken::clear(table),
    }
}

// Accepted begin drops all that was held and starts a load.
pub fn begin(table: &mut [u64; 1024], room: &mut [u8], d: Desk, tolerance: u16) -> Desk
    requires { d.at + 33 ≤ length room.old }
    ensures { (a : Arrays) → a.table ≡ table.old → Valid a d → Did (does (service a d) (F.begin tolerance)) room.old d.at (with_points a.points table.new a) room.new result }
{
    if 1000 < tolerance {
        return desk::refuse(room, d, Refusal::Beyond);
    }
    clear_chains(table, d.mode);
    let at = answer::put_plain(room, d.at, 0);
    let held = Scalars {
        tolerance,
        points: 0,
        polygons: 0,
        last: 0,
        edges: 0,
        fixed: Shape::Whole,
        shape: Shape::Whole,
    };
    Desk {
        mode: Mode::Loading,
        held,
        at,
    }
}
