// Frame 02, a point more: why it is refused, and what it does.
ghost use Rattle.std.specs.Prelude.{◌≡◌, ◌+◌, ◌≤◌, length};
ghost use Rattle.frame.specs.Frame as F;
ghost use Rattle.space.specs.held.Points.{Coords};
ghost use Rattle.space.specs.declared.Points.{Points};
ghost use Rattle.building.specs.declared.Arrays.{Arrays};
ghost use Rattle.desk.specs.held.Holds.{service, Valid, Did, does};
ghost use Rattle.load.specs.held.Load.{with_points, Placing, PointRow};

use building::Scalars;
use desk::Desk;
use modes::Mode;
use service::Refusal;
use shell::Shape;

// Why a point more is refused: the rows that can refuse it, in their order.
fn of_point(
    points: &[i32; 1536],
    table: &[u64; 1024],
    d: Desk,
    x: i64,
    y: i64,
    z: i64,
) -> Result<(), Refusal>
    requires { Placing points.now table.now d }
    ensures { PointRow points.now d x y z result }
{
    let n = d.held.points;
    if !modes::is_loading(d.mode) {
        return Err(Refusal::Misplaced);
    }
    if places::is_far(x, y, z) {
        return Err(Refusal::Beyond);
    }
    if 512 <= n {
        return Err(Refusal::Full);
    }
    if taken::is_taken(points, table, n, x, y, z) {
        return Err(Refusal::Taken);
    }
    Ok(())
}

// A point more.
pub fn add_point(
    points: &mut [i32; 1536],
    table: &mut [u64; 1024],
    room: &mut [u8],
    d: Desk,
    x: i64,
    y: i64,
    z: i64,
) -> Desk
    requires { (d.at + 33 ≤ length room.old) × (Placing points.old table.old d) }
    ensures near { Coords points.old → Coords points.new }
    ensures did { (a : Arrays) → a.points.flat ≡ points.old → a.table ≡ table.old → Valid a d → (after : Points) → after.flat ≡ points.new → Did (does (service a d) (F.point x y z)) room.old d.at (with_points after table.new a) room.new result }
{
    if let Err(refusal) = of_point(points, table, d, x, y, z) {
        return desk::refuse(room, d, refusal);
    }
    let n = d.held.points;
    places::place(points, n, x, y, z);
    taken::link(table, n, x, y, z);
    let at = answer::put_plain(room, d.at, 0);
    let held = Scalars {
        points: n + 1,
        fixed: Shape::Whole,
        shape: Shape::Whole,
        ..d.held
    };
    Desk {
        mode: Mode::Loading,
        held,
        at,
    }
}
