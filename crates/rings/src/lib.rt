// Frame 03, a polygon more: why it is refused, and what it does.

#![tactic(auto)]

ghost use Rattle.std.specs.Prelude.{◌≡◌, ◌+◌, ◌≤◌, length, drop, leb};
ghost use Rattle.std.proofs.lemmas.List.Edits.{sets};
ghost use Rattle.frame.specs.Frame as F;
ghost use Rattle.frame.specs.Frame.{numbers};
ghost use Rattle.building.specs.declared.Arrays.{Arrays};
ghost use Rattle.desk.specs.held.Holds.{service, Valid, Did, does};
ghost use Rattle.rings.specs.held.Rings.{with_rings, Ends, PolygonLine, PolygonRow};
ghost use Rattle.whole.specs.Lists.{any};

use building::Scalars;
use desk::Desk;
use modes::Mode;
use ring::Rings;
use service::Refusal;
use shell::Shape;

// Whether some number of a polygon's line is not below the count of points.
fn names_absent(line: &[u8], n: usize, points: usize) -> bool
    requires { PolygonLine line.now n }
    ensures { result ≡ any (leb points) (numbers (drop 2 line.now)) }
{
    for i in 0..n {
        let e = usize::from(frame::entry(line, i));
        if points <= e {
            return true;
        }
    }
    false
}

// Why a polygon more is refused.
fn of_polygon(line: &[u8], n: usize, rings: &Rings, d: Desk) -> Result<(), Refusal>
    requires { (PolygonLine line.now n) × (Ends rings.now.starts rings.now.firsts d.held.polygons) }
    ensures { PolygonRow rings.now.starts rings.now.firsts d (numbers (drop 2 line.now)) result }
{
    let polygons = d.held.polygons;
    if !modes::is_loading(d.mode) {
        return Err(Refusal::Misplaced);
    }
    if names_absent(line, n, d.held.points) {
        return Err(Refusal::Absent);
    }
    if 256 <= polygons {
        return Err(Refusal::Full);
    }
    let first = usize::from(rings.firsts[polygons]);
    let used = usize::from(rings.starts[first]);
    if 1024 < used + n {
        return Err(Refusal::Full);
    }
    Ok(())
}

// The numbers of a polygon's line, into the entries from a place on.
fn copy_ring(line: &[u8], n: usize, entries: &mut [u16; 1024], from: usize)
    requires { (PolygonLine line.now n) × (from + n ≤ 1024) }
    ensures { entries.new ≡ sets entries.old from (numbers (drop 2 line.now)) }
{
    for i in 0..n {
        entries[from + i] = frame::entry(line, i);
    }
}

// A polygon more.
pub fn add_polygon(line: &[u8], n: usize, rings: &mut Rings, room: &mut [u8], d: Desk) -> Desk
    requires { (d.at + 33 ≤ length room.old) × ((PolygonLine line.now n) × (Ends rings.old.starts rings.old.firsts d.held.polygons)) }
    ensures { (a : Arrays) → a.rings ≡ rings.old → Valid a d → Did (does (service a d) (F.polygon (numbers (drop 2 line.now)))) room.old d.at (with_rings rings.new a) room.new result }
{
    if let Err(refusal) = of_polygon(line, n, rings, d) {
        return desk::refuse(room, d, refusal);
    }
    let m = d.held.polygons;
    let first = usize::from(rings.firsts[m]);
    let used = usize::from(rings.starts[first]);
    copy_ring(line, n, &mut rings.entries, used);
    building::close(&mut rings.starts, first, used + n);
    building::close(&mut rings.firsts, m, first + 1);
    let at = answer::put_plain(room, d.at, 0);
    let held = Scalars {
        polygons: m + 1,
        fixed: Shape::Whole,
        shape: Shape::Whole,
        ..d.held
    };
    Desk {
        mode: Mode::Loading,
        held,
        at,
    }
}
