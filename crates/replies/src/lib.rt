// The lines of a stream one after the other, each refused or taken, and answered.

#![tactic(auto)]

ghost use Rattle.std.specs.Prelude.{◌≡◌, ◌+◌, ◌*◌, ◌≤◌, length};
ghost use Rattle.lines.specs.Lines.{lines};
ghost use Rattle.service.specs.Service.{step};
ghost use Rattle.desk.specs.held.Holds.{service, Valid, Did};
ghost use Rattle.replies.specs.held.Answered.{idle_desk, Answered};

use building::{Arrays, Scalars};
use desk::Desk;
use frame::Fields;
use modes::Mode;
use ring::Rings;
use service::Refusal;
use shell::Shape;
use space::Points;

// One line: its frame is refused or taken, and answered.
fn one(line: &[u8], arrays: &mut Arrays, room: &mut [u8], d: Desk) -> Desk
    requires { (d.at + 33 ≤ length room.old) × Valid arrays.old d }
    ensures { Did (step (service arrays.old d) line.now) room.old d.at arrays.new room.new result }
{
    let Some(fields) = frame::decode(line) else {
        return desk::refuse(room, d, Refusal::Malformed);
    };
    match fields {
        Fields::Begin(tolerance) => load::begin(&mut arrays.table, room, d, tolerance),
        Fields::Point { x, y, z } => {
            load::add_point(&mut arrays.points.flat, &mut arrays.table, room, d, x, y, z)
        }
        Fields::Polygon(n) => rings::add_polygon(line, n, &mut arrays.rings, room, d),
        Fields::EndOfLoad => ended::end_load(arrays, room, d),
        Fields::Move {
            number,
            point,
            x,
            y,
            z,
        } => { amend::move_point(arrays, room, d, number, usize::from(point), x, y, z) }
        Fields::Turn { number, polygon } => {
            turning::turn_polygon(arrays, room, d, number, usize::from(polygon))
        }
        Fields::Question(p) => asking::ask(
            &arrays.stamps,
            &arrays.findings,
            &arrays.parts,
            room,
            d,
            usize::from(p),
        ),
        Fields::Across { first, second } => across::ask(&arrays.table, room, d, first, second),
    }
}

// The arrays before the first line: nothing but zeros.
fn fresh() -> Arrays
    ensures { Valid result idle_desk }
{
    Arrays {
        points: Points { flat: [0; 1536] },
        rings: Rings {
            entries: [0; 1024],
            starts: [0; 1025],
            firsts: [0; 257],
        },
        stamps: [0; 256],
        findings: [0; 256],
        parts: [0; 256],
        table: [0; 1024],
        turned: [0; 256],
    }
}

// No load running, no building held.
fn idle() -> Desk
    ensures { result ≡ idle_desk }
{
    let held = Scalars {
        tolerance: 0,
        points: 0,
        polygons: 0,
        last: 0,
        edges: 0,
        fixed: Shape::Whole,
        shape: Shape::Whole,
    };
    Desk {
        mode: Mode::Nothing,
        held,
        at: 0,
    }
}

// All lines of the stream; nothing is held before the first.
pub fn all(stream: &[u8], room: &mut [u8]) -> usize
    requires { (length stream.now ≤ 65535) × (33 * length (lines stream.now) ≤ length room.old) }
    ensures { Answered stream.now room.old room.new result }
{
    let mut arrays = fresh();
    let mut d = idle();
    let mut from = 0;
    while from < stream.len() {
        let end = lines::line_end(stream, from);
        d = one(&stream[from..end], &mut arrays, room, d);
        from = end + 1;
    }
    d.at
}
