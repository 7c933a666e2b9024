// framecheck: reads standard input, calls the checker, and prints the answer bytes, or the negative number in decimal with a line feed.
// Where a read or a write fails it ends with that error: of a part of a stream nothing is told, and after a failed write nothing more is written.

#![tactic(auto)]

ghost use Rattle.std.specs.Prelude.{◌≤◌, length, IfOk};

use std::io::{self, Read, Write};

// The answer bytes.
fn show<W: Write>(out: &mut W, room: &[u8], n: usize) -> io::Result<()> {
    if n <= room.len() {
        return out.write_all(&room[..n]);
    }
    Ok(())
}

// The number of a refusal of the whole stream.
fn refused<W: Write>(out: &mut W, line: &[u8]) -> io::Result<()> {
    out.write_all(line)
}

fn tell<W: Write>(out: &mut W, r: i64, room: &[u8]) -> io::Result<()> {
    if r == -1 {
        refused(out, b"-1\n")
    } else if r == -2 {
        refused(out, b"-2\n")
    } else if r < 0 {
        refused(out, b"-3\n")
    } else {
        show(out, room, r as usize)
    }
}

// How many bytes of the input were read: all of them, or as many as the room takes.
fn read_full<R: Read>(input: &mut R, stream: &mut [u8]) -> io::Result<usize>
    ensures { IfOk result (λ n. n ≤ length stream.new) }
{
    let mut n = 0;
    while n < stream.len() {
        let k = input.read(&mut stream[n..])?;
        if k == 0 {
            return Ok(n);
        }
        n += k;
    }
    Ok(n)
}

// The stream's room is one byte longer than the longest stream, so that a longer one is told from it.
fn main(rt: HostRuntime) -> io::Result<()> {
    let mut stream = [0u8; 65536];
    let mut room = [0u8; 33792];
    let n = read_full(&mut rt.stdin().lock(), &mut stream)?;
    let r = checker::checker_answer(&stream[..n], &mut room);
    tell(&mut rt.stdout(), r, &room)
}
