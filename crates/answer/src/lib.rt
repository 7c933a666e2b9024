// Answers out: the digits of what comes back for a line, written into lent room.

#![tactic(auto)]

ghost use Rattle.std.specs.Prelude.{◌+◌, ◌<◌, ◌≤◌, ◌≡◌, length};
ghost use Rattle.std.proofs.lemmas.List.Edits.{sets};
ghost use Rattle.hexadecimal.specs.Hex.{digit, digits};
ghost use Rattle.lines.specs.Lines.{ended};
ghost use Rattle.answer.specs.Answer.{plain, reported, told, across};
ghost use Rattle.answer.specs.held.Wrote.{Wrote};

// The digit of a number below 16, without branches.
fn digit_of(n: u64) -> u8
    requires { n < 16 }
    ensures { result ≡ digit n }
{
    (n + 48 + (n + 6) / 16 * 7) as u8
}

// Writes the last k digits of v from an offset.
fn put_digits(room: &mut [u8], at: usize, k: usize, v: u64)
    requires { at + k ≤ length room.old }
    ensures { room.new ≡ sets room.old at (digits k v) }
{
    let mut left = v;
    for i in (0..k).rev() {
        room[at + i] = digit_of(left % 16);
        left /= 16;
    }
}

// Writes `00` or a refusal.
pub fn put_plain(room: &mut [u8], at: usize, n: u8) -> usize
    requires { at + 3 ≤ length room.old }
    ensures { Wrote (ended (plain n)) room.old at room.new result }
{
    put_digits(room, at, 2, u64::from(n));
    room[at + 2] = b'\n';
    at + 3
}

// Writes the report.
pub fn put_report(
    room: &mut [u8],
    at: usize,
    check: u8,
    a: usize,
    b: usize,
    faulty: usize,
    volume: i64,
) -> usize
    requires { at + 33 ≤ length room.old }
    ensures { Wrote (ended (reported check a b faulty volume)) room.old at room.new result }
{
    put_digits(room, at, 2, 0);
    put_digits(room, at + 2, 2, u64::from(check));
    put_digits(room, at + 4, 4, a as u64);
    put_digits(room, at + 8, 4, b as u64);
    put_digits(room, at + 12, 4, faulty as u64);
    put_digits(room, at + 16, 16, volume.cast_unsigned());
    room[at + 32] = b'\n';
    at + 33
}

// Writes the answer to a question.
pub fn put_told(
    room: &mut [u8],
    at: usize,
    finding: u8,
    position: usize,
    stamp: u32,
    part: i64,
) -> usize
    requires { at + 33 ≤ length room.old }
    ensures { Wrote (ended (told finding position stamp part)) room.old at room.new result }
{
    put_digits(room, at, 2, 0);
    put_digits(room, at + 2, 2, u64::from(finding));
    put_digits(room, at + 4, 4, position as u64);
    put_digits(room, at + 8, 8, u64::from(stamp));
    put_digits(room, at + 16, 16, part.cast_unsigned());
    room[at + 32] = b'\n';
    at + 33
}

// Writes the answer about an edge.
pub fn put_across(room: &mut [u8], at: usize, users: usize, lowest: usize, second: usize) -> usize
    requires { at + 15 ≤ length room.old }
    ensures { Wrote (ended (across users lowest second)) room.old at room.new result }
{
    put_digits(room, at, 2, 0);
    put_digits(room, at + 2, 4, users as u64);
    put_digits(room, at + 6, 4, lowest as u64);
    put_digits(room, at + 10, 4, second as u64);
    room[at + 14] = b'\n';
    at + 15
}
