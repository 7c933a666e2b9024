// The lines of a stream: where each ends, and how many there are.

#![tactic(auto)]

ghost use Rattle.std.specs.Prelude.{◌≤◌, ◌≡◌, false, length};
ghost use Rattle.lines.specs.Lines.{lines};
ghost use Rattle.lines.specs.held.Offsets.{line_end_of, feeds};

// Whether a part of a stream has a line feed. All its bytes are looked at, so that those of a part whose length is known beforehand
// are tested at once.
fn has_feed(part: &[u8]) -> bool
    ensures { result ≡ false → feeds part.now ≡ 0 }
{
    let mut found = false;
    for b in part {
        found |= *b == b'\n';
    }
    found
}

// The offset itself, or one further on in its line, with whole eights of bytes that are no line feeds left behind.
fn nearer(stream: &[u8], from: usize) -> usize
    ensures { line_end_of stream.now result ≡ line_end_of stream.now from }
{
    let Some(last) = stream.len().checked_sub(8) else {
        return from;
    };
    let mut i = from;
    while i <= last && !has_feed(&stream[i..i + 8]) {
        i += 8;
    }
    i
}

// Where the line that starts at an offset ends: at its line feed, or at the stream's end.
pub fn line_end(stream: &[u8], from: usize) -> usize
    ensures { result ≡ line_end_of stream.now from }
{
    let near = nearer(stream, from);
    for i in near..stream.len() {
        if stream[i] == b'\n' {
            return i;
        }
    }
    near.max(stream.len())
}

// How many line feeds a short part of a stream has: counted in a byte, many bytes are tested at a time.
fn feeds_in(part: &[u8]) -> u8
    requires { length part.now ≤ 255 }
    ensures { result ≡ feeds part.now }
{
    let mut n = 0;
    for b in part {
        if *b == b'\n' {
            n += 1;
        }
    }
    n
}

// How many lines a stream has: its last byte ends or is in the last line, each line feed before it ends one more.
pub fn count_lines(stream: &[u8]) -> usize
    ensures { result ≡ length (lines stream.now) }
{
    if stream.is_empty() {
        return 0;
    }
    let mut n = 1;
    for part in stream[..stream.len() - 1].chunks(240) {
        n += usize::from(feeds_in(part));
    }
    n
}
