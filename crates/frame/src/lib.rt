// Frames in: the frame of a line.

#![tactic(auto)]

ghost use Rattle.std.specs.Prelude.{◌≡◌, true, take, drop, get_or};
ghost use Rattle.hexadecimal.specs.Hex.{all_hex_of, number, signed32};
ghost use Rattle.fields.specs.held.Fields.{HexField};
ghost use Rattle.frame.specs.Frame.{Kind, numbers, decode};
ghost use Rattle.frame.specs.held.Meaning.{meaning, Listed, shaped};

// The frame of a line, by value; a polygon's point numbers stay in its line, where `entry` reads them.
#[derive(Clone, Copy)]
pub enum Fields {
    Begin(u16),
    Point {
        x: i64,
        y: i64,
        z: i64,
    },
    Polygon(usize),
    EndOfLoad,
    Move {
        number: u32,
        point: u16,
        x: i64,
        y: i64,
        z: i64,
    },
    Turn {
        number: u32,
        polygon: u16,
    },
    Question(u16),
    Across {
        first: u16,
        second: u16,
    },
}

// The frame of a line; none for a line that is broken.
pub fn decode(line: &[u8]) -> Option<Fields>
    ensures { meaning result line.now ≡ decode line.now }
{
    if line.len() < 2 || !hexadecimal::all_hex(line) {
        return None;
    }
    match fields::unsigned(line, 0, 2) {
        1 => read_begin(line),
        2 => read_point(line),
        3 => read_polygon(line),
        4 => read_end_of_load(line),
        5 => read_move(line),
        6 => read_turn(line),
        7 => read_question(line),
        12 => read_across(line),
        _ => None,
    }
}

fn read_begin(line: &[u8]) -> Option<Fields>
    requires { all_hex_of line.now ≡ true }
    ensures { meaning result line.now ≡ shaped Kind.begin line.now }
{
    if line.len() != 6 {
        return None;
    }
    Some(Fields::Begin(fields::unsigned(line, 2, 4) as u16))
}

fn read_point(line: &[u8]) -> Option<Fields>
    requires { all_hex_of line.now ≡ true }
    ensures { meaning result line.now ≡ shaped Kind.point line.now }
{
    if line.len() != 26 {
        return None;
    }
    Some(Fields::Point {
        x: coordinate(line, 2),
        y: coordinate(line, 10),
        z: coordinate(line, 18),
    })
}

fn read_polygon(line: &[u8]) -> Option<Fields>
    ensures { meaning result line.now ≡ shaped Kind.polygon line.now }
{
    let n = line.len();
    if n > 514 || n % 4 != 2 {
        return None;
    }
    Some(Fields::Polygon((n - 2) / 4))
}

fn read_end_of_load(line: &[u8]) -> Option<Fields>
    ensures { meaning result line.now ≡ shaped Kind.end_of_load line.now }
{
    if line.len() != 2 {
        return None;
    }
    Some(Fields::EndOfLoad)
}

fn read_move(line: &[u8]) -> Option<Fields>
    requires { all_hex_of line.now ≡ true }
    ensures { meaning result line.now ≡ shaped Kind.move line.now }
{
    if line.len() != 38 {
        return None;
    }
    Some(Fields::Move {
        number: fields::unsigned(line, 2, 8) as u32,
        point: fields::unsigned(line, 10, 4) as u16,
        x: coordinate(line, 14),
        y: coordinate(line, 22),
        z: coordinate(line, 30),
    })
}

fn read_turn(line: &[u8]) -> Option<Fields>
    requires { all_hex_of line.now ≡ true }
    ensures { meaning result line.now ≡ shaped Kind.turn line.now }
{
    if line.len() != 14 {
        return None;
    }
    Some(Fields::Turn {
        number: fields::unsigned(line, 2, 8) as u32,
        polygon: fields::unsigned(line, 10, 4) as u16,
    })
}

fn read_question(line: &[u8]) -> Option<Fields>
    requires { all_hex_of line.now ≡ true }
    ensures { meaning result line.now ≡ shaped Kind.question line.now }
{
    if line.len() != 6 {
        return None;
    }
    Some(Fields::Question(fields::unsigned(line, 2, 4) as u16))
}

fn read_across(line: &[u8]) -> Option<Fields>
    requires { all_hex_of line.now ≡ true }
    ensures { meaning result line.now ≡ shaped Kind.across line.now }
{
    if line.len() != 10 {
        return None;
    }
    Some(Fields::Across {
        first: fields::unsigned(line, 2, 4) as u16,
        second: fields::unsigned(line, 6, 4) as u16,
    })
}

// The coordinate that starts at an offset: 32 bits in two's complement.
fn coordinate(line: &[u8], at: usize) -> i64
    requires { HexField line.now at 8 }
    ensures { result ≡ signed32 (number (take 8 (drop at line.now))) }
{
    let bits = fields::unsigned(line, at, 8) as u32;
    i64::from(bits.cast_signed())
}

// The i-th point number of a polygon frame's line.
pub fn entry(line: &[u8], i: usize) -> u16
    requires { Listed line.now i }
    ensures { result ≡ get_or (numbers (drop 2 line.now)) i 0 }
{
    fields::unsigned(line, 2 + 4 * i, 4) as u16
}
