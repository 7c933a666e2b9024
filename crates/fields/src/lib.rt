// The unsigned fields of a line of digits: four or eight digits at a time.

#![tactic(auto)]

ghost use Rattle.std.specs.Prelude.{◌<◌, ◌^◌, ◌≡◌, true, take, drop};
ghost use Rattle.hexadecimal.specs.Hex.{is_hex_of, all_hex_of, digit_value_of, number};
ghost use Rattle.fields.specs.held.Fields.{HexField};

// The number of a digit; without branches, since the next digit cannot be foreseen.
fn digit_value(b: u8) -> u64
    requires { is_hex_of b ≡ true }
    ensures { (result ≡ digit_value_of b) × (result < 16) }
{
    u64::from(b % 16 + 9 * (b / 64))
}

// The number of four digits. They stand side by side in one word, the first lowest, and each step is taken for all of them: each
// byte's number, the numbers of two digits in every other byte, and these put together.
fn four_of(digits: [u8; 4]) -> u64
    requires { all_hex_of digits ≡ true }
    ensures { (result ≡ number digits) × (result < 65536) }
{
    let w = u64::from(u32::from_le_bytes(digits));
    let x = (w & 0x0f0f0f0f) + 9 * ((w & 0x40404040) / 64);
    let y = (x * 16 + x / 256) & 0x00ff00ff;
    (y * 256 + y / 65536) % 65536
}

// The number of eight digits, with one step more.
fn eight_of(digits: [u8; 8]) -> u64
    requires { all_hex_of digits ≡ true }
    ensures { (result ≡ number digits) × (result < 4294967296) }
{
    let w = u64::from_le_bytes(digits);
    let x = (w & 0x0f0f0f0f0f0f0f0f) + 9 * ((w & 0x4040404040404040) / 64);
    let y = (x * 16 + x / 256) & 0x00ff00ff00ff00ff;
    let z = (y * 256 + y / 65536) & 0x0000ffff0000ffff;
    (z * 65536 + z / 4294967296) % 4294967296
}

fn four(line: &[u8], at: usize) -> u64
    requires { HexField line.now at 4 }
    ensures { (result ≡ number (take 4 (drop at line.now))) × (result < 16 ^ 4) }
{
    four_of([line[at], line[at + 1], line[at + 2], line[at + 3]])
}

fn eight(line: &[u8], at: usize) -> u64
    requires { HexField line.now at 8 }
    ensures { (result ≡ number (take 8 (drop at line.now))) × (result < 16 ^ 8) }
{
    eight_of([
        line[at],
        line[at + 1],
        line[at + 2],
        line[at + 3],
        line[at + 4],
        line[at + 5],
        line[at + 6],
        line[at + 7],
    ])
}

// A field read digit by digit.
fn each_digit(line: &[u8], at: usize, k: usize) -> u64
    requires { HexField line.now at k }
    ensures { (result ≡ number (take k (drop at line.now))) × (result < 16 ^ k) }
{
    let mut v = 0;
    for i in 0..k {
        v = v * 16 + digit_value(line[at + i]);
    }
    v
}

// The unsigned field of k digits that starts at an offset.
pub fn unsigned(line: &[u8], at: usize, k: usize) -> u64
    requires { HexField line.now at k }
    ensures { (result ≡ number (take k (drop at line.now))) × (result < 16 ^ k) }
{
    match k {
        8 => eight(line, at),
        4 => four(line, at),
        _ => each_digit(line, at, k),
    }
}
