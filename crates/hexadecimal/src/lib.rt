// Upper-case hexadecimal: whether a line has digits only.

#![tactic(auto)]

ghost use Rattle.std.specs.Prelude.{◌≡◌};
ghost use Rattle.hexadecimal.specs.Hex.{is_hex_of, all_hex_of};

// Whether a byte is a digit; without branches, so that a line is tested many bytes at a time.
#[tactic(auto, using(std::proofs::lemmas::Bool::Decides::nat_tests), unfolding(crate::specs::Hex::is_hex_of))]
fn is_hex(b: u8) -> bool
    ensures { result ≡ is_hex_of b }
{
    (b'0' <= b) & (b <= b'9') | (b'A' <= b) & (b <= b'F')
}

// Whether each byte of a part of a line is a digit. The bytes of a part whose length is known beforehand are tested at once.
fn each_hex(part: &[u8]) -> bool
    ensures { result ≡ all_hex_of part.now }
{
    let mut good = true;
    for b in part {
        good &= is_hex(*b);
    }
    good
}

// Whether every byte of a line is a digit: sixteen bytes at a time, and at the end its last sixteen.
pub fn all_hex(line: &[u8]) -> bool
    ensures { result ≡ all_hex_of line.now }
{
    if line.len() < 16 {
        return each_hex(line);
    }
    let last = line.len() - 16;
    for at in (0..last).step_by(16) {
        if !each_hex(&line[at..at + 16]) {
            return false;
        }
    }
    each_hex(&line[last..])
}
