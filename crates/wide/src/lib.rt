// Two machine words as one exact number: product, sum and order.

#![tactic(auto)]

ghost use Rattle.std.specs.Prelude.{◌≡◌, ◌+◌, ◌*◌, ◌^◌, ◌<◌, nat_lt, unsigned_abs};
ghost use Rattle.wide.specs.Value.{value};

// The number `high` · 2^64 + `low`. The high word comes first, so that the derived order is the numbers' order.
#[derive(Clone, Copy, PartialEq, Eq, PartialOrd, Ord)]
pub struct Wide {
    pub high: u64,
    pub low: u64,
}

// The product of two words. Each is cut into halves of 32 bits, so that each of the four products of halves fits a word, and
// these are added column by column with their carries.
pub fn product(a: u64, b: u64) -> Wide
    ensures { value result ≡ a * b }
{
    let a0 = a % 4294967296;
    let a1 = a / 4294967296;
    let b0 = b % 4294967296;
    let b1 = b / 4294967296;
    let first = a0 * b0;
    let second = a1 * b0 + first / 4294967296;
    let third = a0 * b1 + second % 4294967296;
    let high = a1 * b1 + second / 4294967296 + third / 4294967296;
    let low = third % 4294967296 * 4294967296 + first % 4294967296;
    Wide { high, low }
}

// The sum of two that together stay below 2^128.
pub fn sum(a: Wide, b: Wide) -> Wide
    requires { value a + value b < 2 ^ 128 }
    ensures { value result ≡ value a + value b }
{
    let (low, carried) = a.low.overflowing_add(b.low);
    let high = a.high + b.high + u64::from(carried);
    Wide { high, low }
}

// Whether a is less than b.
pub fn is_less(a: Wide, b: Wide) -> bool
    ensures { result ≡ nat_lt (value a) (value b) }
{
    a < b
}

// The size of a signed word.
pub fn size(z: i64) -> u64
    ensures { result ≡ unsigned_abs z }
{
    z.unsigned_abs()
}

// The sum of three squares.
pub fn squares(x: u64, y: u64, z: u64) -> Wide
    requires { (x < 2 ^ 63) × (y < 2 ^ 63) × (z < 2 ^ 63) }
    ensures { value result ≡ x * x + y * y + z * z }
{
    sum(sum(product(x, x), product(y, y)), product(z, z))
}
