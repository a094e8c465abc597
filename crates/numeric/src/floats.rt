// Integers and floats to floats, as patterns in a u64. The bits above a number's own are not looked at.
ghost use Rattle.std.specs.Prelude.{◌≡◌, ◌<◌};
ghost use Rattle.numeric.specs.Rounding.{infinity};
ghost use Rattle.numeric.specs.Floats.{float_bytes, finite, converted, integer_to_float, float_to_float};
ghost use Rattle.numeric.specs.code.Answers.{IsBinaryOf};

use crate::integers::{Integer, number};
use crate::round::{Binary, power, round_to};

// IEEE 754's binary formats.
#[derive(Clone, Copy)]
pub enum Format {
    Binary16,
    Binary32,
    Binary64,
}

// How many bytes a pattern takes.
pub fn float_bytes(f: Format) -> u8
    ensures { result ≡ float_bytes f }
{
    match f {
        Format::Binary16 => 2,
        Format::Binary32 => 4,
        Format::Binary64 => 8,
    }
}

impl From<Format> for Binary {
    ghost from_gives = { λ f b. IsBinaryOf f b };

    fn from(f: Format) -> Binary {
        match f {
            Format::Binary16 => Binary {
                precision: 11,
                max_exponent: 15,
            },
            Format::Binary32 => Binary {
                precision: 24,
                max_exponent: 127,
            },
            Format::Binary64 => Binary {
                precision: 53,
                max_exponent: 1023,
            },
        }
    }
}

// The integer that the pattern b is of a kind, in a format.
#[tactic(auto, using(crate::proofs::Conversions::of_integer), unfolding(crate::specs::Floats::integer_to_float))]
pub fn from_integer(b: u64, from: Integer, to: Format) -> u64
    ensures { result ≡ integer_to_float from to b }
{
    let to = Binary::from(to);
    let n = number(b, from);
    let magnitude = round_to(n.unsigned_abs() as u64, 0, 0, to);
    if n < 0 {
        to.sign_bit() + magnitude
    } else {
        magnitude
    }
}

// The finite m of one format, without a sign, in another.
fn convert_finite(m: u64, from: Binary, to: Binary) -> u64
    requires { m < infinity from.precision from.max_exponent }
    ensures { result ≡ finite from.precision from.max_exponent to.precision to.max_exponent m }
{
    let h = from.hidden();
    let e = m / h;
    let t = m % h;
    if e == 0 {
        round_to(t, 0, from.scale(), to)
    } else {
        round_to(h + t, e - 1, from.scale(), to)
    }
}

// The pattern b of one format, in another.
fn convert_pattern(b: u64, from: Binary, to: Binary) -> u64
    ensures { result ≡ converted from.precision from.max_exponent to.precision to.max_exponent b }
{
    let top = from.sign_bit();
    let m = b % top;
    let sign = b / top % 2 * to.sign_bit();
    let infinity = from.infinity();
    if m < infinity {
        sign + convert_finite(m, from, to)
    } else if m == infinity {
        sign + to.infinity()
    } else {
        to.infinity() + power(to.precision - 2)
    }
}

// The pattern b of one format, in another.
pub fn convert(b: u64, from: Format, to: Format) -> u64
    ensures { result ≡ float_to_float from to b }
{
    convert_pattern(b, from.into(), to.into())
}
