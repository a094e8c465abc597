// Decimals: eight bytes in two's complement, of a magnitude below ten to the precision.
ghost use Rattle.std.specs.Prelude.{◌≡◌, ◌^◌, ◌≤◌, ◌<◌};
ghost use Rattle.numeric.specs.Integers.{signed};
ghost use Rattle.numeric.specs.Decimals.{within_precision};

const POWERS: [u64; 19] = [
    1,
    10,
    100,
    1000,
    10000,
    100000,
    1000000,
    10000000,
    100000000,
    1000000000,
    10000000000,
    100000000000,
    1000000000000,
    10000000000000,
    100000000000000,
    1000000000000000,
    10000000000000000,
    100000000000000000,
    1000000000000000000,
];

pub fn power_of_ten(p: usize) -> u64
    requires { p ≤ 18 }
    ensures { (result ≡ 10 ^ p) × (0 < result) }
{
    POWERS[p]
}

// Whether the pattern b is of a magnitude below ten to the precision; from 19 digits on every one is.
#[tactic(auto, using(crate::proofs::Magnitude::within_long, crate::proofs::TwosComplement::word_signed), unfolding(crate::specs::Decimals::within_precision))]
pub fn within_precision(b: u64, precision: u8) -> bool
    ensures { result ≡ within_precision precision (signed 64 b) }
{
    18 < precision || b.cast_signed().unsigned_abs() < power_of_ten(precision as usize)
}
