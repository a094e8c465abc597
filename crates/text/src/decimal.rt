// The magnitude of a float64 in exact whole numbers, for its decimal digits.
ghost use Rattle.std.specs.Prelude.{◌+◌, ◌*◌, ◌%◌, ◌^◌, ◌≤◌, ◌<◌, ◌≡◌, eqb};
ghost use Rattle.numeric.specs.Rounding.{infinity, magnitude};
ghost use Rattle.text.specs.code.Decimal.{word, one, count, Words};

use numeric::round::power;

const HIDDEN: u64 = 0x0010_0000_0000_0000;

const WORD: u64 = 0x1000_0000_0000_0000;

// significand * 2^exponent, in units of the smallest positive float64, 2^-1074.
#[derive(Clone, Copy)]
pub struct Parts {
    pub significand: u64,
    pub exponent: u64,
}

// whole + high / 2^60 + low / 2^120.
#[derive(Clone, Copy)]
pub struct Fixed {
    pub whole: u64,
    pub high: u64,
    pub low: u64,
}

// The first decimal digit of a fraction, and the fraction that follows it.
#[derive(Clone, Copy)]
pub struct Digit {
    pub digit: u64,
    pub high: u64,
    pub low: u64,
}

// over * 2^60 + under.
#[derive(Clone, Copy)]
struct Shifted {
    over: u64,
    under: u64,
}

// Of a finite magnitude, that is a pattern below infinity's.
pub fn parts_of(m: u64) -> Parts
    requires { m < infinity 53 1023 }
    ensures exponent_value { result.significand * 2 ^ result.exponent ≡ magnitude 53 m }
    ensures significand_bound { result.significand < 2 ^ 53 }
    ensures exponent_bound { result.exponent < 2046 }
{
    let field = m / HIDDEN;
    let rest = m % HIDDEN;
    if field == 0 {
        return Parts {
            significand: rest,
            exponent: 0,
        };
    }
    Parts {
        significand: HIDDEN + rest,
        exponent: field - 1,
    }
}

// The same number with an odd significand.
pub fn reduced(p: Parts) -> Parts
    requires significand_nonzero { 0 < p.significand }
    requires significand_bound { p.significand < 2 ^ 53 }
    requires exponent_bound { p.exponent < 2046 }
    ensures exponent_value { result.significand * 2 ^ result.exponent ≡ p.significand * 2 ^ p.exponent }
    ensures significand_value { result.significand % 2 ≡ 1 }
{
    let mut m = p.significand;
    let mut e = p.exponent;
    while m % 2 == 0 {
        m /= 2;
        e += 1;
    }
    Parts {
        significand: m,
        exponent: e,
    }
}

// m * 2^j.
fn shift(m: u64, j: u64) -> Shifted
    requires { j ≤ 60 }
    ensures under_value { result.over * word + result.under ≡ m * 2 ^ j }
    ensures over_le_m { result.over ≤ m }
    ensures under_lt_word { result.under < word }
{
    let u = power(60 - j);
    Shifted {
        over: m / u,
        under: m % u * power(j),
    }
}

// m * 2^k / 2^120.
pub fn to_fixed(m: u64, k: u64) -> Fixed
    requires m_bound { m < 2 ^ 53 }
    requires k_bound { k < 132 }
    ensures low_value { result.whole * one + count result.high result.low ≡ m * 2 ^ k }
    ensures words { Words result.high result.low }
{
    if k <= 60 {
        let s = shift(m, k);
        return Fixed {
            whole: 0,
            high: s.over,
            low: s.under,
        };
    }
    if k <= 120 {
        let s = shift(m, k - 60);
        return Fixed {
            whole: s.over,
            high: s.under,
            low: 0,
        };
    }
    Fixed {
        whole: m * power(k - 120),
        high: 0,
        low: 0,
    }
}

pub fn is_zero(high: u64, low: u64) -> bool
    requires { Words high low }
    ensures { result ≡ eqb (high + low) 0 }
{
    high + low == 0
}

// One step of long division: ten times the fraction.
pub fn next_digit(high: u64, low: u64) -> Digit
    requires { Words high low }
    ensures low_value { result.digit * one + count result.high result.low ≡ 10 * count high low }
    ensures digit_bound { result.digit < 10 }
    ensures words { Words result.high result.low }
{
    let lows = 10 * low;
    let highs = 10 * high + lows / WORD;
    Digit {
        digit: highs / WORD,
        high: highs % WORD,
        low: lows % WORD,
    }
}
