// Floats: in decimal, then by their bits. Digits are cut off and never rounded, so that those written are the value's
// own.
ghost use Rattle.std.specs.Prelude.{◌+◌, ◌^◌, ◌<◌};
ghost use Rattle.numeric.specs.Rounding.{infinity};
ghost use Rattle.text.specs.code.Decimal.{Words};

use crate::decimal::{Fixed, Parts, is_zero, next_digit, parts_of, reduced, to_fixed};
use crate::out::{put, put_hex, put_number};
use numeric::floats::{Format, convert};
use std::io;

const SIGN: u64 = 0x8000_0000_0000_0000;

const INFINITY: u64 = 0x7ff0_0000_0000_0000;

// A float of a format, by way of the float64 of the same value: with `n` significant digits, and its bits as so many
// hexadecimal ones.
pub fn put_float(rt: &impl Print, x: u64, format: Format, n: u64, digits: usize) -> io::Result<()> {
    put_decimal(rt, convert(x, format, Format::Binary64), n)?;
    put(rt, b" (bits 0x")?;
    put_hex(rt, x, digits)?;
    put(rt, b")")
}

// A float64 by its pattern, with `n` significant digits.
fn put_decimal(rt: &impl Print, x: u64, n: u64) -> io::Result<()> {
    let m = x % SIGN;
    if INFINITY < m {
        return put(rt, b"nan");
    }
    put_sign(rt, x)?;
    if m == INFINITY {
        return put(rt, b"inf");
    }
    put_magnitude(rt, m, n)
}

fn put_sign(rt: &impl Print, x: u64) -> io::Result<()> {
    if SIGN <= x {
        put(rt, b"-")?;
    }
    Ok(())
}

// From 2^-68 up to below 2^64 in decimal: 64 bits hold the whole part, and two words the fraction, since 2^954 units
// are 2^-120. Outside of that as an odd number times a power of 2, which is exact, and plainer to read than C's
// hexadecimal form 0x1.8p-30.
fn put_magnitude(rt: &impl Print, m: u64, n: u64) -> io::Result<()>
    requires { m < infinity 53 1023 }
{
    let p = parts_of(m);
    let significand = p.significand;
    let exponent = p.exponent;
    if significand == 0 {
        return put(rt, b"0");
    }
    if exponent < 954 {
        return put_power(rt, p);
    }
    if 1085 < exponent {
        return put_power(rt, p);
    }
    put_fixed(rt, to_fixed(significand, exponent - 954), n)
}

// As in 3 * 2^-1074.
fn put_power(rt: &impl Print, p: Parts) -> io::Result<()>
    requires significand_nonzero { 0 < p.significand }
    requires significand_bound { p.significand < 2 ^ 53 }
    requires exponent_bound { p.exponent < 2046 }
{
    let r = reduced(p);
    let e = r.exponent;
    put_number(rt, r.significand)?;
    put(rt, b" * 2^")?;
    if e < 1074 {
        put(rt, b"-")?;
        return put_number(rt, 1074 - e);
    }
    put_number(rt, e - 1074)
}

// The whole part has all of its digits: only those of the fraction are cut off.
fn put_fixed(rt: &impl Print, f: Fixed, n: u64) -> io::Result<()>
    requires { Words f.high f.low }
{
    let whole = f.whole;
    let high = f.high;
    let low = f.low;
    let k = put_whole(rt, whole)?;
    if is_zero(high, low) {
        return Ok(());
    }
    put(rt, b".")?;
    if whole == 0 {
        return put_small(rt, high, low, n);
    }
    put_digits(rt, high, low, n.saturating_sub(k as u64))
}

// How many digits a number has.
fn digit_count(n: u64) -> usize {
    match n.checked_ilog10() {
        Some(e) => e as usize + 1,
        None => 1,
    }
}

// And answers how many digits it has.
fn put_whole(rt: &impl Print, n: u64) -> io::Result<usize> {
    put_number(rt, n)?;
    Ok(digit_count(n))
}

// The digits of a fraction that stands alone: the zeros that it begins with are not significant.
fn put_small(rt: &impl Print, high: u64, low: u64, n: u64) -> io::Result<()>
    requires words { Words high low }
    requires low_nonzero { 0 < high + low }
{
    let mut a = high;
    let mut b = low;
    loop {
        let d = next_digit(a, b);
        if d.digit != 0 {
            return put_digits(rt, a, b, n);
        }
        put(rt, b"0")?;
        a = d.high;
        b = d.low;
    }
}

// At most `n` digits of a fraction; `..` where others follow.
fn put_digits(rt: &impl Print, high: u64, low: u64, n: u64) -> io::Result<()>
    requires { Words high low }
{
    let mut a = high;
    let mut b = low;
    let mut left = n;
    while !is_zero(a, b) {
        if left == 0 {
            return put(rt, b"..");
        }
        let d = next_digit(a, b);
        put_number(rt, d.digit)?;
        a = d.high;
        b = d.low;
        left -= 1;
    }
    Ok(())
}
