// Leaf types, and values of them.
ghost use Rattle.std.specs.Prelude.{◌+◌, ◌*◌, ◌≤◌, ◌<◌, ◌≡◌, length, take, drop};
ghost use Rattle.values.specs.Reading.{little};

use crate::calendar::{put_date, put_datetime};
use crate::floats::put_float;
use crate::out::{put, put_digits, put_number, put_span};
use layout::bytes::Span;
use layout::cursor::{Cursor, Short, Step};
use layout::leaf::{Leaf, TimeUnit};
use layout::types::LeafType;
use numeric::decimals::power_of_ten;
use numeric::floats::Format;
use numeric::integers::Integer;
use std::io;
use values::content::{Content, content_of};
use values::leaf::number_at;

pub fn put_unit(rt: &impl Print, unit: TimeUnit) -> io::Result<()> {
    match unit {
        TimeUnit::Nanoseconds => put(rt, b"ns"),
        TimeUnit::Microseconds => put(rt, b"us"),
        TimeUnit::Milliseconds => put(rt, b"ms"),
    }
}

fn put_integer(rt: &impl Print, i: Integer) -> io::Result<()> {
    match i {
        Integer::Int8 => put(rt, b"int8"),
        Integer::Int16 => put(rt, b"int16"),
        Integer::Int32 => put(rt, b"int32"),
        Integer::Int64 => put(rt, b"int64"),
        Integer::UInt8 => put(rt, b"uint8"),
        Integer::UInt16 => put(rt, b"uint16"),
        Integer::UInt32 => put(rt, b"uint32"),
        Integer::UInt64 => put(rt, b"uint64"),
    }
}

fn put_format(rt: &impl Print, f: Format) -> io::Result<()> {
    match f {
        Format::Binary16 => put(rt, b"float16"),
        Format::Binary32 => put(rt, b"float32"),
        Format::Binary64 => put(rt, b"float64"),
    }
}

fn put_leaf(rt: &impl Print, leaf: Leaf) -> io::Result<()> {
    match leaf {
        Leaf::Null => put(rt, b"null"),
        Leaf::Boolean => put(rt, b"boolean"),
        Leaf::Integer(i) => put_integer(rt, i),
        Leaf::Float(f) => put_format(rt, f),
        Leaf::Date => put(rt, b"date"),
        Leaf::Datetime(unit) => {
            put(rt, b"date-time ")?;
            put_unit(rt, unit)
        }
        Leaf::String => put(rt, b"string"),
        Leaf::Binary => put(rt, b"binary"),
        Leaf::Categorical => put(rt, b"category"),
        Leaf::Decimal(d) => {
            put(rt, b"decimal(")?;
            put_number(rt, d.precision as u64)?;
            put(rt, b",")?;
            put_number(rt, d.scale as u64)?;
            put(rt, b")")
        }
    }
}

// The zone stands in `s`.
pub fn put_leaf_type(rt: &impl Print, s: &[u8], l: LeafType) -> io::Result<()> {
    let leaf = l.leaf;
    let zone = l.zone;
    put_leaf(rt, leaf)?;
    if zone.len != 0 {
        put(rt, b" ")?;
        put_span(rt, s, zone)?;
    }
    Ok(())
}

// The bit pattern of a number of `w` bytes; 0 where they are not there.
fn pattern(s: &[u8], at: usize, w: usize) -> u64
    ensures { w ≤ 8 → at + w ≤ length s.now → result ≡ little (take w (drop at s.now)) }
{
    if 8 < w {
        return 0;
    }
    if s.len() < at {
        return 0;
    }
    if s.len() - at < w {
        return 0;
    }
    number_at(s, at, w)
}

// A signed number by its bit pattern, of which `half` is the first negative one.
fn put_signed(rt: &impl Print, x: u64, half: u64) -> io::Result<()> {
    if x < half {
        return put_number(rt, x);
    }
    if x - half < half {
        put(rt, b"-")?;
        put_number(rt, magnitude(x, half))?;
    }
    Ok(())
}

// Of a negative number, whose pattern is below twice `half`.
fn magnitude(x: u64, half: u64) -> u64
    requires half_le_x { half ≤ x }
    requires x_bound { x < 2 * half }
    ensures { x + result ≡ 2 * half }
{
    half - (x - half)
}

// A magnitude with its point: 12340 at scale 3 is 12.340.
fn put_scaled(rt: &impl Print, m: u64, scale: u8) -> io::Result<()> {
    if scale == 0 {
        return put_number(rt, m);
    }
    if 18 < scale {
        return put_number(rt, m);
    }
    let digits = scale as usize;
    put_number(rt, m / power_of_ten(digits))?;
    put(rt, b".")?;
    put_digits(rt, m, digits)
}

fn put_decimal(rt: &impl Print, x: u64, scale: u8) -> io::Result<()> {
    let half = 0x8000_0000_0000_0000;
    if x < half {
        return put_scaled(rt, x, scale);
    }
    put(rt, b"-")?;
    put_scaled(rt, magnitude(x, half), scale)
}

fn put_integer_pattern(rt: &impl Print, i: Integer, x: u64) -> io::Result<()> {
    match i {
        Integer::Int8 => put_signed(rt, x, 0x80),
        Integer::Int16 => put_signed(rt, x, 0x8000),
        Integer::Int32 => put_signed(rt, x, 0x8000_0000),
        Integer::Int64 => put_signed(rt, x, 0x8000_0000_0000_0000),
        _ => put_number(rt, x),
    }
}

// Floats have as many significant digits as IEEE 754 asks for to tell any two of a format apart.
fn put_float_pattern(rt: &impl Print, f: Format, x: u64) -> io::Result<()> {
    match f {
        Format::Binary16 => put_float(rt, x, f, 5, 4),
        Format::Binary32 => put_float(rt, x, f, 9, 8),
        Format::Binary64 => put_float(rt, x, f, 17, 16),
    }
}

fn put_pattern(rt: &impl Print, leaf: Leaf, x: u64) -> io::Result<()> {
    match leaf {
        Leaf::Integer(i) => put_integer_pattern(rt, i, x),
        Leaf::Float(f) => put_float_pattern(rt, f, x),
        Leaf::Date => {
            put(rt, b"day ")?;
            put_signed(rt, x, 0x8000_0000)?;
            put(rt, b" (")?;
            put_date(rt, x)?;
            put(rt, b")")
        }
        Leaf::Datetime(unit) => {
            put_signed(rt, x, 0x8000_0000_0000_0000)?;
            put(rt, b" ")?;
            put_unit(rt, unit)?;
            put(rt, b" (")?;
            put_datetime(rt, x, unit)?;
            put(rt, b")")
        }
        Leaf::Decimal(d) => put_decimal(rt, x, d.scale),
        _ => put_number(rt, x),
    }
}

fn put_flag(rt: &impl Print, s: &[u8], c: Cursor) -> io::Result<()> {
    if let Step::Byte(b, _) = c.byte(s) {
        if b == 0 {
            put(rt, b"false")?;
        } else {
            put(rt, b"true")?;
        }
    }
    Ok(())
}

fn put_long_text(rt: &impl Print, s: &[u8], c: Cursor) -> io::Result<()> {
    if let Short::Is(n, d) = c.short(s) {
        put_span(
            rt,
            s,
            Span {
                start: d.at,
                len: n as usize,
            },
        )?;
    }
    Ok(())
}

// What follows the presence byte of a leaf that is present.
pub fn put_leaf_value(rt: &impl Print, s: &[u8], leaf: Leaf, c: Cursor) -> io::Result<()> {
    match content_of(leaf) {
        Content::Nothing => put(rt, b"null"),
        Content::Flag => put_flag(rt, s, c),
        Content::Number(w) => put_pattern(rt, leaf, pattern(s, c.at, w as usize)),
        Content::Decimal(_) => put_pattern(rt, leaf, pattern(s, c.at, 8)),
        Content::Text => put_long_text(rt, s, c),
    }
}
