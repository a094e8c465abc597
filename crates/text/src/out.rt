// What is written to standard output: numbers, texts and the indentation of a line.
ghost use Rattle.std.specs.Prelude.{◌+◌, ◌≤◌, min, ◌≡◌, length};

use crate::utf8::plain_len;
use layout::bytes::Span;
use numeric::decimals::power_of_ten;
use std::io;

pub fn put(rt: &impl Print, text: &[u8]) -> io::Result<()> {
    rt.write_all(text)
}

pub fn put_number(rt: &impl Print, n: u64) -> io::Result<()> {
    rt.print(n)
}

// With zeros in front, up to as many digits, of which there is one at least and are 16 at most.
pub fn put_hex(rt: &impl Print, n: u64, digits: usize) -> io::Result<()> {
    if digits < 16 {
        rt.print(format_args!("{n:0digits$x}"))
    } else {
        rt.print(format_args!("{n:016x}"))
    }
}

// The last digits of a number, with zeros in front.
pub fn put_digits(rt: &impl Print, m: u64, count: usize) -> io::Result<()>
    requires { count ≤ 18 }
{
    for i in (0..count).rev() {
        put_number(rt, m / power_of_ten(i) % 10)?;
    }
    Ok(())
}

// A number and what it counts: 1 field, 2 fields.
pub fn put_count(rt: &impl Print, n: u64, what: &[u8]) -> io::Result<()> {
    put_number(rt, n)?;
    put(rt, b" ")?;
    put(rt, what)?;
    if n != 1 {
        put(rt, b"s")?;
    }
    Ok(())
}

// One level more, as far as there is one.
pub fn deeper(level: u8) -> u8
    ensures { result ≡ min (level + 1) 255 }
{
    level.saturating_add(1)
}

// The spaces that a line of a level begins with.
pub fn put_indent(rt: &impl Print, level: u8) -> io::Result<()> {
    for _ in 0..level {
        put(rt, b"    ")?;
    }
    Ok(())
}

// The first place from `at` on where no letter stands that is written as it is, or else the end.
fn plain_end(s: &[u8], at: usize) -> usize
    requires { at ≤ length s.now }
    ensures lower_bound { at ≤ result }
    ensures upper_bound { result ≤ length s.now }
{
    let mut i = at;
    while i < s.len() {
        let n = plain_len(s, i);
        if n == 0 {
            return i;
        }
        i += n;
    }
    i
}

fn put_escaped(rt: &impl Print, b: u8) -> io::Result<()> {
    put(rt, b"\\x")?;
    put_hex(rt, b as u64, 2)
}

// In quotes; a quote, a backslash, what is no UTF-8 and letters that can't be seen byte by byte, as \x and two digits.
pub fn put_text(rt: &impl Print, s: &[u8]) -> io::Result<()> {
    put(rt, b"\"")?;
    let mut at: usize = 0;
    while at < s.len() {
        let end = plain_end(s, at);
        put(rt, &s[at..end])?;
        if end < s.len() {
            put_escaped(rt, s[end])?;
            at = end + 1;
        } else {
            at = end;
        }
    }
    put(rt, b"\"")
}

// The text that stands at a span of `s`, if it lies inside.
pub fn put_span(rt: &impl Print, s: &[u8], span: Span) -> io::Result<()> {
    match s.get(span.start..).and_then(|rest| rest.get(..span.len)) {
        Some(text) => put_text(rt, text),
        None => Ok(()),
    }
}
