// Replays a list of conversions. Standard input has records of sixteen bytes: the operation, the code of what the
// number is, the code of what it becomes, five zeros, and the pattern, lowest byte first. For each a line is written:
// the answer as sixteen hexadecimal digits, or `too large`. compare/floats.c makes the list, and the answers by the
// machine's own arithmetic.
#![tactic(auto)]

ghost use Rattle.std.specs.Prelude.{◌<◌};

use files::read_full;
use numeric::floats::Format;
use numeric::integers::Integer;
use std::io;

fn integer(code: u8) -> Integer {
    match code {
        0 => Integer::Int8,
        1 => Integer::Int16,
        2 => Integer::Int32,
        3 => Integer::Int64,
        4 => Integer::UInt8,
        5 => Integer::UInt16,
        6 => Integer::UInt32,
        _ => Integer::UInt64,
    }
}

fn format(code: u8) -> Format {
    match code {
        0 => Format::Binary16,
        1 => Format::Binary32,
        _ => Format::Binary64,
    }
}

fn factor(code: u8) -> u64
    ensures { 0 < result }
{
    if code == 0 { 1000 } else { 1_000_000 }
}

fn answer(op: u8, from: u8, to: u8, b: u64) -> Option<u64> {
    match op {
        0 => Some(numeric::floats::from_integer(b, integer(from), format(to))),
        1 => Some(numeric::floats::convert(b, format(from), format(to))),
        2 => Some(numeric::integers::widen(b, integer(from), integer(to))),
        3 => numeric::times::multiply(b, factor(to)),
        _ => Some(numeric::times::divide(b, factor(to))),
    }
}

fn print_line(rt: &impl Print, f: Option<u64>) -> io::Result<()> {
    match f {
        Some(n) => println!(rt; "{n:016x}"),
        None => println!(rt; "too large"),
    }
}

fn run(rt: &impl Print, s: &[u8]) -> io::Result<()> {
    for record in s.chunks_exact(16) {
        let pattern = <[u8; 8]>::try_from(&record[8..]).unwrap();
        print_line(
            rt,
            answer(record[0], record[1], record[2], u64::from_le_bytes(pattern)),
        )?;
    }
    Ok(())
}

// One buffer of the list: it holds 4,096 whole records.
fn replay(rt: &(impl Input + Print), buf: &mut [u8]) -> io::Result<()> {
    let n = read_full(&mut rt.reader(), buf);
    run(rt, &buf[..n])
}

fn main(rt: HostRuntime) -> io::Result<()> {
    let mut buf = [0u8; 65536];
    for _ in 0..3 {
        replay(&rt, &mut buf)?;
    }
    Ok(())
}
