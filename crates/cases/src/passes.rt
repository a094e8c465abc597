// How many of the accepted cases one pass settles. A pass that settles nothing would meet its contract, and change
// these counts.
ghost use Rattle.std.specs.Prelude.{◌<◌};

use crate::buffers::{plan_buffer, short_buffer};
use crate::case::{Kind, answer_word, kind_of};
use crate::report::{more, put, put_number};
use crate::single_pass::{checks, writes};
use layout::bytes::same_bytes;
use lines::{find, take_bytes, word};
use std::io;

#[derive(Clone, Copy)]
struct Share {
    settled: u64,
    accepted: u64,
}

// The layouts are words `i` and `i + 1`, the plan is word `k`.
fn plan_settled(line: &[u8], i: usize, k: usize) -> bool
    requires { i < 16 }
{
    let mut incoming = short_buffer();
    let a = take_bytes(line, i, &mut incoming);
    let mut target = short_buffer();
    let b = take_bytes(line, i + 1, &mut target);
    let mut plan = plan_buffer();
    let c = take_bytes(line, k, &mut plan);
    checks(&incoming[..a], &target[..b], &plan[..c])
}

// Of a run's line.
fn record_settled(line: &[u8]) -> bool {
    let mut incoming = short_buffer();
    let a = take_bytes(line, 2, &mut incoming);
    let mut plan = plan_buffer();
    let b = take_bytes(line, 4, &mut plan);
    let mut record = short_buffer();
    let c = take_bytes(line, 5, &mut record);
    let mut output = short_buffer();
    writes(&incoming[..a], &plan[..b], &record[..c], &mut output)
}

// A build's plan is its answer.
fn is_settled(kind: Kind, line: &[u8]) -> bool {
    match kind {
        Kind::Layout => false,
        Kind::BuildName => plan_settled(line, 3, 6),
        Kind::BuildNumber => plan_settled(line, 5, 9),
        Kind::Check => plan_settled(line, 1, 3),
        Kind::Run => record_settled(line),
        Kind::Unknown => false,
    }
}

// Counts the line where it is an accepted case of that name.
fn count_line(s: Share, name: &[u8], line: &[u8]) -> Share {
    if !same_bytes(word(line, 0), name) {
        return s;
    }
    let kind = kind_of(line);
    if !same_bytes(word(line, answer_word(kind)), b"0") {
        return s;
    }
    let accepted = more(s.accepted);
    if is_settled(kind, line) {
        Share {
            settled: more(s.settled),
            accepted,
        }
    } else {
        Share {
            settled: s.settled,
            accepted,
        }
    }
}

fn count(list: &[u8], name: &[u8]) -> Share {
    let mut s = Share {
        settled: 0,
        accepted: 0,
    };
    let mut at: usize = 0;
    while at < list.len() {
        let end = find(list, b'\n', at);
        s = count_line(s, name, &list[at..end]);
        if end == list.len() {
            return s;
        }
        at = end + 1;
    }
    s
}

fn put_share(rt: &impl Print, list: &[u8], name: &[u8]) -> io::Result<()> {
    let s = count(list, name);
    put(rt, name)?;
    put(rt, b": ")?;
    put_number(rt, s.settled)?;
    put(rt, b" of ")?;
    put_number(rt, s.accepted)
}

fn plans_line(rt: &impl Print, list: &[u8], name: &[u8]) -> io::Result<()> {
    put_share(rt, list, name)?;
    put(rt, b" plans checked in one pass\n")
}

pub fn shares(rt: &impl Print, list: &[u8]) -> io::Result<()> {
    plans_line(rt, list, b"build_name")?;
    plans_line(rt, list, b"build_number")?;
    plans_line(rt, list, b"check")?;
    put_share(rt, list, b"run")?;
    put(rt, b" records written in one pass\n")
}
