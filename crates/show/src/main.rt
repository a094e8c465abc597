// Writes a layout, a table of defaults, a plan or a record as readable text: show FILE [LAYOUT [LAYOUT]]. The file's
// mark says what it is: LAY, DEF or PLN; anything else is a record, which needs its layout. A plan is written with the
// incoming layout's columns where that is given, and checked where the target layout is given too. What can't be read
// is refused as the library refuses it, with number, place and words. A file that can't be opened counts as empty; of a
// longer one a byte past its limit is read, which is enough to refuse it. The exit status is 0 unless something could not
// be written; the script ./show answers 1 by the first line, where that is a refusal or says that a record needs its
// layout.
#![tactic(auto)]

mod dropped;
mod plans;
mod scope;
mod selectors;
mod target;

ghost use Rattle.std.specs.Prelude.{◌≡◌, ◌≤◌, length, take};
ghost use Rattle.layout.specs.Bytes.{same_bytes};

use describe::columns::put_layout;
use describe::records::put_record;
use describe::tables::put_table;
use files::read_file;
use layout::bytes::same_bytes;
use layout::read::{LayoutRead, read_layout};
use plans::{put_checked_plan, put_plan_alone, put_plan_over};
use std::env::{Env, FillError};
use std::io;
use std::rt::Files;
use text::out::put;
use text::words::put_refusal;

fn has_argument(rt: &impl Env, i: usize) -> bool {
    let mut name = [0u8; 4096];
    match rt.arg(i, &mut name) {
        Ok(_) => true,
        Err(FillError::TooLong) => true,
        Err(FillError::NotPresent) => false,
    }
}

// The file that argument `i` names; where there is no such argument, or its name is too long for a file's, none. A name
// that is no UTF-8 counts as one of a file that can't be opened: the script ./show reaches such files by links.
fn read_argument(rt: &(impl Env + Files), i: usize, buffer: &mut [u8]) -> usize
    ensures { result ≤ length buffer.new }
{
    let mut path = [0u8; 4096];
    let Ok(n) = rt.arg(i, &mut path) else {
        return 0;
    };
    read_file(rt, &path[..n], buffer)
}

fn usage(rt: &impl Print) -> io::Result<()> {
    put(rt, b"usage: show FILE [LAYOUT [LAYOUT]]\n")
}

// Whether a file begins with a mark.
fn begins(file: &[u8], mark: &[u8]) -> bool
    ensures { result ≡ same_bytes (take (length mark.now) file.now) mark.now }
{
    let n = mark.len();
    if file.len() < n {
        return false;
    }
    same_bytes(&file[..n], mark)
}

fn show_layout(rt: &impl Print, file: &[u8]) -> io::Result<()> {
    match read_layout(file) {
        LayoutRead::Read {
            edition: v,
            count: n,
            columns: c,
        } => put_layout(rt, file, v, n, c),
        LayoutRead::Refused(k) => put_refusal(rt, k, 1),
    }
}

fn show_plan(
    rt: &impl Print,
    file: &[u8],
    first: &[u8],
    second: &[u8],
    layouts: usize,
) -> io::Result<()> {
    match layouts {
        0 => put_plan_alone(rt, file),
        1 => put_plan_over(rt, file, first),
        _ => put_checked_plan(rt, file, first, second),
    }
}

fn show_record(rt: &impl Print, file: &[u8], first: &[u8], layouts: usize) -> io::Result<()> {
    match layouts {
        0 => put(rt, b"a record needs its layout: show RECORD LAYOUT\n"),
        1 => put_record(rt, first, file),
        _ => put(rt, b"a record has one layout: show RECORD LAYOUT\n"),
    }
}

// A layout or a table of defaults, where other files are named too.
fn refuse_others(rt: &impl Print, file: &[u8]) -> io::Result<()> {
    if begins(file, b"LAY") {
        put(rt, b"a layout is shown alone: show LAYOUT\n")
    } else {
        put(rt, b"a table of defaults is shown alone: show DEFAULTS\n")
    }
}

// A layout or a table of defaults.
fn show_alone(rt: &impl Print, file: &[u8], layouts: usize) -> io::Result<()> {
    if 0 < layouts {
        return refuse_others(rt, file);
    }
    if begins(file, b"LAY") {
        return show_layout(rt, file);
    }
    put_table(rt, file)
}

fn show(
    rt: &impl Print,
    file: &[u8],
    first: &[u8],
    second: &[u8],
    layouts: usize,
) -> io::Result<()> {
    if begins(file, b"LAY") {
        return show_alone(rt, file, layouts);
    }
    if begins(file, b"DEF") {
        return show_alone(rt, file, layouts);
    }
    if begins(file, b"PLN") {
        return show_plan(rt, file, first, second, layouts);
    }
    show_record(rt, file, first, layouts)
}

// How many arguments the program was given, or 4 where there are more.
fn arguments(rt: &impl Env) -> usize
    ensures { result ≤ 4 }
{
    let mut count: usize = 0;
    while count < 4 {
        if !has_argument(rt, count + 1) {
            return count;
        }
        count += 1;
    }
    count
}

fn main(rt: HostRuntime) -> io::Result<()> {
    let count = arguments(&rt);
    if count < 1 {
        return usage(&rt);
    }
    if 3 < count {
        return usage(&rt);
    }
    let mut file = [0u8; 65537];
    let a = read_argument(&rt, 1, &mut file);
    let mut first = [0u8; 16385];
    let b = read_argument(&rt, 2, &mut first);
    let mut second = [0u8; 16385];
    let c = read_argument(&rt, 3, &mut second);
    show(&rt, &file[..a], &first[..b], &second[..c], count - 1)
}
