// Replays a stored list of cases and compares: standard input has a case a line; standard output gets a line for each
// case that differs, a line for each kind of case and a last line with the counts; before them how many of the accepted
// cases one pass settles. compare/cases.py makes the list, whose head says its form.
#![tactic(auto)]

mod answer;
mod buffers;
mod build;
mod case;
mod check;
mod passes;
mod replay;
mod report;
mod single_pass;

ghost use Rattle.std.specs.Prelude.{◌≡◌, length};

use files::read_full;
use std::io;

// A list that fills this buffer may have been cut off, which the report says.
const SPACE: usize = 4194304;

fn space() -> [u8; SPACE]
    ensures { 4194304 ≡ length result }
{
    [0; SPACE]
}

fn main(rt: HostRuntime) -> io::Result<()> {
    let mut list = space();
    let n = read_full(&mut rt.reader(), &mut list);
    let list = &list[..n];
    passes::shares(&rt, list)?;
    report::summary(&rt, replay::replay(&rt, list)?, n < SPACE)
}
