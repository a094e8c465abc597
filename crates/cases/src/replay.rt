// The list, line by line: empty lines and lines that begin with `#` are passed over.
ghost use Rattle.std.specs.Prelude.{◌≤◌, length};

use crate::case::{kind_of, replay_case};
use crate::report::Tally;
use lines::find;
use std::io;

fn is_comment(line: &[u8]) -> bool {
    if line.len() == 0 {
        return true;
    }
    line[0] == b'#'
}

fn replay_line(rt: &impl Print, line: &[u8], t: Tally) -> io::Result<Tally> {
    if is_comment(line) {
        return Ok(t);
    }
    let kind = kind_of(line);
    t.with(rt, kind, replay_case(kind, line), line)
}

pub fn replay(rt: &impl Print, list: &[u8]) -> io::Result<Tally> {
    let mut t = Tally::new();
    let mut at: usize = 0;
    while at < list.len() {
        let end = find(list, b'\n', at);
        t = replay_line(rt, &list[at..end], t.line())?;
        if end == list.len() {
            return Ok(t);
        }
        at = end + 1;
    }
    Ok(t)
}
