// A table for one type, which stands anywhere in a plan.
ghost use Rattle.std.specs.Prelude.{◌≡◌, ◌<◌, length};
ghost use Rattle.layout.specs.Bytes.{Bytes};
ghost use Rattle.layout.specs.code.Stands.{TypeAt};
ghost use Rattle.layout.specs.declared.edition.Edition.{Edition as EditionOf};
ghost use Rattle.ends.specs.code.Ends.{Clear, Ends};

use crate::fill::fill_type;
use layout::cursor::Cursor;
use layout::edition::Edition;

// The least length that is kept in pairs, of a type of `n` bytes; 0 where slots do.
fn least_kept(n: usize) -> usize
    ensures { result < 65536 }
{
    if n <= 16384 {
        return 0;
    }
    if 65536 < n {
        return 65535;
    }
    n / 128
}

// How far apart two offsets are.
fn span(from: Cursor, to: Cursor) -> usize {
    let at = from.at;
    if to.at < at { 0 } else { to.at - at }
}

// A table that has no entry yet, of a type of `n` bytes at `at`.
fn start_table(ends: &mut [u16; 4098], at: usize, n: usize)
    requires { Clear ends.old }
    ensures ends { (v : EditionOf) (s : Bytes) → Ends v s ends.new }
    ensures ends_len_unchanged { length ends.new ≡ length ends.old }
{
    let least = least_kept(n);
    if 65535 < at {
        return;
    }
    ends[0] = at as u16;
    ends[1] = least as u16;
}

// The ends of the structs in the type at `c` that ends at `end`, in a table that has no entry yet.
pub fn fill_local(s: &[u8], v: Edition, depth: u8, c: Cursor, end: Cursor, ends: &mut [u16; 4098])
    requires type_at { TypeAt v depth s.now c.at }
    requires clear { Clear ends.old }
    ensures ends { Ends v s.now ends.new }
    ensures ends_len_unchanged { length ends.new ≡ length ends.old }
{
    start_table(ends, c.at, span(c, end));
    fill_type(s, v, depth, c, ends);
}
