// What a column of a plan gives over a record, and handing over what was written aside.
ghost use Rattle.std.specs.Prelude.{◌≡◌, ◌≤◌, length};
ghost use Rattle.ends.specs.code.Ends.{Ends};
ghost use Rattle.layout.specs.Limits.{longest};
ghost use Rattle.values.specs.Encode.{encode_value};
ghost use Rattle.plan.specs.Run.{eval};
ghost use Rattle.plan.specs.code.Skips.{Skips};
ghost use Rattle.output.specs.code.Output.{Emits};
ghost use Rattle.output.specs.code.Answers.{EmitTopAt, HandedOver};

use crate::emit::emit;
use layout::columns::ColumnRange;
use layout::cursor::Cursor;
use layout::limits::{DEEPEST_SELECTOR, LONGEST};
use plan::read::read_selectors;
use plan::skips::SKIPS;
use walk::walk::top;

// The output's length; or it exceeds the buffer or 16,384 bytes, and nothing was written.
#[derive(Clone, Copy)]
pub enum Written {
    Written(usize),
    TooLong,
}

// A plan of at least so many bytes is worth a table of where its selectors end.
const TABLED: usize = 1024;

// What `emit_top` says, with such a table.
fn emit_column(
    lay: &[u8],
    columns: ColumnRange,
    rec: &[u8],
    plan: &[u8],
    c: Cursor,
    out: &mut [u8],
    k: usize,
    table: &[u16],
    skips: &[u16],
) -> usize
    requires skips { Skips plan.now skips.now }
    requires ends { Ends columns.edition lay.now table.now }
    requires emit_top_at { EmitTopAt columns.edition lay.now columns.count columns.first.at rec.now plan.now c.at }
    requires k_le_longest { k ≤ longest }
    ensures { (A : EmitTopAt columns.edition lay.now columns.count columns.first.at rec.now plan.now c.at) → Emits out.old k (encode_value (eval A.row.values.values A.selector.tree)) result out.new }
{
    let w = top(c.at, plan.len());
    emit(lay, columns, rec, plan, w, out, k, table, skips)
}

// What the selector of a column of the plan gives, from an index on; where it ends, or past the limit.
pub fn emit_top(
    lay: &[u8],
    columns: ColumnRange,
    rec: &[u8],
    plan: &[u8],
    c: Cursor,
    out: &mut [u8],
    k: usize,
    table: &[u16],
) -> usize
    requires ends { Ends columns.edition lay.now table.now }
    requires emit_top_at { EmitTopAt columns.edition lay.now columns.count columns.first.at rec.now plan.now c.at }
    requires k_le_longest { k ≤ longest }
    ensures { (A : EmitTopAt columns.edition lay.now columns.count columns.first.at rec.now plan.now c.at) → Emits out.old k (encode_value (eval A.row.values.values A.selector.tree)) result out.new }
{
    if plan.len() < TABLED {
        let none = [0u16; 1];
        return emit_column(lay, columns, rec, plan, c, out, k, table, &none);
    }
    let mut skips = [0u16; SKIPS];
    read_selectors(plan, DEEPEST_SELECTOR, 1, c, &mut skips);
    emit_column(lay, columns, rec, plan, c, out, k, table, &skips)
}

// Where an output is written before it is known to fit.
pub fn scratch() -> [u8; 16384]
    ensures { longest ≡ length result }
{
    [0u8; 16384]
}

// What was written aside, into the lent buffer; one that is too long changes nothing of it.
pub fn hand_over(aside: &[u8], len: usize, out: &mut [u8]) -> Written
    requires { len ≤ longest → len ≤ length aside.now }
    ensures { HandedOver aside.now len out.old result out.new }
{
    if LONGEST < len {
        return Written::TooLong;
    }
    if out.len() < len {
        return Written::TooLong;
    }
    store::copy(aside, 0, len, out, 0);
    Written::Written(len)
}
