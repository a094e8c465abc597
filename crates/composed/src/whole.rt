// A whole plan over a record.
ghost use Rattle.std.specs.Prelude.{Bool, ℕ, ◌≤◌, length};
ghost use Rattle.ends.specs.code.Ends.{Ends};
ghost use Rattle.layout.specs.Bytes.{Bytes};
ghost use Rattle.layout.specs.Limits.{longest_plan};
ghost use Rattle.values.specs.Encode.{encode_values};
ghost use Rattle.plan.specs.Run.{evals, clean_all_of};
ghost use Rattle.walk.specs.code.Stands.{SelectorsAt};
ghost use Rattle.nodes.specs.code.Raw.{RowAt};
ghost use Rattle.transfer.specs.code.Reaching.{ReachedIs};
ghost use Rattle.transfer.specs.code.Given.{RowReached};
ghost use Rattle.composed.specs.code.Transferring.{TransferredIs};

use crate::top::transfer_tops;
use index::columns::{few, stride_of};
use index::row::{Row, index_row};
use layout::columns::ColumnRange;
use layout::cursor::Cursor;
use layout::edition::Edition;
use layout::limits::DEEPEST_SELECTOR;
use transfer::leaf::{Place, Reached, Selectors};

// The length of the output; or it is not settled.
#[derive(Clone, Copy)]
pub enum Transferred {
    To(usize),
    Unknown,
}

// Few selectors over few columns, which are passed over.
fn transfer_few(
    lay: &[u8],
    v: Edition,
    n: u16,
    rec: &[u8],
    plan: &[u8],
    count: u16,
    out: &mut [u8],
    ends: &[u16],
) -> Reached
    requires ends { Ends v lay.now ends.now }
    requires row_at { RowAt v lay.now n 7 rec.now 0 }
    requires selectors_at { SelectorsAt plan.now count 7 }
    requires rec_len_bound { (length rec.now ≤ longest_plan) × (length plan.now ≤ longest_plan) }
    ensures { (X : RowAt v lay.now n 7 rec.now 0) (S : SelectorsAt plan.now count 7) → RowReached X S out.old 0 result out.new }
{
    let start = Cursor { at: 7 };
    let columns = ColumnRange {
        edition: v,
        count: n,
        first: start,
    };
    let row = Row {
        columns,
        values: Cursor { at: 0 },
        stride: 1,
    };
    let first = Place {
        selector: start,
        levels: DEEPEST_SELECTOR,
        k: 0,
    };
    let types: [u16; 1] = [0; 1];
    let values: [u16; 1] = [0; 1];
    let selectors = Selectors { count, first };
    transfer_tops(
        lay,
        rec,
        row,
        &types[..0],
        &values[..0],
        plan,
        selectors,
        out,
        ends,
    )
}

// Many selectors or columns, with tables of where the columns and their values stand.
fn transfer_many(
    lay: &[u8],
    v: Edition,
    n: u16,
    rec: &[u8],
    plan: &[u8],
    count: u16,
    out: &mut [u8],
    ends: &[u16],
) -> Reached
    requires ends { Ends v lay.now ends.now }
    requires row_at { RowAt v lay.now n 7 rec.now 0 }
    requires selectors_at { SelectorsAt plan.now count 7 }
    requires rec_len_bound { (length rec.now ≤ longest_plan) × (length plan.now ≤ longest_plan) }
    ensures { (X : RowAt v lay.now n 7 rec.now 0) (S : SelectorsAt plan.now count 7) → RowReached X S out.old 0 result out.new }
{
    let start = Cursor { at: 7 };
    let columns = ColumnRange {
        edition: v,
        count: n,
        first: start,
    };
    let row = Row {
        columns,
        values: Cursor { at: 0 },
        stride: stride_of(n),
    };
    let first = Place {
        selector: start,
        levels: DEEPEST_SELECTOR,
        k: 0,
    };
    let mut types = [0u16; 256];
    let mut values = [0u16; 256];
    let m = index_row(lay, rec, row, &mut types, &mut values, ends);
    let selectors = Selectors { count, first };
    transfer_tops(
        lay,
        rec,
        row,
        &types[..m],
        &values[..m],
        plan,
        selectors,
        out,
        ends,
    )
}

fn output_of(r: Reached) -> Transferred
    ensures { (ok : Bool) (b : Bytes) (e : ℕ) (out new : Bytes) → ReachedIs ok b e out 0 r new → TransferredIs ok b out result new }
{
    match r {
        Reached::To(_, len) => Transferred::To(len),
        Reached::Unknown => Transferred::Unknown,
    }
}

// That `transfer_tops` is called in two places keeps it a function of its own: called once, it would be compiled into
// the run, and its buffers would stand below all that the general way needs.
pub fn transfer_record(
    lay: &[u8],
    v: Edition,
    n: u16,
    rec: &[u8],
    plan: &[u8],
    count: u16,
    out: &mut [u8],
    ends: &[u16],
) -> Transferred
    requires ends { Ends v lay.now ends.now }
    requires row_at { RowAt v lay.now n 7 rec.now 0 }
    requires selectors_at { SelectorsAt plan.now count 7 }
    requires rec_len_bound { (length rec.now ≤ longest_plan) × (length plan.now ≤ longest_plan) }
    ensures { (X : RowAt v lay.now n 7 rec.now 0) (S : SelectorsAt plan.now count 7) → TransferredIs (clean_all_of (evals X.values.values S.trees)) (encode_values (evals X.values.values S.trees)) out.old result out.new }
{
    if few(n, count) {
        return output_of(transfer_few(lay, v, n, rec, plan, count, out, ends));
    }
    output_of(transfer_many(lay, v, n, rec, plan, count, out, ends))
}
