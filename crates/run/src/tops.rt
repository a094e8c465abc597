// The top selectors of a plan one after another: each in one pass, where that settles it, and else through paths.
ghost use Rattle.std.specs.Prelude.{◌≡◌, ◌≤◌, ◌<◌, length};
ghost use Rattle.ends.specs.code.Ends.{Ends};
ghost use Rattle.layout.specs.Limits.{longest};
ghost use Rattle.layout.specs.Tree.{fields_of};
ghost use Rattle.plan.specs.Run.{eval, evals};
ghost use Rattle.index.specs.code.Indexed.{IndexedRow};
ghost use Rattle.overflow.specs.code.Ranges.{RecordAt, ColumnsIn};
ghost use Rattle.overflow.specs.code.Overflows.{PlanAt};
ghost use Rattle.run.specs.code.Tops.{TopIn, TopIs, TopsAre};

use composed::top::transfer_top;
use index::row::Row;
use layout::columns::{ColumnRange, Labelled};
use layout::cursor::Cursor;
use layout::limits::{DEEPEST, DEEPEST_SELECTOR, LONGEST};
use layout::walk::skip_type;
use nodes::places::TypePlace;
use output::write::emit_top;
use overflow::overflows::top_overflows;
use transfer::leaf::{Place, Reached};
use walk::head::skip_selector;

// A top selector, how long the output before it is, and the type of its column in the target.
#[derive(Clone, Copy)]
pub struct Top {
    pub selector: Cursor,
    pub len: usize,
    pub column: TypePlace,
}

// Where a top selector ends, and how long the output is with what it gives, a length past the limit standing for every
// other; or a strict date-time in what it gives is too large.
#[derive(Clone, Copy)]
pub enum TopWritten {
    To(Cursor, usize),
    Overflows,
}

// The output's length; or a strict date-time anywhere in it is too large.
#[derive(Clone, Copy)]
pub enum TopsWritten {
    To(usize),
    Overflows,
}

// The columns that selectors take, the stride of the tables of where these stand, and the columns that they give.
#[derive(Clone, Copy)]
pub struct Tops {
    pub columns: ColumnRange,
    pub stride: u16,
    pub targets: ColumnRange,
}

// Through paths.
fn write_general(
    lay: &[u8],
    columns: ColumnRange,
    rec: &[u8],
    plan: &[u8],
    top: Top,
    tgt: &[u8],
    aside: &mut [u8],
    ends: &[u16],
) -> TopWritten
    requires ends { Ends columns.edition lay.now ends.now }
    requires top_in { TopIn lay.now columns rec.now plan.now tgt.now top }
    ensures { (A : TopIn lay.now columns rec.now plan.now tgt.now top) → TopIs (eval A.row.values.values A.selector.here.tree) A.selector.here.end aside.old top.len result aside.new }
{
    let c = top.selector;
    let len = top.len;
    if top_overflows(lay, columns, rec, plan, c, tgt, top.column, ends) {
        return TopWritten::Overflows;
    }
    let end = skip_selector(plan, c);
    if LONGEST < len {
        return TopWritten::To(end, len);
    }
    let to = emit_top(lay, columns, rec, plan, c, aside, len, ends);
    TopWritten::To(end, to)
}

// In one pass, or else through paths. A pass that settles nothing may have written over what it was lent, so that it is
// lent what is still free. Once the output is too long no pass is made: nothing that it would store is of use.
fn write_top(
    lay: &[u8],
    rec: &[u8],
    tops: Tops,
    types: &[u16],
    values: &[u16],
    plan: &[u8],
    top: Top,
    tgt: &[u8],
    aside: &mut [u8],
    ends: &[u16],
) -> TopWritten
    requires ends { Ends tops.columns.edition lay.now ends.now }
    requires indexed_row { IndexedRow tops.columns.edition lay.now tops.columns.count tops.columns.first.at rec.now 0 tops.stride types.now values.now × (0 < tops.stride) }
    requires top_in { TopIn lay.now tops.columns rec.now plan.now tgt.now top }
    requires longest_value { longest ≡ length aside.old }
    ensures { (A : TopIn lay.now tops.columns rec.now plan.now tgt.now top) → TopIs (eval A.row.values.values A.selector.here.tree) A.selector.here.end aside.old top.len result aside.new }
{
    let columns = tops.columns;
    let len = top.len;
    if LONGEST < len {
        return write_general(lay, columns, rec, plan, top, tgt, aside, ends);
    }
    let row = Row {
        columns,
        values: Cursor { at: 0 },
        stride: tops.stride,
    };
    let selector = top.selector;
    let place = Place {
        selector,
        levels: DEEPEST_SELECTOR,
        k: 0,
    };
    match transfer_top(
        lay,
        rec,
        row,
        types,
        values,
        plan,
        place,
        &mut aside[len..],
        ends,
    ) {
        Reached::To(end, r) => TopWritten::To(end, len + r),
        Reached::Unknown => write_general(lay, columns, rec, plan, top, tgt, aside, ends),
    }
}

// All of them. Past the limit they are still asked whether a date-time is too large.
pub fn write_tops(
    lay: &[u8],
    rec: &[u8],
    tops: Tops,
    types: &[u16],
    values: &[u16],
    plan: &[u8],
    tgt: &[u8],
    aside: &mut [u8],
    ends: &[u16],
) -> TopsWritten
    requires ends { Ends tops.columns.edition lay.now ends.now }
    requires indexed_row { IndexedRow tops.columns.edition lay.now tops.columns.count tops.columns.first.at rec.now 0 tops.stride types.now values.now × (0 < tops.stride) }
    requires plan_at { (X : RecordAt lay.now tops.columns rec.now) × (D : ColumnsIn tgt.now tops.targets) × PlanAt plan.now 7 (fields_of X.columns.columns) (fields_of D.columns) }
    requires rec_len_bound { (length rec.now ≤ longest) × (longest ≡ length aside.old) }
    ensures { (X : RecordAt lay.now tops.columns rec.now) (D : ColumnsIn tgt.now tops.targets) (P : PlanAt plan.now 7 (fields_of X.columns.columns) (fields_of D.columns)) → TopsAre (evals X.values.values P.selectors.trees) aside.old result aside.new }
{
    let targets = tops.targets;
    let edition = targets.edition;
    let count = targets.count;
    let mut c = Cursor { at: 7 };
    let mut d = targets.first;
    let mut len: usize = 0;
    let mut i: u16 = 0;
    while i < count {
        match d.label(tgt, edition) {
            Labelled::Is(_, e) => {
                let column = TypePlace {
                    edition,
                    depth: DEEPEST,
                    at: e,
                };
                let top = Top {
                    selector: c,
                    len,
                    column,
                };
                match write_top(lay, rec, tops, types, values, plan, top, tgt, aside, ends) {
                    TopWritten::To(end, to) => {
                        c = end;
                        len = to;
                    }
                    TopWritten::Overflows => return TopsWritten::Overflows,
                }
                d = skip_type(tgt, edition, DEEPEST, e);
            }
            Labelled::Refused(_) => return TopsWritten::Overflows,
        }
        i += 1;
    }
    TopsWritten::To(len)
}
