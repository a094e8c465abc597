// Where every stride-th column and its value stand, in a layout and a record.
ghost use Rattle.std.specs.Prelude.{true, ◌≡◌, ◌≤◌, ◌<◌, length, take};
ghost use Rattle.ends.specs.code.Ends.{Ends};
ghost use Rattle.plan.specs.Run.{value_at};
ghost use Rattle.nodes.specs.code.Raw.{NodeOf};
ghost use Rattle.index.specs.code.Indexed.{RowIn, IndexedIn};

use layout::bytes::wide;
use layout::columns::ColumnRange;
use layout::cursor::Cursor;
use layout::limits::DEEPEST;
use nodes::raw::{NodeAt, field_at};
use values::read::{ValueRead, read_fields};

// Whether both tables, by their lengths, have entry `j`, and it can hold the two offsets.
fn storable(j: usize, types: usize, values: usize, at: usize, to: usize) -> bool
    ensures { result ≡ true → (j < types) × (j < values) × (at < 65536) × (to < 65536) }
{
    if types <= j {
        return false;
    }
    if values <= j {
        return false;
    }
    if 65535 < at {
        return false;
    }
    if 65535 < to {
        return false;
    }
    true
}

// The columns of a row, where their values begin in the record, and how many columns apart the entries of its tables
// stand.
#[derive(Clone, Copy)]
pub struct Row {
    pub columns: ColumnRange,
    pub values: Cursor,
    pub stride: u16,
}

// Fills the two tables for the row and answers how many entries each got.
pub fn index_row(
    lay: &[u8],
    rec: &[u8],
    row: Row,
    types: &mut [u16],
    values: &mut [u16],
    ends: &[u16],
) -> usize
    requires row_in { RowIn lay.now rec.now row }
    requires ends { Ends row.columns.edition lay.now ends.now }
    ensures upper_bound { result ≤ length types.new }
    ensures upper_bound_2 { result ≤ length values.new }
    ensures indexed_in { IndexedIn lay.now rec.now row (take result types.new) (take result values.new) }
{
    let columns = row.columns;
    let v = columns.edition;
    let n = columns.count;
    let stride = row.stride;
    let mut t = columns.first;
    let mut c = row.values;
    let mut i: u16 = 0;
    let mut j: usize = 0;
    while storable(j, types.len(), values.len(), t.at, c.at) {
        types[j] = t.at as u16;
        values[j] = c.at as u16;
        j += 1;
        if n - i <= stride {
            return j;
        }
        match read_fields(lay, v, DEEPEST, stride, t, rec, c, ends) {
            ValueRead::To(d, e) => {
                t = d;
                c = e;
            }
            ValueRead::Refused(_) => return j,
        }
        i += stride;
    }
    j
}

// The value of column `k`, as `nodes::raw::field_at` finds it.
pub fn indexed_value(
    lay: &[u8],
    rec: &[u8],
    row: Row,
    types: &[u16],
    values: &[u16],
    k: u16,
    ends: &[u16],
) -> NodeAt
    requires row_in { RowIn lay.now rec.now row }
    requires indexed_in { IndexedIn lay.now rec.now row types.now values.now }
    requires stride_nonzero { 0 < row.stride }
    requires ends { Ends row.columns.edition lay.now ends.now }
    ensures { (X : RowIn lay.now rec.now row) → NodeOf row.columns.edition lay.now rec.now (value_at X.values.values k) result }
{
    let columns = row.columns;
    let v = columns.edition;
    let n = columns.count;
    let stride = row.stride;
    let q = k / stride;
    let j = wide(q);
    if j < types.len() {
        let t = Cursor { at: wide(types[j]) };
        let d = Cursor {
            at: wide(values[j]),
        };
        field_at(lay, v, n - q * stride, t, rec, d, k % stride, ends)
    } else {
        field_at(lay, v, n, columns.first, rec, row.values, k, ends)
    }
}
