// Where every stride-th column stands in a layout.
ghost use Rattle.std.specs.Prelude.{◌≡◌, ℕ, ◌≤◌, ◌<◌, length, take};
ghost use Rattle.layout.specs.Limits.{deepest};
ghost use Rattle.layout.specs.Find.{column_at};
ghost use Rattle.layout.specs.code.Finding.{Finds};
ghost use Rattle.layout.specs.code.Stands.{ColumnsAt};
ghost use Rattle.layout.specs.Bytes.{Bytes};
ghost use Rattle.layout.specs.declared.edition.Edition.{Edition as EditionOf};
ghost use Rattle.index.specs.code.Indexed.{stride_of, Indexed, StartsBefore, drop_columns, first_as};

use layout::bytes::wide;
use layout::columns::{Labelled, Position};
use layout::cursor::{Cursor, Moved};
use layout::edition::Edition;
use layout::find::Found;
use layout::limits::DEEPEST;
use layout::pass::pass_columns;

// A stride at which 256 entries do for `n` columns.
pub fn stride_of(n: u16) -> u16
    ensures value { result ≡ stride_of n }
    ensures result_nonzero { 0 < result }
{
    n / 256 + 1
}

// A stride at which 64 entries do for `n` fields of a struct.
pub fn field_stride(n: u16) -> u16
    ensures { 0 < result }
{
    n / 64 + 1
}

// Whether no table is worth its time: there are few columns, and few selectors that take them.
pub fn few(n: u16, count: u16) -> bool {
    if 8 < n {
        return false;
    }
    count <= 8
}

// Fills the table and answers how many entries it got. An offset that an entry can't hold ends the table: lookups then
// pass over the columns themselves.
pub fn index_columns(
    s: &[u8],
    v: Edition,
    n: u16,
    first: Cursor,
    stride: u16,
    starts: &mut [u16],
) -> usize
    ensures upper_bound { result ≤ length starts.new }
    ensures indexed { Indexed v s.now n first.at stride (take result starts.new) }
{
    let mut c = first;
    let mut i: u16 = 0;
    let mut j: usize = 0;
    while j < starts.len() {
        if 65535 < c.at {
            return j;
        }
        starts[j] = c.at as u16;
        j += 1;
        if n - i <= stride {
            return j;
        }
        match pass_columns(s, v, DEEPEST, stride, c) {
            Moved::To(e) => {
                c = e;
            }
            Moved::Refused(_) => return j,
        }
        i += stride;
    }
    j
}

// The column after `m` others, whose position is `k`.
fn column_after(s: &[u8], v: Edition, m: u16, c: Cursor, k: Position) -> Found
    ensures { (n : ℕ) (P : ColumnsAt v deepest s.now n c.at) → m < n → Finds v deepest s.now (first_as k (drop_columns m P.columns)) result }
{
    match pass_columns(s, v, DEEPEST, m, c) {
        Moved::To(d) => match d.label(s, v) {
            Labelled::Is(l, e) => Found::At(k, l, e),
            Labelled::Refused(_) => Found::Absent,
        },
        Moved::Refused(_) => Found::Absent,
    }
}

// Where a column at or before the one looked for stands, and how many lie between.
#[derive(Clone, Copy)]
struct Start {
    at: usize,
    left: u16,
}

// The last entry of the table that is not behind column `k`; without one, the first column.
fn start_of(index: &[u16], stride: u16, first: Cursor, k: u16) -> Start
    requires { 0 < stride }
    ensures { (v : EditionOf) (s : Bytes) (n : ℕ) → Indexed v s n first.at stride index.now → (P : ColumnsAt v deepest s n first.at) → StartsBefore v s n first.at P k result.at result.left }
{
    let j = wide(k / stride);
    if j < index.len() {
        Start {
            at: wide(index[j]),
            left: k % stride,
        }
    } else {
        Start {
            at: first.at,
            left: k,
        }
    }
}

// Column `k` of `n`, as `layout::find::column_at` finds it.
pub fn indexed_column(
    s: &[u8],
    v: Edition,
    n: u16,
    first: Cursor,
    index: &[u16],
    stride: u16,
    k: Position,
) -> Found
    requires columns_at { ColumnsAt v deepest s.now n first.at }
    requires indexed { Indexed v s.now n first.at stride index.now }
    requires stride_nonzero { 0 < stride }
    ensures { (P : ColumnsAt v deepest s.now n first.at) → Finds v deepest s.now (column_at k P.columns) result }
{
    let p = k.0;
    if n <= p {
        return Found::Absent;
    }
    let b = start_of(index, stride, first, p);
    column_after(s, v, b.left, Cursor { at: b.at }, k)
}
