// Compares types and columns that were read before, of any versions, with ids and element names dropped.
ghost use Rattle.std.specs.Prelude.{◌≡◌, ◌&&◌};
ghost use Rattle.layout.specs.Bytes.{same_bytes};
ghost use Rattle.layout.specs.Tree.{dtype_of, fields_of};
ghost use Rattle.layout.specs.code.Answers.{span_at, SpanIn};
ghost use Rattle.layout.specs.code.Stands.{TypeAt, ColumnsAt};
ghost use Rattle.forms.specs.code.Compare.{same_dtype, same_fields_of};
ghost use Rattle.forms.specs.code.Answers.{same_of};
ghost use Rattle.forms.specs.code.Labelled.{ElementAt, ColumnAt};

use crate::head::head_end;
use layout::bytes::{Span, same_bytes};
use layout::columns::{ColumnRange, Labelled};
use layout::cursor::Cursor;
use layout::edition::Edition;
use layout::types::Head;

// Where two types that are the same end, each in its own bytes.
#[derive(Clone, Copy)]
pub enum Same {
    To(Cursor, Cursor),
    No,
}

pub fn same_text(a: &[u8], p: Span, b: &[u8], q: Span) -> bool
    requires span_in { SpanIn a.now p }
    requires span_in_2 { SpanIn b.now q }
    ensures { result ≡ same_bytes (span_at a.now p) (span_at b.now q) }
{
    let i = p.start;
    let j = q.start;
    same_bytes(&a[i..i + p.len], &b[j..j + q.len])
}

// What the types begin with is compared as bytes: the code, a date-time's unit and zone, a struct's count, an array's
// width.
#[cycle(same_column_same_element_same_fields_same_type)]
pub fn same_type(
    a: &[u8],
    va: Edition,
    da: u8,
    ca: Cursor,
    b: &[u8],
    vb: Edition,
    db: u8,
    cb: Cursor,
) -> Same
    requires type_at { TypeAt va da a.now ca.at }
    requires type_at_2 { TypeAt vb db b.now cb.at }
    ensures { (P : TypeAt va da a.now ca.at) (Q : TypeAt vb db b.now cb.at) → result ≡ same_of (same_dtype (dtype_of P.tree) (dtype_of Q.tree)) P.end Q.end }
{
    let x = head_end(a, ca);
    let y = head_end(b, cb);
    let p = Span {
        start: ca.at,
        len: x.at - ca.at,
    };
    let q = Span {
        start: cb.at,
        len: y.at - cb.at,
    };
    if !same_text(a, p, b, q) {
        return Same::No;
    }
    match ca.head(a) {
        Head::Leaf(_, _) => Same::To(x, y),
        Head::Struct(n, _) => {
            let columns = ColumnRange {
                edition: va,
                count: n,
                first: x,
            };
            let other = ColumnRange {
                edition: vb,
                count: n,
                first: y,
            };
            same_fields(a, columns, da - 1, b, other, db - 1)
        }
        Head::List(_) => same_element(a, va, da - 1, x, b, vb, db - 1, y),
        Head::Array(_, _) => same_element(a, va, da - 1, x, b, vb, db - 1, y),
        Head::Refused(_) => Same::No,
    }
}

// The elements' labels are dropped.
#[cycle(same_column_same_element_same_fields_same_type)]
fn same_element(
    a: &[u8],
    va: Edition,
    da: u8,
    ca: Cursor,
    b: &[u8],
    vb: Edition,
    db: u8,
    cb: Cursor,
) -> Same
    requires element_at { ElementAt va da a.now ca.at }
    requires element_at_2 { ElementAt vb db b.now cb.at }
    ensures { (E : ElementAt va da a.now ca.at) (F : ElementAt vb db b.now cb.at) → result ≡ same_of (same_dtype (dtype_of E.inner.tree) (dtype_of F.inner.tree)) E.inner.end F.inner.end }
{
    match ca.element_label(a, va) {
        Labelled::Is(_, x) => match cb.element_label(b, vb) {
            Labelled::Is(_, y) => same_type(a, va, da, x, b, vb, db, y),
            Labelled::Refused(_) => Same::No,
        },
        Labelled::Refused(_) => Same::No,
    }
}

// Of a column's label the name counts.
#[cycle(same_column_same_element_same_fields_same_type)]
fn same_column(
    a: &[u8],
    va: Edition,
    da: u8,
    ca: Cursor,
    b: &[u8],
    vb: Edition,
    db: u8,
    cb: Cursor,
) -> Same
    requires column_at { ColumnAt va da a.now ca.at }
    requires column_at_2 { ColumnAt vb db b.now cb.at }
    ensures { (E : ColumnAt va da a.now ca.at) (F : ColumnAt vb db b.now cb.at) → result ≡ same_of (same_bytes E.label.name F.label.name && same_dtype (dtype_of E.inner.tree) (dtype_of F.inner.tree)) E.inner.end F.inner.end }
{
    match ca.label(a, va) {
        Labelled::Is(l, x) => match cb.label(b, vb) {
            Labelled::Is(m, y) => {
                let p = l.name;
                let q = m.name;
                if !same_text(a, p, b, q) {
                    return Same::No;
                }
                same_type(a, va, da, x, b, vb, db, y)
            }
            Labelled::Refused(_) => Same::No,
        },
        Labelled::Refused(_) => Same::No,
    }
}

// As many columns of each.
#[cycle(same_column_same_element_same_fields_same_type)]
fn same_fields(a: &[u8], ca: ColumnRange, da: u8, b: &[u8], cb: ColumnRange, db: u8) -> Same
    requires columns_at { ColumnsAt ca.edition da a.now ca.count ca.first.at }
    requires columns_at_2 { ColumnsAt cb.edition db b.now cb.count cb.first.at }
    requires count_value { cb.count ≡ ca.count }
    ensures { (P : ColumnsAt ca.edition da a.now ca.count ca.first.at) (Q : ColumnsAt cb.edition db b.now cb.count cb.first.at) → result ≡ same_of (same_fields_of (fields_of P.columns) (fields_of Q.columns)) P.end Q.end }
{
    let va = ca.edition;
    let vb = cb.edition;
    let n = ca.count;
    let mut c = ca.first;
    let mut d = cb.first;
    let mut i: u16 = 0;
    while i < n {
        match same_column(a, va, da, c, b, vb, db, d) {
            Same::To(e, f) => {
                c = e;
                d = f;
            }
            Same::No => return Same::No,
        }
        i += 1;
    }
    Same::To(c, d)
}
