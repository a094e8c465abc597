// Writes the version 1 form of a type that was read before. Bytes past the buffer's end are dropped.
ghost use Rattle.std.specs.Prelude.{◌≡◌, ◌+◌, ◌*◌, ◌^◌, ◌≤◌, ◌<◌, length};
ghost use Rattle.store.specs.code.Overlay.{overlay};
ghost use Rattle.layout.specs.Tree.{dtype_of, fields_of};
ghost use Rattle.layout.specs.Layout.{kind};
ghost use Rattle.layout.specs.code.Answers.{span_at, SpanIn};
ghost use Rattle.layout.specs.code.Stands.{TypeAt, ColumnsAt};
ghost use Rattle.forms.specs.Form.{text_bytes, form, form_fields};
ghost use Rattle.forms.specs.code.Heads.{rest_form};
ghost use Rattle.forms.specs.code.Answers.{end_of};

use crate::head::head_end;
use layout::bytes::Span;
use layout::columns::Labelled;
use layout::cursor::Cursor;
use layout::edition::Edition;
use layout::types::Head;
use store::{copy, put};

// How many bytes were written, and where the type ends in the bytes that it was read from.
#[derive(Clone, Copy)]
pub struct Written {
    pub len: usize,
    pub end: Cursor,
}

// A name or a zone: its length and its bytes.
pub fn write_text(s: &[u8], p: Span, out: &mut [u8], k: usize) -> usize
    requires span_in { SpanIn s.now p × (p.len ≤ 63) }
    requires s_bound { k + 1 + length s.now < 2 ^ 64 }
    ensures value { result ≡ length (text_bytes (span_at s.now p)) }
    ensures out_after { out.new ≡ overlay out.old k (text_bytes (span_at s.now p)) }
{
    put(out, k, p.len as u8);
    copy(s, p.start, p.start + p.len, out, k + 1);
    p.len + 1
}

// The form of a type of at most `depth` levels, from index `k` on.
#[cycle(write_fields_write_form_write_rest)]
pub fn write_form(s: &[u8], v: Edition, depth: u8, c: Cursor, out: &mut [u8], k: usize) -> Written
    requires type_at { TypeAt v depth s.now c.at }
    requires s_bound { k + 2 * length s.now < 2 ^ 64 + c.at }
    ensures len_value { (P : TypeAt v depth s.now c.at) → (result.len ≡ length (form (dtype_of P.tree))) × (result.end.at ≡ P.end) }
    ensures out_after { (P : TypeAt v depth s.now c.at) → out.new ≡ overlay out.old k (form (dtype_of P.tree)) }
{
    let d = head_end(s, c);
    let h = d.at - c.at;
    copy(s, c.at, d.at, out, k);
    let rest = write_rest(s, v, depth, c, out, k + h);
    let end = rest.end;
    Written {
        len: h + rest.len,
        end,
    }
}

// The form of what follows the head: a struct's columns, or an element.
#[cycle(write_fields_write_form_write_rest)]
fn write_rest(s: &[u8], v: Edition, depth: u8, c: Cursor, out: &mut [u8], k: usize) -> Written
    requires type_at { TypeAt v depth s.now c.at }
    requires s_bound { k + 2 * length s.now < 2 ^ 64 + (end_of (kind s.now c.at) c).at }
    ensures len_value { (P : TypeAt v depth s.now c.at) → (result.len ≡ length (rest_form (dtype_of P.tree))) × (result.end.at ≡ P.end) }
    ensures out_after { (P : TypeAt v depth s.now c.at) → out.new ≡ overlay out.old k (rest_form (dtype_of P.tree)) }
{
    match c.head(s) {
        Head::Leaf(_, d) => Written { len: 0, end: d },
        Head::Struct(n, d) => write_fields(s, v, depth - 1, n, d, out, k),
        Head::List(d) => match d.element_label(s, v) {
            Labelled::Is(_, e) => write_form(s, v, depth - 1, e, out, k),
            Labelled::Refused(_) => Written { len: 0, end: d },
        },
        Head::Array(_, d) => match d.element_label(s, v) {
            Labelled::Is(_, e) => write_form(s, v, depth - 1, e, out, k),
            Labelled::Refused(_) => Written { len: 0, end: d },
        },
        Head::Refused(_) => Written { len: 0, end: c },
    }
}

// The names and forms of `n` columns.
#[cycle(write_fields_write_form_write_rest)]
pub fn write_fields(
    s: &[u8],
    v: Edition,
    depth: u8,
    n: u16,
    c: Cursor,
    out: &mut [u8],
    k: usize,
) -> Written
    requires columns_at { ColumnsAt v depth s.now n c.at }
    requires s_bound { k + 2 * length s.now < 2 ^ 64 + c.at }
    ensures len_value { (P : ColumnsAt v depth s.now n c.at) → (result.len ≡ length (form_fields (fields_of P.columns))) × (result.end.at ≡ P.end) }
    ensures out_after { (P : ColumnsAt v depth s.now n c.at) → out.new ≡ overlay out.old k (form_fields (fields_of P.columns)) }
{
    let mut d = c;
    let mut to = k;
    let mut i: u16 = 0;
    while i < n {
        match d.label(s, v) {
            Labelled::Is(l, next) => {
                let name = l.name;
                let m = write_text(s, name, out, to);
                let w = write_form(s, v, depth, next, out, to + m);
                to = to + m + w.len;
                d = w.end;
            }
            Labelled::Refused(_) => return Written { len: 0, end: c },
        }
        i += 1;
    }
    Written {
        len: to - k,
        end: d,
    }
}
