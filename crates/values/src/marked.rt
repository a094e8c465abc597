// Reading a value by its type, which stands in a layout that was read before; a null in a required column is 56 where
// the layout's marks count.
ghost use Rattle.std.specs.Prelude.{Bool, ◌&&◌, ◌≡◌, ℕ};
ghost use Rattle.layout.specs.Tree.{Label as LabelOf};
ghost use Rattle.layout.specs.code.Stands.{TypeAt, ColumnsAt};
ghost use Rattle.layout.specs.code.Answers.{moved_of};
ghost use Rattle.layout.specs.declared.edition.Edition.{Edition as EditionOf};
ghost use Rattle.ends.specs.code.Ends.{Ends};
ghost use Rattle.values.specs.Reading.{list_content, times};
ghost use Rattle.values.specs.code.Marks.{marks_of};
ghost use Rattle.values.specs.Marked.{presence_marked, value_marked, values_marked, content_marked};
ghost use Rattle.values.specs.code.Answers.{presence_res, value_moved, NumberIs};

use crate::content::number_bytes;
use crate::leaf::{Presence, pass, read_leaf, read_presence};
use crate::read::ValueRead;
use ends::skip::skip_type_by;
use layout::columns::{Label, Labelled};
use layout::cursor::{Cursor, Moved, Short, Step};
use layout::edition::Edition;
use layout::parts::TypeParts;

// The edition of the layout in which a type stands, how many levels the type may have, and whether marks count.
#[derive(Clone, Copy)]
pub struct Context {
    pub edition: Edition,
    pub depth: u8,
    pub marks: bool,
}

// Whether the column of this label is required, where marks count.
fn is_required(marks: bool, label: Label) -> bool
    ensures { result ≡ marks && label.required }
{
    if marks { label.required } else { false }
}

// A presence byte, 0 being 56 in a required column.
fn marked_presence(s: &[u8], required: bool, c: Cursor) -> Presence
    ensures { presence_res result ≡ presence_marked required s.now c.at }
{
    match read_presence(s, c) {
        Presence::Null(d) => {
            if required {
                Presence::Refused(56)
            } else {
                Presence::Null(d)
            }
        }
        Presence::Present(d) => Presence::Present(d),
        Presence::Refused(k) => Presence::Refused(k),
    }
}

// A value that ends at `c`, of a type that is not passed yet.
fn pass_type(lay: &[u8], cx: Context, t: Cursor, c: Cursor, ends: &[u16]) -> ValueRead
    requires type_at { TypeAt cx.edition cx.depth lay.now t.at }
    requires ends { Ends cx.edition lay.now ends.now }
    ensures { (P : TypeAt cx.edition cx.depth lay.now t.at) → result ≡ ValueRead.To (record { at = P.end }) c }
{
    let v = cx.edition;
    ValueRead::To(skip_type_by(lay, v, cx.depth, t, ends), c)
}

// What follows the presence byte of a number whose type is a code alone; or the type is another.
#[derive(Clone, Copy)]
enum NumberRead {
    Is(ValueRead),
    Other,
}

fn read_number(lay: &[u8], t: Cursor, rec: &[u8], c: Cursor) -> NumberRead
    ensures { (mark : LabelOf → Bool) (v : EditionOf) (depth : ℕ) (P : TypeAt v depth lay.now t.at) → NumberIs P.end (content_marked mark P.tree rec.now c.at) result }
{
    match t.byte(lay) {
        Step::Byte(code, e) => {
            let w = number_bytes(code);
            if w == 0 {
                return NumberRead::Other;
            }
            match pass(rec, c, w as usize) {
                Moved::To(d) => NumberRead::Is(ValueRead::To(e, d)),
                Moved::Refused(k) => NumberRead::Is(ValueRead::Refused(k)),
            }
        }
        Step::Refused(_) => NumberRead::Other,
    }
}

// A value of a column that is required or not.
#[cycle(marked_content_marked_element_marked_elements_marked_fields_marked_list_marked_nested_marked_value)]
pub fn marked_value(
    lay: &[u8],
    cx: Context,
    required: bool,
    t: Cursor,
    rec: &[u8],
    c: Cursor,
    ends: &[u16],
) -> ValueRead
    requires type_at { TypeAt cx.edition cx.depth lay.now t.at }
    requires ends { Ends cx.edition lay.now ends.now }
    ensures { (P : TypeAt cx.edition cx.depth lay.now t.at) → result ≡ value_moved P.end (value_marked (marks_of cx.marks) required P.tree rec.now c.at) }
{
    match marked_presence(rec, required, c) {
        Presence::Null(d) => pass_type(lay, cx, t, d, ends),
        Presence::Present(d) => marked_content(lay, cx, t, rec, d, ends),
        Presence::Refused(k) => ValueRead::Refused(k),
    }
}

// What follows the presence byte of a value that is present.
#[cycle(marked_content_marked_element_marked_elements_marked_fields_marked_list_marked_nested_marked_value)]
fn marked_content(
    lay: &[u8],
    cx: Context,
    t: Cursor,
    rec: &[u8],
    c: Cursor,
    ends: &[u16],
) -> ValueRead
    requires type_at { TypeAt cx.edition cx.depth lay.now t.at }
    requires ends { Ends cx.edition lay.now ends.now }
    ensures { (P : TypeAt cx.edition cx.depth lay.now t.at) → result ≡ value_moved P.end (content_marked (marks_of cx.marks) P.tree rec.now c.at) }
{
    match read_number(lay, t, rec, c) {
        NumberRead::Is(r) => r,
        NumberRead::Other => marked_nested(lay, cx, t, rec, c, ends),
    }
}

// The same of any type. Numbers are read before it is called, in line.
#[cycle(marked_content_marked_element_marked_elements_marked_fields_marked_list_marked_nested_marked_value)]
fn marked_nested(
    lay: &[u8],
    cx: Context,
    t: Cursor,
    rec: &[u8],
    c: Cursor,
    ends: &[u16],
) -> ValueRead
    requires type_at { TypeAt cx.edition cx.depth lay.now t.at }
    requires ends { Ends cx.edition lay.now ends.now }
    ensures { (P : TypeAt cx.edition cx.depth lay.now t.at) → result ≡ value_moved P.end (content_marked (marks_of cx.marks) P.tree rec.now c.at) }
{
    let v = cx.edition;
    let inner = Context {
        edition: v,
        depth: cx.depth - 1,
        marks: cx.marks,
    };
    match t.parts(lay, v) {
        TypeParts::Leaf(l, e) => {
            let leaf = l.leaf;
            match read_leaf(rec, leaf, c) {
                Moved::To(d) => ValueRead::To(e, d),
                Moved::Refused(k) => ValueRead::Refused(k),
            }
        }
        TypeParts::Struct(n, e) => marked_fields(lay, inner, n, e, rec, c, ends),
        TypeParts::List(l, e) => {
            marked_list(lay, inner, is_required(cx.marks, l), e, rec, c, ends)
        }
        TypeParts::Array(w, l, e) => {
            marked_elements(lay, inner, is_required(cx.marks, l), w, e, rec, c, ends)
        }
        TypeParts::Refused(k) => ValueRead::Refused(k),
    }
}

// A value for each of `n` columns.
#[cycle(marked_content_marked_element_marked_elements_marked_fields_marked_list_marked_nested_marked_value)]
pub fn marked_fields(
    lay: &[u8],
    cx: Context,
    n: u16,
    t: Cursor,
    rec: &[u8],
    c: Cursor,
    ends: &[u16],
) -> ValueRead
    requires columns_at { ColumnsAt cx.edition cx.depth lay.now n t.at }
    requires ends { Ends cx.edition lay.now ends.now }
    ensures { (P : ColumnsAt cx.edition cx.depth lay.now n t.at) → result ≡ value_moved P.end (values_marked (marks_of cx.marks) P.columns rec.now c.at) }
{
    let v = cx.edition;
    let mut d = t;
    let mut b = c;
    let mut i: u16 = 0;
    while i < n {
        match d.label(lay, v) {
            Labelled::Is(l, e) => {
                match marked_value(lay, cx, is_required(cx.marks, l), e, rec, b, ends) {
                    ValueRead::To(f, g) => {
                        d = f;
                        b = g;
                    }
                    ValueRead::Refused(k) => return ValueRead::Refused(k),
                }
            }
            Labelled::Refused(k) => return ValueRead::Refused(k),
        }
        i += 1;
    }
    ValueRead::To(d, b)
}

// A count and as many values of one type.
#[cycle(marked_content_marked_element_marked_elements_marked_fields_marked_list_marked_nested_marked_value)]
fn marked_list(
    lay: &[u8],
    cx: Context,
    required: bool,
    t: Cursor,
    rec: &[u8],
    c: Cursor,
    ends: &[u16],
) -> ValueRead
    requires type_at { TypeAt cx.edition cx.depth lay.now t.at }
    requires ends { Ends cx.edition lay.now ends.now }
    ensures { (P : TypeAt cx.edition cx.depth lay.now t.at) → result ≡ value_moved P.end (list_content (value_marked (marks_of cx.marks) required P.tree) rec.now c.at) }
{
    match c.short(rec) {
        Short::Is(n, d) => marked_elements(lay, cx, required, n as u32, t, rec, d, ends),
        Short::Refused(k) => ValueRead::Refused(k),
    }
}

// One element, whose type is not passed.
#[cycle(marked_content_marked_element_marked_elements_marked_fields_marked_list_marked_nested_marked_value)]
pub fn marked_element(
    lay: &[u8],
    cx: Context,
    required: bool,
    t: Cursor,
    rec: &[u8],
    c: Cursor,
    ends: &[u16],
) -> Moved
    requires type_at { TypeAt cx.edition cx.depth lay.now t.at }
    requires ends { Ends cx.edition lay.now ends.now }
    ensures { (P : TypeAt cx.edition cx.depth lay.now t.at) → result ≡ moved_of (value_marked (marks_of cx.marks) required P.tree rec.now c.at) }
{
    match marked_presence(rec, required, c) {
        Presence::Null(d) => Moved::To(d),
        Presence::Present(d) => match marked_content(lay, cx, t, rec, d, ends) {
            ValueRead::To(_, e) => Moved::To(e),
            ValueRead::Refused(k) => Moved::Refused(k),
        },
        Presence::Refused(k) => Moved::Refused(k),
    }
}

// `n` values of one type, which is passed once at the end and not at each null.
#[cycle(marked_content_marked_element_marked_elements_marked_fields_marked_list_marked_nested_marked_value)]
pub fn marked_elements(
    lay: &[u8],
    cx: Context,
    required: bool,
    n: u32,
    t: Cursor,
    rec: &[u8],
    c: Cursor,
    ends: &[u16],
) -> ValueRead
    requires type_at { TypeAt cx.edition cx.depth lay.now t.at }
    requires ends { Ends cx.edition lay.now ends.now }
    ensures { (P : TypeAt cx.edition cx.depth lay.now t.at) → result ≡ value_moved P.end (times n (value_marked (marks_of cx.marks) required P.tree) rec.now c.at) }
{
    let mut d = c;
    let mut i: u32 = 0;
    while i < n {
        match marked_element(lay, cx, required, t, rec, d, ends) {
            Moved::To(e) => d = e,
            Moved::Refused(k) => return ValueRead::Refused(k),
        }
        i += 1;
    }
    pass_type(lay, cx, t, d, ends)
}
