// Passing over types and columns, with no test for repeated siblings.
ghost use Rattle.std.specs.Prelude.{◌≡◌, []};
ghost use Rattle.layout.specs.Parser.{u32};
ghost use Rattle.layout.specs.Layout.{label, element_label, plain_leaf, datetime_head, decimal_head, list_type, columns, type};
ghost use Rattle.layout.specs.code.Pass.{type_rest};
ghost use Rattle.layout.specs.code.Answers.{moved_of};
ghost use Rattle.layout.specs.declared.columns.Siblings.{Siblings};
ghost use Rattle.layout.specs.declared.types.PlainLeaf.{PlainLeaf as PlainLeafOf};

use crate::columns::MarkRead;
use crate::cursor::{Cursor, Moved, Short, Step, Text};
use crate::edition::Edition;
use crate::types::{DecimalRead, PlainLeaf, Unit, plain_leaf};

// Four bytes.
pub fn pass_long(s: &[u8], c: Cursor) -> Moved
    ensures { result ≡ moved_of (u32 s.now c.at) }
{
    let at = c.at;
    if s.len() < at {
        return Moved::Refused(2);
    }
    if 4 <= s.len() - at {
        Moved::To(Cursor { at: at + 4 })
    } else {
        Moved::Refused(2)
    }
}

pub fn pass_label(s: &[u8], v: Edition, c: Cursor) -> Moved
    ensures { result ≡ moved_of (label v s.now c.at) }
{
    match c.text(s) {
        Text::Is(_, d) => match v {
            Edition::One => Moved::To(d),
            Edition::Two => pass_long(s, d),
            Edition::Three => match pass_long(s, d) {
                Moved::To(e) => match e.required_mark(s) {
                    MarkRead::Is(_, next) => Moved::To(next),
                    MarkRead::Refused(k) => Moved::Refused(k),
                },
                Moved::Refused(k) => Moved::Refused(k),
            },
        },
        Text::Refused(k) => Moved::Refused(k),
    }
}

// An element's label: nothing stands for it in version 1.
pub fn pass_element_label(s: &[u8], v: Edition, c: Cursor) -> Moved
    ensures { result ≡ moved_of (element_label v s.now c.at) }
{
    match v {
        Edition::One => Moved::To(c),
        Edition::Two => pass_label(s, v, c),
        Edition::Three => pass_label(s, v, c),
    }
}

// A date-time's unit and zone.
pub fn pass_datetime(s: &[u8], c: Cursor) -> Moved
    ensures { result ≡ moved_of (datetime_head s.now c.at) }
{
    match c.unit(s) {
        Unit::Is(_, d) => match d.text(s) {
            Text::Is(_, e) => Moved::To(e),
            Text::Refused(k) => Moved::Refused(k),
        },
        Unit::Refused(k) => Moved::Refused(k),
    }
}

// A decimal's precision and scale.
pub fn pass_decimal(s: &[u8], c: Cursor) -> Moved
    ensures { result ≡ moved_of (decimal_head s.now c.at) }
{
    match c.decimal(s) {
        DecimalRead::Is(_, d) => Moved::To(d),
        DecimalRead::Refused(k) => Moved::Refused(k),
    }
}

// A type of at most `depth` levels. Most are a code alone.
#[cycle(pass_columns_pass_element_pass_rest_pass_type)]
pub fn pass_type(s: &[u8], v: Edition, depth: u8, c: Cursor) -> Moved
    ensures { result ≡ moved_of (type v Siblings.Free depth s.now c.at) }
{
    if depth == 0 {
        return Moved::Refused(4);
    }
    match c.byte(s) {
        Step::Byte(code, d) => match plain_leaf(code) {
            PlainLeaf::Known(_) => Moved::To(d),
            PlainLeaf::Unknown => pass_rest(s, v, depth - 1, code, d),
        },
        Step::Refused(k) => Moved::Refused(k),
    }
}

// What follows a code that is not a whole type; the types inside have at most `depth` levels.
#[cycle(pass_columns_pass_element_pass_rest_pass_type)]
fn pass_rest(s: &[u8], v: Edition, depth: u8, code: u8, c: Cursor) -> Moved
    requires { plain_leaf code ≡ PlainLeafOf.Unknown }
    ensures { result ≡ moved_of (type_rest v Siblings.Free depth code s.now c.at) }
{
    match code {
        14 => pass_datetime(s, c),
        18 => match c.short(s) {
            Short::Is(n, d) => pass_columns(s, v, depth, n, d),
            Short::Refused(k) => Moved::Refused(k),
        },
        19 => pass_element(s, v, depth, c),
        20 => match pass_long(s, c) {
            Moved::To(d) => pass_element(s, v, depth, d),
            Moved::Refused(k) => Moved::Refused(k),
        },
        21 => pass_decimal(s, c),
        _ => Moved::Refused(3),
    }
}

// The element of a list or an array.
#[cycle(pass_columns_pass_element_pass_rest_pass_type)]
fn pass_element(s: &[u8], v: Edition, depth: u8, c: Cursor) -> Moved
    ensures { result ≡ moved_of (list_type v (type v Siblings.Free depth) s.now c.at) }
{
    match pass_element_label(s, v, c) {
        Moved::To(d) => pass_type(s, v, depth, d),
        Moved::Refused(k) => Moved::Refused(k),
    }
}

// `n` columns, whose types have at most `depth` levels.
#[cycle(pass_columns_pass_element_pass_rest_pass_type)]
pub fn pass_columns(s: &[u8], v: Edition, depth: u8, n: u16, c: Cursor) -> Moved
    ensures { result ≡ moved_of (columns v Siblings.Free (type v Siblings.Free depth) n [] s.now c.at) }
{
    let mut next = c;
    let mut i: u16 = 0;
    while i < n {
        match pass_label(s, v, next) {
            Moved::To(d) => match pass_type(s, v, depth, d) {
                Moved::To(e) => next = e,
                Moved::Refused(k) => return Moved::Refused(k),
            },
            Moved::Refused(k) => return Moved::Refused(k),
        }
        i += 1;
    }
    Moved::To(next)
}
