// Selectors, one to a line, with their inputs and parts indented below.
use crate::dropped::put_dropped;
use crate::scope::{Scope, inside, put_position, type_of};
use crate::target::{
    Made, MadeColumns, made_fields, put_array, put_list, put_made_column, put_made_element,
};
use describe::columns::{put_inner, put_start};
use describe::records::put_value;
use describe::types::put_type;
use layout::bytes::Span;
use layout::cursor::{Cursor, Moved};
use layout::edition::Edition;
use layout::pass::pass_type;
use plan::read::read_selector;
use rules::outcome::CastOption;
use std::io;
use text::out::{deeper, put, put_count, put_indent, put_span};
use values::leaf::{Presence, read_presence};
use walk::head::{
    SelectorHead, StructFields, cast_option, head, rename_name, skip_selector, struct_fields,
};

fn put_option(rt: &impl Print, o: CastOption) -> io::Result<()> {
    match o {
        CastOption::NonStrict => put(rt, b", NonStrict\n"),
        CastOption::Strict => put(rt, b", Strict\n"),
        CastOption::Overflowing => put(rt, b", Overflowing\n"),
    }
}

// The cast whose input begins at `input`, without its input.
fn put_cast(rt: &impl Print, plan: &[u8], input: Cursor, level: u8) -> io::Result<()> {
    let t = skip_selector(plan, input);
    put(rt, b"cast to ")?;
    put_type(rt, plan, Edition::One, 16, t)?;
    put_option(rt, cast_option(plan, t))?;
    put_inner(rt, plan, Edition::One, 16, t, deeper(deeper(level)))
}

// A constant's value of the type at `t`. Of a null one the columns inside its type are written below, else those of the
// value.
fn put_constant_value(
    rt: &impl Print,
    plan: &[u8],
    t: Cursor,
    c: Cursor,
    level: u8,
) -> io::Result<()> {
    put_value(rt, plan, Edition::One, 16, t, plan, c, level)?;
    if let Presence::Null(_) = read_presence(plan, c) {
        put_inner(rt, plan, Edition::One, 16, t, deeper(level))?;
    }
    Ok(())
}

fn put_constant(rt: &impl Print, plan: &[u8], name: Span, t: Cursor, level: u8) -> io::Result<()> {
    put(rt, b"constant ")?;
    put_span(rt, plan, name)?;
    put(rt, b" ")?;
    put_type(rt, plan, Edition::One, 16, t)?;
    if let Moved::To(c) = pass_type(plan, Edition::One, 16, t) {
        put_constant_value(rt, plan, t, c, level)?;
    }
    Ok(())
}

// The selector at `c`, whose line has begun; positions take from `scope`.
#[cycle(put_element_put_input_put_rename_put_selector_put_selectors_put_struct)]
fn put_selector(
    rt: &impl Print,
    plan: &[u8],
    incoming: &[u8],
    scope: Scope,
    target: &[u8],
    made: Made,
    depth: u8,
    c: Cursor,
    level: u8,
) -> io::Result<()> {
    if depth == 0 {
        return Ok(());
    }
    let left = depth - 1;
    match head(plan, c) {
        SelectorHead::Position(k) => put_position(rt, plan, incoming, scope, k),
        SelectorHead::Constant(name, t) => put_constant(rt, plan, name, t, level),
        SelectorHead::Cast(input) => {
            put_cast(rt, plan, input, level)?;
            put_input(rt, plan, incoming, scope, target, left, input, level)
        }
        SelectorHead::Rename(input) => {
            put_rename(rt, plan, incoming, scope, target, made, left, input, level)
        }
        SelectorHead::Struct(input) => {
            put_struct(rt, plan, incoming, scope, target, made, left, input, level)
        }
        SelectorHead::List(input) => {
            let item = put_list(rt, target, made)?;
            put_element(rt, plan, incoming, scope, target, item, left, input, level)
        }
        SelectorHead::Array(input) => {
            let item = put_array(rt, target, made)?;
            put_element(rt, plan, incoming, scope, target, item, left, input, level)
        }
        SelectorHead::Refused => Ok(()),
    }
}

fn put_from(rt: &impl Print, level: u8) -> io::Result<()> {
    put_indent(rt, level)?;
    put(rt, b"from ")
}

// The input of a cast or a mapping at `level`. It makes nothing that the target has.
#[cycle(put_element_put_input_put_rename_put_selector_put_selectors_put_struct)]
fn put_input(
    rt: &impl Print,
    plan: &[u8],
    incoming: &[u8],
    scope: Scope,
    target: &[u8],
    depth: u8,
    input: Cursor,
    level: u8,
) -> io::Result<()> {
    let below = deeper(level);
    put_from(rt, below)?;
    put_selector(
        rt,
        plan,
        incoming,
        scope,
        target,
        Made::Unknown,
        depth,
        input,
        below,
    )
}

// The rest of a rename's line, and its input, which makes the same but for the name.
#[cycle(put_element_put_input_put_rename_put_selector_put_selectors_put_struct)]
fn put_rename(
    rt: &impl Print,
    plan: &[u8],
    incoming: &[u8],
    scope: Scope,
    target: &[u8],
    made: Made,
    depth: u8,
    input: Cursor,
    level: u8,
) -> io::Result<()> {
    put(rt, b"rename to ")?;
    put_span(rt, plan, rename_name(plan, input))?;
    put(rt, b"\n")?;
    let below = deeper(level);
    put_from(rt, below)?;
    put_selector(rt, plan, incoming, scope, target, made, depth, input, below)
}

// The input of a list or array mapping at `level`, and the selector that makes its element.
#[cycle(put_element_put_input_put_rename_put_selector_put_selectors_put_struct)]
fn put_element(
    rt: &impl Print,
    plan: &[u8],
    incoming: &[u8],
    scope: Scope,
    target: &[u8],
    made: Made,
    depth: u8,
    input: Cursor,
    level: u8,
) -> io::Result<()> {
    put_input(rt, plan, incoming, scope, target, depth, input, level)?;
    let inner = inside(plan, incoming, type_of(plan, incoming, scope, depth, input));
    let next = skip_selector(plan, input);
    let below = deeper(level);
    put_indent(rt, below)?;
    put(rt, b"element ")?;
    put_made_element(rt, target, made)?;
    put_selector(rt, plan, incoming, inner, target, made, depth, next, below)
}

// The rest of a struct mapping's line, its input and its fields' selectors.
#[cycle(put_element_put_input_put_rename_put_selector_put_selectors_put_struct)]
fn put_struct(
    rt: &impl Print,
    plan: &[u8],
    incoming: &[u8],
    scope: Scope,
    target: &[u8],
    made: Made,
    depth: u8,
    input: Cursor,
    level: u8,
) -> io::Result<()> {
    let fields = struct_fields(plan, input);
    let count = fields.count;
    let first = fields.first;
    put(rt, b"struct mapping of ")?;
    put_count(rt, count as u64, b"field")?;
    put(rt, b"\n")?;
    put_input(rt, plan, incoming, scope, target, depth, input, level)?;
    let inner = inside(plan, incoming, type_of(plan, incoming, scope, depth, input));
    put_selectors(
        rt,
        plan,
        incoming,
        inner,
        target,
        made_fields(target, made),
        depth,
        fields,
        deeper(level),
    )?;
    put_dropped(rt, plan, incoming, inner, count, first, deeper(level))
}

// The selectors of `fields`; positions take from `scope`, and `columns` are made.
#[cycle(put_element_put_input_put_rename_put_selector_put_selectors_put_struct)]
pub fn put_selectors(
    rt: &impl Print,
    plan: &[u8],
    incoming: &[u8],
    scope: Scope,
    target: &[u8],
    columns: MadeColumns,
    depth: u8,
    fields: StructFields,
    level: u8,
) -> io::Result<()> {
    let count = fields.count;
    let mut d = fields.first;
    let mut i: u16 = 0;
    while i < count {
        put_start(rt, i as u64, level)?;
        let made = put_made_column(rt, target, columns, i)?;
        put_selector(rt, plan, incoming, scope, target, made, depth, d, level)?;
        let mut none = [0u16; 1];
        let Moved::To(end) = read_selector(plan, depth, d, &mut none) else {
            return Ok(());
        };
        d = end;
        i += 1;
    }
    Ok(())
}
