// Reading a plan (30): selectors by recursion with the remaining nesting falling, counts of them by loops. Where they
// end is kept in a table that is lent, if it has room.
ghost use Rattle.std.specs.Prelude.{◌≡◌, true, ◌+◌, ◌<◌, ◌≤◌, length, get_or};
ghost use Rattle.layout.specs.code.Answers.{moved_of};
ghost use Rattle.layout.specs.Layout.{text};
ghost use Rattle.plan.specs.Read.{data_type, cast_option, position_rest, constant_rest, cast_rest, rename_rest, struct_rest, list_rest, array_rest, selector_rest, selector, selectors, plan_counted, faulty, plan};
ghost use Rattle.plan.specs.code.Answers.{value_end, plan_read};
ghost use Rattle.plan.specs.code.Skips.{Skips};

use crate::skips::{Since, keep_end, keep_nested, keep_passed, known_end};
use layout::bytes::same_bytes;
use layout::cursor::{Cursor, Moved, Short, Step, Text};
use layout::edition::Edition;
use layout::limits::{DEEPEST, DEEPEST_SELECTOR, LONGEST_PLAN};
use layout::pass::pass_type;
use rules::outcome::{OptionCode, option_of_code};
use values::constant::read_constant_value;
use values::read::ValueRead;

// A plan's number of selectors, and where they begin.
#[derive(Clone, Copy)]
pub enum PlanRead {
    Read(u16, Cursor),
    Refused(u8),
}

fn read_text(s: &[u8], c: Cursor) -> Moved
    ensures { result ≡ moved_of (text s.now c.at) }
{
    match c.text(s) {
        Text::Is(_, d) => Moved::To(d),
        Text::Refused(k) => Moved::Refused(k),
    }
}

// A type in version 1 form.
fn read_data_type(s: &[u8], c: Cursor) -> Moved
    ensures { result ≡ moved_of (data_type s.now c.at) }
{
    pass_type(s, Edition::One, DEEPEST, c)
}

fn read_option(s: &[u8], c: Cursor) -> Moved
    ensures { result ≡ moved_of (cast_option s.now c.at) }
{
    match c.byte(s) {
        Step::Byte(b, d) => match option_of_code(b) {
            OptionCode::Known(_) => Moved::To(d),
            OptionCode::Unknown => Moved::Refused(3),
        },
        Step::Refused(k) => Moved::Refused(k),
    }
}

fn read_position(s: &[u8], c: Cursor) -> Moved
    ensures { result ≡ moved_of (position_rest s.now c.at) }
{
    match c.short(s) {
        Short::Is(_, d) => Moved::To(d),
        Short::Refused(k) => Moved::Refused(k),
    }
}

fn value_end(r: ValueRead) -> Moved
    ensures { result ≡ value_end r }
{
    match r {
        ValueRead::To(_, c) => Moved::To(c),
        ValueRead::Refused(k) => Moved::Refused(k),
    }
}

// A name, a type and a value of it.
fn read_whole_constant(s: &[u8], c: Cursor) -> Moved
    ensures { result ≡ moved_of (constant_rest s.now c.at) }
{
    match c.text(s) {
        Text::Is(_, d) => match pass_type(s, Edition::One, DEEPEST, d) {
            Moved::To(e) => value_end(read_constant_value(s, d, e, e)),
            Moved::Refused(k) => Moved::Refused(k),
        },
        Text::Refused(k) => Moved::Refused(k),
    }
}

// The same, which is not read where it is known, and kept where it is read.
fn read_constant(s: &[u8], c: Cursor, known: &[u16], skips: &mut [u16]) -> Moved
    requires { Skips s.now known.now × Skips s.now skips.old }
    ensures value { result ≡ moved_of (constant_rest s.now c.at) }
    ensures skips { Skips s.now skips.new × (length skips.new ≡ length skips.old) }
{
    let at = known_end(known, c.at);
    if at != 0 {
        return Moved::To(Cursor { at });
    }
    match read_whole_constant(s, c) {
        Moved::To(e) => {
            keep_end(skips, c, e);
            Moved::To(e)
        }
        Moved::Refused(k) => Moved::Refused(k),
    }
}

// A selector of at most `depth` levels.
#[cycle(read_cast_read_each_read_element_mapping_read_kept_read_one_read_rename_read_rest_read_struct)]
pub fn read_one(s: &[u8], depth: u8, c: Cursor, known: &[u16], skips: &mut [u16]) -> Moved
    requires { Skips s.now known.now × Skips s.now skips.old }
    ensures value { result ≡ moved_of (selector depth s.now c.at) }
    ensures skips { Skips s.now skips.new × (length skips.new ≡ length skips.old) }
{
    if depth == 0 {
        return Moved::Refused(4);
    }
    match c.byte(s) {
        Step::Byte(code, d) => read_rest(s, depth - 1, code, d, known, skips),
        Step::Refused(k) => Moved::Refused(k),
    }
}

// A selector whose end is kept: the input of a mapping, the selector for each element.
#[cycle(read_cast_read_each_read_element_mapping_read_kept_read_one_read_rename_read_rest_read_struct)]
fn read_kept(s: &[u8], depth: u8, c: Cursor, known: &[u16], skips: &mut [u16]) -> Moved
    requires { Skips s.now known.now × Skips s.now skips.old }
    ensures value { result ≡ moved_of (selector depth s.now c.at) }
    ensures skips { Skips s.now skips.new × (length skips.new ≡ length skips.old) }
{
    match read_one(s, depth, c, known, skips) {
        Moved::To(d) => {
            keep_nested(s, depth, c, d, skips);
            Moved::To(d)
        }
        Moved::Refused(k) => Moved::Refused(k),
    }
}

// What follows a selector's code; the selectors inside have at most `depth` levels.
#[cycle(read_cast_read_each_read_element_mapping_read_kept_read_one_read_rename_read_rest_read_struct)]
fn read_rest(s: &[u8], depth: u8, code: u8, c: Cursor, known: &[u16], skips: &mut [u16]) -> Moved
    requires { Skips s.now known.now × Skips s.now skips.old }
    ensures value { result ≡ moved_of (selector_rest (selector depth) code s.now c.at) }
    ensures skips { Skips s.now skips.new × (length skips.new ≡ length skips.old) }
{
    match code {
        0 => read_position(s, c),
        1 => read_constant(s, c, known, skips),
        2 => read_cast(s, depth, c, known, skips),
        3 => read_rename(s, depth, c, known, skips),
        4 => read_struct(s, depth, c, known, skips),
        5 | 6 => read_element_mapping(s, depth, c, known, skips),
        _ => Moved::Refused(3),
    }
}

#[cycle(read_cast_read_each_read_element_mapping_read_kept_read_one_read_rename_read_rest_read_struct)]
fn read_cast(s: &[u8], depth: u8, c: Cursor, known: &[u16], skips: &mut [u16]) -> Moved
    requires { Skips s.now known.now × Skips s.now skips.old }
    ensures value { result ≡ moved_of (cast_rest (selector depth) s.now c.at) }
    ensures skips { Skips s.now skips.new × (length skips.new ≡ length skips.old) }
{
    match read_one(s, depth, c, known, skips) {
        Moved::To(d) => match read_data_type(s, d) {
            Moved::To(e) => read_option(s, e),
            Moved::Refused(k) => Moved::Refused(k),
        },
        Moved::Refused(k) => Moved::Refused(k),
    }
}

#[cycle(read_cast_read_each_read_element_mapping_read_kept_read_one_read_rename_read_rest_read_struct)]
fn read_rename(s: &[u8], depth: u8, c: Cursor, known: &[u16], skips: &mut [u16]) -> Moved
    requires { Skips s.now known.now × Skips s.now skips.old }
    ensures value { result ≡ moved_of (rename_rest (selector depth) s.now c.at) }
    ensures skips { Skips s.now skips.new × (length skips.new ≡ length skips.old) }
{
    match read_one(s, depth, c, known, skips) {
        Moved::To(d) => read_text(s, d),
        Moved::Refused(k) => Moved::Refused(k),
    }
}

#[cycle(read_cast_read_each_read_element_mapping_read_kept_read_one_read_rename_read_rest_read_struct)]
fn read_struct(s: &[u8], depth: u8, c: Cursor, known: &[u16], skips: &mut [u16]) -> Moved
    requires { Skips s.now known.now × Skips s.now skips.old }
    ensures value { result ≡ moved_of (struct_rest (selector depth) s.now c.at) }
    ensures skips { Skips s.now skips.new × (length skips.new ≡ length skips.old) }
{
    match read_kept(s, depth, c, known, skips) {
        Moved::To(d) => match d.short(s) {
            Short::Is(n, e) => read_each(s, depth, n, e, known, skips),
            Short::Refused(k) => Moved::Refused(k),
        },
        Moved::Refused(k) => Moved::Refused(k),
    }
}

// A list or array mapping: the input, then the selector for each element.
#[cycle(read_cast_read_each_read_element_mapping_read_kept_read_one_read_rename_read_rest_read_struct)]
fn read_element_mapping(s: &[u8], depth: u8, c: Cursor, known: &[u16], skips: &mut [u16]) -> Moved
    requires { Skips s.now known.now × Skips s.now skips.old }
    ensures value { result ≡ moved_of (list_rest (selector depth) s.now c.at) }
    ensures value_2 { result ≡ moved_of (array_rest (selector depth) s.now c.at) }
    ensures skips { Skips s.now skips.new × (length skips.new ≡ length skips.old) }
{
    match read_kept(s, depth, c, known, skips) {
        Moved::To(d) => read_kept(s, depth, d, known, skips),
        Moved::Refused(k) => Moved::Refused(k),
    }
}

// Whether a position stands at `c`, whole, and may: what most selectors are, and passed over at once.
pub fn is_position(s: &[u8], depth: u8, c: Cursor) -> bool
    ensures { result ≡ true → (0 < depth) × (c.at + 3 ≤ length s.now) × (get_or s.now c.at 0 ≡ 0) }
{
    let at = c.at;
    if depth == 0 {
        return false;
    }
    if s.len() < 3 {
        return false;
    }
    if s.len() - 3 < at {
        return false;
    }
    s[at] == 0
}

// `n` selectors, each of at most `depth` levels.
#[cycle(read_cast_read_each_read_element_mapping_read_kept_read_one_read_rename_read_rest_read_struct)]
pub fn read_each(s: &[u8], depth: u8, n: u16, c: Cursor, known: &[u16], skips: &mut [u16]) -> Moved
    requires { Skips s.now known.now × Skips s.now skips.old }
    ensures value { result ≡ moved_of (selectors (selector depth) n s.now c.at) }
    ensures skips { Skips s.now skips.new × (length skips.new ≡ length skips.old) }
{
    let mut d = c;
    let mut i: u16 = 0;
    let mut since = Since { from: c, count: 0 };
    while i < n {
        if is_position(s, depth, d) {
            let e = Cursor { at: d.at + 3 };
            since = keep_passed(s, depth, since, d, e, skips);
            d = e;
            i += 1;
        } else {
            match read_one(s, depth, d, known, skips) {
                Moved::To(e) => {
                    since = keep_passed(s, depth, since, d, e, skips);
                    d = e;
                    i += 1;
                }
                Moved::Refused(k) => return Moved::Refused(k),
            }
        }
    }
    Moved::To(d)
}

// A selector of at most `depth` levels, where nothing is known.
pub fn read_selector(s: &[u8], depth: u8, c: Cursor, skips: &mut [u16]) -> Moved
    requires { Skips s.now skips.old }
    ensures value { result ≡ moved_of (selector depth s.now c.at) }
    ensures skips { Skips s.now skips.new × (length skips.new ≡ length skips.old) }
{
    let none = [0u16; 1];
    read_one(s, depth, c, &none, skips)
}

// `n` of them.
pub fn read_selectors(s: &[u8], depth: u8, n: u16, c: Cursor, skips: &mut [u16]) -> Moved
    requires { Skips s.now skips.old }
    ensures value { result ≡ moved_of (selectors (selector depth) n s.now c.at) }
    ensures skips { Skips s.now skips.new × (length skips.new ≡ length skips.old) }
{
    let none = [0u16; 1];
    read_each(s, depth, n, c, &none, skips)
}

const MARK: [u8; 5] = [0x50, 0x4C, 0x4E, 1, 0];

// The count and the selectors of a plan, which begin after its version, to the end.
fn read_counted(s: &[u8]) -> PlanRead
    ensures { result ≡ plan_read (faulty (plan_counted s.now 5)) }
{
    let c = Cursor { at: 5 };
    let mut none = [0u16; 1];
    match c.short(s) {
        Short::Is(n, d) => match read_selectors(s, DEEPEST_SELECTOR, n, d, &mut none) {
            Moved::To(e) => {
                if e.at == s.len() {
                    PlanRead::Read(n, Cursor { at: 7 })
                } else {
                    PlanRead::Refused(30)
                }
            }
            Moved::Refused(_) => PlanRead::Refused(30),
        },
        Short::Refused(_) => PlanRead::Refused(30),
    }
}

pub fn read_plan(s: &[u8]) -> PlanRead
    ensures { result ≡ plan_read (plan s.now) }
{
    if LONGEST_PLAN < s.len() {
        return PlanRead::Refused(30);
    }
    if s.len() < 5 {
        return PlanRead::Refused(30);
    }
    if same_bytes(&s[..5], &MARK) {
        read_counted(s)
    } else {
        PlanRead::Refused(30)
    }
}
