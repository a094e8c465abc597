// What stands in a value at a path that takes every element of the lists and arrays it goes through. The value stands
// in a record, or in a plan as a constant.
ghost use Rattle.std.specs.Prelude.{◌≡◌, ◌<◌, ◌≤◌, length, List, ℕ};
ghost use Rattle.std.proofs.Math.Seq.{slice};
ghost use Rattle.ends.specs.code.Ends.{Ends};
ghost use Rattle.nodes.specs.code.Raw.{RawAt, ElementsAt, ListOf, PresentAt};
ghost use Rattle.values.specs.Value.{vnull};
ghost use Rattle.overflow.specs.code.Want.{Small, SmallWant, is_beyond, is_struct, is_filled, meets};
ghost use Rattle.overflow.specs.code.Some.{any_of, some_part, SmallSought, is_sought, some_sought, SmallSearch, some_found};

use crate::want::{Bounds, Timed, Want, count_beyond, time_of};
use layout::columns::Labelled;
use layout::cursor::{Cursor, Moved, Short};
use layout::edition::Edition;
use layout::leaf::TimeUnit;
use layout::limits::DEEPEST;
use layout::types::Head;
use nodes::raw::{NodeAt, field_at};
use values::leaf::{Presence, number_at, read_presence};
use values::read::read_element;

// A null; or a value that is present, such as is wanted.
#[derive(Clone, Copy)]
pub enum Sought {
    Null,
    Present(Want),
}

// What is sought, and the path to it: the numbers of `path` from `from` to `len`.
#[derive(Clone, Copy)]
pub struct Search {
    pub sought: Sought,
    pub path: [u16; 64],
    pub from: usize,
    pub len: usize,
}

// ---- a value that is present, at the path's end

fn is_struct(lay: &[u8], v: Edition, t: Cursor, rec: &[u8], c: Cursor) -> bool
    requires { PresentAt v lay.now t.at rec.now c.at }
    ensures { (X : PresentAt v lay.now t.at rec.now c.at) → result ≡ is_struct X.content.tree }
{
    match t.head(lay) {
        Head::Leaf(_, _) => false,
        Head::Struct(_, _) => true,
        Head::List(_) => false,
        Head::Array(_, _) => false,
        Head::Refused(_) => true,
    }
}

fn is_filled(lay: &[u8], v: Edition, t: Cursor, rec: &[u8], c: Cursor) -> bool
    requires { PresentAt v lay.now t.at rec.now c.at }
    ensures { (X : PresentAt v lay.now t.at rec.now c.at) → result ≡ is_filled X.content.tree }
{
    match t.head(lay) {
        Head::Leaf(_, _) => false,
        Head::Struct(_, _) => false,
        Head::List(_) => match c.short(rec) {
            Short::Is(n, _) => 0 < n,
            Short::Refused(_) => true,
        },
        Head::Array(w, _) => 0 < w,
        Head::Refused(_) => true,
    }
}

fn is_beyond(
    lay: &[u8],
    v: Edition,
    t: Cursor,
    rec: &[u8],
    c: Cursor,
    d: Bounds,
    u: TimeUnit,
) -> bool
    requires present_at { PresentAt v lay.now t.at rec.now c.at }
    requires small { Small d }
    ensures { (X : PresentAt v lay.now t.at rec.now c.at) → result ≡ is_beyond d u X.content.tree }
{
    match t.head(lay) {
        Head::Leaf(l, _) => {
            let leaf = l.leaf;
            match time_of(leaf) {
                Timed::In(r) => count_beyond(d, u, Timed::In(r), number_at(rec, c.at, 8)),
                Timed::Never => false,
            }
        }
        Head::Struct(_, _) => false,
        Head::List(_) => false,
        Head::Array(_, _) => false,
        Head::Refused(_) => true,
    }
}

fn present_meets(lay: &[u8], v: Edition, t: Cursor, rec: &[u8], c: Cursor, want: Want) -> bool
    requires present_at { PresentAt v lay.now t.at rec.now c.at }
    requires small_want { SmallWant want }
    ensures { (X : PresentAt v lay.now t.at rec.now c.at) → result ≡ meets want X.content.tree }
{
    match want {
        Want::Parts => is_struct(lay, v, t, rec, c),
        Want::Element => is_filled(lay, v, t, rec, c),
        Want::Beyond(d, u) => is_beyond(lay, v, t, rec, c, d, u),
    }
}

fn present_sought(lay: &[u8], v: Edition, t: Cursor, rec: &[u8], c: Cursor, sought: Sought) -> bool
    requires present_at { PresentAt v lay.now t.at rec.now c.at }
    requires small_sought { SmallSought sought }
    ensures { (X : PresentAt v lay.now t.at rec.now c.at) → result ≡ is_sought sought X.content.tree }
{
    match sought {
        Sought::Null => false,
        Sought::Present(want) => present_meets(lay, v, t, rec, c, want),
    }
}

// ---- a null, with the path from `from` to `len` left

fn null_sought(sought: Sought, from: usize, len: usize) -> bool
    ensures { (path : List ℕ) → from ≤ len → len ≤ length path → result ≡ some_sought sought (slice from len path) vnull }
{
    if from < len {
        return false;
    }
    match sought {
        Sought::Null => true,
        Sought::Present(_) => false,
    }
}

// ---- along the path

// Whether one of the nodes at the path is such as is sought.
#[cycle(some_at_some_element_some_listed_some_part)]
pub fn some_at(
    lay: &[u8],
    v: Edition,
    t: Cursor,
    rec: &[u8],
    c: Cursor,
    search: Search,
    table: &[u16],
) -> bool
    requires ends { Ends v lay.now table.now }
    requires raw_at { RawAt v lay.now t.at rec.now c.at }
    requires small_search { SmallSearch search }
    ensures { (X : RawAt v lay.now t.at rec.now c.at) → result ≡ some_found search X.value.tree }
{
    let sought = search.sought;
    match read_presence(rec, c) {
        Presence::Null(_) => null_sought(sought, search.from, search.len),
        Presence::Present(d) => {
            if search.from == search.len {
                present_sought(lay, v, t, rec, d, sought)
            } else {
                some_part(lay, v, t, rec, d, search, table)
            }
        }
        Presence::Refused(_) => true,
    }
}

// The same of a value that is present, where the path is not at its end.
#[cycle(some_at_some_element_some_listed_some_part)]
fn some_part(
    lay: &[u8],
    v: Edition,
    t: Cursor,
    rec: &[u8],
    c: Cursor,
    search: Search,
    table: &[u16],
) -> bool
    requires ends { Ends v lay.now table.now }
    requires present_at { PresentAt v lay.now t.at rec.now c.at }
    requires small_search { SmallSearch search × (search.from < search.len) }
    ensures { (X : PresentAt v lay.now t.at rec.now c.at) → result ≡ some_found search X.content.tree }
{
    let from = search.from;
    let mut next = search;
    next.from = from + 1;
    match t.head(lay) {
        Head::Leaf(_, _) => false,
        Head::Struct(n, e) => match field_at(lay, v, n, e, rec, c, search.path[from], table) {
            NodeAt::At(f, d) => some_at(lay, v, f, rec, d, next, table),
            NodeAt::Null => {
                let sought = search.sought;
                null_sought(sought, next.from, next.len)
            }
        },
        Head::List(e) => match e.element_label(lay, v) {
            Labelled::Is(_, f) => some_listed(lay, v, f, rec, c, next, table),
            Labelled::Refused(_) => true,
        },
        Head::Array(w, e) => match e.element_label(lay, v) {
            Labelled::Is(_, f) => some_element(lay, v, w, f, rec, c, next, table),
            Labelled::Refused(_) => true,
        },
        Head::Refused(_) => true,
    }
}

// Of an element of a list that is present, from its count on.
#[cycle(some_at_some_element_some_listed_some_part)]
fn some_listed(
    lay: &[u8],
    v: Edition,
    t: Cursor,
    rec: &[u8],
    c: Cursor,
    search: Search,
    table: &[u16],
) -> bool
    requires ends { Ends v lay.now table.now }
    requires list_of { ListOf v lay.now t.at rec.now c.at }
    requires small_search { SmallSearch search }
    ensures { (X : ListOf v lay.now t.at rec.now c.at) → result ≡ some_part 0 (λ x. some_found search x) X.content.tree }
{
    match c.short(rec) {
        Short::Is(n, d) => some_element(lay, v, n as u32, t, rec, d, search, table),
        Short::Refused(_) => true,
    }
}

// Of one of `n` elements.
#[cycle(some_at_some_element_some_listed_some_part)]
fn some_element(
    lay: &[u8],
    v: Edition,
    n: u32,
    t: Cursor,
    rec: &[u8],
    c: Cursor,
    search: Search,
    table: &[u16],
) -> bool
    requires ends { Ends v lay.now table.now }
    requires elements_at { ElementsAt v lay.now n t.at rec.now c.at }
    requires small_search { SmallSearch search }
    ensures { (X : ElementsAt v lay.now n t.at rec.now c.at) → result ≡ any_of (λ x. some_found search x) X.values.values }
{
    let mut d = c;
    let mut i: u32 = 0;
    while i < n {
        if some_at(lay, v, t, rec, d, search, table) {
            return true;
        }
        match read_element(lay, v, DEEPEST, t, rec, d, table) {
            Moved::To(e) => {
                d = e;
            }
            Moved::Refused(_) => return true,
        }
        i += 1;
    }
    false
}
