// Reading a layout: a mark and version, and columns whose types are read by recursion with a falling depth.
ghost use Rattle.std.specs.Prelude.{◌≡◌, [], ◌+◌, ◌≤◌, length};
ghost use Rattle.layout.specs.Layout.{plain_leaf, list_type, type, columns, counted, layout};
ghost use Rattle.layout.specs.code.Pass.{type_rest};
ghost use Rattle.layout.specs.code.Scan.{repeats};
ghost use Rattle.layout.specs.code.Seen.{Keeps, Begins, Noted, Notes};
ghost use Rattle.layout.specs.code.Answers.{moved_of, label_at, SpanIn, layout_of};
ghost use Rattle.layout.specs.declared.types.PlainLeaf.{PlainLeaf as PlainLeafOf};

use crate::columns::{ColumnRange, Label, Labelled, Siblings, same_label};
use crate::cursor::{Cursor, Moved, Short, Step};
use crate::edition::{Edition, EditionRead, inner_rule, read_edition, top_rule};
use crate::limits::{DEEPEST, LONGEST};
use crate::pass::{pass_datetime, pass_decimal, pass_element_label, pass_long, pass_type};
use crate::seen::{find_slot, label_hash, place};
use crate::types::{PlainLeaf, plain_leaf};

// A layout's version, its number of columns and where they begin.
#[derive(Clone, Copy)]
pub enum LayoutRead {
    Read {
        edition: Edition,
        count: u16,
        columns: Cursor,
    },
    Refused(u8),
}

// One type of at most `depth` levels, whose inner columns keep to the rule. `seen` is the table of the labels that were
// read.
#[cycle(read_columns_read_element_read_rest_read_type)]
fn read_type(s: &[u8], v: Edition, rule: Siblings, depth: u8, c: Cursor, seen: &mut [u16]) -> Moved
    ensures value { result ≡ moved_of (type v rule depth s.now c.at) }
    ensures keeps { Keeps seen.old seen.new }
{
    if let Siblings::Free = rule {
        return pass_type(s, v, depth, c);
    }
    if depth == 0 {
        return Moved::Refused(4);
    }
    match c.byte(s) {
        Step::Byte(code, d) => match plain_leaf(code) {
            PlainLeaf::Known(_) => Moved::To(d),
            PlainLeaf::Unknown => read_rest(s, v, rule, depth - 1, code, d, seen),
        },
        Step::Refused(k) => Moved::Refused(k),
    }
}

// What follows a code that is not a whole type; the types inside have at most `depth` levels.
#[cycle(read_columns_read_element_read_rest_read_type)]
fn read_rest(
    s: &[u8],
    v: Edition,
    rule: Siblings,
    depth: u8,
    code: u8,
    c: Cursor,
    seen: &mut [u16],
) -> Moved
    requires { plain_leaf code ≡ PlainLeafOf.Unknown }
    ensures value { result ≡ moved_of (type_rest v rule depth code s.now c.at) }
    ensures keeps { Keeps seen.old seen.new }
{
    match code {
        14 => pass_datetime(s, c),
        18 => match c.short(s) {
            Short::Is(n, d) => read_columns(s, v, rule, rule, depth, n, d, seen),
            Short::Refused(k) => Moved::Refused(k),
        },
        19 => read_element(s, v, rule, depth, c, seen),
        20 => match pass_long(s, c) {
            Moved::To(d) => read_element(s, v, rule, depth, d, seen),
            Moved::Refused(k) => Moved::Refused(k),
        },
        21 => pass_decimal(s, c),
        _ => Moved::Refused(3),
    }
}

// The element of a list or an array.
#[cycle(read_columns_read_element_read_rest_read_type)]
fn read_element(
    s: &[u8],
    v: Edition,
    rule: Siblings,
    depth: u8,
    c: Cursor,
    seen: &mut [u16],
) -> Moved
    ensures value { result ≡ moved_of (list_type v (type v rule depth) s.now c.at) }
    ensures keeps { Keeps seen.old seen.new }
{
    match pass_element_label(s, v, c) {
        Moved::To(d) => read_type(s, v, rule, depth, d, seen),
        Moved::Refused(k) => Moved::Refused(k),
    }
}

// `n` columns that keep to a rule among themselves, and to another inside their types.
#[cycle(read_columns_read_element_read_rest_read_type)]
pub fn read_columns(
    s: &[u8],
    v: Edition,
    rule: Siblings,
    inner: Siblings,
    depth: u8,
    n: u16,
    c: Cursor,
    seen: &mut [u16],
) -> Moved
    ensures value { result ≡ moved_of (columns v rule (type v inner depth) n [] s.now c.at) }
    ensures keeps { Keeps seen.old seen.new }
{
    let mut d = c;
    let mut i: u16 = 0;
    while i < n {
        match d.label(s, v) {
            Labelled::Is(l, next) => match read_type(s, v, inner, depth, next, seen) {
                Moved::To(e) => {
                    let earlier = ColumnRange {
                        edition: v,
                        count: i,
                        first: c,
                    };
                    if is_repeated(s, earlier, rule, depth, d, l, seen) {
                        return Moved::Refused(5);
                    }
                    d = e;
                }
                Moved::Refused(k) => return Moved::Refused(k),
            },
            Labelled::Refused(k) => return Moved::Refused(k),
        }
        i += 1;
    }
    Moved::To(d)
}

// Whether one of the earlier columns repeats the label `l` of the column at `d`, which is noted. They are scanned only
// where it may.
fn is_repeated(
    s: &[u8],
    earlier: ColumnRange,
    rule: Siblings,
    depth: u8,
    d: Cursor,
    l: Label,
    seen: &mut [u16],
) -> bool
    requires span_in { SpanIn s.now l.name }
    requires begins { Begins earlier.edition s.now d.at (label_at s.now l) }
    requires noted { Noted earlier.edition rule depth (label_at s.now l) earlier.count s.now earlier.first.at seen.old }
    ensures value { result ≡ repeats earlier.edition rule depth (label_at s.now l) earlier.count s.now earlier.first.at }
    ensures keeps { Keeps seen.old seen.new }
    ensures notes { Notes earlier.edition rule s.now earlier.first.at (label_at s.now l) seen.new }
{
    let v = earlier.edition;
    let h = label_hash(s, rule, earlier.first.at, l);
    let k = find_slot(s, v, rule, l, h, seen);
    if k < seen.len() {
        seen[k] = place(d);
        return false;
    }
    repeats(s, earlier, rule, depth, l)
}

// Whether one of the earlier columns repeats a label. Their types are passed over with no such test inside, else the
// work would be exponential in the depth.
fn repeats(s: &[u8], earlier: ColumnRange, rule: Siblings, depth: u8, l: Label) -> bool
    requires { l.name.start + l.name.len ≤ length s.now }
    ensures { result ≡ repeats earlier.edition rule depth (label_at s.now l) earlier.count s.now earlier.first.at }
{
    if let Siblings::Free = rule {
        return false;
    }
    let v = earlier.edition;
    let n = earlier.count;
    let mut d = earlier.first;
    let mut i: u16 = 0;
    while i < n {
        match d.label(s, v) {
            Labelled::Is(m, next) => {
                if same_label(rule, s, l, s, m) {
                    return true;
                }
                match pass_type(s, v, depth, next) {
                    Moved::To(e) => d = e,
                    Moved::Refused(_) => return false,
                }
            }
            Labelled::Refused(_) => return false,
        }
        i += 1;
    }
    false
}

// The count and the columns of a layout, which begin after its version, to the end.
fn read_counted(s: &[u8], v: Edition, seen: &mut [u16]) -> LayoutRead
    ensures { result ≡ layout_of (counted v s.now 5) }
{
    let top = top_rule(v);
    let inner = inner_rule(v);
    let c = Cursor { at: 5 };
    match c.short(s) {
        Short::Is(n, d) => match read_columns(s, v, top, inner, DEEPEST, n, d, seen) {
            Moved::To(e) => {
                if e.at == s.len() {
                    LayoutRead::Read {
                        edition: v,
                        count: n,
                        columns: Cursor { at: 7 },
                    }
                } else {
                    LayoutRead::Refused(6)
                }
            }
            Moved::Refused(k) => LayoutRead::Refused(k),
        },
        Short::Refused(k) => LayoutRead::Refused(k),
    }
}

// At most 4,096 bytes, which have at most 1,086 columns with labels of their own. Not inlined, and `read_long` neither,
// so that a call has one of the two tables on its stack and not both.
#[inline(never)]
fn read_short(s: &[u8], v: Edition) -> LayoutRead
    ensures { result ≡ layout_of (counted v s.now 5) }
{
    let mut seen = [0u16; 1536];
    read_counted(s, v, &mut seen)
}

// At most 16,384 bytes, which have at most 4,158.
#[inline(never)]
fn read_long(s: &[u8], v: Edition) -> LayoutRead
    ensures { result ≡ layout_of (counted v s.now 5) }
{
    let mut seen = [0u16; 4224];
    read_counted(s, v, &mut seen)
}

// With a table of the size that is needed, since a large one takes longer to clear.
fn read_sized(s: &[u8], v: Edition) -> LayoutRead
    ensures { result ≡ layout_of (counted v s.now 5) }
{
    if s.len() <= 4096 {
        return read_short(s, v);
    }
    read_long(s, v)
}

pub fn read_layout(s: &[u8]) -> LayoutRead
    ensures { result ≡ layout_of (layout s.now) }
{
    if LONGEST < s.len() {
        return LayoutRead::Refused(4);
    }
    match read_edition(s) {
        EditionRead::Is(v) => read_sized(s, v),
        EditionRead::Refused(k) => LayoutRead::Refused(k),
    }
}
