// The counterpart of a label among sibling columns, a layout's or a struct's, found by the label's hash. A table is one
// slice: two numbers for each column, its link (where its chain goes on) and where it begins, and behind them the heads
// of the chains, as many as there is room for. The chain of a hash leads through the columns that have it, first ones
// first, and passes over no type.
#![tactic(auto)]

ghost use Rattle.std.specs.Prelude.{true, ◌≡◌, ◌+◌, ◌≤◌, ◌<◌, length, take};
ghost use Rattle.layout.specs.code.Answers.{label_at, SpanIn};
ghost use Rattle.layout.specs.Find.{counterpart};
ghost use Rattle.layout.specs.code.Finding.{Finds};
ghost use Rattle.layout.specs.code.Stands.{ColumnsAt};
ghost use Rattle.labels.specs.code.LabelTable.{most, none, node, slot_of, Cleared, Noted, Table};

use layout::bytes::wide;
use layout::columns::{Label, Labelled, Position, same_label};
use layout::cursor::{Cursor, Moved};
use layout::edition::Edition;
use layout::find::{Found, find_counterpart};
use layout::matching::{Matching, match_rule};
use layout::pass::pass_type;
use layout::seen::label_hash;

// How many columns a table holds at most: their indexes are below `NONE`.
const MOST: u16 = 32767;

// Where a chain ends.
const NONE: u16 = 65535;

// Sibling columns with the depth left to their types, and how their labels are matched.
#[derive(Clone, Copy)]
pub struct SiblingColumns {
    pub edition: Edition,
    pub matching: Matching,
    pub depth: u8,
    pub count: u16,
    pub first: Cursor,
}

// A label's chain, of so many.
fn slot(s: &[u8], how: Matching, heads: usize, l: Label) -> usize
    requires span_in { SpanIn s.now l.name }
    requires heads_nonzero { 0 < heads }
    ensures value { result ≡ slot_of how heads (label_at s.now l) }
    ensures upper_bound { result < heads }
{
    let rule = match_rule(how);
    (label_hash(s, rule, 0, l) as usize) % heads
}

// Every chain is empty: the numbers from `from` on are `ending`, which ends a chain.
pub fn clear(ending: u16, from: usize, table: &mut [u16])
    ensures table_len_unchanged { length table.new ≡ length table.old }
    ensures cleared { Cleared ending from (length table.new) table.new }
{
    let mut k = from;
    while k < table.len() {
        table[k] = ending;
        k += 1;
    }
}

// Notes where each column begins. False says nothing of what the table then holds.
fn note(s: &[u8], columns: SiblingColumns, table: &mut [u16]) -> bool
    requires count_in_bounds { node columns.count ≤ length table.old }
    requires cleared { Cleared none (node columns.count) (length table.old) table.old }
    ensures table_len_unchanged { length table.new ≡ length table.old }
    ensures noted { result ≡ true → Noted columns.edition columns.depth s.now columns.count columns.first.at table.new }
{
    let n = columns.count;
    let mut c = columns.first;
    let mut i: u16 = 0;
    while i < n {
        let v = columns.edition;
        if 65535 < c.at {
            return false;
        }
        let k = 2 * wide(i) + 1;
        table[k] = c.at as u16;
        match c.label(s, v) {
            Labelled::Is(_, next) => match pass_type(s, v, columns.depth, next) {
                Moved::To(e) => {
                    c = e;
                }
                Moved::Refused(_) => return false,
            },
            Labelled::Refused(_) => return false,
        }
        i += 1;
    }
    true
}

// Puts the columns into their chains, the last one first, so that each chain begins with its first column.
fn link(s: &[u8], columns: SiblingColumns, table: &mut [u16]) -> bool
    requires count_le_most { columns.count ≤ most }
    requires count_in_bounds { node columns.count < length table.old }
    requires noted { Noted columns.edition columns.depth s.now columns.count columns.first.at table.old }
    ensures { result ≡ true → Table columns.edition columns.matching columns.depth s.now columns.count columns.first.at table.new }
{
    let mut i = wide(columns.count);
    let from = 2 * i;
    let heads = table.len() - from;
    while 0 < i {
        let v = columns.edition;
        let how = columns.matching;
        i -= 1;
        let k = 2 * i;
        let at = wide(table[k + 1]);
        let d = Cursor { at };
        match d.label(s, v) {
            Labelled::Is(l, _) => {
                let h = from + slot(s, how, heads, l);
                table[k] = table[h];
                table[h] = k as u16;
            }
            Labelled::Refused(_) => return false,
        }
    }
    true
}

// Fills a table for the columns, whatever it held. False says nothing of what it then holds.
fn fill(s: &[u8], columns: SiblingColumns, table: &mut [u16]) -> bool
    ensures { result ≡ true → Table columns.edition columns.matching columns.depth s.now columns.count columns.first.at table.new }
{
    if MOST < columns.count {
        return false;
    }
    let from = 2 * wide(columns.count);
    if table.len() <= from {
        return false;
    }
    clear(NONE, from, table);
    if !note(s, columns, table) {
        return false;
    }
    link(s, columns, table)
}

// Where many labels will be looked up, fills a table for the columns at the start of an arena, and answers its length.
// 0 where there is none: few labels are found sooner by a scan, or there is no room. Two columns share a head, so that
// five numbers are enough for two columns.
pub fn fill_in(wanted: u16, s: &[u8], columns: SiblingColumns, arena: &mut [u16]) -> usize
    ensures upper_bound { result ≤ length arena.new }
    ensures table { 0 < result → Table columns.edition columns.matching columns.depth s.now columns.count columns.first.at (take result arena.new) }
{
    if wanted <= 16 {
        return 0;
    }
    let n = columns.count;
    let len = 2 * wide(n) + wide(n / 2) + 1;
    if arena.len() < len {
        return 0;
    }
    if !fill(s, columns, &mut arena[..len]) {
        return 0;
    }
    len
}

// Among the columns, the one of the name of the label `l`, which stands in `t`; by number, of its id.
pub fn counterpart_in(s: &[u8], columns: SiblingColumns, table: &[u16], t: &[u8], l: Label) -> Found
    requires columns_at { ColumnsAt columns.edition columns.depth s.now columns.count columns.first.at }
    requires table { Table columns.edition columns.matching columns.depth s.now columns.count columns.first.at table.now }
    requires span_in { SpanIn t.now l.name }
    ensures { (P : ColumnsAt columns.edition columns.depth s.now columns.count columns.first.at) → Finds columns.edition columns.depth s.now (counterpart columns.matching (label_at t.now l) P.columns) result }
{
    let how = columns.matching;
    let rule = match_rule(how);
    let from = 2 * wide(columns.count);
    let h = from + slot(t, how, table.len() - from, l);
    let mut x = table[h];
    while x < NONE {
        let v = columns.edition;
        let k = wide(x);
        let at = wide(table[k + 1]);
        let d = Cursor { at };
        match d.label(s, v) {
            Labelled::Is(m, next) => {
                if same_label(rule, s, m, t, l) {
                    return Found::At(Position(x / 2), m, next);
                }
            }
            Labelled::Refused(_) => return Found::Absent,
        }
        x = table[k];
    }
    Found::Absent
}

// The same where there may be no table: an empty slice, and the columns are scanned.
pub fn find_in(s: &[u8], columns: SiblingColumns, table: &[u16], t: &[u8], l: Label) -> Found
    requires columns_at { ColumnsAt columns.edition columns.depth s.now columns.count columns.first.at }
    requires table { 0 < length table.now → Table columns.edition columns.matching columns.depth s.now columns.count columns.first.at table.now }
    requires span_in { SpanIn t.now l.name }
    ensures { (P : ColumnsAt columns.edition columns.depth s.now columns.count columns.first.at) → Finds columns.edition columns.depth s.now (counterpart columns.matching (label_at t.now l) P.columns) result }
{
    if table.len() == 0 {
        let v = columns.edition;
        let how = columns.matching;
        return find_counterpart(s, v, how, columns.depth, columns.count, columns.first, t, l);
    }
    counterpart_in(s, columns, table, t, l)
}
