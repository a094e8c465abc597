// The labels that were read, in a table of slots. A slot holds where a column begins, or 0. The hash of a label says
// which slot is looked at first, the others follow in turn, and the label is new where one is empty. Nothing is asked
// of what a table holds: where it was not cleared, or is full, more is compared.
ghost use Rattle.std.specs.Prelude.{◌≡◌, ◌+◌, ◌*◌, ◌≤◌, ◌<◌, length};
ghost use Rattle.layout.specs.code.Answers.{label_at, SpanIn};
ghost use Rattle.layout.specs.code.Seen.{mixed, hash_bytes, label_hash, far, first_slot, slot_after, may_repeat, Searched};

use crate::bytes::wide;
use crate::columns::{Label, Labelled, Siblings, same_label};
use crate::cursor::Cursor;
use crate::edition::Edition;

// What a slot holds of a column that begins where a slot can't say.
const FAR: u16 = 65535;

fn mix(h: u32, x: u32) -> u32
    ensures { result ≡ mixed h x }
{
    (((h as u64) + (x as u64)) * 0x5BD1_E995 % 0x1_0000_0000) as u32
}

fn pair(a: u8, b: u8) -> u32
    ensures { result ≡ a + 256 * b }
{
    (a as u32) + 256 * (b as u32)
}

// Two bytes at a time.
fn hash_bytes(from: u32, b: &[u8]) -> u32
    ensures { result ≡ hash_bytes from b.now }
{
    let mut h = from;
    let mut i = 0;
    while i + 1 < b.len() {
        h = mix(h, pair(b[i], b[i + 1]));
        i += 2;
    }
    if i < b.len() {
        return mix(h, pair(b[i], 0));
    }
    h
}

// Of what a rule compares, among the siblings that begin at `from`.
pub fn label_hash(s: &[u8], rule: Siblings, from: usize, l: Label) -> u32
    requires { SpanIn s.now l.name }
    ensures { result ≡ label_hash rule from (label_at s.now l) }
{
    let salt = (from % 65536) as u32;
    match rule {
        Siblings::Names => {
            let a = l.name.start;
            hash_bytes(salt, &s[a..a + l.name.len])
        }
        Siblings::Ids => mix(mix(0, salt), l.id.0),
        Siblings::Free => 0,
    }
}

// The slot that is looked at first, of `n`.
fn first_slot(n: usize, h: u32) -> usize
    requires { 0 < n }
    ensures value { result ≡ first_slot n h }
    ensures upper_bound { result < n }
{
    let m = (n as u64) % 0x1_0000_0000;
    ((h as u64) * m / 0x1_0000_0000) as usize
}

// The slot that is looked at after `i` others.
fn slot_after(n: usize, first: usize, i: usize) -> usize
    requires first_lt_n { first < n }
    requires i_lt_n { i < n }
    ensures value { result ≡ slot_after n first i }
    ensures upper_bound { result < n }
{
    let behind = n - first;
    if i < behind { first + i } else { i - behind }
}

// Whether the column that a slot tells of may have a label that this one repeats.
fn may_repeat(s: &[u8], v: Edition, rule: Siblings, l: Label, x: u16) -> bool
    requires { SpanIn s.now l.name }
    ensures { result ≡ may_repeat v rule (label_at s.now l) s.now x }
{
    if x == FAR {
        return true;
    }
    let at = wide(x);
    let d = Cursor { at };
    match d.label(s, v) {
        Labelled::Is(m, _) => same_label(rule, s, l, s, m),
        Labelled::Refused(_) => false,
    }
}

// The empty slot for a label of a hash, which is then new; the table's length where it may be repeated. The first slot,
// most often empty, stands in line.
pub fn find_slot(s: &[u8], v: Edition, rule: Siblings, l: Label, h: u32, seen: &[u16]) -> usize
    requires { SpanIn s.now l.name }
    ensures { Searched v rule (label_at s.now l) s.now seen.now h result }
{
    let n = seen.len();
    if n == 0 {
        return 0;
    }
    let first = first_slot(n, h);
    if seen[first] == 0 {
        return first;
    }
    let mut i = 0;
    while i < n {
        let k = slot_after(n, first, i);
        let x = seen[k];
        if x == 0 {
            return k;
        }
        if may_repeat(s, v, rule, l, x) {
            return n;
        }
        i += 1;
    }
    n
}

// What a slot holds of a column.
pub fn place(c: Cursor) -> u16
    ensures result_nonzero { 0 < result }
    ensures value { (result ≡ far → ⊥) → result ≡ c.at }
{
    let at = c.at;
    if at == 0 {
        return FAR;
    }
    if 65535 < at {
        return FAR;
    }
    at as u16
}

// Empties two slots for each of `n` labels at the start of an arena, or all that there are, and answers how many.
pub fn clear_slots(n: u16, arena: &mut [u16]) -> usize
    ensures { result ≤ length arena.new }
{
    let wanted = 2 * wide(n);
    let mut k = 0;
    while k < arena.len() {
        if wanted <= k {
            return k;
        }
        arena[k] = 0;
        k += 1;
    }
    k
}
