// A table of where a plan's constants and selectors end, so that what passes over the plan again and again passes over
// long ones at once. A constant of at least 128 bytes has a pair of its own, its start and its length, by the 128 bytes
// of the plan in which it begins: no other such begins there. Behind these stand entries of selectors: an offset, a
// number of selectors, and where so many that begin at that offset end, at least 128 bytes on: one long selector, or
// short ones that stand side by side. Entries of the same 128 bytes of the plan are in one chain. Those of selectors
// that have no mapping in them, or of short ones, are never more than 512, since no two have a byte in common, and have
// as much room for themselves; the others, which stand in each other, have room for 255. A shorter table has no entry.
// The table is a help, never needed: what it does not have is read. Nothing of this is proved but that every entry is
// true.
//
//     0 to 1023      the pairs of constants
//     1024           how many entries of selectors there are that have no byte in common
//     1025 to 1536   the first entry of each chain, by its number and one more: 0 is none
//     1537 to 2303   the next entry in its chain, likewise
//     2304 to 4604   the entries of selectors, three numbers each
//     4605           how many of the other entries there are
ghost use Rattle.std.specs.Prelude.{◌≡◌, true, ◌+◌, ◌*◌, ◌<◌, ◌≤◌, length};
ghost use Rattle.layout.specs.Bytes.{Bytes};
ghost use Rattle.layout.specs.code.Answers.{moved_of};
ghost use Rattle.layout.specs.declared.cursor.Moved.{Moved as MovedOf};
ghost use Rattle.plan.specs.Read.{selector, deepest_selector};
ghost use Rattle.plan.specs.code.Skips.{RestEnds, PassTo, Skips, SkipIs, SinceIs};

use layout::bytes::wide;
use layout::cursor::Cursor;
use layout::limits::{DEEPEST_SELECTOR, LONGEST_PLAN};

// As many bytes of the plan are worth an entry.
pub const LONG: usize = 128;

// How long a table is that has entries.
pub const SKIPS: usize = 4608;

// So many selectors end there; or none is known.
#[derive(Clone, Copy)]
pub struct Skip {
    pub count: u16,
    pub to: usize,
}

// So many selectors have been passed over since an offset.
#[derive(Clone, Copy)]
pub struct Since {
    pub from: Cursor,
    pub count: u16,
}

fn none_known() -> Skip
    ensures { result.count ≡ 0 }
{
    Skip { count: 0, to: 0 }
}

fn number_at(skips: &[u16], k: usize) -> usize
    ensures { result < 65536 }
{
    if k < skips.len() { wide(skips[k]) } else { 0 }
}

// How many pairs of constants there are; from where to where the constant of pair `i` stands, or from 0.
pub fn kept_count(skips: &[u16]) -> u16 {
    if skips.len() < SKIPS { 0 } else { 512 }
}

pub fn kept_from(skips: &[u16], i: u16) -> usize {
    let at = number_at(skips, 2 * wide(i));
    if at == 0 { 0 } else { at - 1 }
}

pub fn kept_to(skips: &[u16], i: u16) -> usize {
    number_at(skips, 2 * wide(i)) + number_at(skips, 2 * wide(i) + 1)
}

// Where the constant ends whose name begins at `at`, or 0.
pub fn known_end(skips: &[u16], at: usize) -> usize
    ensures { (result ≡ 0 → ⊥) → (s : Bytes) → Skips s skips.now → RestEnds s at result }
{
    if LONGEST_PLAN <= at {
        return 0;
    }
    let i = at / 128 * 2;
    if skips.len() <= i + 1 {
        return 0;
    }
    if wide(skips[i]) != at {
        return 0;
    }
    let n = wide(skips[i + 1]);
    if n == 0 {
        return 0;
    }
    at + n
}

// Keeps where the constant ends whose name begins at `at`, if it is long.
pub fn keep_end(skips: &mut [u16], at: Cursor, end: Cursor)
    ensures { ((s : Bytes) → Skips s skips.old → RestEnds s at.at end.at → Skips s skips.new) × (length skips.new ≡ length skips.old) }
{
    if skips.len() < SKIPS {
        return;
    }
    if !is_long(at, end) {
        return;
    }
    let a = at.at;
    let n = end.at - a;
    if LONGEST_PLAN <= a {
        return;
    }
    if LONGEST_PLAN <= n {
        return;
    }
    let i = a / 128 * 2;
    skips[i] = a as u16;
    skips[i + 1] = n as u16;
}

// The entry `i`, one more than its number, if it is one of at most `most` selectors at `at`.
fn entry_at(skips: &[u16], i: usize, at: usize, most: u16) -> Skip
    ensures { (s : Bytes) → Skips s skips.now → SkipIs s at most result }
{
    if i == 0 {
        return none_known();
    }
    if 767 < i {
        return none_known();
    }
    let k = 2301 + 3 * i;
    if skips.len() <= k + 2 {
        return none_known();
    }
    if wide(skips[k]) != at {
        return none_known();
    }
    let count = skips[k + 1];
    if most < count {
        return none_known();
    }
    let to = wide(skips[k + 2]);
    Skip { count, to }
}

// Of at most `most` selectors that begin at `at`.
pub fn known_skip(skips: &[u16], at: usize, most: u16) -> Skip
    ensures { (s : Bytes) → Skips s skips.now → SkipIs s at most result }
{
    if LONGEST_PLAN <= at {
        return none_known();
    }
    let mut i = number_at(skips, 1025 + at / 128);
    let mut left: u8 = 32;
    while 0 < left {
        let r = entry_at(skips, i, at, most);
        if r.count != 0 {
            return r;
        }
        if i == 0 {
            return none_known();
        }
        i = number_at(skips, 1536 + i);
        left -= 1;
    }
    none_known()
}

// The number of the next entry, which is then taken; or there is no room, 767.
fn take_number(skips: &mut [u16], nested: bool) -> usize
    requires { 4608 ≤ length skips.old }
    ensures { ((s : Bytes) → Skips s skips.old → Skips s skips.new) × (length skips.new ≡ length skips.old) × (result ≤ 767) }
{
    if nested {
        let n = wide(skips[4605]);
        if 254 < n {
            return 767;
        }
        skips[4605] = (n + 1) as u16;
        return 512 + n;
    }
    let n = wide(skips[1024]);
    if 511 < n {
        return 767;
    }
    skips[1024] = (n + 1) as u16;
    n
}

// Puts the entry `i` into the chain of its offset.
fn link(skips: &mut [u16], i: usize, from: usize)
    requires { (i < 767) × (from < 65536) × (4608 ≤ length skips.old) }
    ensures { ((s : Bytes) → Skips s skips.old → Skips s skips.new) × (length skips.new ≡ length skips.old) }
{
    let head = 1025 + from / 128;
    let behind = skips[head];
    skips[1537 + i] = behind;
    skips[head] = (i + 1) as u16;
}

// Writes the entry `i`.
fn put_entry(skips: &mut [u16], i: usize, from: usize, count: u16, to: usize)
    requires { (i < 767) × (from < 65536) × (to < 65536) × (4608 ≤ length skips.old) }
    ensures { ((s : Bytes) → Skips s skips.old → PassTo deepest_selector s from count to → Skips s skips.new) × (length skips.new ≡ length skips.old) }
{
    let k = 2304 + 3 * i;
    skips[k] = from as u16;
    skips[k + 1] = count;
    skips[k + 2] = to as u16;
}

// Whether an entry is worth its room.
fn is_long(from: Cursor, to: Cursor) -> bool
    ensures { result ≡ true → from.at + 128 ≤ to.at }
{
    if to.at < LONG {
        return false;
    }
    if to.at - LONG < from.at {
        return false;
    }
    true
}

// Keeps where `count` selectors of at most `depth` levels end, if they are long and there is room.
fn keep_skip(skips: &mut [u16], depth: u8, from: Cursor, count: u16, to: Cursor, nested: bool)
    ensures { ((s : Bytes) → Skips s skips.old → PassTo depth s from.at count to.at → Skips s skips.new) × (length skips.new ≡ length skips.old) }
{
    if skips.len() < SKIPS {
        return;
    }
    if DEEPEST_SELECTOR < depth {
        return;
    }
    let a = from.at;
    let b = to.at;
    if LONGEST_PLAN <= b {
        return;
    }
    if !is_long(from, to) {
        return;
    }
    let i = take_number(skips, nested);
    if 766 < i {
        return;
    }
    put_entry(skips, i, a, count, b);
    link(skips, i, a);
}

// Whether the selector at `c` is a mapping, or casts and renames of one.
fn is_nested(s: &[u8], c: Cursor) -> bool {
    let mut d = c.at;
    let mut left: u8 = 64;
    while 0 < left {
        if s.len() <= d {
            return false;
        }
        match s[d] {
            2 | 3 => {
                d += 1;
            }
            4..=6 => return true,
            _ => return false,
        }
        left -= 1;
    }
    false
}

// Keeps where the selector at `from` ends, if there is a mapping in it: what else is long in it is a constant.
pub fn keep_nested(s: &[u8], depth: u8, from: Cursor, to: Cursor, skips: &mut [u16])
    requires { Skips s.now skips.old × PassTo depth s.now from.at 1 to.at }
    ensures { Skips s.now skips.new × (length skips.new ≡ length skips.old) }
{
    if is_nested(s, from) {
        keep_skip(skips, depth, from, 1, to, true);
    }
}

// One selector more, from `d` to `e`: a long one has an entry of its own, short ones have one together.
pub fn keep_passed(
    s: &[u8],
    depth: u8,
    since: Since,
    d: Cursor,
    e: Cursor,
    skips: &mut [u16],
) -> Since
    requires skips { Skips s.now skips.old × SinceIs depth s.now since d.at × (MovedOf.To e ≡ moved_of (selector depth s.now d.at)) }
    requires count_bound { since.count < 65535 }
    ensures skips_2 { Skips s.now skips.new × SinceIs depth s.now result e.at }
    ensures count_bound_2 { (result.count ≤ since.count + 1) × (length skips.new ≡ length skips.old) }
{
    let count = since.count + 1;
    let from = since.from;
    if is_long(d, e) {
        keep_skip(skips, depth, d, 1, e, is_nested(s, d));
        return Since { from: e, count: 0 };
    }
    if is_long(from, e) {
        keep_skip(skips, depth, from, count, e, false);
        return Since { from: e, count: 0 };
    }
    Since { from, count }
}
