// The table. Entry 0 is the offset that starts are counted from. Where entry 1 is 0 each entry behind it is a slot:
// entry j is of a struct that starts at one of 4 (j - 2), .., 4 (j - 2) + 3, and is four times its length and the rest
// of its start by 4, or 0 where none is known. Else the entries behind it are pairs, the start and the length of a
// struct, of those that are as long as entry 1 says; a length of 0 is a free pair. A list ends where its element does
// and a leaf is short, so only structs have entries. Two structs start at least 4 bytes apart, so that 4,096 slots hold
// all of a type of 16,384 bytes. Of a longer one of n bytes the structs of n / 128 bytes or more have pairs: at most
// 128 stand side by side and 16 in each other, so that 2,048 pairs do. Nothing of this is proved but that every entry
// is true.
ghost use Rattle.std.specs.Prelude.{◌≡◌, ◌+◌, ◌<◌, length, get_or};
ghost use Rattle.layout.specs.Bytes.{Bytes};
ghost use Rattle.layout.specs.declared.edition.Edition.{Edition as EditionOf};
ghost use Rattle.ends.specs.code.Ends.{LengthIs, Ends, EndAt, FoundIs};

use layout::bytes::wide;

#[derive(Clone, Copy)]
pub enum EndFound {
    At(usize),
    Unknown,
}

// The length in the slot of a struct that starts at `d`, or 0.
fn slot_length(ends: &[u16], d: usize) -> usize
    requires { (get_or ends.now 1 0 ≡ 0) × (d < 65536) }
    ensures { ((v : EditionOf) (s : Bytes) → Ends v s ends.now → LengthIs v s (get_or ends.now 0 0 + d) result) × (result < 65536) }
{
    let j = d / 4 + 2;
    if ends.len() <= j {
        return 0;
    }
    let e = wide(ends[j]);
    if e % 4 != d % 4 {
        return 0;
    }
    e / 4
}

// The length in the pair of a struct that starts at `d`, or 0.
fn pair_length(ends: &[u16], d: usize) -> usize
    requires { get_or ends.now 1 0 ≡ 0 → ⊥ }
    ensures { ((v : EditionOf) (s : Bytes) → Ends v s ends.now → LengthIs v s (get_or ends.now 0 0 + d) result) × (result < 65536) }
{
    let mut j = 3;
    while j < ends.len() {
        let i = j - 1;
        let n = wide(ends[j]);
        if n == 0 {
            return 0;
        }
        if wide(ends[i]) == d {
            return n;
        }
        j += 2;
    }
    0
}

fn known_length(ends: &[u16], d: usize) -> usize
    requires { (1 < length ends.now) × (d < 65536) }
    ensures { ((v : EditionOf) (s : Bytes) → Ends v s ends.now → LengthIs v s (get_or ends.now 0 0 + d) result) × (result < 65536) }
{
    if ends[1] == 0 {
        return slot_length(ends, d);
    }
    pair_length(ends, d)
}

// The end of the struct that starts at `at`, where it is known.
pub fn find_end(ends: &[u16], at: usize) -> EndFound
    ensures { (v : EditionOf) (s : Bytes) → Ends v s ends.now → FoundIs v s at result }
{
    if ends.len() < 2 {
        return EndFound::Unknown;
    }
    let base = wide(ends[0]);
    if at < base {
        return EndFound::Unknown;
    }
    let d = at - base;
    if 65535 < d {
        return EndFound::Unknown;
    }
    let n = known_length(ends, d);
    if n == 0 {
        return EndFound::Unknown;
    }
    EndFound::At(at + n)
}

// Keeps the length `n` of the struct that starts at `d` in its slot.
fn keep_slot(ends: &mut [u16; 4098], d: usize, n: usize)
    requires { (get_or ends.old 1 0 ≡ 0) × (d < 65536) }
    ensures ends { (v : EditionOf) (s : Bytes) → Ends v s ends.old → EndAt v s (get_or ends.old 0 0 + d) (get_or ends.old 0 0 + d + n) → Ends v s ends.new }
    ensures ends_len_unchanged { length ends.new ≡ length ends.old }
{
    let j = d / 4 + 2;
    if 4097 < j {
        return;
    }
    if 16383 < n {
        return;
    }
    ends[j] = (n * 4 + d % 4) as u16;
}

// Keeps it in the first free pair.
fn keep_pair(ends: &mut [u16; 4098], d: usize, n: usize)
    requires { (get_or ends.old 1 0 ≡ 0 → ⊥) × (d < 65536) }
    ensures ends { (v : EditionOf) (s : Bytes) → Ends v s ends.old → EndAt v s (get_or ends.old 0 0 + d) (get_or ends.old 0 0 + d + n) → Ends v s ends.new }
    ensures ends_len_unchanged { length ends.new ≡ length ends.old }
{
    if 65535 < n {
        return;
    }
    if n < wide(ends[1]) {
        return;
    }
    let mut j = 3;
    while j < 4098 {
        let i = j - 1;
        if ends[j] == 0 {
            ends[i] = d as u16;
            ends[j] = n as u16;
            return;
        }
        j += 2;
    }
}

// Keeps the end of the struct that starts at `at`, where there is an entry for it.
pub fn keep_end(ends: &mut [u16; 4098], at: usize, end: usize)
    ensures ends { (v : EditionOf) (s : Bytes) → Ends v s ends.old → EndAt v s at end → Ends v s ends.new }
    ensures ends_len_unchanged { length ends.new ≡ length ends.old }
{
    let base = wide(ends[0]);
    if at < base {
        return;
    }
    if end <= at {
        return;
    }
    let d = at - base;
    if 65535 < d {
        return;
    }
    if ends[1] == 0 {
        keep_slot(ends, d, end - at);
        return;
    }
    keep_pair(ends, d, end - at);
}
