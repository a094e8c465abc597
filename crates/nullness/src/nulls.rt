// A table of the nulls in a plan's constants. The first 1,024 words have a bit for each offset of the plan: set where a
// type stands of a place at which one of the values is null. The 64 words behind them have the constants all of whose
// nulls are in the table, by the offset of their type, one more than it, each in the word of its offset by 1,024: a
// constant of so many bytes has that word for itself, and smaller ones are not worth a pass. The table is a help, never
// needed: what it does not have is found by a scan of the constant.
ghost use Rattle.std.specs.Prelude.{true, false, ◌≡◌, ◌/◌, ◌%◌, ◌^◌, ◌≤◌, ◌<◌, eqb, length};
ghost use Rattle.std.proofs.Math.Seq.{slice};
ghost use Rattle.layout.specs.Bytes.{Bytes};
ghost use Rattle.overflow.specs.code.Some.{some_sought};
ghost use Rattle.overflow.specs.code.Seek.{RawIn};
ghost use Rattle.overflow.specs.declared.scan.Sought.{Sought as SoughtOf};
ghost use Rattle.nullness.specs.code.Nulls.{FieldStart, ElementStart, PartStart, IsNull, KnownAt, NullsOf, Nulls, NullKept};

use layout::columns::Labelled;
use layout::cursor::{Cursor, Moved};
use layout::edition::Edition;
use layout::limits::{DEEPEST, LONGEST_PLAN};
use layout::pass::pass_columns;
use layout::types::Head;
use numeric::round::power;

// Whether a bit of a word is set.
fn is_set(w: u64, j: u64) -> bool
    requires { j < 64 }
    ensures { result ≡ eqb (w / 2 ^ j % 2) 1 }
{
    (w >> j) % 2 == 1
}

// Whether a null may stand at a place whose type stands at `at`.
fn is_null(nulls: &[u64], at: usize) -> bool
    ensures { result ≡ false → IsNull nulls.now at → ⊥ }
{
    if LONGEST_PLAN <= at {
        return true;
    }
    let word = at / 64;
    if nulls.len() <= word {
        return true;
    }
    is_set(nulls[word], (at % 64) as u64)
}

// A null at a place whose type stands at `at`; or the table has no bit for it.
pub fn keep_null(nulls: &mut [u64], at: usize) -> bool
    ensures { NullKept nulls.old at result nulls.new }
{
    if LONGEST_PLAN <= at {
        return false;
    }
    let word = at / 64;
    if nulls.len() <= word {
        return false;
    }
    let b = power((at % 64) as u64);
    let old = nulls[word];
    nulls[word] = old | b;
    true
}

// Whether the table has all nulls of the constant whose type stands at `at`.
fn is_known(nulls: &[u64], at: usize) -> bool
    ensures { result ≡ true → KnownAt nulls.now at }
{
    if LONGEST_PLAN <= at {
        return false;
    }
    let slot = 1024 + at / 1024;
    if nulls.len() <= slot {
        return false;
    }
    nulls[slot] == (at as u64) + 1
}

// A constant whose type stands at `at`, and whose nulls are in the table.
pub fn keep_constant(nulls: &mut [u64], at: usize)
    ensures { (plan : Bytes) → Nulls plan nulls.old → ((X : RawIn plan at) → NullsOf plan nulls.old at X.value.tree) → Nulls plan nulls.new }
{
    if LONGEST_PLAN <= at {
        return;
    }
    let slot = 1024 + at / 1024;
    if nulls.len() <= slot {
        return;
    }
    nulls[slot] = (at as u64) + 1;
}

// Where the type of a part stands.
#[derive(Clone, Copy)]
pub enum TypePart {
    At(Cursor),
    None,
}

// Of field `k`, where the fields begin at `c`.
fn field_start(plan: &[u8], c: Cursor, k: u16) -> TypePart
    ensures { (e : Cursor) → result ≡ TypePart.At e → FieldStart plan.now c.at k e.at }
{
    match pass_columns(plan, Edition::One, DEEPEST, k, c) {
        Moved::To(d) => match d.label(plan, Edition::One) {
            Labelled::Is(_, e) => TypePart::At(e),
            Labelled::Refused(_) => TypePart::None,
        },
        Moved::Refused(_) => TypePart::None,
    }
}

// Of the elements, whose label stands at `c`.
fn element_start(plan: &[u8], c: Cursor) -> TypePart
    ensures { (e : Cursor) → result ≡ TypePart.At e → ElementStart plan.now c.at e.at }
{
    match c.element_label(plan, Edition::One) {
        Labelled::Is(_, e) => TypePart::At(e),
        Labelled::Refused(_) => TypePart::None,
    }
}

// Of the field `k` or of the elements of the type at `c`.
fn part_start(plan: &[u8], c: Cursor, k: u16) -> TypePart
    ensures { (e : Cursor) → result ≡ TypePart.At e → PartStart plan.now c.at k e.at }
{
    match c.head(plan) {
        Head::Leaf(_, _) => TypePart::None,
        Head::Struct(n, d) => {
            if n <= k {
                TypePart::None
            } else {
                field_start(plan, d, k)
            }
        }
        Head::List(d) => element_start(plan, d),
        Head::Array(_, d) => element_start(plan, d),
        Head::Refused(_) => TypePart::None,
    }
}

// Whether a null may stand at a path into the constant whose type stands at `t`: by the table, or since that has no
// answer.
pub fn may_be_null(
    plan: &[u8],
    t: Cursor,
    path: [u16; 64],
    from: usize,
    len: usize,
    nulls: &[u64],
) -> bool
    requires nulls { Nulls plan.now nulls.now }
    requires from_le_len { (from ≤ len) × (len ≤ length path) }
    ensures { result ≡ false → (X : RawIn plan.now t.at) → some_sought SoughtOf.Null (slice from len path) X.value.tree ≡ false }
{
    if !is_known(nulls, t.at) {
        return true;
    }
    let mut c = t;
    let mut i = from;
    while i < len {
        match part_start(plan, c, path[i]) {
            TypePart::At(e) => {
                c = e;
            }
            TypePart::None => return true,
        }
        i += 1;
    }
    is_null(nulls, c.at)
}
