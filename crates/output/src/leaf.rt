// The bytes of a value after casts.
ghost use Rattle.std.specs.Prelude.{◌≡◌, List, ℕ, ◌+◌, ◌-◌, ◌^◌, ◌≤◌, ◌<◌, length};
ghost use Rattle.ends.specs.code.Ends.{Ends};
ghost use Rattle.layout.specs.declared.leaf.Leaf.{Leaf as LeafOf};
ghost use Rattle.values.specs.Value.{Value, vnumber};
ghost use Rattle.values.specs.Encode.{encode_value};
ghost use Rattle.walk.specs.code.State.{State};
ghost use Rattle.walk.specs.code.Walks.{WalkAt};
ghost use Rattle.nodes.specs.code.Raw.{RawAt};
ghost use Rattle.raw.specs.code.Stored.{Stores};
ghost use Rattle.plan.specs.code.Skips.{Skips};
ghost use Rattle.output.specs.code.Chain.{Passed, cast_all, Kept, Casting};
ghost use Rattle.output.specs.code.Answers.{cast_value_of, cast_leaf_of};

use crate::casts::last_kinds;
use convert::leaf::{Converted, convert_leaf};
use convert::put::put_number;
use layout::cursor::Cursor;
use layout::edition::Edition;
use layout::leaf::Leaf;
use raw::copy::copy_raw;
use raw::leaf::{LeafValue, leaf_at};
use walk::walk::Walk;

// Where a value and its type stand, and the edition of the layout that has the type.
#[derive(Clone, Copy)]
pub struct Node {
    pub edition: Edition,
    pub data_type: Cursor,
    pub value: Cursor,
}

// A number after its casts, or a date-time that is too large.
#[derive(Clone, Copy)]
pub enum CastValue {
    Number(Leaf, u64),
    Overflow,
}

// The number of the kind `kind` through casts to the first `count` of the kinds, one after the other.
fn cast_block(kinds: [Leaf; 1024], count: usize, kind: Leaf, n: u64) -> CastValue
    requires { count ≤ 1024 }
    ensures { (ks : List LeafOf) (u : Value) (i : ℕ) → Kept ks i 0 kinds → Casting ks u i (vnumber kind n) → count ≤ i → Casting ks u (i - count) (cast_value_of result) }
{
    let mut k = kind;
    let mut x = n;
    let mut m: usize = 0;
    while m < count {
        let to = kinds[m];
        match convert_leaf(k, to, x) {
            Converted::Number(y) => {
                k = to;
                x = y;
                m += 1;
            }
            Converted::Overflow => return CastValue::Overflow,
        }
    }
    CastValue::Number(k, x)
}

// So many of the casts that are left are looked up at once.
fn block_of(left: usize) -> usize
    ensures { (result ≤ 1024) × (result ≤ left) × (0 < left → 0 < result) }
{
    if left < 1024 { left } else { 1024 }
}

// The number of the kind `kind` through the casts that a walk passes, from the innermost outward. They are walked past
// once for each 1,024 of them.
fn cast_number(plan: &[u8], w: Walk, casts: usize, kind: Leaf, n: u64, skips: &[u16]) -> CastValue
    requires skips { Skips plan.now skips.now }
    requires walk_at { (x : State) × WalkAt plan.now w x }
    ensures { (x z : State) (ks : List LeafOf) → WalkAt plan.now w x → Passed x ks z → length ks ≡ casts → cast_value_of result ≡ cast_all ks (vnumber kind n) }
{
    let mut k = kind;
    let mut x = n;
    let mut i = casts;
    while 0 < i {
        let kinds = last_kinds(plan, w, i, skips);
        let count = block_of(i);
        match cast_block(kinds, count, k, x) {
            CastValue::Number(j, y) => {
                k = j;
                x = y;
                i -= count;
            }
            CastValue::Overflow => return CastValue::Overflow,
        }
    }
    CastValue::Number(k, x)
}

// What casts leave: the value as it stands, or what a number becomes.
#[derive(Clone, Copy)]
pub enum CastLeaf {
    Same,
    Cast(CastValue),
}

// The value at a node after the casts that a walk passes; only a number changes.
pub fn cast_leaf(
    lay: &[u8],
    node: Node,
    rec: &[u8],
    plan: &[u8],
    w: Walk,
    casts: usize,
    skips: &[u16],
) -> CastLeaf
    requires skips { Skips plan.now skips.now }
    requires raw_at { RawAt node.edition lay.now node.data_type.at rec.now node.value.at }
    requires walk_at { (x : State) × WalkAt plan.now w x }
    ensures { (X : RawAt node.edition lay.now node.data_type.at rec.now node.value.at) (x z : State) (ks : List LeafOf) → WalkAt plan.now w x → Passed x ks z → length ks ≡ casts → cast_leaf_of X.value.tree result ≡ cast_all ks X.value.tree }
{
    if casts == 0 {
        return CastLeaf::Same;
    }
    let v = node.edition;
    match leaf_at(lay, v, node.data_type, rec, node.value) {
        LeafValue::Number(kind, n) => CastLeaf::Cast(cast_number(plan, w, casts, kind, n, skips)),
        LeafValue::Other => CastLeaf::Same,
    }
}

// Stores a number from an index on; where it ends. A date-time that is too large has no bytes.
fn put_cast(value: CastValue, out: &mut [u8], k: usize) -> usize
    requires { k + 9 < 2 ^ 64 }
    ensures { Stores out.old k (encode_value (cast_value_of value)) result out.new }
{
    match value {
        CastValue::Number(j, m) => k + put_number(j, m, out, k),
        CastValue::Overflow => k,
    }
}

// Stores what casts leave of the value at a node.
pub fn put_raw(
    lay: &[u8],
    node: Node,
    rec: &[u8],
    cast: CastLeaf,
    out: &mut [u8],
    k: usize,
    table: &[u16],
) -> usize
    requires ends { Ends node.edition lay.now table.now }
    requires raw_at { RawAt node.edition lay.now node.data_type.at rec.now node.value.at }
    requires rec_bound { k + 9 + length rec.now < 2 ^ 64 }
    ensures { (X : RawAt node.edition lay.now node.data_type.at rec.now node.value.at) → Stores out.old k (encode_value (cast_leaf_of X.value.tree cast)) result out.new }
{
    let v = node.edition;
    match cast {
        CastLeaf::Same => copy_raw(lay, v, node.data_type, rec, node.value, out, k, table),
        CastLeaf::Cast(value) => put_cast(value, out, k),
    }
}
