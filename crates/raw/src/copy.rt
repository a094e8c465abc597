// The bytes of a value, stored as they stand; of a null; and those before the parts of a mapping.
ghost use Rattle.std.specs.Prelude.{◌≡◌, true, ◌+◌, ◌^◌, ◌<◌, length};
ghost use Rattle.ends.specs.code.Ends.{Ends};
ghost use Rattle.layout.specs.Tree.{DataType};
ghost use Rattle.layout.specs.declared.edition.Edition.{Edition as EditionOf};
ghost use Rattle.values.specs.Value.{vnull};
ghost use Rattle.values.specs.Encode.{encode_value};
ghost use Rattle.values.specs.code.Stands.{ValueAt};
ghost use Rattle.nodes.specs.code.Raw.{RawAt};
ghost use Rattle.raw.specs.code.Stored.{Stores, lead};

use layout::cursor::Cursor;
use layout::edition::Edition;
use layout::limits::DEEPEST;
use layout::walk::skip_type;
use store::put;
use values::constant::read_constant_value;
use values::copy::copy_value;
use values::leaf::{Presence, read_presence};
use values::read::ValueRead;

pub fn is_null(rec: &[u8], c: Cursor) -> bool
    ensures { (t : DataType) (X : ValueAt t rec.now c.at) → result ≡ true → X.tree ≡ vnull }
{
    match read_presence(rec, c) {
        Presence::Null(_) => true,
        Presence::Present(_) => false,
        Presence::Refused(_) => false,
    }
}

// Stores the value's bytes from an index on; where they end.
pub fn copy_raw(
    lay: &[u8],
    v: Edition,
    t: Cursor,
    rec: &[u8],
    c: Cursor,
    out: &mut [u8],
    k: usize,
    ends: &[u16],
) -> usize
    requires raw_at { RawAt v lay.now t.at rec.now c.at }
    requires rec_bound { k + length rec.now < 2 ^ 64 }
    requires ends { Ends v lay.now ends.now }
    ensures { (X : RawAt v lay.now t.at rec.now c.at) → Stores out.old k (encode_value X.value.tree) result out.new }
{
    match copy_value(lay, v, DEEPEST, t, rec, c, out, k, ends) {
        ValueRead::To(_, e) => k + (e.at - c.at),
        ValueRead::Refused(_) => k,
    }
}

// Stores a part of a constant, whose type and value stand in the plan.
pub fn copy_constant(plan: &[u8], t: Cursor, c: Cursor, out: &mut [u8], k: usize) -> usize
    requires raw_at { RawAt EditionOf.One plan.now t.at plan.now c.at }
    requires plan_bound { k + length plan.now < 2 ^ 64 }
    ensures { (X : RawAt EditionOf.One plan.now t.at plan.now c.at) → Stores out.old k (encode_value X.value.tree) result out.new }
{
    match read_constant_value(plan, t, skip_type(plan, Edition::One, DEEPEST, t), c) {
        ValueRead::To(_, e) => {
            store::copy(plan, c.at, e.at, out, k);
            k + (e.at - c.at)
        }
        ValueRead::Refused(_) => k,
    }
}

pub fn put_null(out: &mut [u8], k: usize) -> usize
    requires { k + 1 < 2 ^ 64 }
    ensures { Stores out.old k (encode_value vnull) result out.new }
{
    put(out, k, 0);
    k + 1
}

// What stands before the parts of a mapping that is present: of a list also their count.
pub fn put_lead(counted: bool, m: u32, out: &mut [u8], k: usize) -> usize
    requires { k + 3 < 2 ^ 64 }
    ensures { Stores out.old k (lead counted m) result out.new }
{
    put(out, k, 1);
    if counted {
        store::put_number(out, k + 1, m as u64, 2);
        return k + 3;
    }
    k + 1
}
