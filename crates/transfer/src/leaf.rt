// What a selector gives that is no transform: a value as it stands.
ghost use Rattle.std.specs.Prelude.{◌≡◌, Bool, true, ℕ, ◌≤◌, length};
ghost use Rattle.ends.specs.code.Ends.{Ends};
ghost use Rattle.layout.specs.Bytes.{Bytes};
ghost use Rattle.layout.specs.Limits.{longest, longest_plan};
ghost use Rattle.values.specs.Value.{Value, vnull};
ghost use Rattle.values.specs.Encode.{encode_value};
ghost use Rattle.plan.specs.Run.{clean};
ghost use Rattle.raw.specs.code.Constant.{ConstantRaw};
ghost use Rattle.raw.specs.code.Stored.{Stores};
ghost use Rattle.transfer.specs.code.Reaching.{NodeIn, ReachedIs};

use layout::cursor::Cursor;
use layout::edition::Edition;
use layout::limits::{DEEPEST, LONGEST};
use layout::walk::skip_type;
use nodes::raw::NodeAt;
use raw::copy::{copy_constant, copy_raw, put_null};

// The value that a selector takes, and the edition of its layout.
#[derive(Clone, Copy)]
pub struct Node {
    pub edition: Edition,
    pub at: NodeAt,
}

// A selector, the levels left to it, and where in the output what it gives begins.
#[derive(Clone, Copy)]
pub struct Place {
    pub selector: Cursor,
    pub levels: u8,
    pub k: usize,
}

// Selectors that follow one another.
#[derive(Clone, Copy)]
pub struct Selectors {
    pub count: u16,
    pub first: Place,
}

// Where a selector ends, and where what it gives ends; or it is not settled.
#[derive(Clone, Copy)]
pub enum Reached {
    To(Cursor, usize),
    Unknown,
}

// What was stored up to `r`, if that is within the limit.
pub fn limited(end: Cursor, r: usize) -> Reached
    ensures { (ok : Bool) (b out : Bytes) (k : ℕ) (new : Bytes) → ok ≡ true → Stores out k b r new → ReachedIs ok b end.at out k result new }
{
    if LONGEST < r {
        return Reached::Unknown;
    }
    Reached::To(end, r)
}

// A null, of a selector that ends at `end`.
pub fn put_nothing(end: Cursor, out: &mut [u8], k: usize) -> Reached
    requires { k ≤ longest }
    ensures { ReachedIs true (encode_value vnull) end.at out.old k result out.new }
{
    limited(end, put_null(out, k))
}

// The value as it stands, or a null.
pub fn put_node(
    lay: &[u8],
    rec: &[u8],
    node: Node,
    end: Cursor,
    out: &mut [u8],
    k: usize,
    ends: &[u16],
) -> Reached
    requires ends { Ends node.edition lay.now ends.now }
    requires node_in { (x : Value) × NodeIn lay.now rec.now x node }
    requires rec_len_bound { (length rec.now ≤ longest_plan) × (k ≤ longest) }
    ensures { (x : Value) → NodeIn lay.now rec.now x node → ReachedIs (clean x) (encode_value x) end.at out.old k result out.new }
{
    let v = node.edition;
    let at = node.at;
    match at {
        NodeAt::Null => put_nothing(end, out, k),
        NodeAt::At(t, c) => limited(end, copy_raw(lay, v, t, rec, c, out, k, ends)),
    }
}

// The constant whose type begins at `t`.
pub fn put_constant(plan: &[u8], t: Cursor, end: Cursor, out: &mut [u8], k: usize) -> Reached
    requires constant_raw { ConstantRaw plan.now t.at }
    requires plan_len_bound { (length plan.now ≤ longest_plan) × (k ≤ longest) }
    ensures { (X : ConstantRaw plan.now t.at) → ReachedIs (clean X.value.tree) (encode_value X.value.tree) end.at out.old k result out.new }
{
    let c = skip_type(plan, Edition::One, DEEPEST, t);
    limited(end, copy_constant(plan, t, c, out, k))
}
