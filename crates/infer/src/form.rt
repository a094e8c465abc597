// Types and what types begin with, written in version 1 form. What the buffer has no room for, or what is no type of a
// result, is not settled.
ghost use Rattle.std.specs.Prelude.{◌≡◌, true, ℕ, ◌≤◌, length};
ghost use Rattle.std.proofs.Math.Seq.{slice};
ghost use Rattle.layout.specs.Limits.{longest_plan, deepest};
ghost use Rattle.layout.specs.Tree.{dtype_of};
ghost use Rattle.layout.specs.Layout.{a_struct, a_list, an_array};
ghost use Rattle.layout.specs.code.Stands.{TypeAt};
ghost use Rattle.forms.specs.Form.{kind_form};
ghost use Rattle.infer.specs.code.Writing.{Fills, LeafCopied, CopiedIs, behind_of};

use forms::write::write_form;
use layout::cursor::Cursor;
use layout::edition::Edition;
use layout::limits::{DEEPEST, LONGEST};
use layout::types::Head;
use nodes::types::form_size;
use store::{copy, put, put_number};

// The length of the form that was written.
#[derive(Clone, Copy)]
pub enum Inferred {
    Is(usize),
    Unknown,
}

// The bytes of a leaf type, from `d` up to `e`.
fn copy_leaf(s: &[u8], d: Cursor, e: Cursor, depth: u8, out: &mut [u8], k: usize) -> Inferred
    requires at_le_at { (d.at ≤ e.at) × (e.at ≤ length s.now) }
    requires s_len_bound { (length s.now ≤ longest_plan) × (length out.old ≤ longest_plan) × (k ≤ length out.old) }
    ensures { LeafCopied (slice d.at e.at s.now) depth out.old k result out.new }
{
    let len = e.at - d.at;
    if depth == 0 {
        return Inferred::Unknown;
    }
    if LONGEST < len {
        return Inferred::Unknown;
    }
    if out.len() < k + len {
        return Inferred::Unknown;
    }
    copy(s, d.at, e.at, out, k);
    Inferred::Is(len)
}

fn copy_nested(s: &[u8], v: Edition, d: Cursor, depth: u8, out: &mut [u8], k: usize) -> Inferred
    requires type_at { TypeAt v deepest s.now d.at }
    requires s_len_bound { (length s.now ≤ longest_plan) × (length out.old ≤ longest_plan) × (k ≤ length out.old) }
    ensures { (T : TypeAt v deepest s.now d.at) → CopiedIs (dtype_of T.tree) depth out.old k result out.new }
{
    let z = form_size(s, v, d);
    if depth < z.deep {
        return Inferred::Unknown;
    }
    if LONGEST < z.size {
        return Inferred::Unknown;
    }
    if out.len() < k + z.size {
        return Inferred::Unknown;
    }
    write_form(s, v, DEEPEST, d, out, k);
    Inferred::Is(z.size)
}

// The type at `d`, as it stands, of at most `depth` levels.
pub fn copy_type(s: &[u8], v: Edition, d: Cursor, depth: u8, out: &mut [u8], k: usize) -> Inferred
    requires type_at { TypeAt v deepest s.now d.at }
    requires s_len_bound { (length s.now ≤ longest_plan) × (length out.old ≤ longest_plan) × (k ≤ length out.old) }
    ensures { (T : TypeAt v deepest s.now d.at) → CopiedIs (dtype_of T.tree) depth out.old k result out.new }
{
    match d.head(s) {
        Head::Leaf(_, e) => copy_leaf(s, d, e, depth, out, k),
        _ => copy_nested(s, v, d, depth, out, k),
    }
}

// What a struct of `n` columns begins with.
pub fn put_struct(n: u16, out: &mut [u8], k: usize) -> bool
    requires { (length out.old ≤ longest_plan) × (k ≤ length out.old) }
    ensures { result ≡ true → Fills (kind_form (a_struct n)) out.old k out.new }
{
    if out.len() < k + 3 {
        return false;
    }
    put(out, k, 18);
    put(out, k + 1, (n % 256) as u8);
    put(out, k + 2, (n / 256) as u8);
    true
}

pub fn put_list(out: &mut [u8], k: usize) -> bool
    requires { (length out.old ≤ longest_plan) × (k ≤ length out.old) }
    ensures { result ≡ true → Fills (kind_form a_list) out.old k out.new }
{
    if out.len() < k + 1 {
        return false;
    }
    put(out, k, 19);
    true
}

// What an array of the width `w` begins with.
pub fn put_array(w: u32, out: &mut [u8], k: usize) -> bool
    requires { (length out.old ≤ longest_plan) × (k ≤ length out.old) }
    ensures { result ≡ true → Fills (kind_form (an_array w)) out.old k out.new }
{
    if out.len() < k + 5 {
        return false;
    }
    put(out, k, 20);
    put_number(out, k + 1, w as u64, 4);
    true
}

// A head of so many bytes before what was written behind it, no longer than a result may be.
pub fn behind(head: usize, r: Inferred) -> Inferred
    requires { (head ≤ longest_plan) × ((len : ℕ) → r ≡ Inferred.Is len → len ≤ longest_plan) }
    ensures { result ≡ behind_of head r }
{
    match r {
        Inferred::Is(len) => {
            if LONGEST < head + len {
                return Inferred::Unknown;
            }
            Inferred::Is(head + len)
        }
        Inferred::Unknown => Inferred::Unknown,
    }
}
