// The tests that the matchers make before they go on, and the selectors that need no matching.
ghost use Rattle.std.specs.Prelude.{◌≡◌, ◌&&◌, ◌||◌, not, ℕ, ◌+◌, ◌*◌, ◌^◌, ◌≤◌, ◌<◌, length};
ghost use Rattle.layout.specs.Tree.{Label as LabelOf};
ghost use Rattle.layout.specs.Limits.{longest};
ghost use Rattle.layout.specs.code.Answers.{label_at, SpanIn};
ghost use Rattle.layout.specs.code.Stands.{TypeAt};
ghost use Rattle.layout.specs.declared.edition.Edition.{Edition as EditionOf};
ghost use Rattle.matching.specs.Build.{is_by_name, is_null_type, same_element, ignores as ignoresExtra, inserts as insertsMissing};
ghost use Rattle.builder.specs.code.Answers.{Makes, needs_rename, null_cast};
ghost use Rattle.builder.specs.code.Bundles.{RowsAt, Faulty, KeepsRequired};

use crate::answer::Made;
use crate::build::{Build, Column, Rows};
use crate::fields::{distinct, no_extra};
use crate::parts::is_null_type;
use crate::write::put_cast;
use forms::compare::same_text;
use layout::columns::{FieldId, Label, Position};
use layout::cursor::Cursor;
use layout::edition::Edition;
use layout::matching::Matching;
use rules::outcome::CastOption;
use rules::policy::{ExtraColumnsPolicy, MissingColumnsPolicy, Policy};

// By name a null incoming type goes before every other test.
pub fn is_null_incoming(how: Matching, incoming: &[u8], c: Cursor) -> bool
    ensures { (v : EditionOf) (d : ℕ) (P : TypeAt v d incoming.now c.at) → result ≡ (is_by_name how && is_null_type P.tree) }
{
    match how {
        Matching::ByName => is_null_type(incoming, c),
        Matching::ByNumber => false,
    }
}

// Test 25: by number the ids of elements agree, or one stands for `LIST_ELEMENT_DEFAULT_ID`.
pub fn same_element(how: Matching, a: FieldId, b: FieldId) -> bool
    ensures { (x y : LabelOf) → x.id ≡ a → y.id ≡ b → result ≡ same_element how x y }
{
    match how {
        Matching::ByName => true,
        Matching::ByNumber => {
            if a.0 == b.0 {
                return true;
            }
            if a.0 == 4294967295 {
                return true;
            }
            b.0 == 4294967295
        }
    }
}

// By number unequal names add a rename.
pub fn needs_rename(how: Matching, incoming: &[u8], l: Label, target: &[u8], m: Label) -> bool
    requires span_in { SpanIn incoming.now l.name }
    requires span_in_2 { SpanIn target.now m.name }
    ensures { result ≡ needs_rename how (label_at target.now m) (label_at incoming.now l) }
{
    match how {
        Matching::ByName => false,
        Matching::ByNumber => {
            let p = l.name;
            let q = m.name;
            !same_text(incoming, p, target, q)
        }
    }
}

// Test 55 (document 02, L5): a required target column takes a required incoming one, whose type is not null. Of the
// target column this is the mark.
pub fn keeps_required(incoming: &[u8], column: Column, required: bool) -> bool
    ensures { KeepsRequired column required incoming.now result }
{
    if !required {
        return true;
    }
    let l = column.label;
    if !l.required {
        return false;
    }
    let c = column.cursor;
    !is_null_type(incoming, c)
}

pub fn ignores(p: ExtraColumnsPolicy) -> bool
    ensures { result ≡ ignoresExtra p }
{
    match p {
        ExtraColumnsPolicy::Ignore => true,
        ExtraColumnsPolicy::Raise => false,
    }
}

pub fn inserts(p: MissingColumnsPolicy) -> bool
    ensures { result ≡ insertsMissing p }
{
    match p {
        MissingColumnsPolicy::Insert => true,
        MissingColumnsPolicy::Raise => false,
    }
}

// Tests 12 and 13 of two structs, the target's names first; 0 where both pass. The arena is lent for tables.
pub fn struct_fault(
    build: Build,
    incoming: &[u8],
    target: &[u8],
    rows: Rows,
    arena: &mut [u16],
) -> u8
    requires { RowsAt build rows incoming.now target.now }
    ensures { Faulty build rows incoming.now target.now result }
{
    let how = build.matching;
    let v = build.incoming;
    let w = build.target;
    let c = rows.incoming.first;
    let b = rows.target.first;
    if !distinct(how, target, w, rows.depth, rows.target.count, b, arena) {
        return 12;
    }
    if !distinct(how, incoming, v, rows.depth, rows.incoming.count, c, arena) {
        return 12;
    }
    let policy = build.policy;
    let extra = policy.extra_struct_fields;
    if ignores(extra) {
        return 0;
    }
    if no_extra(build, incoming, target, rows, arena) {
        return 0;
    }
    13
}

// A null incoming type by name: a cast to the target type.
pub fn put_null_cast(
    policy: Policy,
    v: Edition,
    depth: u8,
    target: &[u8],
    b: Cursor,
    position: Position,
    out: &mut [u8],
    k: usize,
) -> Made
    requires type_at { TypeAt v depth target.now b.at }
    requires target_len_bound { (length target.now ≤ longest) × (k ≤ 65536 * b.at + 1) }
    ensures { (Q : TypeAt v depth target.now b.at) → Makes b.at Q.end out.old k (null_cast policy position Q.tree) result out.new }
{
    if policy.null_upcast {
        return Made::Built(put_cast(target, v, depth, b, position, CastOption::NonStrict, out, k));
    }
    Made::Refused(15)
}
