// The check of one selector: 31 no such position, 32 a transform that doesn't fit. "Selectors in order, input before
// transform (a mapping's input kind, then its selectors, then its result)."
ghost use Rattle.std.specs.Prelude.{◌≡◌, Bool, true, false, ℕ};
ghost use Rattle.layout.specs.Bytes.{Bytes};
ghost use Rattle.layout.specs.Tree.{Fields, struct, count_fields, DataType, dtype_of};
ghost use Rattle.layout.specs.code.Stands.{TypeAt};
ghost use Rattle.layout.specs.declared.edition.Edition.{Edition as EditionOf};
ghost use Rattle.plan.specs.Selector.{Selector, Selectors, count_selectors, struct_mapping};
ghost use Rattle.plan.specs.Result.{gives};
ghost use Rattle.plan.specs.Check.{Column, column_at, type_of, within_limits, resulting, check_cast};
ghost use Rattle.walk.specs.code.Stands.{SelectorAt};
ghost use Rattle.walk.specs.code.Parts.{OptionAt};
ghost use Rattle.checker.specs.code.TypesAt.{TypeHeadIs, ScopedAt, TypedAt, NamedAt};
ghost use Rattle.checker.specs.code.Tables.{Tables};
ghost use Rattle.checker.specs.code.Limits.{size_of, within_fit, Limited, ScopeIs};
ghost use Rattle.checker.specs.code.Checking.{checked_of, dropped_of, measured_of, MeasuredIs, fitting_of, is_transform, CheckingAt, PassedInput, nothing_left, fields_left, listed_left, arrayed_left, RestIs, MappingAt, Elements, fields_result, element_result};

use crate::cast::cast_fits;
use crate::head::type_head;
use crate::limits::{Fit, Size, add_field, around, list_fit, raw_fit, sized_fit};
use crate::part::enclosing;
use crate::place::TypeHead;
use crate::resolve::resolve;
use layout::columns::Position;
use layout::cursor::Cursor;
use layout::edition::Edition;
use layout::limits::LONGEST;
use walk::child::{child_at, first_child};
use walk::head::{SelectorHead, cast_option, counted_at, head, skip_by};
use walk::walk::Walk;

// Whether a selector passes, or the number of its refusal.
#[derive(Clone, Copy)]
pub enum Checked {
    Passed,
    Refused(u8),
}

// With what is known of the type that it gives.
#[derive(Clone, Copy)]
pub enum Measured {
    Passed(Size),
    Refused(u8),
}

// The columns that positions take from: how many, and whether all their types are known to be within the limits.
#[derive(Clone, Copy)]
pub struct ScopeColumns {
    pub count: u16,
    pub within: bool,
}

fn dropped(m: Measured) -> Checked
    ensures { result ≡ dropped_of m }
{
    match m {
        Measured::Passed(_) => Checked::Passed,
        Measured::Refused(k) => Checked::Refused(k),
    }
}

// Refusal 32 past the limits.
fn fitting(f: Fit) -> Measured
    ensures { result ≡ fitting_of f }
{
    match f {
        Fit::Within(size, deep) => Measured::Passed(Size::Is(size, deep)),
        Fit::Over => Measured::Refused(32),
    }
}

// How many columns positions can take from.
fn scope_count(incoming: &[u8], v: Edition, n: u16, plan: &[u8], w: Walk, tables: &[u16]) -> u16
    requires tables { Tables incoming.now v n plan.now tables.now }
    requires scoped_at { (Δ : Fields) × ScopedAt incoming.now v n plan.now w Δ }
    ensures { (Δ : Fields) → ScopedAt incoming.now v n plan.now w Δ → result ≡ count_fields Δ }
{
    if w.deep == 0 {
        return n;
    }
    let r = enclosing(incoming, v, n, plan, w, tables);
    match type_head(incoming, v, n, plan, r, tables) {
        TypeHead::Leaf(_, _) => 0,
        TypeHead::Struct(count) => count,
        TypeHead::List => 1,
        TypeHead::Array(_) => 1,
    }
}

// Whether the types of all columns that positions can take from are known to be within the limits: those of a layout
// that is no longer than a type may be.
fn columns_within(incoming: &[u8], w: Walk) -> bool
    ensures { result ≡ true → (v : EditionOf) (n : ℕ) (plan : Bytes) (Δ : Fields) → ScopedAt incoming.now v n plan w Δ → Limited Δ }
{
    if w.deep != 0 {
        return false;
    }
    if LONGEST < incoming.len() {
        return false;
    }
    true
}

fn is_within(f: Fit) -> bool
    ensures { result ≡ within_fit f }
{
    match f {
        Fit::Within(_, _) => true,
        Fit::Over => false,
    }
}

// Whether the type of what the input at `x` gives, once it has passed, is known to be within the limits: a transform's
// result was measured, and a position takes a column of the scope.
fn input_within(plan: &[u8], x: Walk, scope: ScopeColumns) -> bool
    requires { SelectorAt plan.now x.at }
    ensures { result ≡ true → (incoming : Bytes) (v : EditionOf) (n : ℕ) (s : Selector) (Δ : Fields) (a : Column) → CheckingAt incoming v n plan.now x s Δ → ScopeIs scope Δ → type_of Δ s ≡ gives a → within_limits a.type ≡ true }
{
    let c = Cursor { at: x.at };
    match head(plan, c) {
        SelectorHead::Position(_) => scope.within,
        SelectorHead::Constant(_, d) => is_within(raw_fit(plan, Edition::One, d, 16, LONGEST)),
        SelectorHead::Cast(_) => true,
        SelectorHead::Rename(_) => true,
        SelectorHead::Struct(_) => true,
        SelectorHead::List(_) => true,
        SelectorHead::Array(_) => true,
        SelectorHead::Refused => false,
    }
}

// The position `k` among so many columns.
fn check_position(k: Position, scope: u16) -> Measured
    ensures { (Δ : Fields) → count_fields Δ ≡ scope → result ≡ measured_of false (column_at Δ k.0) }
{
    if k.0 < scope {
        Measured::Passed(Size::Unknown)
    } else {
        Measured::Refused(31)
    }
}

// A cast whose input, at which `x` stands and which begins at `input`, has passed.
fn cast_result(
    incoming: &[u8],
    v: Edition,
    n: u16,
    plan: &[u8],
    x: Walk,
    input: Cursor,
    tables: &[u16],
) -> Measured
    requires tables { Tables incoming.now v n plan.now tables.now }
    requires option_at { (a : Column) × (P : SelectorAt plan.now input.at) × (T : TypeAt EditionOf.One 16 plan.now P.end) × OptionAt plan.now T.end × TypedAt incoming.now v n plan.now x a.type }
    ensures { (a : Column) (P : SelectorAt plan.now input.at) (T : TypeAt EditionOf.One 16 plan.now P.end) (O : OptionAt plan.now T.end) → TypedAt incoming.now v n plan.now x a.type → result ≡ measured_of true (check_cast (dtype_of T.tree) O.option a) }
{
    let r = resolve(incoming, v, n, plan, x, tables);
    let h = type_head(incoming, v, n, plan, r, tables);
    let c = skip_by(plan, input, tables);
    let o = cast_option(plan, c);
    if !cast_fits(incoming, plan, h, c, o) {
        return Measured::Refused(32);
    }
    fitting(raw_fit(plan, Edition::One, c, 16, LONGEST))
}

// Whether the selector at `c` transforms what another gives.
fn is_transform(plan: &[u8], c: Cursor) -> bool
    ensures { (P : SelectorAt plan.now c.at) → result ≡ is_transform P.tree }
{
    match head(plan, c) {
        SelectorHead::Position(_) => false,
        SelectorHead::Constant(_, _) => false,
        SelectorHead::Cast(_) => true,
        SelectorHead::Rename(_) => true,
        SelectorHead::Struct(_) => true,
        SelectorHead::List(_) => true,
        SelectorHead::Array(_) => true,
        SelectorHead::Refused => false,
    }
}

// A rename whose input, at which `x` stands, has passed. What is within the limits is not measured again.
fn rename_result(
    incoming: &[u8],
    v: Edition,
    n: u16,
    plan: &[u8],
    x: Walk,
    size: Size,
    within: bool,
    tables: &[u16],
) -> Measured
    requires tables { Tables incoming.now v n plan.now tables.now }
    requires named_at { (b : Bool) × (a : Column) × NamedAt incoming.now v n plan.now x a × (size ≡ size_of b a.type) }
    ensures { (b : Bool) (a : Column) (name : Bytes) → NamedAt incoming.now v n plan.now x a → size ≡ size_of b a.type → (within ≡ true → within_limits a.type ≡ true) → MeasuredIs result (resulting name a.type) }
{
    if within {
        return Measured::Passed(size);
    }
    fitting(sized_fit(incoming, v, n, plan, x, size, 16, LONGEST, tables))
}

// What the input of a mapping begins with.
fn input_head(incoming: &[u8], v: Edition, n: u16, plan: &[u8], x: Walk, tables: &[u16]) -> TypeHead
    requires tables { Tables incoming.now v n plan.now tables.now }
    requires typed_at { (t : DataType) × TypedAt incoming.now v n plan.now x t }
    ensures { (t : DataType) → TypedAt incoming.now v n plan.now x t → TypeHeadIs incoming.now plan.now t result }
{
    let r = resolve(incoming, v, n, plan, x, tables);
    type_head(incoming, v, n, plan, r, tables)
}

// A position, among so many columns, or a constant.
fn check_source(plan: &[u8], w: Walk, scope: u16) -> Measured
    ensures { (incoming : Bytes) (v : EditionOf) (n : ℕ) (s : Selector) (Δ : Fields) → CheckingAt incoming v n plan.now w s Δ → count_fields Δ ≡ scope → is_transform s ≡ false → result ≡ measured_of false (type_of Δ s) }
{
    let c = Cursor { at: w.at };
    match head(plan, c) {
        SelectorHead::Position(k) => check_position(k, scope),
        SelectorHead::Constant(_, _) => Measured::Passed(Size::Unknown),
        SelectorHead::Cast(_) => Measured::Refused(32),
        SelectorHead::Rename(_) => Measured::Refused(32),
        SelectorHead::Struct(_) => Measured::Refused(32),
        SelectorHead::List(_) => Measured::Refused(32),
        SelectorHead::Array(_) => Measured::Refused(32),
        SelectorHead::Refused => Measured::Refused(32),
    }
}

// What is left of a transform's check once its input has passed: nothing; or the selectors of a struct mapping, so many
// of them over so many columns; or the selector of a list or array mapping, with how many bytes the head of such a type
// has.
#[derive(Clone, Copy)]
pub enum Rest {
    Passed(Size),
    Refused(u8),
    Fields(u16, u16),
    Element(usize),
}

fn nothing_left(m: Measured) -> Rest
    ensures { result ≡ nothing_left m }
{
    match m {
        Measured::Passed(size) => Rest::Passed(size),
        Measured::Refused(k) => Rest::Refused(k),
    }
}

// Of a struct mapping of `count` selectors, by what the type of its input begins with.
fn fields_left(h: TypeHead, count: u16) -> Rest
    ensures { result ≡ fields_left h count }
{
    match h {
        TypeHead::Leaf(_, _) => Rest::Refused(32),
        TypeHead::Struct(n) => Rest::Fields(count, n),
        TypeHead::List => Rest::Refused(32),
        TypeHead::Array(_) => Rest::Refused(32),
    }
}

// Of a list mapping.
fn listed_left(h: TypeHead) -> Rest
    ensures { result ≡ listed_left h }
{
    match h {
        TypeHead::Leaf(_, _) => Rest::Refused(32),
        TypeHead::Struct(_) => Rest::Refused(32),
        TypeHead::List => Rest::Element(1),
        TypeHead::Array(_) => Rest::Refused(32),
    }
}

// Of an array mapping.
fn arrayed_left(h: TypeHead) -> Rest
    ensures { result ≡ arrayed_left h }
{
    match h {
        TypeHead::Leaf(_, _) => Rest::Refused(32),
        TypeHead::Struct(_) => Rest::Refused(32),
        TypeHead::List => Rest::Refused(32),
        TypeHead::Array(_) => Rest::Element(5),
    }
}

// A transform whose input, at which `x` stands, has passed and is within the limits, if that is known: the result of a
// cast or rename, the kind of a mapping's input.
fn check_input(
    incoming: &[u8],
    v: Edition,
    n: u16,
    plan: &[u8],
    w: Walk,
    x: Walk,
    size: Size,
    within: bool,
    tables: &[u16],
) -> Rest
    requires tables { Tables incoming.now v n plan.now tables.now }
    requires passed_input { (s : Selector) × (Δ : Fields) × PassedInput incoming.now v n plan.now w x size within s Δ }
    ensures { (s : Selector) (Δ : Fields) → PassedInput incoming.now v n plan.now w x size within s Δ → RestIs incoming.now v n plan.now w within s Δ result }
{
    let c = Cursor { at: w.at };
    match head(plan, c) {
        SelectorHead::Position(_) => Rest::Refused(32),
        SelectorHead::Constant(_, _) => Rest::Refused(32),
        SelectorHead::Cast(input) => nothing_left(cast_result(
            incoming, v, n, plan, x, input, tables,
        )),
        SelectorHead::Rename(_) => {
            nothing_left(rename_result(incoming, v, n, plan, x, size, within, tables))
        }
        SelectorHead::Struct(input) => {
            let f = counted_at(plan, skip_by(plan, input, tables));
            fields_left(input_head(incoming, v, n, plan, x, tables), f.count)
        }
        SelectorHead::List(_) => listed_left(input_head(incoming, v, n, plan, x, tables)),
        SelectorHead::Array(_) => arrayed_left(input_head(incoming, v, n, plan, x, tables)),
        SelectorHead::Refused => Rest::Refused(32),
    }
}

// The selector at which the walk stands, where positions take from the columns of `scope`.
#[cycle(check_element_check_fields_check_scoped_check_transform)]
fn check_scoped(
    incoming: &[u8],
    v: Edition,
    n: u16,
    plan: &[u8],
    w: Walk,
    scope: ScopeColumns,
    tables: &[u16],
) -> Measured
    requires tables { Tables incoming.now v n plan.now tables.now }
    requires checking_at { (s : Selector) × (Δ : Fields) × CheckingAt incoming.now v n plan.now w s Δ × ScopeIs scope Δ }
    ensures { (s : Selector) (Δ : Fields) → CheckingAt incoming.now v n plan.now w s Δ → ScopeIs scope Δ → MeasuredIs result (type_of Δ s) }
{
    if is_transform(plan, Cursor { at: w.at }) {
        return check_transform(incoming, v, n, plan, w, scope, tables);
    }
    check_source(plan, w, scope.count)
}

// The input of a transform, then what is left. What a level of nesting keeps on the stack is here and in the two
// functions below; the larger work is done in functions that return before the next level.
#[cycle(check_element_check_fields_check_scoped_check_transform)]
fn check_transform(
    incoming: &[u8],
    v: Edition,
    n: u16,
    plan: &[u8],
    w: Walk,
    scope: ScopeColumns,
    tables: &[u16],
) -> Measured
    requires tables { Tables incoming.now v n plan.now tables.now }
    requires checking_at { (s : Selector) × (Δ : Fields) × CheckingAt incoming.now v n plan.now w s Δ × ScopeIs scope Δ × (is_transform s ≡ true) }
    ensures { (s : Selector) (Δ : Fields) → CheckingAt incoming.now v n plan.now w s Δ → ScopeIs scope Δ → is_transform s ≡ true → MeasuredIs result (type_of Δ s) }
{
    let x = w.to_input();
    match check_scoped(incoming, v, n, plan, x, scope, tables) {
        Measured::Passed(size) => {
            let within = input_within(plan, x, scope);
            match check_input(incoming, v, n, plan, w, x, size, within, tables) {
                Rest::Passed(z) => Measured::Passed(z),
                Rest::Refused(k) => Measured::Refused(k),
                Rest::Fields(count, m) => {
                    let inner = ScopeColumns { count: m, within };
                    check_fields(incoming, v, n, plan, w, count, inner, tables)
                }
                Rest::Element(head) => check_element(incoming, v, n, plan, w, head, within, tables),
            }
        }
        Measured::Refused(k) => Measured::Refused(k),
    }
}

// The selectors of a struct mapping, whose positions take from the columns of `scope`, then its result, by the sizes of
// its fields.
#[cycle(check_element_check_fields_check_scoped_check_transform)]
fn check_fields(
    incoming: &[u8],
    v: Edition,
    n: u16,
    plan: &[u8],
    w: Walk,
    count: u16,
    scope: ScopeColumns,
    tables: &[u16],
) -> Measured
    requires tables { Tables incoming.now v n plan.now tables.now }
    requires mapping_at { (i : Selector) × (ss : Selectors) × (fs : Fields) × MappingAt incoming.now v n plan.now w (struct_mapping i ss) i (struct fs) × (count_selectors ss ≡ count) × ScopeIs scope fs }
    ensures { (i : Selector) (ss : Selectors) (fs : Fields) (name : Bytes) → MappingAt incoming.now v n plan.now w (struct_mapping i ss) i (struct fs) → count_selectors ss ≡ count → ScopeIs scope fs → result ≡ measured_of true (fields_result fs ss name) }
{
    let mut c = first_child(plan, w, tables);
    let mut fields = Fit::Within(0, 0);
    let mut k: u16 = 0;
    while k < count {
        let x = child_at(w, k, c);
        match check_scoped(incoming, v, n, plan, x, scope, tables) {
            Measured::Passed(size) => {
                fields = add_field(incoming, v, n, plan, x, size, fields, tables);
                c = skip_by(plan, c, tables);
                k += 1;
            }
            Measured::Refused(j) => return Measured::Refused(j),
        }
    }
    fitting(around(3, fields))
}

// The selector of a list or array mapping, then its result, whose head has so many bytes. Its positions take from the
// element alone.
#[cycle(check_element_check_fields_check_scoped_check_transform)]
fn check_element(
    incoming: &[u8],
    v: Edition,
    n: u16,
    plan: &[u8],
    w: Walk,
    head: usize,
    within: bool,
    tables: &[u16],
) -> Measured
    requires tables { Tables incoming.now v n plan.now tables.now }
    requires elements { (t : DataType) × (e : Selector) × (f : DataType → DataType) × Elements incoming.now v n plan.now w t e f head × (within ≡ true → within_limits t ≡ true) }
    ensures { (t : DataType) (e : Selector) (f : DataType → DataType) (name : Bytes) → Elements incoming.now v n plan.now w t e f head → (within ≡ true → within_limits t ≡ true) → result ≡ measured_of true (element_result t e f name) }
{
    let x = w.child(plan, 0, tables);
    let scope = ScopeColumns { count: 1, within };
    match check_scoped(incoming, v, n, plan, x, scope, tables) {
        Measured::Passed(size) => fitting(list_fit(incoming, v, n, plan, x, size, head, tables)),
        Measured::Refused(k) => Measured::Refused(k),
    }
}

// The selector at which the walk stands.
pub fn check_selector(
    incoming: &[u8],
    v: Edition,
    n: u16,
    plan: &[u8],
    w: Walk,
    tables: &[u16],
) -> Checked
    requires tables { Tables incoming.now v n plan.now tables.now }
    requires checking_at { (s : Selector) × (Δ : Fields) × CheckingAt incoming.now v n plan.now w s Δ }
    ensures { (s : Selector) (Δ : Fields) → CheckingAt incoming.now v n plan.now w s Δ → result ≡ checked_of (type_of Δ s) }
{
    let count = scope_count(incoming, v, n, plan, w, tables);
    let within = columns_within(incoming, w);
    let scope = ScopeColumns { count, within };
    dropped(check_scoped(incoming, v, n, plan, w, scope, tables))
}
