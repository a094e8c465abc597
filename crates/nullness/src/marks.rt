// Refusal 55: each required place of the target's columns, with what the plan gives there.
ghost use Rattle.std.specs.Prelude.{◌≡◌, ◌+◌, ◌≤◌, length};
ghost use Rattle.std.proofs.Math.Seq.{slice};
ghost use Rattle.layout.specs.Tree.{DataType, struct, dtype_of, fields_of};
ghost use Rattle.layout.specs.code.Stands.{TypeAt, ColumnsAt};
ghost use Rattle.layout.specs.Limits.{deepest};
ghost use Rattle.plan.specs.Nullness.{top_of, inside_of, nullness_at, nullness_of, nullnesses_of};
ghost use Rattle.plan.specs.Marks.{allowed, givens, meets, meets_all};
ghost use Rattle.plan.specs.code.Skips.{Skips};
ghost use Rattle.overflow.specs.code.Overflows.{PlanAt, ElementTypeAt};
ghost use Rattle.overflow.specs.code.Ranges.{ColumnsIn};
ghost use Rattle.nullness.specs.code.Incoming.{IndexAt};
ghost use Rattle.nullness.specs.code.Nulls.{Nulls};
ghost use Rattle.nullness.specs.code.Places.{nullness_in};
ghost use Rattle.nullness.specs.code.Stops.{PlaceAt, ElementAt};

use crate::fill::fill_constants;
use crate::follow::follow;
use index::columns::{index_columns, stride_of};
use layout::columns::{ColumnRange, Labelled};
use layout::cursor::Cursor;
use layout::edition::Edition;
use layout::limits::{DEEPEST, DEEPEST_SELECTOR};
use layout::types::Head;
use layout::walk::skip_type;
use nodes::places::{TopPath, TypePlace};
use overflow::overflows::{FieldsPlace, part_path, start};
use plan::read::read_selectors;
use plan::skips::SKIPS;
use walk::head::skip_by;

// A type of the target, and whether what is of it is required.
#[derive(Clone, Copy)]
pub struct MarkedType {
    pub place: TypePlace,
    pub required: bool,
}

// At a path into what a selector gives.
fn meets_place(
    lay: &[u8],
    columns: ColumnRange,
    index: &[u16],
    plan: &[u8],
    nulls: &[u64],
    path: TopPath,
    required: bool,
    skips: &[u16],
) -> bool
    requires skips { Skips plan.now skips.now }
    requires index_at { IndexAt lay.now columns index.now × Nulls plan.now nulls.now }
    requires place_at { (P : ColumnsIn lay.now columns) × (u : DataType) × PlaceAt plan.now path.top (fields_of P.columns) (slice 0 path.len path.steps) u }
    requires len_bound { (path.len ≤ 64) × (length path.steps ≡ 64) }
    ensures { (P : ColumnsIn lay.now columns) (u : DataType) (S : PlaceAt plan.now path.top (fields_of P.columns) (slice 0 path.len path.steps) u) → result ≡ allowed (top_of (nullness_in (nullness_of (givens P.columns) S.top.here.tree) (slice 0 path.len path.steps))) required }
{
    if !required {
        return true;
    }
    follow(
        lay,
        columns,
        index,
        plan,
        nulls,
        start(path, plan.len()),
        skips,
    )
}

// At the places of a type of the target, in a column that is required or not.
#[cycle(meets_element_meets_fields_meets_type)]
fn meets_type(
    lay: &[u8],
    columns: ColumnRange,
    index: &[u16],
    plan: &[u8],
    nulls: &[u64],
    path: TopPath,
    tgt: &[u8],
    t: MarkedType,
    skips: &[u16],
) -> bool
    requires skips { Skips plan.now skips.now }
    requires index_at { IndexAt lay.now columns index.now × Nulls plan.now nulls.now }
    requires place_at { (P : ColumnsIn lay.now columns) × (Q : TypeAt t.place.edition t.place.depth tgt.now t.place.at.at) × PlaceAt plan.now path.top (fields_of P.columns) (slice 0 path.len path.steps) (dtype_of Q.tree) }
    requires depth_bound { (path.len + t.place.depth ≤ deepest) × (length path.steps ≡ 64) }
    ensures { (P : ColumnsIn lay.now columns) (Q : TypeAt t.place.edition t.place.depth tgt.now t.place.at.at) (S : PlaceAt plan.now path.top (fields_of P.columns) (slice 0 path.len path.steps) (dtype_of Q.tree)) → result ≡ meets (nullness_in (nullness_of (givens P.columns) S.top.here.tree) (slice 0 path.len path.steps)) t.required Q.tree }
{
    let place = t.place;
    let y = place.edition;
    let c = place.at;
    if !meets_place(lay, columns, index, plan, nulls, path, t.required, skips) {
        return false;
    }
    match c.head(tgt) {
        Head::Leaf(_, _) => true,
        Head::Struct(m, e) => {
            let fields = FieldsPlace {
                edition: y,
                depth: place.depth - 1,
                count: m,
                first: e,
            };
            meets_fields(lay, columns, index, plan, nulls, path, tgt, fields, skips)
        }
        Head::List(e) => {
            let element = TypePlace {
                edition: y,
                depth: place.depth - 1,
                at: e,
            };
            meets_element(lay, columns, index, plan, nulls, path, tgt, element, skips)
        }
        Head::Array(_, e) => {
            let element = TypePlace {
                edition: y,
                depth: place.depth - 1,
                at: e,
            };
            meets_element(lay, columns, index, plan, nulls, path, tgt, element, skips)
        }
        Head::Refused(_) => false,
    }
}

// At the places of a list's or array's element, whose label and type stand at `place`.
#[cycle(meets_element_meets_fields_meets_type)]
fn meets_element(
    lay: &[u8],
    columns: ColumnRange,
    index: &[u16],
    plan: &[u8],
    nulls: &[u64],
    path: TopPath,
    tgt: &[u8],
    place: TypePlace,
    skips: &[u16],
) -> bool
    requires skips { Skips plan.now skips.now }
    requires index_at { IndexAt lay.now columns index.now × Nulls plan.now nulls.now }
    requires element_at { (P : ColumnsIn lay.now columns) × (Q : ElementTypeAt place.edition place.depth tgt.now place.at.at) × ElementAt plan.now path.top (fields_of P.columns) (slice 0 path.len path.steps) (dtype_of Q.type.tree) }
    requires depth_bound { (path.len + 1 + place.depth ≤ deepest) × (length path.steps ≡ 64) }
    ensures { (P : ColumnsIn lay.now columns) (Q : ElementTypeAt place.edition place.depth tgt.now place.at.at) (S : ElementAt plan.now path.top (fields_of P.columns) (slice 0 path.len path.steps) (dtype_of Q.type.tree)) → result ≡ meets (nullness_at (inside_of (nullness_in (nullness_of (givens P.columns) S.top.here.tree) (slice 0 path.len path.steps))) 0) Q.label.required Q.type.tree }
{
    let edition = place.edition;
    let depth = place.depth;
    let c = place.at;
    match c.element_label(tgt, edition) {
        Labelled::Is(l, at) => {
            let below = part_path(path, 0);
            let element = TypePlace { edition, depth, at };
            let t = MarkedType {
                place: element,
                required: l.required,
            };
            meets_type(lay, columns, index, plan, nulls, below, tgt, t, skips)
        }
        Labelled::Refused(_) => false,
    }
}

// At the places of a struct's fields.
#[cycle(meets_element_meets_fields_meets_type)]
fn meets_fields(
    lay: &[u8],
    columns: ColumnRange,
    index: &[u16],
    plan: &[u8],
    nulls: &[u64],
    path: TopPath,
    tgt: &[u8],
    fields: FieldsPlace,
    skips: &[u16],
) -> bool
    requires skips { Skips plan.now skips.now }
    requires index_at { IndexAt lay.now columns index.now × Nulls plan.now nulls.now }
    requires place_at { (P : ColumnsIn lay.now columns) × (Q : ColumnsAt fields.edition fields.depth tgt.now fields.count fields.first.at) × PlaceAt plan.now path.top (fields_of P.columns) (slice 0 path.len path.steps) (struct (fields_of Q.columns)) }
    requires depth_bound { (path.len + 1 + fields.depth ≤ deepest) × (length path.steps ≡ 64) }
    ensures { (P : ColumnsIn lay.now columns) (Q : ColumnsAt fields.edition fields.depth tgt.now fields.count fields.first.at) (S : PlaceAt plan.now path.top (fields_of P.columns) (slice 0 path.len path.steps) (struct (fields_of Q.columns))) → result ≡ meets_all (inside_of (nullness_in (nullness_of (givens P.columns) S.top.here.tree) (slice 0 path.len path.steps))) Q.columns }
{
    let edition = fields.edition;
    let depth = fields.depth;
    let count = fields.count;
    let mut d = fields.first;
    let mut i: u16 = 0;
    while i < count {
        match d.label(tgt, edition) {
            Labelled::Is(l, e) => {
                let below = part_path(path, i);
                let place = TypePlace {
                    edition,
                    depth,
                    at: e,
                };
                let t = MarkedType {
                    place,
                    required: l.required,
                };
                if !meets_type(lay, columns, index, plan, nulls, below, tgt, t, skips) {
                    return false;
                }
                d = skip_type(tgt, edition, depth, e);
            }
            Labelled::Refused(_) => return false,
        }
        i += 1;
    }
    true
}

// Of the plan's selectors and the target's columns, with a table of where the incoming columns stand.
fn meets_columns(
    lay: &[u8],
    columns: ColumnRange,
    index: &[u16],
    plan: &[u8],
    nulls: &[u64],
    tgt: &[u8],
    target: ColumnRange,
    skips: &[u16],
) -> bool
    requires skips { Skips plan.now skips.now }
    requires index_at { IndexAt lay.now columns index.now × Nulls plan.now nulls.now }
    requires plan_at { (P : ColumnsIn lay.now columns) × (D : ColumnsIn tgt.now target) × PlanAt plan.now 7 (fields_of P.columns) (fields_of D.columns) }
    ensures { (P : ColumnsIn lay.now columns) (D : ColumnsIn tgt.now target) (S : PlanAt plan.now 7 (fields_of P.columns) (fields_of D.columns)) → result ≡ meets_all (nullnesses_of (givens P.columns) S.selectors.trees) D.columns }
{
    let edition = target.edition;
    let count = target.count;
    let mut s = Cursor { at: 7 };
    let mut d = target.first;
    let mut i: u16 = 0;
    while i < count {
        match d.label(tgt, edition) {
            Labelled::Is(l, e) => {
                let path = TopPath {
                    top: s.at,
                    steps: [0u16; 64],
                    len: 0,
                };
                let place = TypePlace {
                    edition,
                    depth: DEEPEST,
                    at: e,
                };
                let t = MarkedType {
                    place,
                    required: l.required,
                };
                if !meets_type(lay, columns, index, plan, nulls, path, tgt, t, skips) {
                    return false;
                }
                s = skip_by(plan, s, skips);
                d = skip_type(tgt, edition, DEEPEST, e);
            }
            Labelled::Refused(_) => return false,
        }
        i += 1;
    }
    true
}

// The same of plans that are worth a table of where their selectors end, and one of the nulls in their constants.
fn meets_by_table(
    lay: &[u8],
    columns: ColumnRange,
    index: &[u16],
    plan: &[u8],
    tgt: &[u8],
    target: ColumnRange,
) -> bool
    requires index_at { IndexAt lay.now columns index.now }
    requires plan_at { (P : ColumnsIn lay.now columns) × (D : ColumnsIn tgt.now target) × PlanAt plan.now 7 (fields_of P.columns) (fields_of D.columns) }
    ensures { (P : ColumnsIn lay.now columns) (D : ColumnsIn tgt.now target) (S : PlanAt plan.now 7 (fields_of P.columns) (fields_of D.columns)) → result ≡ meets_all (nullnesses_of (givens P.columns) S.selectors.trees) D.columns }
{
    let mut skips = [0u16; SKIPS];
    read_selectors(
        plan,
        DEEPEST_SELECTOR,
        target.count,
        Cursor { at: 7 },
        &mut skips,
    );
    let mut nulls = [0u64; 1088];
    fill_constants(plan, &skips, &mut nulls);
    meets_columns(lay, columns, index, plan, &nulls, tgt, target, &skips)
}

// Of a plan that passed the check between the two layouts up to 33.
pub fn meets_marks(
    lay: &[u8],
    v: Edition,
    n: u16,
    plan: &[u8],
    tgt: &[u8],
    y: Edition,
    m: u16,
) -> bool
    requires { (P : ColumnsAt v deepest lay.now n 7) × (D : ColumnsAt y deepest tgt.now m 7) × PlanAt plan.now 7 (fields_of P.columns) (fields_of D.columns) }
    ensures { (P : ColumnsAt v deepest lay.now n 7) (D : ColumnsAt y deepest tgt.now m 7) (S : PlanAt plan.now 7 (fields_of P.columns) (fields_of D.columns)) → result ≡ meets_all (nullnesses_of (givens P.columns) S.selectors.trees) D.columns }
{
    let first = Cursor { at: 7 };
    let columns = ColumnRange {
        edition: v,
        count: n,
        first,
    };
    let target = ColumnRange {
        edition: y,
        count: m,
        first,
    };
    let mut starts = [0u16; 256];
    let j = index_columns(lay, v, n, first, stride_of(n), &mut starts);
    if plan.len() < 1024 {
        let none = [0u64; 1];
        let unknown = [0u16; 1];
        return meets_columns(
            lay,
            columns,
            &starts[..j],
            plan,
            &none[..0],
            tgt,
            target,
            &unknown,
        );
    }
    meets_by_table(lay, columns, &starts[..j], plan, tgt, target)
}
