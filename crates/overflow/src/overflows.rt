// Whether a strict cast overflows anywhere in what a top selector of a plan gives. That is not visited: for each path
// to a date-time leaf of the target's type the nodes there, over all elements of the lists and arrays on it, are asked
// for at once.
ghost use Rattle.std.specs.Prelude.{◌≡◌, not, [], ◌∷◌, ◌+◌, ◌<◌, ◌≤◌, length};
ghost use Rattle.ends.specs.code.Ends.{Ends};
ghost use Rattle.layout.specs.Tree.{dtype_of, fields_of};
ghost use Rattle.layout.specs.code.Stands.{TypeAt, ColumnsAt};
ghost use Rattle.layout.specs.Limits.{deepest};
ghost use Rattle.plan.specs.Run.{clean, eval};
ghost use Rattle.plan.specs.code.Skips.{Skips};
ghost use Rattle.overflow.specs.code.Ranges.{RecordAt};
ghost use Rattle.overflow.specs.code.Leaves.{leaves, leaves_from};
ghost use Rattle.overflow.specs.code.Overflows.{TopAt, ElementTypeAt, over_at, part_path, started};

use crate::seek::seek;
use crate::want::{Bounds, Timed, Want, time_of};
use layout::columns::{ColumnRange, Labelled};
use layout::cursor::Cursor;
use layout::edition::Edition;
use layout::leaf::TimeUnit;
use layout::limits::DEEPEST_SELECTOR;
use layout::types::Head;
use layout::walk::skip_type;
use nodes::places::{TopPath, TypePlace};
use plan::read::read_selectors;
use plan::skips::SKIPS;
use walk::walk::Walk;

const HALF: u64 = 9223372036854775808;

// Where a struct's fields stand: the edition of their layout, the depth left to them, how many, and the first.
#[derive(Clone, Copy)]
pub struct FieldsPlace {
    pub edition: Edition,
    pub depth: u8,
    pub count: u16,
    pub first: Cursor,
}

// A step further, to the part `k`.
pub fn part_path(path: TopPath, k: u16) -> TopPath
    requires { path.len < 64 }
    ensures { result ≡ part_path path k }
{
    let len = path.len;
    let mut next = path;
    next.steps[len] = k;
    next.len = len + 1;
    next
}

// At a column's selector, with a path.
pub fn start(path: TopPath, lim: usize) -> Walk
    ensures { result ≡ started path.top lim path.steps path.len }
{
    let steps = path.steps;
    Walk {
        at: path.top,
        lim,
        deep: 0,
        len: path.len,
        maps: [0u16; 64],
        path: steps,
    }
}

// At the path to a date-time leaf of the unit `u`.
fn over_leaf(
    lay: &[u8],
    columns: ColumnRange,
    rec: &[u8],
    plan: &[u8],
    path: TopPath,
    u: TimeUnit,
    table: &[u16],
    skips: &[u16],
) -> bool
    requires skips { Skips plan.now skips.now }
    requires ends { Ends columns.edition lay.now table.now }
    requires top_at { (X : RecordAt lay.now columns rec.now) × TopAt plan.now path.top (fields_of X.columns.columns) }
    requires len_bound { (path.len ≤ 64) × (length path.steps ≡ 64) }
    ensures { (X : RecordAt lay.now columns rec.now) (T : TopAt plan.now path.top (fields_of X.columns.columns)) → result ≡ over_at X.values.values T.here.tree path.steps path.len [] u }
{
    let w = start(path, plan.len());
    let bounds = Bounds {
        above: HALF,
        below: HALF,
    };
    seek(
        lay,
        columns,
        rec,
        plan,
        w,
        Want::Beyond(bounds, u),
        table,
        skips,
    )
}

// At the paths that go on to a date-time leaf of the type at `place`.
#[cycle(over_element_over_fields_over_type)]
fn over_type(
    lay: &[u8],
    columns: ColumnRange,
    rec: &[u8],
    plan: &[u8],
    path: TopPath,
    tgt: &[u8],
    place: TypePlace,
    table: &[u16],
    skips: &[u16],
) -> bool
    requires skips { Skips plan.now skips.now }
    requires ends { Ends columns.edition lay.now table.now }
    requires top_at { (X : RecordAt lay.now columns rec.now) × TopAt plan.now path.top (fields_of X.columns.columns) }
    requires type_at { TypeAt place.edition place.depth tgt.now place.at.at × (path.len + place.depth ≤ deepest) × (length path.steps ≡ 64) }
    ensures { (X : RecordAt lay.now columns rec.now) (T : TopAt plan.now path.top (fields_of X.columns.columns)) (Q : TypeAt place.edition place.depth tgt.now place.at.at) → result ≡ leaves (dtype_of Q.tree) (λ p u. over_at X.values.values T.here.tree path.steps path.len p u) }
{
    let y = place.edition;
    let t = place.at;
    match t.head(tgt) {
        Head::Leaf(l, _) => {
            let leaf = l.leaf;
            match time_of(leaf) {
                Timed::In(u) => over_leaf(lay, columns, rec, plan, path, u, table, skips),
                Timed::Never => false,
            }
        }
        Head::Struct(m, e) => {
            let fields = FieldsPlace {
                edition: y,
                depth: place.depth - 1,
                count: m,
                first: e,
            };
            over_fields(lay, columns, rec, plan, path, tgt, fields, table, skips)
        }
        Head::List(e) => {
            let element = TypePlace {
                edition: y,
                depth: place.depth - 1,
                at: e,
            };
            over_element(lay, columns, rec, plan, path, tgt, element, table, skips)
        }
        Head::Array(_, e) => {
            let element = TypePlace {
                edition: y,
                depth: place.depth - 1,
                at: e,
            };
            over_element(lay, columns, rec, plan, path, tgt, element, table, skips)
        }
        Head::Refused(_) => true,
    }
}

// Of a list's or array's element, whose label and type stand at `place`: every one.
#[cycle(over_element_over_fields_over_type)]
fn over_element(
    lay: &[u8],
    columns: ColumnRange,
    rec: &[u8],
    plan: &[u8],
    path: TopPath,
    tgt: &[u8],
    place: TypePlace,
    table: &[u16],
    skips: &[u16],
) -> bool
    requires skips { Skips plan.now skips.now }
    requires ends { Ends columns.edition lay.now table.now }
    requires top_at { (X : RecordAt lay.now columns rec.now) × TopAt plan.now path.top (fields_of X.columns.columns) }
    requires element_type_at { ElementTypeAt place.edition place.depth tgt.now place.at.at × (path.len + 1 + place.depth ≤ deepest) × (length path.steps ≡ 64) }
    ensures { (X : RecordAt lay.now columns rec.now) (T : TopAt plan.now path.top (fields_of X.columns.columns)) (Q : ElementTypeAt place.edition place.depth tgt.now place.at.at) → result ≡ leaves (dtype_of Q.type.tree) (λ p u. over_at X.values.values T.here.tree path.steps path.len (0 ∷ p) u) }
{
    let edition = place.edition;
    let depth = place.depth;
    let c = place.at;
    match c.element_label(tgt, edition) {
        Labelled::Is(_, at) => {
            let below = part_path(path, 0);
            let element = TypePlace { edition, depth, at };
            over_type(lay, columns, rec, plan, below, tgt, element, table, skips)
        }
        Labelled::Refused(_) => true,
    }
}

// Of a struct's fields.
#[cycle(over_element_over_fields_over_type)]
fn over_fields(
    lay: &[u8],
    columns: ColumnRange,
    rec: &[u8],
    plan: &[u8],
    path: TopPath,
    tgt: &[u8],
    fields: FieldsPlace,
    table: &[u16],
    skips: &[u16],
) -> bool
    requires skips { Skips plan.now skips.now }
    requires ends { Ends columns.edition lay.now table.now }
    requires top_at { (X : RecordAt lay.now columns rec.now) × TopAt plan.now path.top (fields_of X.columns.columns) }
    requires columns_at { ColumnsAt fields.edition fields.depth tgt.now fields.count fields.first.at × (path.len + 1 + fields.depth ≤ deepest) × (length path.steps ≡ 64) }
    ensures { (X : RecordAt lay.now columns rec.now) (T : TopAt plan.now path.top (fields_of X.columns.columns)) (Q : ColumnsAt fields.edition fields.depth tgt.now fields.count fields.first.at) → result ≡ leaves_from (fields_of Q.columns) 0 (λ p u. over_at X.values.values T.here.tree path.steps path.len p u) }
{
    let edition = fields.edition;
    let depth = fields.depth;
    let count = fields.count;
    let mut d = fields.first;
    let mut i: u16 = 0;
    while i < count {
        match d.label(tgt, edition) {
            Labelled::Is(_, e) => {
                let below = part_path(path, i);
                let place = TypePlace {
                    edition,
                    depth,
                    at: e,
                };
                if over_type(lay, columns, rec, plan, below, tgt, place, table, skips) {
                    return true;
                }
                d = skip_type(tgt, edition, depth, e);
            }
            Labelled::Refused(_) => return true,
        }
        i += 1;
    }
    false
}

// In the column that the selector at `top` gives, whose type in the target stands at `place`. In a long plan the
// selector is read once before, for a table of where what is in it ends.
pub fn top_overflows(
    lay: &[u8],
    columns: ColumnRange,
    rec: &[u8],
    plan: &[u8],
    top: Cursor,
    tgt: &[u8],
    place: TypePlace,
    table: &[u16],
) -> bool
    requires ends { Ends columns.edition lay.now table.now }
    requires top_at { (X : RecordAt lay.now columns rec.now) × TopAt plan.now top.at (fields_of X.columns.columns) }
    requires type_at { TypeAt place.edition place.depth tgt.now place.at.at × (place.depth ≤ deepest) }
    ensures { (X : RecordAt lay.now columns rec.now) (T : TopAt plan.now top.at (fields_of X.columns.columns)) (Q : TypeAt place.edition place.depth tgt.now place.at.at) → T.column.type ≡ dtype_of Q.tree → result ≡ not (clean (eval X.values.values T.here.tree)) }
{
    let path = TopPath {
        top: top.at,
        steps: [0u16; 64],
        len: 0,
    };
    if plan.len() < 1024 {
        let none = [0u16; 1];
        return over_type(lay, columns, rec, plan, path, tgt, place, table, &none);
    }
    let mut skips = [0u16; SKIPS];
    read_selectors(plan, DEEPEST_SELECTOR, 1, top, &mut skips);
    over_type(lay, columns, rec, plan, path, tgt, place, table, &skips)
}
