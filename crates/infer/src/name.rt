// The name of the column that a selector gives: that of the position, of the constant or of the outermost rename.
ghost use Rattle.std.specs.Prelude.{◌≡◌, ◌+◌, ◌≤◌, ◌<◌, length};
ghost use Rattle.layout.specs.Limits.{longest_plan};
ghost use Rattle.layout.specs.Bytes.{Bytes};
ghost use Rattle.forms.specs.Form.{text_bytes};
ghost use Rattle.forms.specs.code.Readable.{ShortText};
ghost use Rattle.plan.specs.Check.{type_of};
ghost use Rattle.walk.specs.code.Stands.{SelectorAt};
ghost use Rattle.direct.specs.code.Places.{NameAt};
ghost use Rattle.direct.specs.code.Scopes.{SourceAt};
ghost use Rattle.infer.specs.code.Naming.{NameStep, NamedIs};
ghost use Rattle.infer.specs.code.Writing.{Fills};

use direct::place::{Name, Place, named};
use direct::scope::{Source, Taken, take_position};
use forms::write::write_text;
use layout::cursor::Cursor;
use walk::head::{SelectorHead, head, rename_name};

// Where the name stands; or it is the input's.
#[derive(Clone, Copy)]
pub enum Named {
    Is(Name),
    Input(Cursor),
    Absent,
}

fn name_at(s: &[u8], source: Source, index: &[u16], plan: &[u8], c: Cursor) -> Named
    requires { SourceAt s.now source index.now }
    ensures { (X : SourceAt s.now source index.now) (P : SelectorAt plan.now c.at) → NameStep s.now plan.now X.fields c.at P result }
{
    match head(plan, c) {
        SelectorHead::Position(_) => match take_position(s, source, index, plan, c) {
            Taken::At(name, _) => Named::Is(named(Place::Incoming, name)),
            Taken::Absent => Named::Absent,
        },
        SelectorHead::Constant(name, _) => Named::Is(named(Place::Plan, name)),
        SelectorHead::Rename(input) => Named::Is(named(Place::Plan, rename_name(plan, input))),
        SelectorHead::Cast(input) => Named::Input(input),
        SelectorHead::Struct(input) => Named::Input(input),
        SelectorHead::List(input) => Named::Input(input),
        SelectorHead::Array(input) => Named::Input(input),
        SelectorHead::Refused => Named::Absent,
    }
}

// Where the name of the column that the selector at `c` gives stands: in the bytes of the scope or in the plan. `Input`
// is no answer.
pub fn infer_name(s: &[u8], source: Source, index: &[u16], plan: &[u8], c: Cursor) -> Named
    requires source_at { SourceAt s.now source index.now }
    requires selector_at { SelectorAt plan.now c.at }
    ensures { (X : SourceAt s.now source index.now) (P : SelectorAt plan.now c.at) → NamedIs s.now plan.now (type_of X.fields P.tree) result }
{
    let mut d = c;
    loop {
        match name_at(s, source, index, plan, d) {
            Named::Is(name) => return Named::Is(name),
            Named::Input(e) => {
                d = e;
            }
            Named::Absent => return Named::Absent,
        }
    }
}

// Writes the name, its length first, and answers where it ends; 0 where there is no room.
pub fn write_name(s: &[u8], plan: &[u8], name: Name, out: &mut [u8], k: usize) -> usize
    requires name_at { (b : Bytes) × NameAt s.now plan.now name b × ShortText b }
    requires s_len_bound { (length s.now ≤ longest_plan) × (length plan.now ≤ longest_plan) × (length out.old ≤ longest_plan) × (k ≤ length out.old) }
    ensures { (b : Bytes) → NameAt s.now plan.now name b → 0 < result → (result ≡ k + length (text_bytes b)) × Fills (text_bytes b) out.old k out.new }
{
    let place = name.place;
    let p = name.span;
    let end = k + 1 + p.len;
    if out.len() < end {
        return 0;
    }
    match place {
        Place::Incoming => {
            write_text(s, p, out, k);
        }
        Place::Plan => {
            write_text(plan, p, out, k);
        }
    }
    end
}
