// The position whose value a selector takes, past the transforms around it.
ghost use Rattle.std.specs.Prelude.{◌≡◌, true};
ghost use Rattle.values.specs.Value.{Values};
ghost use Rattle.plan.specs.Run.{value_at, eval};
ghost use Rattle.walk.specs.code.Stands.{SelectorAt};
ghost use Rattle.transfer.specs.code.Reaching.{takes, TakenIs};

use layout::cursor::Cursor;
use walk::head::{SelectorHead, head};

// The position; or it is that which the input takes.
#[derive(Clone, Copy)]
pub enum Taken {
    Position(u16),
    Input(Cursor),
}

fn taken_at(plan: &[u8], c: Cursor) -> Taken
    ensures { (P : SelectorAt plan.now c.at) → TakenIs plan.now c.at P result }
{
    match head(plan, c) {
        SelectorHead::Position(k) => Taken::Position(k.0),
        SelectorHead::Constant(_, _) => Taken::Position(0),
        SelectorHead::Cast(input) => Taken::Input(input),
        SelectorHead::Rename(input) => Taken::Input(input),
        SelectorHead::Struct(input) => Taken::Input(input),
        SelectorHead::List(input) => Taken::Input(input),
        SelectorHead::Array(input) => Taken::Input(input),
        SelectorHead::Refused => Taken::Position(0),
    }
}

pub fn taken_position(plan: &[u8], c: Cursor) -> u16
    requires { SelectorAt plan.now c.at }
    ensures { (P : SelectorAt plan.now c.at) → result ≡ takes P.tree }
{
    let mut d = c;
    loop {
        match taken_at(plan, d) {
            Taken::Position(k) => return k,
            Taken::Input(e) => {
                d = e;
            }
        }
    }
}

// Whether the selector is a position, with no transform.
pub fn is_position(plan: &[u8], c: Cursor) -> bool
    ensures { (P : SelectorAt plan.now c.at) → result ≡ true → (ρ : Values) → value_at ρ (takes P.tree) ≡ eval ρ P.tree }
{
    match head(plan, c) {
        SelectorHead::Position(_) => true,
        SelectorHead::Constant(_, _) => false,
        SelectorHead::Cast(_) => false,
        SelectorHead::Rename(_) => false,
        SelectorHead::Struct(_) => false,
        SelectorHead::List(_) => false,
        SelectorHead::Array(_) => false,
        SelectorHead::Refused => false,
    }
}
