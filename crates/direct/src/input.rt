// The input of a transform, and what stands inside renames.
ghost use Rattle.walk.specs.code.Stands.{SelectorAt};
ghost use Rattle.direct.specs.code.Inputs.{InputIs, Unrenamed};

use layout::cursor::Cursor;
use walk::head::{SelectorHead, head};

// Where the input stands; a position and a constant have none.
#[derive(Clone, Copy)]
pub enum Input {
    At(Cursor),
    None,
}

pub fn input_of(plan: &[u8], c: Cursor) -> Input
    ensures { (P : SelectorAt plan.now c.at) → InputIs plan.now c.at P result }
{
    match head(plan, c) {
        SelectorHead::Position(_) => Input::None,
        SelectorHead::Constant(_, _) => Input::None,
        SelectorHead::Cast(input) => Input::At(input),
        SelectorHead::Rename(input) => Input::At(input),
        SelectorHead::Struct(input) => Input::At(input),
        SelectorHead::List(input) => Input::At(input),
        SelectorHead::Array(input) => Input::At(input),
        SelectorHead::Refused => Input::None,
    }
}

// The selector inside renames.
pub fn skip_renames(plan: &[u8], c: Cursor) -> Cursor
    requires { SelectorAt plan.now c.at }
    ensures { (P : SelectorAt plan.now c.at) → Unrenamed plan.now c.at P result.at }
{
    let mut d = c;
    loop {
        match head(plan, d) {
            SelectorHead::Rename(input) => {
                d = input;
            }
            _ => return d,
        }
    }
}
