// The table's leaf types, and values of a leaf type.
ghost use Rattle.std.specs.Prelude.{◌≡◌};
ghost use Rattle.layout.specs.Parser.{next};
ghost use Rattle.layout.specs.Tree.{leaf};
ghost use Rattle.layout.specs.Layout.{kind};
ghost use Rattle.layout.specs.code.Answers.{leaf_at, moved_of};
ghost use Rattle.values.specs.Reading.{value, times};
ghost use Rattle.defaults.specs.Table.{only_leaf, default_type};
ghost use Rattle.defaults.specs.code.Answers.{leaf_res, IsLeafIn};

use layout::cursor::{Cursor, Moved, Step};
use layout::types::{Head, LeafType};
use values::leaf::{Presence, read_leaf, read_presence};

#[derive(Clone, Copy)]
pub enum LeafRead {
    Is(LeafType, Cursor),
    Refused(u8),
}

// A type whose code is known not to be a struct's, list's or array's.
fn leaf_head(s: &[u8], c: Cursor) -> LeafRead
    ensures result_value { leaf_res s.now result ≡ next (kind s.now c.at) (λ k m. only_leaf k s.now m) }
    ensures leaf_in { IsLeafIn s.now result }
{
    match c.head(s) {
        Head::Leaf(l, d) => LeafRead::Is(l, d),
        Head::Struct(_, _) => LeafRead::Refused(3),
        Head::List(_) => LeafRead::Refused(3),
        Head::Array(_, _) => LeafRead::Refused(3),
        Head::Refused(k) => LeafRead::Refused(k),
    }
}

// A leaf type. The code of a struct, list or array is refused before what follows it is read.
pub fn read_leaf_type(s: &[u8], c: Cursor) -> LeafRead
    ensures result_value { leaf_res s.now result ≡ default_type s.now c.at }
    ensures leaf_in { IsLeafIn s.now result }
{
    match c.byte(s) {
        Step::Byte(code, _) => match code {
            18 => LeafRead::Refused(3),
            19 => LeafRead::Refused(3),
            20 => LeafRead::Refused(3),
            _ => leaf_head(s, c),
        },
        Step::Refused(k) => LeafRead::Refused(k),
    }
}

pub fn read_leaf_value(s: &[u8], l: LeafType, c: Cursor) -> Moved
    ensures { result ≡ moved_of (value (leaf (leaf_at s.now l)) s.now c.at) }
{
    let leaf = l.leaf;
    match read_presence(s, c) {
        Presence::Null(d) => Moved::To(d),
        Presence::Present(d) => read_leaf(s, leaf, d),
        Presence::Refused(k) => Moved::Refused(k),
    }
}

// `n` values of one leaf type.
pub fn read_leaf_values(s: &[u8], l: LeafType, n: u32, c: Cursor) -> Moved
    ensures { result ≡ moved_of (times n (value (leaf (leaf_at s.now l))) s.now c.at) }
{
    let mut d = c;
    let mut i: u32 = 0;
    while i < n {
        match read_leaf_value(s, l, d) {
            Moved::To(e) => {
                d = e;
            }
            Moved::Refused(k) => return Moved::Refused(k),
        }
        i += 1;
    }
    Moved::To(d)
}
