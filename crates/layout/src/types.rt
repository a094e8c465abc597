// What a type begins with: its code and what follows up to its columns or its element.
ghost use Rattle.std.specs.Prelude.{◌≡◌};
ghost use Rattle.layout.specs.Layout.{unit, plain_leaf, integer_code, float_code, valid_decimal, decimal_params, kind, datetime_head, decimal_head, struct_head, array_head};
ghost use Rattle.layout.specs.code.Answers.{unit_res, decimal_res, head_res, HeadIn};

use crate::bytes::Span;
use crate::cursor::{Cursor, Long, Short, Step, Text};
use crate::leaf::{Decimal, Leaf, TimeUnit};
use numeric::floats::Format;
use numeric::integers::Integer;

#[derive(Clone, Copy)]
pub enum Unit {
    Is(TimeUnit, Cursor),
    Refused(u8),
}

#[derive(Clone, Copy)]
pub enum DecimalRead {
    Is(Decimal, Cursor),
    Refused(u8),
}

// The leaf of a code that has nothing after it.
#[derive(Clone, Copy)]
pub enum PlainLeaf {
    Known(Leaf),
    Unknown,
}

// A leaf type: the kind and where a date-time's zone stands; the zone of any other kind is empty.
#[derive(Clone, Copy)]
pub struct LeafType {
    pub leaf: Leaf,
    pub zone: Span,
}

#[derive(Clone, Copy)]
pub enum Head {
    Leaf(LeafType, Cursor),
    Struct(u16, Cursor),
    List(Cursor),
    Array(u32, Cursor),
    Refused(u8),
}

pub fn plain_leaf(code: u8) -> PlainLeaf
    ensures { result ≡ plain_leaf code }
{
    match code {
        0 => PlainLeaf::Known(Leaf::Null),
        1 => PlainLeaf::Known(Leaf::Boolean),
        2 => PlainLeaf::Known(Leaf::Integer(Integer::Int8)),
        3 => PlainLeaf::Known(Leaf::Integer(Integer::Int16)),
        4 => PlainLeaf::Known(Leaf::Integer(Integer::Int32)),
        5 => PlainLeaf::Known(Leaf::Integer(Integer::Int64)),
        6 => PlainLeaf::Known(Leaf::Integer(Integer::UInt8)),
        7 => PlainLeaf::Known(Leaf::Integer(Integer::UInt16)),
        8 => PlainLeaf::Known(Leaf::Integer(Integer::UInt32)),
        9 => PlainLeaf::Known(Leaf::Integer(Integer::UInt64)),
        10 => PlainLeaf::Known(Leaf::Float(Format::Binary16)),
        11 => PlainLeaf::Known(Leaf::Float(Format::Binary32)),
        12 => PlainLeaf::Known(Leaf::Float(Format::Binary64)),
        13 => PlainLeaf::Known(Leaf::Date),
        14 => PlainLeaf::Unknown,
        15 => PlainLeaf::Known(Leaf::String),
        16 => PlainLeaf::Known(Leaf::Binary),
        17 => PlainLeaf::Known(Leaf::Categorical),
        _ => PlainLeaf::Unknown,
    }
}

pub fn integer_code(i: Integer) -> u8
    ensures { result ≡ integer_code i }
{
    match i {
        Integer::Int8 => 2,
        Integer::Int16 => 3,
        Integer::Int32 => 4,
        Integer::Int64 => 5,
        Integer::UInt8 => 6,
        Integer::UInt16 => 7,
        Integer::UInt32 => 8,
        Integer::UInt64 => 9,
    }
}

pub fn float_code(f: Format) -> u8
    ensures { result ≡ float_code f }
{
    match f {
        Format::Binary16 => 10,
        Format::Binary32 => 11,
        Format::Binary64 => 12,
    }
}

// Whether a decimal may have this precision and scale.
fn valid_decimal(precision: u8, scale: u8) -> bool
    ensures { result ≡ valid_decimal precision scale }
{
    if precision < 1 {
        return false;
    }
    if 18 < precision {
        return false;
    }
    scale <= precision
}

impl Cursor {
    pub fn unit(self, s: &[u8]) -> Unit
        ensures { unit_res result ≡ unit s.now self.at }
    {
        match self.byte(s) {
            Step::Byte(u, c) => match u {
                0 => Unit::Is(TimeUnit::Nanoseconds, c),
                1 => Unit::Is(TimeUnit::Microseconds, c),
                2 => Unit::Is(TimeUnit::Milliseconds, c),
                _ => Unit::Refused(3),
            },
            Step::Refused(k) => Unit::Refused(k),
        }
    }

    // A decimal's precision and scale; 50 once both are read.
    pub fn decimal(self, s: &[u8]) -> DecimalRead
        ensures { decimal_res result ≡ decimal_params s.now self.at }
    {
        match self.byte(s) {
            Step::Byte(precision, c) => match c.byte(s) {
                Step::Byte(scale, d) => {
                    if valid_decimal(precision, scale) {
                        DecimalRead::Is(Decimal { precision, scale }, d)
                    } else {
                        DecimalRead::Refused(50)
                    }
                }
                Step::Refused(k) => DecimalRead::Refused(k),
            },
            Step::Refused(k) => DecimalRead::Refused(k),
        }
    }

    fn datetime_head(self, s: &[u8]) -> Head
        ensures result_value { head_res s.now result ≡ datetime_head s.now self.at }
        ensures head_in { HeadIn s.now result }
    {
        match self.unit(s) {
            Unit::Is(u, c) => match c.text(s) {
                Text::Is(zone, next) => Head::Leaf(
                    LeafType {
                        leaf: Leaf::Datetime(u),
                        zone,
                    },
                    next,
                ),
                Text::Refused(k) => Head::Refused(k),
            },
            Unit::Refused(k) => Head::Refused(k),
        }
    }

    fn decimal_head(self, s: &[u8]) -> Head
        ensures result_value { head_res s.now result ≡ decimal_head s.now self.at }
        ensures head_in { HeadIn s.now result }
    {
        match self.decimal(s) {
            DecimalRead::Is(d, next) => Head::Leaf(
                LeafType {
                    leaf: Leaf::Decimal(d),
                    zone: Span { start: 0, len: 0 },
                },
                next,
            ),
            DecimalRead::Refused(k) => Head::Refused(k),
        }
    }

    fn struct_head(self, s: &[u8]) -> Head
        ensures result_value { head_res s.now result ≡ struct_head s.now self.at }
        ensures head_in { HeadIn s.now result }
    {
        match self.short(s) {
            Short::Is(n, c) => Head::Struct(n, c),
            Short::Refused(k) => Head::Refused(k),
        }
    }

    fn array_head(self, s: &[u8]) -> Head
        ensures result_value { head_res s.now result ≡ array_head s.now self.at }
        ensures head_in { HeadIn s.now result }
    {
        match self.long(s) {
            Long::Is(w, c) => Head::Array(w, c),
            Long::Refused(k) => Head::Refused(k),
        }
    }

    pub fn head(self, s: &[u8]) -> Head
        ensures result_value { head_res s.now result ≡ kind s.now self.at }
        ensures head_in { HeadIn s.now result }
    {
        match self.byte(s) {
            Step::Byte(code, c) => match code {
                14 => c.datetime_head(s),
                18 => c.struct_head(s),
                19 => Head::List(c),
                20 => c.array_head(s),
                21 => c.decimal_head(s),
                _ => match plain_leaf(code) {
                    PlainLeaf::Known(leaf) => Head::Leaf(
                        LeafType {
                            leaf,
                            zone: Span { start: 0, len: 0 },
                        },
                        c,
                    ),
                    PlainLeaf::Unknown => Head::Refused(3),
                },
            },
            Step::Refused(k) => Head::Refused(k),
        }
    }
}
