// The leaf kinds, each date-time unit apart, decimals as one: their numbers, and what a conversion treats each as.
ghost use Rattle.std.specs.Prelude.{◌≡◌};
ghost use Rattle.rules.specs.Kinds.{kind_of};
ghost use Rattle.rules.specs.Classes.{class_of};

use layout::leaf::{Leaf, TimeUnit};
use layout::types::{float_code, integer_code};
use numeric::floats::Format;
use numeric::integers::Integer;

#[derive(Clone, Copy)]
pub enum Class {
    Integer(Integer),
    Float(Format),
    Datetime(TimeUnit),
    Other,
}

// The leaf's number, below 21: its place in the table of pairs. Up to 13 it is the type code.
pub fn kind(l: Leaf) -> u8
    ensures { result ≡ kind_of l }
{
    match l {
        Leaf::Null => 0,
        Leaf::Boolean => 1,
        Leaf::Integer(i) => integer_code(i),
        Leaf::Float(f) => float_code(f),
        Leaf::Date => 13,
        Leaf::Datetime(u) => match u {
            TimeUnit::Nanoseconds => 14,
            TimeUnit::Microseconds => 15,
            TimeUnit::Milliseconds => 16,
        },
        Leaf::String => 17,
        Leaf::Binary => 18,
        Leaf::Categorical => 19,
        Leaf::Decimal(_) => 20,
    }
}

pub fn class_of(l: Leaf) -> Class
    ensures { result ≡ class_of l }
{
    match l {
        Leaf::Null => Class::Other,
        Leaf::Boolean => Class::Other,
        Leaf::Integer(i) => Class::Integer(i),
        Leaf::Float(f) => Class::Float(f),
        Leaf::Date => Class::Other,
        Leaf::Datetime(u) => Class::Datetime(u),
        Leaf::String => Class::Other,
        Leaf::Binary => Class::Other,
        Leaf::Categorical => Class::Other,
        Leaf::Decimal(_) => Class::Other,
    }
}
