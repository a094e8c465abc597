// Leaf types, under polars' names.
use numeric::floats::Format;
use numeric::integers::Integer;

#[derive(Clone, Copy)]
pub enum TimeUnit {
    Nanoseconds,
    Microseconds,
    Milliseconds,
}

// A decimal's digits, and how many of them stand behind its point.
#[derive(Clone, Copy)]
pub struct Decimal {
    pub precision: u8,
    pub scale: u8,
}

// A leaf's kind. A date-time's zone stands beside it: see `types::LeafType`.
#[derive(Clone, Copy)]
pub enum Leaf {
    Null,
    Boolean,
    Integer(Integer),
    Float(Format),
    Date,
    Datetime(TimeUnit),
    String,
    Binary,
    Categorical,
    Decimal(Decimal),
}
