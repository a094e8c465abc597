// Integers of 8 to 64 bits, signed or not, as patterns in a u64. The bits above an integer's own are not looked at.
ghost use Rattle.std.specs.Prelude.{◌≡◌, ◌<◌, ◌≤◌};
ghost use Rattle.numeric.specs.Integers.{bits_of, integer_bytes, is_signed, number_of, widened};

#[derive(Clone, Copy)]
pub enum Integer {
    Int8,
    Int16,
    Int32,
    Int64,
    UInt8,
    UInt16,
    UInt32,
    UInt64,
}

pub fn bits(i: Integer) -> u64
    ensures { result ≡ bits_of i }
{
    match i {
        Integer::Int8 | Integer::UInt8 => 8,
        Integer::Int16 | Integer::UInt16 => 16,
        Integer::Int32 | Integer::UInt32 => 32,
        Integer::Int64 | Integer::UInt64 => 64,
    }
}

// How many bytes a pattern takes.
pub fn integer_bytes(i: Integer) -> u8
    ensures { result ≡ integer_bytes i }
{
    (bits(i) / 8) as u8
}

fn is_signed(i: Integer) -> bool
    ensures { result ≡ is_signed i }
{
    matches!(
        i,
        Integer::Int8 | Integer::Int16 | Integer::Int32 | Integer::Int64
    )
}

// The number that the pattern b is of the kind i.
#[tactic(auto, using(crate::proofs::TwosComplement::shifted), unfolding(crate::specs::Integers::number_of, crate::specs::Integers::unsigned))]
pub fn number(b: u64, i: Integer) -> i128
    ensures { result ≡ number_of i b }
{
    let above = 64 - bits(i);
    let top = b << above;
    if is_signed(i) {
        i128::from(top.cast_signed() >> above)
    } else {
        i128::from(top >> above)
    }
}

// The number that the pattern b is of one kind, as a pattern of another.
#[tactic(auto, using(crate::proofs::TwosComplement::word_pattern), unfolding(crate::specs::Integers::widened))]
pub fn widen(b: u64, from: Integer, to: Integer) -> u64
    ensures { result ≡ widened from to b }
{
    (number(b, from).cast_unsigned() % (1 << bits(to))) as u64
}
