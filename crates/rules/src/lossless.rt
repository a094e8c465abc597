// Lossless promotion of integers, by the type codes of document 01: 2 to 5 signed, 6 to 9 unsigned, of 8, 16, 32 and 64
// bits.
ghost use Rattle.std.specs.Prelude.{◌≡◌, ◌≤◌};
ghost use Rattle.rules.specs.Promotion.{promotes};

// The ranges of targets that hold a signed incoming type. A type holds itself.
fn holds_signed(incoming: u8, target: u8) -> bool
    requires { incoming ≤ 5 }
    ensures { result ≡ promotes incoming target }
{
    match incoming {
        // int8
        2 => match target {
            2..=5 => true,
            _ => false,
        },
        // int16
        3 => match target {
            3..=5 => true,
            _ => false,
        },
        // int32
        4 => match target {
            4..=5 => true,
            _ => false,
        },
        // int64
        5 => match target {
            5 => true,
            _ => false,
        },
        _ => false,
    }
}

// The same for an unsigned one.
fn holds_unsigned(incoming: u8, target: u8) -> bool
    requires { 6 ≤ incoming }
    ensures { result ≡ promotes incoming target }
{
    match incoming {
        // uint8
        6 => match target {
            3..=9 => true,
            _ => false,
        },
        // uint16
        7 => match target {
            4..=5 | 7..=9 => true,
            _ => false,
        },
        // uint32
        8 => match target {
            5 | 8..=9 => true,
            _ => false,
        },
        // uint64
        9 => match target {
            9 => true,
            _ => false,
        },
        _ => false,
    }
}

// Whether the target is an integer type that holds every value of the incoming one: for each incoming type the ranges
// of targets that hold it.
pub fn lossless(incoming: u8, target: u8) -> bool
    ensures { result ≡ promotes incoming target }
{
    if incoming <= 5 {
        return holds_signed(incoming, target);
    }
    holds_unsigned(incoming, target)
}
