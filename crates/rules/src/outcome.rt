// What becomes of a leaf pair, with document 01's numbers and the option codes of plans.
ghost use Rattle.std.specs.Prelude.{◌≡◌};
ghost use Rattle.rules.specs.code.Answers.{number_of};
ghost use Rattle.rules.specs.Outcomes.{option_code, option_at};

#[derive(Clone, Copy)]
pub enum CastOption {
    NonStrict,
    Strict,
    Overflowing,
}

// Why a leaf pair is refused.
#[derive(Clone, Copy)]
pub enum Mismatch {
    NullUpcast,
    IntegerUpcast,
    IntegerRange,
    FloatUpcast,
    FloatDowncast,
    IntegerToFloat,
    TimeZone,
    UnitCast,
    CategoricalToString,
    DecimalWidening,
    NoRule,
}

#[derive(Clone, Copy)]
pub enum Outcome {
    Untouched,
    Refused(Mismatch),
    Cast(CastOption),
}

// The option that a plan's byte names.
#[derive(Clone, Copy)]
pub enum OptionCode {
    Known(CastOption),
    Unknown,
}

pub fn mismatch_number(m: Mismatch) -> u8
    ensures { result ≡ number_of m }
{
    match m {
        Mismatch::NullUpcast => 15,
        Mismatch::IntegerUpcast => 16,
        Mismatch::IntegerRange => 17,
        Mismatch::FloatUpcast => 18,
        Mismatch::FloatDowncast => 19,
        Mismatch::IntegerToFloat => 20,
        Mismatch::TimeZone => 21,
        Mismatch::UnitCast => 22,
        Mismatch::CategoricalToString => 23,
        Mismatch::DecimalWidening => 51,
        Mismatch::NoRule => 24,
    }
}

pub fn option_code(o: CastOption) -> u8
    ensures { result ≡ option_code o }
{
    match o {
        CastOption::NonStrict => 0,
        CastOption::Strict => 1,
        CastOption::Overflowing => 2,
    }
}

pub fn option_of_code(code: u8) -> OptionCode
    ensures { result ≡ option_at code }
{
    match code {
        0 => OptionCode::Known(CastOption::NonStrict),
        1 => OptionCode::Known(CastOption::Strict),
        2 => OptionCode::Known(CastOption::Overflowing),
        _ => OptionCode::Unknown,
    }
}
