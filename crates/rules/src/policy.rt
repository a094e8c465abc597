// The policy of a build, under the names of `CastColumnsPolicy` and `ColumnSelectorBuilder`.
ghost use Rattle.std.specs.Prelude.{◌≡◌};
ghost use Rattle.rules.specs.Policies.{policy_of, all_on, insert_if, ignore_if};

#[derive(Clone, Copy)]
pub enum MissingColumnsPolicy {
    Insert,
    Raise,
}

#[derive(Clone, Copy)]
pub enum ExtraColumnsPolicy {
    Ignore,
    Raise,
}

#[derive(Clone, Copy)]
pub struct Policy {
    pub null_upcast: bool,
    pub integer_upcast: bool,
    pub float_upcast: bool,
    pub float_downcast: bool,
    pub integer_to_float_cast: bool,
    pub datetime_convert_timezone: bool,
    pub datetime_nanoseconds_downcast: bool,
    pub datetime_microseconds_downcast: bool,
    pub datetime_microseconds_upcast: bool,
    pub datetime_milliseconds_upcast: bool,
    pub categorical_to_string: bool,
    pub missing_struct_fields: MissingColumnsPolicy,
    pub extra_struct_fields: ExtraColumnsPolicy,
    pub missing_columns: MissingColumnsPolicy,
    pub decimal_widening: bool,
    pub extra_columns: ExtraColumnsPolicy,
}

fn insert_if(flag: bool) -> MissingColumnsPolicy
    ensures { result ≡ insert_if flag }
{
    if flag {
        MissingColumnsPolicy::Insert
    } else {
        MissingColumnsPolicy::Raise
    }
}

fn ignore_if(flag: bool) -> ExtraColumnsPolicy
    ensures { result ≡ ignore_if flag }
{
    if flag {
        ExtraColumnsPolicy::Ignore
    } else {
        ExtraColumnsPolicy::Raise
    }
}

impl Policy {
    // The policy of a word: bit k is the k-th field, 1 allows. Bits without a field are ignored.
    pub fn from_word(word: u32) -> Policy
        ensures { result ≡ policy_of word }
    {
        Policy {
            null_upcast: word % 2 == 1,
            integer_upcast: word / 2 % 2 == 1,
            float_upcast: word / 4 % 2 == 1,
            float_downcast: word / 8 % 2 == 1,
            integer_to_float_cast: word / 16 % 2 == 1,
            datetime_convert_timezone: word / 32 % 2 == 1,
            datetime_nanoseconds_downcast: word / 64 % 2 == 1,
            datetime_microseconds_downcast: word / 128 % 2 == 1,
            datetime_microseconds_upcast: word / 256 % 2 == 1,
            datetime_milliseconds_upcast: word / 512 % 2 == 1,
            categorical_to_string: word / 1024 % 2 == 1,
            missing_struct_fields: insert_if(word / 2048 % 2 == 1),
            extra_struct_fields: ignore_if(word / 4096 % 2 == 1),
            missing_columns: insert_if(word / 8192 % 2 == 1),
            decimal_widening: word / 16384 % 2 == 1,
            extra_columns: ignore_if(word / 32768 % 2 == 1),
        }
    }

    // The policy that a plan is checked with: it allows everything.
    pub fn all_on() -> Policy
        ensures { result ≡ all_on }
    {
        Policy {
            null_upcast: true,
            integer_upcast: true,
            float_upcast: true,
            float_downcast: true,
            integer_to_float_cast: true,
            datetime_convert_timezone: true,
            datetime_nanoseconds_downcast: true,
            datetime_microseconds_downcast: true,
            datetime_microseconds_upcast: true,
            datetime_milliseconds_upcast: true,
            categorical_to_string: true,
            missing_struct_fields: MissingColumnsPolicy::Insert,
            extra_struct_fields: ExtraColumnsPolicy::Ignore,
            missing_columns: MissingColumnsPolicy::Insert,
            decimal_widening: true,
            extra_columns: ExtraColumnsPolicy::Ignore,
        }
    }
}
