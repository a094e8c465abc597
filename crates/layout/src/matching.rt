// How a build matches columns: by name, or by field number.
ghost use Rattle.std.specs.Prelude.{◌≡◌};
ghost use Rattle.layout.specs.code.Finding.{match_rule};

use crate::columns::Siblings;

#[derive(Clone, Copy)]
pub enum Matching {
    ByName,
    ByNumber,
}

// What is compared.
pub fn match_rule(how: Matching) -> Siblings
    ensures { result ≡ match_rule how }
{
    match how {
        Matching::ByName => Siblings::Names,
        Matching::ByNumber => Siblings::Ids,
    }
}
