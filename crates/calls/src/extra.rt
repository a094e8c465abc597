// Test 53 (document 02, L3): the first incoming column without a counterpart among the target's columns. Where there
// are many, by a table of these.
ghost use Rattle.std.specs.Prelude.{◌<◌, length};
ghost use Rattle.layout.specs.Limits.{deepest};
ghost use Rattle.builder.specs.code.Bundles.{TableOf};
ghost use Rattle.calls.specs.code.Answers.{BothIn, FoundExtra, ExtraFound};

use crate::layouts::Both;
use builder::build::Build;
use builder::fields::{fill_fields, has_counterpart};
use layout::columns::Labelled;
use layout::limits::DEEPEST;
use layout::walk::skip_type;
use rules::policy::ExtraColumnsPolicy;

// The position of the first extra column.
#[derive(Clone, Copy)]
pub enum ExtraColumn {
    At(u16),
    Nothing,
}

// The first incoming column that is extra. `chains` is a table of the target's columns, or empty.
fn first_extra(
    build: Build,
    incoming: &[u8],
    target: &[u8],
    both: Both,
    chains: &[u16],
) -> ExtraColumn
    requires both_in { BothIn build both incoming.now target.now }
    requires table_of { 0 < length chains.now → TableOf build build.target deepest target.now both.target chains.now }
    ensures { FoundExtra build both incoming.now target.now result }
{
    let v = build.incoming;
    let fields = both.target;
    let n = both.incoming.count;
    let mut c = both.incoming.first;
    let mut i: u16 = 0;
    while i < n {
        match c.label(incoming, v) {
            Labelled::Is(l, next) => {
                if !has_counterpart(build, DEEPEST, target, fields, chains, incoming, l) {
                    return ExtraColumn::At(i);
                }
                c = skip_type(incoming, v, DEEPEST, next);
            }
            Labelled::Refused(_) => return ExtraColumn::At(i),
        }
        i += 1;
    }
    ExtraColumn::Nothing
}

// The extra column that refuses a build, under Raise. Where many are looked for, a table of the target's columns is
// filled in the arena; where this is too short, the columns are scanned.
pub fn extra_column(
    policy: ExtraColumnsPolicy,
    build: Build,
    incoming: &[u8],
    target: &[u8],
    both: Both,
    arena: &mut [u16],
) -> ExtraColumn
    requires { BothIn build both incoming.now target.now }
    ensures { ExtraFound policy build both incoming.now target.now result }
{
    match policy {
        ExtraColumnsPolicy::Ignore => ExtraColumn::Nothing,
        ExtraColumnsPolicy::Raise => {
            let how = build.matching;
            let v = build.target;
            let fields = both.target;
            let count = both.incoming.count;
            let used = fill_fields(how, v, DEEPEST, target, fields, count, arena);
            first_extra(build, incoming, target, both, &arena[..used])
        }
    }
}
