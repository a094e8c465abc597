// The selectors of the target columns. Where these are many, their counterparts are found through a table of the
// incoming columns, as are those of the fields of structs: the tables of all levels stand in one arena.
ghost use Rattle.std.specs.Prelude.{◌≡◌, ◌≤◌, length};
ghost use Rattle.layout.specs.Limits.{longest};
ghost use Rattle.defaults.specs.code.Stands.{IndexedTableAt};
ghost use Rattle.calls.specs.code.Answers.{failed_column, BothIn, BuiltColumns};

use crate::layouts::Both;
use builder::answer::{Made, is_refused, len_of};
use builder::build::{Build, Column, Missing, Sought};
use builder::conditions::inserts;
use builder::fields::fill_fields;
use layout::columns::Labelled;
use layout::limits::DEEPEST;
use layout::walk::skip_type;
use matcher::attach::attach_field;

// A refusal's number and the column's position; or the length of the selectors that were written.
#[derive(Clone, Copy)]
pub enum ColumnsMade {
    Failed(u8, u16),
    Done(usize),
}

fn failed_column(made: Made, position: u16) -> ColumnsMade
    ensures { result ≡ failed_column position made }
{
    match made {
        Made::Refused(n) => ColumnsMade::Failed(n, position),
        Made::Bare(_) => ColumnsMade::Failed(0, position),
        Made::Built(_) => ColumnsMade::Failed(0, position),
    }
}

// The selectors of the target columns, in order, behind the plan's head of seven bytes; the place of a refusal is the
// column's position. Where there are many columns, a table of the incoming ones stands at the start of the arena.
pub fn build_columns(
    build: Build,
    incoming: &[u8],
    table: &[u8],
    index: &[u16],
    target: &[u8],
    both: Both,
    out: &mut [u8],
    arena: &mut [u16],
) -> ColumnsMade
    requires both_in { BothIn build both incoming.now target.now }
    requires indexed_table_at { IndexedTableAt table.now index.now build.defaults }
    requires target_len_bound { (length target.now ≤ longest) × (length table.now ≤ longest) × (both.target.first.at ≡ 7) }
    ensures { BuiltColumns build table.now incoming.now target.now both out.old 7 result out.new }
{
    let how = build.matching;
    let v = build.incoming;
    let w = build.target;
    let among = both.incoming;
    let m = both.target.count;
    let used = fill_fields(how, v, DEEPEST, incoming, among, m, arena);
    let policy = build.policy;
    let missing = policy.missing_columns;
    let insert = inserts(missing);
    let mut c = both.target.first;
    let mut to = 7;
    let mut i: u16 = 0;
    while i < m {
        match c.label(target, w) {
            Labelled::Is(l, e) => {
                let sought = Sought {
                    depth: DEEPEST,
                    among,
                    used,
                    column: Column {
                        label: l,
                        cursor: e,
                    },
                    missing: Missing { insert, number: 11 },
                    k: to,
                };
                let made = attach_field(build, incoming, table, index, target, sought, out, arena);
                if is_refused(made) {
                    return failed_column(made, i);
                }
                c = skip_type(target, w, DEEPEST, e);
                to += len_of(made);
            }
            Labelled::Refused(x) => return ColumnsMade::Failed(x, i),
        }
        i += 1;
    }
    ColumnsMade::Done(to - 7)
}
