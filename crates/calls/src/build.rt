// Building by name and by number: each call is total, and states its answer and the buffer by equation.
ghost use Rattle.std.specs.Prelude.{◌≡◌, ◌≤◌, ◌<◌, length};
ghost use Rattle.layout.specs.Limits.{longest};
ghost use Rattle.defaults.specs.code.Index.{links};
ghost use Rattle.plan.specs.Calls.{buffer_after};
ghost use Rattle.plan.specs.code.Written.{write_result};
ghost use Rattle.matching.specs.Calls.{build_by_name, build_by_number};

use crate::layouts::{BothRead, read_both};
use crate::write::build_plan;
use builder::build::Build;
use defaults::lookup::DefaultFieldValues;
use defaults::read::{TableRead, TableVersion, read_table};
use layout::cursor::Cursor;
use layout::matching::Matching;
use plan::answer::WriteResult;
use rules::policy::Policy;

// By name there are no defaults: a table of no entries, which stands in any bytes and needs no index. The arena is lent
// for tables of columns.
fn build_named(
    policy: Policy,
    incoming: &[u8],
    target: &[u8],
    arena: &mut [u16],
    plan: &mut [u8],
) -> WriteResult
    ensures value { result ≡ write_result (build_by_name policy incoming.now target.now (length plan.old)) }
    ensures plan_after { plan.new ≡ buffer_after (build_by_name policy incoming.now target.now (length plan.old)) plan.old }
{
    match read_both(Matching::ByName, incoming, target) {
        BothRead::Read(v, w, columns) => {
            let none = DefaultFieldValues {
                version: TableVersion::Shared,
                count: 0,
                entries: Cursor { at: 0 },
                owner: 0,
                source_index: 0,
            };
            let build = Build {
                policy,
                matching: Matching::ByName,
                incoming: v,
                target: w,
                defaults: none,
            };
            let index = [0u16; 1];
            build_plan(
                build, incoming, target, &index, target, columns, arena, plan,
            )
        }
        BothRead::Refused(k, place) => WriteResult::Refused(k, place),
    }
}

// The larger arena has room for the tables of 4,360 incoming columns at all levels: of 4,094 top columns, which are all
// that a layout can have. The smaller one takes less time to clear.
pub fn build_by_name(policy: Policy, incoming: &[u8], target: &[u8], plan: &mut [u8]) -> WriteResult
    ensures value { result ≡ write_result (build_by_name policy incoming.now target.now (length plan.old)) }
    ensures plan_after { plan.new ≡ buffer_after (build_by_name policy incoming.now target.now (length plan.old)) plan.old }
{
    if incoming.len() <= 1024 {
        if target.len() <= 1024 {
            let mut few = [0u16; 1024];
            return build_named(policy, incoming, target, &mut few, plan);
        }
    }
    let mut arena = [0u16; 10900];
    build_named(policy, incoming, target, &mut arena, plan)
}

// After 10 the defaults are read, of which the owner's count, and of these the source's: `wanted` has these two, and no
// entries yet. The entries are indexed once, for the whole build.
fn build_numbered(
    policy: Policy,
    wanted: DefaultFieldValues,
    incoming: &[u8],
    target: &[u8],
    defaults: &[u8],
    index: &mut [u16],
    arena: &mut [u16],
    plan: &mut [u8],
) -> WriteResult
    requires { length defaults.now ≤ longest → links (length defaults.now) < length index.old }
    ensures value { result ≡ write_result (build_by_number policy wanted.source_index wanted.owner incoming.now target.now defaults.now (length plan.old)) }
    ensures plan_after { plan.new ≡ buffer_after (build_by_number policy wanted.source_index wanted.owner incoming.now target.now defaults.now (length plan.old)) plan.old }
{
    match read_both(Matching::ByNumber, incoming, target) {
        BothRead::Read(v, w, columns) => match read_table(defaults, index) {
            TableRead::Read {
                version,
                count,
                entries,
            } => {
                let values = DefaultFieldValues {
                    version,
                    count,
                    entries,
                    owner: wanted.owner,
                    source_index: wanted.source_index,
                };
                let build = Build {
                    policy,
                    matching: Matching::ByNumber,
                    incoming: v,
                    target: w,
                    defaults: values,
                };
                build_plan(
                    build, incoming, defaults, index, target, columns, arena, plan,
                )
            }
            TableRead::Refused(k) => WriteResult::Refused(k, 3),
        },
        BothRead::Refused(k, place) => WriteResult::Refused(k, place),
    }
}

// By number a column has at least six bytes, so that the tables of all levels take at most 6,825 numbers. The index has
// room for the entries of the longest table. The smaller ones take less time to clear.
pub fn build_by_number(
    policy: Policy,
    source_index: u32,
    owner: u16,
    incoming: &[u8],
    target: &[u8],
    defaults: &[u8],
    plan: &mut [u8],
) -> WriteResult
    ensures value { result ≡ write_result (build_by_number policy source_index owner incoming.now target.now defaults.now (length plan.old)) }
    ensures plan_after { plan.new ≡ buffer_after (build_by_number policy source_index owner incoming.now target.now defaults.now (length plan.old)) plan.old }
{
    let wanted = DefaultFieldValues {
        version: TableVersion::Shared,
        count: 0,
        entries: Cursor { at: 0 },
        owner,
        source_index,
    };
    if incoming.len() <= 1024 {
        if target.len() <= 1024 {
            if defaults.len() <= 1024 {
                let mut few = [0u16; 256];
                let mut small = [0u16; 1024];
                return build_numbered(
                    policy, wanted, incoming, target, defaults, &mut few, &mut small, plan,
                );
            }
        }
    }
    let mut index = [0u16; 3384];
    let mut arena = [0u16; 7400];
    build_numbered(
        policy, wanted, incoming, target, defaults, &mut index, &mut arena, plan,
    )
}
