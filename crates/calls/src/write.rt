// The plan's bytes. They are built in a local buffer, the room, and copied once, so that a refusal changes no lent
// buffer.
ghost use Rattle.std.specs.Prelude.{◌≡◌, ◌+◌, ◌≤◌, ◌<◌, length, take};
ghost use Rattle.store.specs.code.Overlay.{overlay};
ghost use Rattle.layout.specs.Bytes.{Bytes};
ghost use Rattle.layout.specs.Limits.{longest, longest_plan};
ghost use Rattle.defaults.specs.code.Stands.{IndexedTableAt};
ghost use Rattle.calls.specs.code.Answers.{BothIn, Attempted, plan_head, written, AttemptedIn, PlanMatched, PlanBuilt};

use crate::columns::{ColumnsMade, build_columns};
use crate::extra::{ExtraColumn, extra_column};
use crate::layouts::Both;
use builder::build::Build;
use builder::write::put_short;
use layout::limits::LONGEST_PLAN;
use plan::answer::WriteResult;
use store::{copy, put};

// The answer of a build; or Short: the plan is longer than the room that it was built in.
#[derive(Clone, Copy)]
pub enum Attempt {
    Answer(WriteResult),
    Short,
}

// The mark `PLN`, version 1 and the count.
fn put_plan_head(out: &mut [u8], n: u16)
    ensures { out.new ≡ overlay out.old 0 (plan_head n) }
{
    put(out, 0, 0x50);
    put(out, 1, 0x4C);
    put(out, 2, 0x4E);
    put_short(out, 3, 1);
    put_short(out, 5, n);
}

// The first `len` bytes of what was built; 27 where the lent buffer is shorter.
fn write_plan(room: &[u8], len: usize, plan: &mut [u8]) -> Attempt
    requires { length room.now ≤ longest_plan }
    ensures { (p : Bytes) → len ≡ length p → (len ≤ length room.now → take len room.now ≡ p) → Attempted (length room.now < length p) (written (length plan.old) p) plan.old result plan.new }
{
    if plan.len() < len {
        return Attempt::Answer(WriteResult::Refused(27, 0));
    }
    if room.len() < len {
        return Attempt::Short;
    }
    copy(room, 0, len, plan, 0);
    Attempt::Answer(WriteResult::Written(len))
}

// The plan between two layouts that were read, built in a room.
fn build_in(
    build: Build,
    incoming: &[u8],
    table: &[u8],
    index: &[u16],
    target: &[u8],
    both: Both,
    room: &mut [u8],
    arena: &mut [u16],
    plan: &mut [u8],
) -> Attempt
    requires both_in { BothIn build both incoming.now target.now }
    requires indexed_table_at { IndexedTableAt table.now index.now build.defaults }
    requires target_len_bound { (length target.now ≤ longest) × (length table.now ≤ longest) × (both.target.first.at ≡ 7) }
    requires room_len_bound { length room.old ≤ longest_plan }
    ensures { AttemptedIn build both (length room.old) table.now incoming.now target.now plan.old result plan.new }
{
    put_plan_head(room, both.target.count);
    match build_columns(build, incoming, table, index, target, both, room, arena) {
        ColumnsMade::Failed(x, i) => Attempt::Answer(WriteResult::Refused(x, i)),
        ColumnsMade::Done(len) => write_plan(room, 7 + len, plan),
    }
}

// In a room of 4,096 bytes, which takes less time to clear.
fn build_small(
    build: Build,
    incoming: &[u8],
    table: &[u8],
    index: &[u16],
    target: &[u8],
    both: Both,
    arena: &mut [u16],
    plan: &mut [u8],
) -> Attempt
    requires both_in { BothIn build both incoming.now target.now }
    requires indexed_table_at { IndexedTableAt table.now index.now build.defaults }
    requires target_len_bound { (length target.now ≤ longest) × (length table.now ≤ longest) × (both.target.first.at ≡ 7) }
    ensures { AttemptedIn build both 4096 table.now incoming.now target.now plan.old result plan.new }
{
    let mut room = [0u8; 4096];
    build_in(
        build, incoming, table, index, target, both, &mut room, arena, plan,
    )
}

// In a room as long as a plan may be: what is longer is refused with 27.
fn build_large(
    build: Build,
    incoming: &[u8],
    table: &[u8],
    index: &[u16],
    target: &[u8],
    both: Both,
    arena: &mut [u16],
    plan: &mut [u8],
) -> WriteResult
    requires both_in { BothIn build both incoming.now target.now }
    requires indexed_table_at { IndexedTableAt table.now index.now build.defaults }
    requires target_len_bound { (length target.now ≤ longest) × (length table.now ≤ longest) × (both.target.first.at ≡ 7) }
    ensures { PlanMatched build both table.now incoming.now target.now plan.old result plan.new }
{
    let mut room = [0u8; LONGEST_PLAN];
    match build_in(
        build, incoming, table, index, target, both, &mut room, arena, plan,
    ) {
        Attempt::Answer(r) => r,
        Attempt::Short => WriteResult::Refused(27, 0),
    }
}

// The plan between two layouts that were read, once 53 was tested. For a small target the small room is tried first,
// and the large one where that was too short.
fn build_matched(
    build: Build,
    incoming: &[u8],
    table: &[u8],
    index: &[u16],
    target: &[u8],
    both: Both,
    arena: &mut [u16],
    plan: &mut [u8],
) -> WriteResult
    requires both_in { BothIn build both incoming.now target.now }
    requires indexed_table_at { IndexedTableAt table.now index.now build.defaults }
    requires target_len_bound { (length target.now ≤ longest) × (length table.now ≤ longest) × (both.target.first.at ≡ 7) }
    ensures { PlanMatched build both table.now incoming.now target.now plan.old result plan.new }
{
    if target.len() <= 1024 {
        if let Attempt::Answer(r) = build_small(
            build, incoming, table, index, target, both, arena, plan,
        ) {
            return r;
        }
    }
    build_large(build, incoming, table, index, target, both, arena, plan)
}

// The plan between two layouts that were read: 53 is tested before the first target column.
pub fn build_plan(
    build: Build,
    incoming: &[u8],
    table: &[u8],
    index: &[u16],
    target: &[u8],
    both: Both,
    arena: &mut [u16],
    plan: &mut [u8],
) -> WriteResult
    requires both_in { BothIn build both incoming.now target.now }
    requires indexed_table_at { IndexedTableAt table.now index.now build.defaults }
    requires target_len_bound { (length target.now ≤ longest) × (length table.now ≤ longest) × (both.target.first.at ≡ 7) }
    ensures { PlanBuilt build both table.now incoming.now target.now plan.old result plan.new }
{
    let policy = build.policy;
    let extra = policy.extra_columns;
    match extra_column(extra, build, incoming, target, both, arena) {
        ExtraColumn::At(i) => WriteResult::Refused(53, i),
        ExtraColumn::Nothing => build_matched(
            build, incoming, table, index, target, both, arena, plan,
        ),
    }
}
