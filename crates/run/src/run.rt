// Each call is total: all of the check, then 43, 40, 41, 52, 56, 42, then 44 anywhere in the output, then 45.
ghost use Rattle.std.specs.Prelude.{◌≡◌, length};
ghost use Rattle.ends.specs.code.Ends.{Ends};
ghost use Rattle.layout.specs.Limits.{longest};
ghost use Rattle.plan.specs.Calls.{run_plan, buffer_after};
ghost use Rattle.plan.specs.code.Written.{write_result};
ghost use Rattle.run.specs.code.Answers.{finished, ReadAt, PassedAt, FilledAt, CheckedRuns, RecordRuns, FilledRuns};

use crate::read::Read;
use crate::single_pass::{SinglePass, write_single_pass};
use crate::tops::{Tops, TopsWritten, write_tops};
use checker::tops::{PlanChecked, check_read};
use ends::fill::fill_columns;
use index::columns::stride_of;
use index::row::{Row, index_row};
use layout::columns::ColumnRange;
use layout::cursor::Cursor;
use layout::limits::{DEEPEST, LONGEST};
use layout::read::{LayoutRead, read_layout};
use output::write::{Written, hand_over, scratch};
use plan::answer::WriteResult;
use plan::read::{PlanRead, read_plan};
use values::record::{RecordRead, read_record};

// Refusal 45 where the output is too long.
fn finish(w: Written) -> WriteResult
    ensures { result ≡ finished w }
{
    match w {
        Written::Written(len) => WriteResult::Written(len),
        Written::TooLong => WriteResult::Refused(45, 0),
    }
}

// A plan that passed the check, over a record that fits, with a table of where structs end: selector by selector.
fn run_general(
    incoming: &[u8],
    plan: &[u8],
    target: &[u8],
    read: Read,
    rec: &[u8],
    aside: &mut [u8],
    output: &mut [u8],
    ends: &[u16],
) -> WriteResult
    requires ends { Ends read.incoming.edition incoming.now ends.now }
    requires filled_at { FilledAt incoming.now plan.now target.now read rec.now }
    requires longest_value { longest ≡ length aside.old }
    ensures { FilledRuns incoming.now plan.now target.now read rec.now output.old result output.new }
{
    let columns = read.incoming;
    let targets = read.target;
    let stride = stride_of(columns.count);
    let row = Row {
        columns,
        values: Cursor { at: 0 },
        stride,
    };
    let tops = Tops {
        columns,
        stride,
        targets,
    };
    let mut types = [0u16; 256];
    let mut values = [0u16; 256];
    let m = index_row(incoming, rec, row, &mut types, &mut values, ends);
    match write_tops(
        incoming,
        rec,
        tops,
        &types[..m],
        &values[..m],
        plan,
        target,
        aside,
        ends,
    ) {
        TopsWritten::To(len) => finish(hand_over(aside, len, output)),
        TopsWritten::Overflows => WriteResult::Refused(44, 0),
    }
}

// The same, with a table of its own.
fn run_filled(
    incoming: &[u8],
    plan: &[u8],
    target: &[u8],
    read: Read,
    rec: &[u8],
    aside: &mut [u8],
    output: &mut [u8],
) -> WriteResult
    requires filled_at { FilledAt incoming.now plan.now target.now read rec.now }
    requires longest_value { longest ≡ length aside.old }
    ensures { FilledRuns incoming.now plan.now target.now read rec.now output.old result output.new }
{
    let columns = read.incoming;
    let v = columns.edition;
    let mut ends = [0u16; 4098];
    fill_columns(
        incoming,
        v,
        DEEPEST,
        columns.count,
        columns.first,
        &mut ends,
    );
    run_general(incoming, plan, target, read, rec, aside, output, &ends)
}

// The same, where the table may be empty: the general way reads values more than once.
fn run_unsettled(
    incoming: &[u8],
    plan: &[u8],
    target: &[u8],
    read: Read,
    rec: &[u8],
    aside: &mut [u8],
    output: &mut [u8],
    ends: &[u16],
) -> WriteResult
    requires ends { Ends read.incoming.edition incoming.now ends.now }
    requires filled_at { FilledAt incoming.now plan.now target.now read rec.now }
    requires longest_value { longest ≡ length aside.old }
    ensures { FilledRuns incoming.now plan.now target.now read rec.now output.old result output.new }
{
    if ends.len() == 0 {
        return run_filled(incoming, plan, target, read, rec, aside, output);
    }
    run_general(incoming, plan, target, read, rec, aside, output, ends)
}

// A plan that passed the check, over a record, with a table of where structs end: in one pass, where that settles it.
fn run_record(
    incoming: &[u8],
    plan: &[u8],
    target: &[u8],
    read: Read,
    rec: &[u8],
    output: &mut [u8],
    ends: &[u16],
) -> WriteResult
    requires ends { Ends read.incoming.edition incoming.now ends.now }
    requires passed_at { PassedAt incoming.now plan.now target.now read }
    ensures { RecordRuns incoming.now plan.now target.now read rec.now output.old result output.new }
{
    let columns = read.incoming;
    let v = columns.edition;
    let mut aside = scratch();
    match read_record(incoming, v, columns.count, columns.first, rec, ends) {
        RecordRead::Fits => {
            match write_single_pass(
                incoming,
                columns,
                rec,
                plan,
                read.selectors,
                &mut aside,
                output,
                ends,
            ) {
                SinglePass::Is(w) => finish(w),
                SinglePass::Unknown => {
                    run_unsettled(incoming, plan, target, read, rec, &mut aside, output, ends)
                }
            }
        }
        RecordRead::Refused(k) => WriteResult::Refused(k, 0),
    }
}

// Whether passing over types takes no time to speak of without a table. A byte of a value can ask for a pass over a
// type; the record is read twice and at most 16,384 bytes are written, so that is at most 10,000,000 bytes of types.
fn is_short(len: usize, rec: usize) -> bool {
    if LONGEST < rec {
        return true;
    }
    len <= 10000000 / (2 * rec + LONGEST)
}

// With a table of where the structs of the incoming layout end.
fn run_tabled(
    incoming: &[u8],
    plan: &[u8],
    target: &[u8],
    read: Read,
    rec: &[u8],
    output: &mut [u8],
) -> WriteResult
    requires { PassedAt incoming.now plan.now target.now read }
    ensures { RecordRuns incoming.now plan.now target.now read rec.now output.old result output.new }
{
    let columns = read.incoming;
    let v = columns.edition;
    let mut ends = [0u16; 4098];
    fill_columns(
        incoming,
        v,
        DEEPEST,
        columns.count,
        columns.first,
        &mut ends,
    );
    run_record(incoming, plan, target, read, rec, output, &ends)
}

// A plan that passed the check, over a record.
fn run_passed(
    incoming: &[u8],
    plan: &[u8],
    target: &[u8],
    read: Read,
    rec: &[u8],
    output: &mut [u8],
) -> WriteResult
    requires { PassedAt incoming.now plan.now target.now read }
    ensures { RecordRuns incoming.now plan.now target.now read rec.now output.old result output.new }
{
    if is_short(incoming.len(), rec.len()) {
        let none: [u16; 1] = [0; 1];
        return run_record(incoming, plan, target, read, rec, output, &none[..0]);
    }
    run_tabled(incoming, plan, target, read, rec, output)
}

// A plan that was read, over two layouts that were read.
fn run_read(
    incoming: &[u8],
    plan: &[u8],
    target: &[u8],
    read: Read,
    rec: &[u8],
    output: &mut [u8],
) -> WriteResult
    requires { ReadAt incoming.now plan.now target.now read }
    ensures { CheckedRuns incoming.now plan.now target.now read rec.now output.old result output.new }
{
    let columns = read.incoming;
    let v = columns.edition;
    let targets = read.target;
    let vt = targets.edition;
    match check_read(
        incoming,
        v,
        columns.count,
        plan,
        read.selectors,
        target,
        vt,
        targets.count,
    ) {
        PlanChecked::Passed => run_passed(incoming, plan, target, read, rec, output),
        PlanChecked::Refused(j, k) => WriteResult::Refused(j, k),
    }
}

pub fn run_plan(
    incoming: &[u8],
    target: &[u8],
    plan: &[u8],
    rec: &[u8],
    output: &mut [u8],
) -> WriteResult
    ensures value { result ≡ write_result (run_plan incoming.now target.now plan.now rec.now (length output.old)) }
    ensures output_after { output.new ≡ buffer_after (run_plan incoming.now target.now plan.now rec.now (length output.old)) output.old }
{
    match read_layout(incoming) {
        LayoutRead::Read {
            edition: v,
            count: n,
            columns: _,
        } => match read_layout(target) {
            LayoutRead::Read {
                edition: vt,
                count: m,
                columns: _,
            } => match read_plan(plan) {
                PlanRead::Read(count, _) => {
                    let first = Cursor { at: 7 };
                    let columns = ColumnRange {
                        edition: v,
                        count: n,
                        first,
                    };
                    let targets = ColumnRange {
                        edition: vt,
                        count: m,
                        first,
                    };
                    let read = Read {
                        incoming: columns,
                        selectors: count,
                        target: targets,
                    };
                    run_read(incoming, plan, target, read, rec, output)
                }
                PlanRead::Refused(k) => WriteResult::Refused(k, 0),
            },
            LayoutRead::Refused(k) => WriteResult::Refused(k, 2),
        },
        LayoutRead::Refused(k) => WriteResult::Refused(k, 1),
    }
}
