// Whether one pass settles a plan or a record that was accepted.
use infer::target::fits_target;
use layout::columns::ColumnRange;
use layout::cursor::Cursor;
use layout::read::{LayoutRead, read_layout};
use output::write::scratch;
use plan::read::{PlanRead, read_plan};
use run::single_pass::{SinglePass, write_single_pass};
use values::record::{RecordRead, read_record};

// Whether `infer` says that a plan passes the check between two layouts.
pub fn checks(incoming: &[u8], target: &[u8], plan: &[u8]) -> bool {
    match read_layout(incoming) {
        LayoutRead::Read {
            edition: v,
            count: n,
            columns: _,
        } => match read_layout(target) {
            LayoutRead::Read {
                edition: vt,
                count: m,
                columns: _,
            } => match read_plan(plan) {
                PlanRead::Read(count, _) => fits_target(incoming, v, n, plan, count, target, vt, m),
                PlanRead::Refused(_) => false,
            },
            LayoutRead::Refused(_) => false,
        },
        LayoutRead::Refused(_) => false,
    }
}

// Whether `composed` writes the output of a plan for a record.
pub fn writes(incoming: &[u8], plan: &[u8], rec: &[u8], output: &mut [u8]) -> bool {
    let none: [u16; 1] = [0; 1];
    let mut aside = scratch();
    match read_layout(incoming) {
        LayoutRead::Read {
            edition: v,
            count: n,
            columns: _,
        } => match read_plan(plan) {
            PlanRead::Read(count, _) => match read_record(
                incoming,
                v,
                n,
                Cursor { at: 7 },
                rec,
                &none[..0],
            ) {
                RecordRead::Fits => {
                    let first = Cursor { at: 7 };
                    let columns = ColumnRange {
                        edition: v,
                        count: n,
                        first,
                    };
                    match write_single_pass(
                        incoming,
                        columns,
                        rec,
                        plan,
                        count,
                        &mut aside,
                        output,
                        &none[..0],
                    ) {
                        SinglePass::Is(_) => true,
                        SinglePass::Unknown => false,
                    }
                }
                RecordRead::Refused(_) => false,
            },
            PlanRead::Refused(_) => false,
        },
        LayoutRead::Refused(_) => false,
    }
}
