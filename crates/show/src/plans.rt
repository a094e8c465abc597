// A plan: alone, over the incoming layout, or over both layouts, when it is checked first.
use crate::dropped::put_dropped;
use crate::scope::{Scope, Source};
use crate::selectors::put_selectors;
use crate::target::{MadeColumns, refused_columns, top_columns};
use checker::tops::{PlanChecked, check_plan};
use layout::read::{LayoutRead, read_layout};
use plan::read::{PlanRead, read_plan};
use std::io;
use text::out::{put, put_count};
use text::words::put_refusal;
use walk::head::StructFields;

// The top columns of the incoming layout; of one that is not read nothing is known.
fn top_scope(lay: &[u8]) -> Scope {
    match read_layout(lay) {
        LayoutRead::Read {
            edition: v,
            count: n,
            columns: c,
        } => Scope::Columns(Source::Incoming, v, n, c),
        LayoutRead::Refused(_) => Scope::Unknown,
    }
}

fn put_plan(
    rt: &impl Print,
    plan: &[u8],
    incoming: &[u8],
    taken: Scope,
    target: &[u8],
    made: MadeColumns,
) -> io::Result<()> {
    match read_plan(plan) {
        PlanRead::Read(n, c) => {
            put(rt, b"plan, ")?;
            put_count(rt, n as u64, b"selector")?;
            put(rt, b"\n")?;
            let fields = StructFields { count: n, first: c };
            put_selectors(rt, plan, incoming, taken, target, made, 64, fields, 0)?;
            put_dropped(rt, plan, incoming, taken, n, c, 0)
        }
        PlanRead::Refused(k) => put_refusal(rt, k, 0),
    }
}

pub fn put_plan_alone(rt: &impl Print, plan: &[u8]) -> io::Result<()> {
    put_plan(rt, plan, b"", Scope::Unknown, b"", MadeColumns::Unknown)
}

pub fn put_plan_over(rt: &impl Print, plan: &[u8], incoming: &[u8]) -> io::Result<()> {
    match read_layout(incoming) {
        LayoutRead::Read {
            edition: v,
            count: n,
            columns: c,
        } => put_plan(
            rt,
            plan,
            incoming,
            Scope::Columns(Source::Incoming, v, n, c),
            b"",
            MadeColumns::Unknown,
        ),
        LayoutRead::Refused(k) => put_refusal(rt, k, 1),
    }
}

// A plan that the check refuses is written all the same, unless the plan or a layout could not be read.
pub fn put_checked_plan(
    rt: &impl Print,
    plan: &[u8],
    incoming: &[u8],
    target: &[u8],
) -> io::Result<()> {
    match check_plan(incoming, target, plan) {
        PlanChecked::Passed => {
            put(rt, b"passes the check\n")?;
            put_plan(
                rt,
                plan,
                incoming,
                top_scope(incoming),
                target,
                top_columns(target),
            )
        }
        PlanChecked::Refused(k, place) => {
            put_refusal(rt, k, place)?;
            if 30 < k {
                let made = refused_columns(target, k, place);
                put_plan(rt, plan, incoming, top_scope(incoming), target, made)?;
            }
            Ok(())
        }
    }
}
