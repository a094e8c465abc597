// The calls of the column selector: include/selector.h says what a caller must know. Each call is total, answers a
// number of 64 bits and rests on the crates below. `selector_c` exports them to C.
#![tactic(auto)]

ghost use Rattle.std.specs.Prelude.{◌≡◌, ◌<◌, length};
ghost use Rattle.layout.specs.Layout.{layout};
ghost use Rattle.rules.specs.Policies.{policy_of};
ghost use Rattle.plan.specs.Calls.{check_plan_of, run_plan, buffer_after};
ghost use Rattle.matching.specs.Calls.{build_by_name, build_by_number};
ghost use Rattle.demands.specs.Refusals.{has_place};
ghost use Rattle.selector.specs.Answer.{refusal as refusalOf, read_answer, write_answer, written_answer, checked_answer, check_answer};

use calls::build::{build_by_name, build_by_number};
use checker::tops::{PlanChecked, check_plan};
use layout::read::{LayoutRead, read_layout};
use plan::answer::WriteResult;
use rules::policy::Policy;
use run::run::run_plan;

// Whether a refusal has a place.
fn has_place(number: u8) -> bool
    ensures { result ≡ has_place number }
{
    if number < 1 {
        return false;
    }
    if number < 7 {
        return true;
    }
    if number < 11 {
        return false;
    }
    if number < 27 {
        return true;
    }
    match number {
        28 => true,
        31 => true,
        32 => true,
        53 => true,
        _ => false,
    }
}

fn refusal(number: u8, place: u32) -> u64
    ensures { result ≡ refusalOf number place }
{
    if has_place(number) {
        return (number as u64) * 0x1_0000_0000 + (place as u64);
    }
    (number as u64) * 0x1_0000_0000
}

pub fn selector_read_layout(bytes: &[u8]) -> u64
    ensures { result ≡ read_answer (layout bytes.now) }
{
    match read_layout(bytes) {
        LayoutRead::Read {
            edition: _,
            count: _,
            columns: _,
        } => 0,
        LayoutRead::Refused(k) => refusal(k, 1),
    }
}

fn written(res: WriteResult) -> u64
    ensures { result ≡ write_answer res }
{
    match res {
        WriteResult::Written(len) => len as u64,
        WriteResult::Refused(n, place) => refusal(n, place as u32),
    }
}

pub fn selector_build_by_name(policy: u32, incoming: &[u8], target: &[u8], plan: &mut [u8]) -> u64
    ensures value { result ≡ written_answer (build_by_name (policy_of policy) incoming.now target.now (length plan.old)) }
    ensures plan_after { plan.new ≡ buffer_after (build_by_name (policy_of policy) incoming.now target.now (length plan.old)) plan.old }
{
    written(build_by_name(Policy::from_word(policy), incoming, target, plan))
}

pub fn selector_build_by_number(
    policy: u32,
    source_index: u32,
    owner: u16,
    incoming: &[u8],
    target: &[u8],
    defaults: &[u8],
    plan: &mut [u8],
) -> u64
    ensures value { result ≡ written_answer (build_by_number (policy_of policy) source_index owner incoming.now target.now defaults.now (length plan.old)) }
    ensures plan_after { plan.new ≡ buffer_after (build_by_number (policy_of policy) source_index owner incoming.now target.now defaults.now (length plan.old)) plan.old }
{
    written(build_by_number(
        Policy::from_word(policy),
        source_index,
        owner,
        incoming,
        target,
        defaults,
        plan,
    ))
}

fn checked(check: PlanChecked) -> u64
    ensures { result ≡ check_answer check }
{
    match check {
        PlanChecked::Passed => 0,
        PlanChecked::Refused(n, place) => refusal(n, place as u32),
    }
}

pub fn selector_check_plan(incoming: &[u8], target: &[u8], plan: &[u8]) -> u64
    ensures { result ≡ checked_answer (check_plan_of incoming.now target.now plan.now) }
{
    checked(check_plan(incoming, target, plan))
}

pub fn selector_run(
    incoming: &[u8],
    target: &[u8],
    plan: &[u8],
    rec: &[u8],
    output: &mut [u8],
) -> u64
    ensures value { result ≡ written_answer (run_plan incoming.now target.now plan.now rec.now (length output.old)) }
    ensures output_after { output.new ≡ buffer_after (run_plan incoming.now target.now plan.now rec.now (length output.old)) output.old }
{
    written(run_plan(incoming, target, plan, rec, output))
}
