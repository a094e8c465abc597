// The C interface of the column selector: include/selector.h says what a caller must know. Each export is the function
// of its name in `selector`, with the same clauses.
#![tactic(auto)]

ghost use Rattle.std.specs.Prelude.{◌≡◌, length};
ghost use Rattle.layout.specs.Layout.{layout};
ghost use Rattle.rules.specs.Policies.{policy_of};
ghost use Rattle.plan.specs.Calls.{check_plan_of, run_plan, buffer_after};
ghost use Rattle.matching.specs.Calls.{build_by_name, build_by_number};
ghost use Rattle.selector.specs.Answer.{read_answer, written_answer, checked_answer};

#[unsafe(no_mangle)]
pub extern "C" fn selector_read_layout(bytes: &[u8]) -> u64
    ensures { result ≡ read_answer (layout bytes.now) }
{
    selector::selector_read_layout(bytes)
}

#[unsafe(no_mangle)]
pub extern "C" fn selector_build_by_name(
    policy: u32,
    incoming: &[u8],
    target: &[u8],
    plan: &mut [u8],
) -> u64
    ensures value { result ≡ written_answer (build_by_name (policy_of policy) incoming.now target.now (length plan.old)) }
    ensures plan_after { plan.new ≡ buffer_after (build_by_name (policy_of policy) incoming.now target.now (length plan.old)) plan.old }
{
    selector::selector_build_by_name(policy, incoming, target, plan)
}

#[unsafe(no_mangle)]
pub extern "C" fn selector_build_by_number(
    policy: u32,
    source_index: u32,
    owner: u16,
    incoming: &[u8],
    target: &[u8],
    defaults: &[u8],
    plan: &mut [u8],
) -> u64
    ensures value { result ≡ written_answer (build_by_number (policy_of policy) source_index owner incoming.now target.now defaults.now (length plan.old)) }
    ensures plan_after { plan.new ≡ buffer_after (build_by_number (policy_of policy) source_index owner incoming.now target.now defaults.now (length plan.old)) plan.old }
{
    selector::selector_build_by_number(
        policy,
        source_index,
        owner,
        incoming,
        target,
        defaults,
        plan,
    )
}

#[unsafe(no_mangle)]
pub extern "C" fn selector_check_plan(incoming: &[u8], target: &[u8], plan: &[u8]) -> u64
    ensures { result ≡ checked_answer (check_plan_of incoming.now target.now plan.now) }
{
    selector::selector_check_plan(incoming, target, plan)
}

#[unsafe(no_mangle)]
pub extern "C" fn selector_run(
    incoming: &[u8],
    target: &[u8],
    plan: &[u8],
    rec: &[u8],
    output: &mut [u8],
) -> u64
    ensures value { result ≡ written_answer (run_plan incoming.now target.now plan.now rec.now (length output.old)) }
    ensures output_after { output.new ≡ buffer_after (run_plan incoming.now target.now plan.now rec.now (length output.old)) output.old }
{
    selector::selector_run(incoming, target, plan, rec, output)
}
