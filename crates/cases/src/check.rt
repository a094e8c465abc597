// The check and the run.
use crate::answer::{Expected, compared, expected_answer, written};
use crate::buffers::{filled_buffer, has_layouts, plan_buffer, short_buffer};
use crate::case::Outcome;
use lines::{has_bytes, room_in, take_bytes};

// check <incoming> <target> <plan> <number> <rest>
pub fn check_case(line: &[u8]) -> Outcome {
    if !has_layouts(line, 1) {
        return Outcome::Malformed;
    }
    if !has_bytes(line, 3, 66000) {
        return Outcome::Malformed;
    }
    let Expected::Is(expected) = expected_answer(line, 4) else {
        return Outcome::Malformed;
    };
    let mut incoming = short_buffer();
    let a = take_bytes(line, 1, &mut incoming);
    let mut target = short_buffer();
    let b = take_bytes(line, 2, &mut target);
    let mut plan = plan_buffer();
    let c = take_bytes(line, 3, &mut plan);
    compared(
        selector::selector_check_plan(&incoming[..a], &target[..b], &plan[..c]),
        expected,
    )
}

fn run(
    line: &[u8],
    incoming: &[u8],
    target: &[u8],
    plan: &[u8],
    record: &[u8],
    output: &mut [u8],
) -> Outcome {
    let given = selector::selector_run(incoming, target, plan, record, output);
    written(line, 6, given, output)
}

// run <buffer's length> <incoming> <target> <plan> <record> <number> <rest>
pub fn run_case(line: &[u8]) -> Outcome {
    if !has_layouts(line, 2) {
        return Outcome::Malformed;
    }
    if !has_bytes(line, 4, 66000) {
        return Outcome::Malformed;
    }
    if !has_bytes(line, 5, 16640) {
        return Outcome::Malformed;
    }
    let mut incoming = short_buffer();
    let a = take_bytes(line, 2, &mut incoming);
    let mut target = short_buffer();
    let b = take_bytes(line, 3, &mut target);
    let mut plan = plan_buffer();
    let c = take_bytes(line, 4, &mut plan);
    let mut record = short_buffer();
    let d = take_bytes(line, 5, &mut record);
    let mut output = filled_buffer();
    let n = room_in(line, 1, &output);
    run(
        line,
        &incoming[..a],
        &target[..b],
        &plan[..c],
        &record[..d],
        &mut output[..n],
    )
}
