// The two builders.
use crate::answer::written;
use crate::buffers::{filled_buffer, has_layouts, short_buffer};
use crate::case::Outcome;
use lines::{has_bytes, number, room_in, take_bytes, word};

fn build_name(
    line: &[u8],
    policy: u32,
    incoming: &[u8],
    target: &[u8],
    plan: &mut [u8],
) -> Outcome {
    let given = selector::selector_build_by_name(policy, incoming, target, plan);
    written(line, 5, given, plan)
}

fn build_number(
    line: &[u8],
    policy: u32,
    source_index: u32,
    owner: u16,
    incoming: &[u8],
    target: &[u8],
    defaults: &[u8],
    plan: &mut [u8],
) -> Outcome {
    let given = selector::selector_build_by_number(
        policy,
        source_index,
        owner,
        incoming,
        target,
        defaults,
        plan,
    );
    written(line, 8, given, plan)
}

// build_name <policy> <buffer's length> <incoming> <target> <number> <rest>
pub fn build_name_case(line: &[u8]) -> Outcome {
    let Some(policy) = number(word(line, 1)) else {
        return Outcome::Malformed;
    };
    if !has_layouts(line, 3) {
        return Outcome::Malformed;
    }
    let mut incoming = short_buffer();
    let a = take_bytes(line, 3, &mut incoming);
    let mut target = short_buffer();
    let b = take_bytes(line, 4, &mut target);
    let mut plan = filled_buffer();
    let n = room_in(line, 2, &plan);
    build_name(line, policy, &incoming[..a], &target[..b], &mut plan[..n])
}

// build_number <policy> <source index> <owner> <buffer's length> <incoming> <target> <defaults> <number> <rest>
pub fn build_number_case(line: &[u8]) -> Outcome {
    let Some(policy) = number(word(line, 1)) else {
        return Outcome::Malformed;
    };
    let Some(source_index) = number(word(line, 2)) else {
        return Outcome::Malformed;
    };
    let Some(owner) = number(word(line, 3)) else {
        return Outcome::Malformed;
    };
    if 65535 < owner {
        return Outcome::Malformed;
    }
    if !has_layouts(line, 5) {
        return Outcome::Malformed;
    }
    if !has_bytes(line, 7, 16640) {
        return Outcome::Malformed;
    }
    let mut incoming = short_buffer();
    let a = take_bytes(line, 5, &mut incoming);
    let mut target = short_buffer();
    let b = take_bytes(line, 6, &mut target);
    let mut defaults = short_buffer();
    let c = take_bytes(line, 7, &mut defaults);
    let mut plan = filled_buffer();
    let n = room_in(line, 4, &plan);
    build_number(
        line,
        policy,
        source_index,
        owner as u16,
        &incoming[..a],
        &target[..b],
        &defaults[..c],
        &mut plan[..n],
    )
}
