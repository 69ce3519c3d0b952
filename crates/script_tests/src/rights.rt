// Who is entitled to what, and what may be passed on.

use crate::support::{EXAMPLE, HELD, check_answers};
use std::alloc::Global;
use std::process::Abort;
use std::test::Fail;
use strength::Reach;

/// Holds a script, a line and what it is told at a time, to the answers under the example with another strength held.
fn check_script(
    rt: &impl Abort,
    heap: Global,
    held: u64,
    lines: &[(&str, &str)],
) -> Result<(), Fail> {
    let mut words = EXAMPLE;
    words[HELD] = held;
    let mut script = String::new(heap);
    let mut expected = String::new(heap);
    for (i, (line, told)) in lines.iter().enumerate() {
        write!(script, "{line}\n")?;
        write!(expected, "{} {told}\n", i + 1)?;
    }
    check_answers::<Reach>(rt, heap, &words, &script, &expected)
}

/// Count 2 with an empty mask, as the example has it.
const TWICE: u64 = 33_554_432;

/// A post gives its people the step that it holds and all that this covers, on every open lot.
#[test]
fn by_post(rt: HostRuntime) -> Result<(), Fail> {
    let lines = [
        ("o 7", "ok 0"),
        ("m 0 0 33554432 7", "ok 1"),
        ("m 0 0 33554433 7", "ok 1"),
        ("m 0 0 16777216 7", "ok 1"),
        ("m 0 0 0 7", "ok 1"),
        ("m 0 0 50331648 7", "ok 0"),
        ("m 0 0 4278190080 7", "ok 0"),
        ("m 0 1 33554432 7", "ok 1"),
        ("m 0 2 0 7", "ok 1"),
        ("m 0 2 50331648 7", "ok 0"),
        ("m 1 0 0 7", "ok 0"),
        ("m 3 0 0 7", "ok 0"),
        ("m 3 2 0 7", "ok 0"),
        ("o 65535", "ok 0"),
        ("m 0 1 33554432 65535", "ok 1"),
    ];
    check_script(&rt, rt.alloc(), TWICE, &lines)
}

/// A grant gives its step and what this covers, on its lot and until this is closed.
#[test]
fn by_grant(rt: HostRuntime) -> Result<(), Fail> {
    let lines = [
        ("o 7", "ok 0"),
        ("o 8", "ok 0"),
        ("g 0 1 1 0 7", "ok 1"),
        ("m 1 1 0 7", "ok 1"),
        ("m 1 1 16777216 7", "ok 0"),
        ("m 1 0 0 7", "ok 0"),
        ("m 1 2 0 7", "ok 0"),
        ("m 2 1 0 7", "ok 0"),
        ("m 1 1 0 8", "ok 0"),
        ("g 0 2 0 16777216 8", "ok 1"),
        ("m 2 2 16777216 8", "ok 1"),
        ("m 2 2 16777216 7", "ok 0"),
        ("c 7", "ok 1"),
        ("m 1 1 0 7", "no 14 3"),
        ("o 7", "ok 0"),
        ("m 1 1 0 7", "ok 0"),
        ("m 2 1 16777216 8", "ok 1"),
        ("c 7", "ok 0"),
        ("c 8", "ok 1"),
    ];
    check_script(&rt, rt.alloc(), TWICE, &lines)
}

/// Who receives a right needs the marks of its mask. Persons 1 and 2 have mark 0, and person 3 has none.
#[test]
fn marks(rt: HostRuntime) -> Result<(), Fail> {
    let lines = [
        ("o 7", "ok 0"),
        ("m 0 0 33554432 7", "ok 0"),
        ("m 0 0 33554433 7", "ok 1"),
        ("g 0 3 1 0 7", "no 18 0"),
        ("m 3 1 0 7", "ok 0"),
        ("g 0 1 1 16777216 7", "no 18 0"),
        ("g 0 1 1 16777217 7", "ok 1"),
        ("g 1 3 1 0 7", "no 18 0"),
        ("g 1 2 1 0 7", "ok 2"),
        ("m 2 1 0 7", "ok 1"),
    ];
    check_script(&rt, rt.alloc(), 33_554_433, &lines)
}

/// A grant may ask more of further receivers than its giver's right does.
#[test]
fn marks_asked_by_a_grant(rt: HostRuntime) -> Result<(), Fail> {
    let lines = [
        ("o 7", "ok 0"),
        ("g 0 1 0 16777217 7", "ok 1"),
        ("g 0 2 0 16777218 7", "ok 2"),
        ("g 1 3 1 0 7", "no 18 0"),
        ("g 1 2 1 0 7", "ok 3"),
        ("g 2 1 1 0 7", "no 18 0"),
        ("g 0 3 1 0 7", "ok 4"),
    ];
    check_script(&rt, rt.alloc(), TWICE, &lines)
}

/// The count falls by one each time, and at 0 nothing is passed on.
#[test]
fn counts(rt: HostRuntime) -> Result<(), Fail> {
    let lines = [
        ("o 7", "ok 0"),
        ("g 0 1 0 33554432 7", "no 18 0"),
        ("m 1 0 0 7", "ok 0"),
        ("g 0 1 0 16777216 7", "ok 1"),
        ("m 1 0 16777216 7", "ok 1"),
        ("m 1 0 33554432 7", "ok 0"),
        ("g 1 2 0 16777216 7", "no 18 0"),
        ("g 1 2 0 0 7", "ok 2"),
        ("m 2 0 0 7", "ok 1"),
        ("m 2 0 16777216 7", "ok 0"),
        ("g 2 3 0 0 7", "no 18 0"),
        ("g 2 1 1 0 7", "no 18 0"),
        ("g 1 3 0 0 7", "ok 3"),
    ];
    check_script(&rt, rt.alloc(), TWICE, &lines)
}

/// The count 255 does not fall.
#[test]
fn without_limit(rt: HostRuntime) -> Result<(), Fail> {
    let lines = [
        ("o 7", "ok 0"),
        ("g 0 1 0 4278190080 7", "ok 1"),
        ("g 1 2 0 4278190080 7", "ok 2"),
        ("g 2 1 0 4278190080 7", "ok 3"),
        ("g 2 3 1 4278190080 7", "ok 4"),
        ("m 3 1 4278190080 7", "ok 1"),
        ("g 2 3 2 4278190080 7", "no 19 0"),
    ];
    check_script(&rt, rt.alloc(), 4_278_190_080, &lines)
}

/// The step of one right and the strength of another do not make a third.
#[test]
fn one_right_carries_both(rt: HostRuntime) -> Result<(), Fail> {
    let lines = [
        ("o 7", "ok 0"),
        ("g 0 1 1 16777216 7", "ok 1"),
        ("g 0 1 2 0 7", "ok 2"),
        ("m 1 1 16777216 7", "ok 1"),
        ("m 1 2 16777216 7", "ok 0"),
        ("g 1 2 1 0 7", "ok 3"),
        ("g 1 2 2 0 7", "no 18 0"),
        ("m 2 2 0 7", "ok 0"),
    ];
    check_script(&rt, rt.alloc(), TWICE, &lines)
}

/// Each lot has grants of its own, and counts them alone.
#[test]
fn lots_side_by_side(rt: HostRuntime) -> Result<(), Fail> {
    let lines = [
        ("o 7", "ok 0"),
        ("o 8", "ok 0"),
        ("g 0 1 0 16777216 7", "ok 1"),
        ("g 1 2 0 0 8", "no 18 0"),
        ("g 0 1 0 16777216 8", "ok 1"),
        ("g 0 1 0 16777216 8", "no 20 0"),
        ("g 1 2 0 0 7", "ok 2"),
        ("g 1 2 1 0 8", "ok 2"),
        ("g 0 3 1 0 8", "ok 3"),
        ("c 7", "ok 2"),
        ("g 1 2 0 0 8", "ok 4"),
        ("m 2 0 0 8", "ok 1"),
        ("o 7", "ok 0"),
        ("g 1 2 0 0 7", "no 18 0"),
        ("g 0 1 0 16777216 7", "ok 1"),
        ("c 8", "ok 4"),
        ("m 1 0 0 7", "ok 1"),
        ("c 7", "ok 1"),
    ];
    check_script(&rt, rt.alloc(), TWICE, &lines)
}
