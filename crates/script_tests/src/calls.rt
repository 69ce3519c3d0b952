// Why calls are refused, and in which order the causes are looked at.

use crate::support::{EXAMPLE, check_answers};
use std::alloc::Global;
use std::process::Abort;
use std::test::Fail;
use strength::Reach;

/// Holds lines, each after the opening of lot 7 on a register of its own, to what they have to print.
fn check_each(rt: &impl Abort, heap: Global, cases: &[(&str, &str)]) -> Result<(), Fail> {
    for (line, expected) in cases {
        let script = format!(in heap; "o 7\n{line}\n")?;
        let expected = format!(in heap; "1 ok 0\n2 {expected}\n")?;
        check_answers::<Reach>(rt, heap, &EXAMPLE, &script, &expected)?;
    }
    Ok(())
}

#[test]
fn opening_and_closing(rt: HostRuntime) -> Result<(), Fail> {
    let cases = [
        ("o 0", "ok 0"),
        ("o 65535", "ok 0"),
        ("o 65536", "no 13 0"),
        ("o 7", "no 15 0"),
        ("c 7", "ok 0"),
        ("c 65536", "no 13 0"),
        ("c 65535", "no 14 0"),
        ("c 0", "no 14 0"),
        ("c 7\nc 7", "ok 0\n3 no 14 0"),
        ("c 7\no 7\no 7", "ok 0\n3 ok 0\n4 no 15 0"),
    ];
    check_each(&rt, rt.alloc(), &cases)
}

#[test]
fn asking(rt: HostRuntime) -> Result<(), Fail> {
    let cases = [
        ("m 4 0 0 7", "no 10 0"),
        ("m 0 3 0 7", "no 11 1"),
        ("m 0 0 5 7", "no 12 2"),
        ("m 0 0 4294967296 7", "no 12 2"),
        ("m 0 0 0 65536", "no 13 3"),
        ("m 0 0 0 65535", "no 14 3"),
        ("m 0 0 0 8", "no 14 3"),
        ("m 4 3 5 65536", "no 10 0"),
        ("m 0 3 5 65536", "no 11 1"),
        ("m 0 0 5 65536", "no 12 2"),
        ("m 0 0 5 8", "no 12 2"),
    ];
    check_each(&rt, rt.alloc(), &cases)
}

#[test]
fn naming_a_grant(rt: HostRuntime) -> Result<(), Fail> {
    let cases = [
        ("g 4 1 0 0 7", "no 10 0"),
        ("g 0 4 0 0 7", "no 10 1"),
        ("g 5 4 0 0 7", "no 10 0"),
        ("g 4 4 0 0 7", "no 10 0"),
        ("g 0 1 3 0 7", "no 11 2"),
        ("g 0 1 0 5 7", "no 12 3"),
        ("g 0 1 0 4294967296 7", "no 12 3"),
        ("g 0 1 0 0 65536", "no 13 4"),
        ("g 0 1 0 0 65535", "no 14 4"),
        ("g 0 1 0 0 8", "no 14 4"),
        ("g 4 4 3 5 65536", "no 10 0"),
        ("g 4 1 0 0 8", "no 10 0"),
        ("g 0 4 3 5 65536", "no 10 1"),
        ("g 1 1 3 5 65536", "no 11 2"),
        ("g 1 1 0 5 65536", "no 12 3"),
        ("g 1 1 0 0 65536", "no 13 4"),
        ("g 1 1 0 0 8", "no 14 4"),
    ];
    check_each(&rt, rt.alloc(), &cases)
}

/// The bar of the example is at post 1, which person 3 plays.
#[test]
fn giving_a_grant(rt: HostRuntime) -> Result<(), Fail> {
    let cases = [
        ("g 0 0 0 0 7", "no 17 0"),
        ("g 1 1 0 0 7", "no 17 0"),
        ("g 3 3 2 16777216 7", "no 17 0"),
        ("g 1 2 0 0 7", "no 18 0"),
        ("g 3 1 2 0 7", "no 18 0"),
        ("g 1 3 2 16777216 7", "no 18 0"),
        ("g 0 3 2 33554432 7", "no 18 0"),
        ("g 0 3 2 16777216 7", "no 19 0"),
        ("g 0 3 0 16777216 7", "no 19 0"),
        ("g 0 3 1 16777216 7", "ok 1"),
        ("g 0 3 2 16777217 7", "ok 1"),
        ("g 0 3 2 0 7", "ok 1"),
        ("g 0 2 2 16777216 7", "ok 1"),
        ("g 0 1 0 0 7\ng 0 1 0 0 7", "ok 1\n3 no 20 0"),
        ("g 0 1 0 0 7\ng 0 1 0 16777216 7", "ok 1\n3 ok 2"),
        ("g 0 1 0 0 7\ng 0 1 1 0 7", "ok 1\n3 ok 2"),
        ("g 0 1 0 0 7\ng 0 2 0 0 7", "ok 1\n3 ok 2"),
        ("g 0 1 0 0 7\ng 1 2 0 0 7", "ok 1\n3 no 18 0"),
    ];
    check_each(&rt, rt.alloc(), &cases)
}

/// A book whose bars are: post 0 and step 1 at word 0, post 1 and step 1 at count 1, the same at word 0, post 1 and step
/// 2 at word 0. Person 0 plays post 0, which holds step 0 at count 2, and person 1 plays post 1. Step 0 covers the others.
const BARS: [u64; 28] = [
    2, 2, 3, 2, 2, 1, 4, 0, 0, 0, 0, 1, 0, 1, 0, 0, 1, 2, 0, 33_554_432, 1, 65, 65, 66, 0,
    16_777_216, 0, 0,
];

#[test]
fn first_bar(rt: HostRuntime) -> Result<(), Fail> {
    let script =
        "o 7\ng 0 1 1 16777216 7\ng 0 1 0 16777216 7\ng 0 1 1 0 7\ng 0 1 0 0 7\ng 0 1 2 0 7\ng 0 1 2 16777216 7\n";
    let expected = "1 ok 0\n2 no 19 1\n3 no 19 1\n4 no 19 2\n5 no 19 2\n6 no 19 3\n7 no 19 3\n";
    check_answers::<Reach>(&rt, rt.alloc(), &BARS, script, expected)
}

/// With 32 lots open, a 33rd is refused until one is closed.
#[test]
fn most_lots(rt: HostRuntime) -> Result<(), Fail> {
    let heap = rt.alloc();
    let mut script = String::new(heap);
    let mut expected = String::new(heap);
    for line in 1..=32 {
        write!(script, "o {line}\n")?;
        write!(expected, "{line} ok 0\n")?;
    }
    script.push_str("o 33\no 5\no 65536\nc 5\no 33\no 5\n")?;
    expected.push_str("33 no 16 0\n34 no 15 0\n35 no 13 0\n36 ok 0\n37 ok 0\n38 no 16 0\n")?;
    check_answers::<Reach>(&rt, heap, &EXAMPLE, &script, &expected)
}

/// The opening of two lots, and so many grants on each; they differ in the mask of the strength, at count 1.
fn many_grants(heap: Global, count: usize) -> Result<(String, String), Fail> {
    let mut script = String::from_str(heap, "o 7\no 8\n")?;
    let mut expected = String::from_str(heap, "1 ok 0\n2 ok 0\n")?;
    for number in 1..=count {
        let word = number.saturating_add(16_777_215);
        let line = number.saturating_mul(2).saturating_add(1);
        let next = line.saturating_add(1);
        write!(script, "g 0 1 0 {word} 7\ng 0 1 0 {word} 8\n")?;
        write!(expected, "{line} ok {number}\n{next} ok {number}\n")?;
    }
    Ok((script, expected))
}

/// With 512 grants in all, a further one is refused until some are dropped. The other causes come first.
#[test]
fn most_grants(rt: HostRuntime) -> Result<(), Fail> {
    let heap = rt.alloc();
    let (mut script, mut expected) = many_grants(heap, 256)?;
    script.push_str(
        "g 0 2 0 0 7\nm 2 0 0 7\ng 0 1 0 16777216 7\ng 0 3 2 16777216 7\ng 2 1 0 0 7\n",
    )?;
    expected.push_str("515 no 21 0\n516 ok 0\n517 no 20 0\n518 no 19 0\n519 no 18 0\n")?;
    script.push_str("o 9\ng 0 2 0 0 9\nc 8\ng 0 2 0 0 9\ng 0 2 0 0 7\nm 2 0 0 7\nc 7\nc 9\n")?;
    expected.push_str(
        "520 ok 0\n521 no 21 0\n522 ok 256\n523 ok 1\n524 ok 257\n525 ok 1\n526 ok 257\n527 ok 1\n",
    )?;
    check_answers::<Reach>(&rt, heap, &EXAMPLE, &script, &expected)
}
