// How lines are taken apart.

use crate::support::{EXAMPLE, check_answers};
use std::alloc::{AllocError, Global};
use std::iter;
use std::process::Abort;
use std::test::Fail;
use strength::Reach;

/// Holds scripts, each on a register of its own, to what they have to print.
fn check_all(rt: &impl Abort, heap: Global, cases: &[(&str, &str)]) -> Result<(), Fail> {
    for (script, expected) in cases {
        check_answers::<Reach>(rt, heap, &EXAMPLE, *script, *expected)?;
    }
    Ok(())
}

#[test]
fn letters(rt: HostRuntime) -> Result<(), Fail> {
    let cases = [
        ("\n", "1 no 40 0\n"),
        ("x 1\n", "1 no 40 0\n"),
        ("t 0 0 0\n", "1 no 40 0\n"),
        ("d 0 0 0\n", "1 no 40 0\n"),
        ("w 0\n", "1 no 40 0\n"),
        ("oo 7\n", "1 no 40 0\n"),
        ("o7\n", "1 no 40 0\n"),
        ("O 7\n", "1 no 40 0\n"),
        ("C 7\n", "1 no 40 0\n"),
        ("M 0 0 0 7\n", "1 no 40 0\n"),
        ("G 0 1 0 0 7\n", "1 no 40 0\n"),
        (" o 7\n", "1 no 40 0\n"),
        ("7\n", "1 no 40 0\n"),
        ("o\t7\n", "1 no 40 0\n"),
        ("\r\n", "1 no 40 0\n"),
    ];
    check_all(&rt, rt.alloc(), &cases)
}

#[test]
fn numbers_of_fields(rt: HostRuntime) -> Result<(), Fail> {
    let cases = [
        ("o\n", "1 no 41 0\n"),
        ("o 7 \n", "1 no 41 2\n"),
        ("o  7\n", "1 no 41 2\n"),
        ("o 7 x\n", "1 no 41 2\n"),
        ("c\n", "1 no 41 0\n"),
        ("c 7 7\n", "1 no 41 2\n"),
        ("m\n", "1 no 41 0\n"),
        ("m 0 0 0\n", "1 no 41 3\n"),
        ("m 0 0 0 7 7\n", "1 no 41 5\n"),
        ("g\n", "1 no 41 0\n"),
        ("g 0 1 0 0\n", "1 no 41 4\n"),
        ("g 0 1 0 0 7 \n", "1 no 41 6\n"),
    ];
    check_all(&rt, rt.alloc(), &cases)
}

#[test]
fn fields(rt: HostRuntime) -> Result<(), Fail> {
    let cases = [
        ("o \n", "1 no 42 0\n"),
        ("o x\n", "1 no 42 0\n"),
        ("o -7\n", "1 no 42 0\n"),
        ("o +7\n", "1 no 42 0\n"),
        ("o 7x\n", "1 no 42 0\n"),
        ("o 7\r\n", "1 no 42 0\n"),
        ("o 7\t\n", "1 no 42 0\n"),
        ("c \n", "1 no 42 0\n"),
        ("m 0 0  7\n", "1 no 42 2\n"),
        ("m 0 0 0 \n", "1 no 42 3\n"),
        ("m 9 x 0 7\n", "1 no 42 1\n"),
        ("g x 1 0 0 0\n", "1 no 42 0\n"),
        ("g 0 1 0 0 x\n", "1 no 42 4\n"),
        ("g 0 1 0 0 7\r\n", "1 no 42 4\n"),
        ("o 00000000000000000007\n", "1 no 42 0\n"),
        ("o 99999999999999999999\n", "1 no 42 0\n"),
        ("m 0 0 18446744073709551615 7\n", "1 no 42 2\n"),
        ("o 9999999999999999999\n", "1 no 13 0\n"),
        ("o 0000000000000000007\no 7\n", "1 ok 0\n2 no 15 0\n"),
        ("o 7\nc 007\n", "1 ok 0\n2 ok 0\n"),
        ("o 7\nm 00 01 00 07\n", "1 ok 0\n2 ok 1\n"),
    ];
    check_all(&rt, rt.alloc(), &cases)
}

#[test]
fn ends_of_lines(rt: HostRuntime) -> Result<(), Fail> {
    let cases = [
        ("", ""),
        ("\n\n", "1 no 40 0\n2 no 40 0\n"),
        ("o 7", "1 ok 0\n"),
        ("o", "1 no 41 0\n"),
        (" ", "1 no 40 0\n"),
        ("o 7\nc 7", "1 ok 0\n2 ok 0\n"),
        ("o 7\nc 7\n", "1 ok 0\n2 ok 0\n"),
        ("o 7\n\n", "1 ok 0\n2 no 40 0\n"),
        ("\no 7", "1 no 40 0\n2 ok 0\n"),
        (
            "x\no\no x\no 7\nc 8\nc 7\n",
            "1 no 40 0\n2 no 41 0\n3 no 42 0\n4 ok 0\n5 no 14 0\n6 ok 0\n",
        ),
    ];
    check_all(&rt, rt.alloc(), &cases)
}

/// A text, and then a letter so often.
fn padded(heap: Global, text: &str, letter: char, count: usize) -> Result<String, AllocError> {
    let mut line = String::from_str(heap, text)?;
    line.extend(iter::repeat_n(letter, count))?;
    Ok(line)
}

/// Lines of 120 bytes, which are looked at, and of 121, which are not.
#[test]
fn lengths_of_lines(rt: HostRuntime) -> Result<(), Fail> {
    let cases = [
        ("", 'x', 120, "1 no 40 0\n"),
        ("", 'x', 121, "1 no 43 120\n"),
        ("o", ' ', 119, "1 no 41 119\n"),
        ("o", ' ', 120, "1 no 43 120\n"),
        ("o ", '0', 118, "1 no 42 0\n"),
        ("o ", '0', 119, "1 no 43 120\n"),
        ("o 7\n", ' ', 120, "1 ok 0\n2 no 40 0\n"),
        ("o 7\n", ' ', 121, "1 ok 0\n2 no 43 120\n"),
    ];
    let heap = rt.alloc();
    for (text, letter, count, expected) in cases {
        let mut script = padded(heap, text, letter, count)?;
        check_answers::<Reach>(&rt, heap, &EXAMPLE, &script, expected)?;
        script.push('\n')?;
        check_answers::<Reach>(&rt, heap, &EXAMPLE, &script, expected)?;
    }
    Ok(())
}

/// A line that opens lot 7, so often, and what is printed of it.
fn openings(heap: Global, count: usize) -> Result<(String, String), Fail> {
    let mut script = String::from_str(heap, "o 7\n")?;
    let mut expected = String::from_str(heap, "1 ok 0\n")?;
    for line in 2..=count {
        script.push_str("o 7\n")?;
        write!(expected, "{line} no 15 0\n")?;
    }
    Ok((script, expected))
}

/// A script of 65,536 bytes is obeyed, and one of 65,537 is refused whole.
#[test]
fn longest_script(rt: HostRuntime) -> Result<(), Fail> {
    let heap = rt.alloc();
    let (mut script, expected) = openings(heap, 16_384)?;
    assert_eq!(rt; script.len(), 65_536);
    check_answers::<Reach>(&rt, heap, &EXAMPLE, &script, &expected)?;
    script.push('\n')?;
    check_answers::<Reach>(&rt, heap, &EXAMPLE, &script, "0 no 44 65536\n")
}

#[test]
fn long_scripts_of_one_line(rt: HostRuntime) -> Result<(), Fail> {
    let heap = rt.alloc();
    let mut script = padded(heap, "", 'x', 65_536)?;
    check_answers::<Reach>(&rt, heap, &EXAMPLE, &script, "1 no 43 120\n")?;
    script.push('x')?;
    check_answers::<Reach>(&rt, heap, &EXAMPLE, &script, "0 no 44 65536\n")
}
