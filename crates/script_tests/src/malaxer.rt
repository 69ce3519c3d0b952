// The malaxer line: how often a right may be passed on, and how warm the paste may go.

use crate::support::check_answers;
use std::alloc::Global;
use std::process::Abort;
use std::test::Fail;
use strength::{Band, Pair, Reach};

/// Count 1 with an empty mask.
const ONCE: u32 = 16_777_216;

// Alike in both crates of tests: one more crate would be longer than these few lines.
/// The word of a pair of a reach and a band, in tenths of a degree.
fn pair_word(reach: u32, lowest: u16, highest: u16) -> u64 {
    (u64::from(highest) * 65_536 + u64::from(lowest)) * 4_294_967_296 + u64::from(reach)
}

/// A book of 3 people. Person 0 plays the post, which holds the step with count 1 and the band 20.0 to 30.0.
fn book() -> [u64; 15] {
    [
        3,
        1,
        1,
        1,
        0,
        1,
        0,
        0,
        0,
        0,
        0,
        0,
        0,
        0,
        pair_word(ONCE, 200, 300),
    ]
}

/// A line up to the word, the parts of the word, and what the line is told.
type Row = (&'static str, u32, u16, u16, &'static str);

/// Holds lines on lot 7, which is opened first, to what they are told.
fn check_rows(rt: &impl Abort, heap: Global, rows: &[Row]) -> Result<(), Fail> {
    let mut script = String::from_str(heap, "o 7\n")?;
    let mut expected = String::from_str(heap, "1 ok 0\n")?;
    for (i, (line, reach, lowest, highest, told)) in rows.iter().enumerate() {
        let word = pair_word(*reach, *lowest, *highest);
        write!(script, "{line} {word} 7\n")?;
        write!(expected, "{} {told}\n", i + 2)?;
    }
    check_answers::<Pair<Reach, Band>>(rt, heap, &book(), &script, &expected)
}

/// How warm may the paste go under the right of a post?
#[test]
fn held_band(rt: HostRuntime) -> Result<(), Fail> {
    let rows = [
        ("m 0 0", ONCE, 200, 300, "ok 1"),
        ("m 0 0", 0, 200, 300, "ok 1"),
        ("m 0 0", 0, 200, 200, "ok 1"),
        ("m 0 0", 0, 300, 300, "ok 1"),
        ("m 0 0", ONCE, 250, 260, "ok 1"),
        ("m 0 0", 0, 199, 300, "ok 0"),
        ("m 0 0", 0, 200, 301, "ok 0"),
        ("m 0 0", 0, 301, 301, "ok 0"),
        ("m 0 0", 33_554_432, 250, 260, "ok 0"),
        ("m 1 0", 0, 250, 250, "ok 0"),
    ];
    check_rows(&rt, rt.alloc(), &rows)
}

/// How warm may the paste go under a grant?
#[test]
fn granted_band(rt: HostRuntime) -> Result<(), Fail> {
    let rows = [
        ("g 0 1 0", 0, 199, 300, "no 18 0"),
        ("g 0 1 0", 0, 200, 301, "no 18 0"),
        ("g 0 1 0", ONCE, 220, 280, "no 18 0"),
        ("m 1 0", 0, 250, 250, "ok 0"),
        ("g 0 1 0", 0, 220, 280, "ok 1"),
        ("m 1 0", 0, 220, 280, "ok 1"),
        ("m 1 0", 0, 250, 250, "ok 1"),
        ("m 1 0", 0, 219, 280, "ok 0"),
        ("m 1 0", 0, 220, 281, "ok 0"),
        ("m 1 0", ONCE, 250, 250, "ok 0"),
        ("g 0 1 0", 0, 220, 280, "no 20 0"),
        ("g 1 2 0", 0, 250, 250, "no 18 0"),
        ("g 0 2 0", 0, 200, 300, "ok 2"),
        ("m 2 0", 0, 300, 300, "ok 1"),
        ("m 2 0", 0, 301, 301, "ok 0"),
    ];
    check_rows(&rt, rt.alloc(), &rows)
}

/// Two bands that touch do not make one.
#[test]
fn two_bands(rt: HostRuntime) -> Result<(), Fail> {
    let rows = [
        ("g 0 1 0", 0, 200, 250, "ok 1"),
        ("g 0 1 0", 0, 250, 300, "ok 2"),
        ("m 1 0", 0, 240, 250, "ok 1"),
        ("m 1 0", 0, 250, 260, "ok 1"),
        ("m 1 0", 0, 240, 260, "ok 0"),
    ];
    check_rows(&rt, rt.alloc(), &rows)
}

#[test]
fn words_of_no_pair(rt: HostRuntime) -> Result<(), Fail> {
    let rows = [
        ("m 0 0", 0, 301, 300, "no 12 2"),
        ("g 0 1 0", 0, 301, 300, "no 12 3"),
        ("m 0 0", 0, 1, 0, "no 12 2"),
        ("m 0 0", 0, 600, 600, "ok 0"),
        ("m 0 0", 0, 200, 601, "no 12 2"),
        ("g 0 1 0", 0, 200, 601, "no 12 3"),
        ("m 0 0", 5, 200, 300, "no 12 2"),
        ("g 0 1 0", 5, 200, 300, "no 12 3"),
        ("g 0 0 0", 0, 301, 300, "no 12 3"),
    ];
    check_rows(&rt, rt.alloc(), &rows)
}
