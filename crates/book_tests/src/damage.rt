// Damaged books: each is the example with a few words or bytes changed, and is refused at the first fault.

use crate::support::{EXAMPLE, LENGTH, Told, bytes, refusal, refusal_of};
use book::read;
use std::alloc::{AllocError, Global};
use std::process::Abort;
use std::test::Fail;
use strength::Reach;

/// Checks that the example with words changed to these is refused so.
fn check_damage(
    rt: &impl Abort,
    heap: Global,
    changes: &[(usize, u64)],
    expected: Told,
) -> Result<(), Fail> {
    let mut words = Vec::from_slice(heap, &EXAMPLE)?;
    for (at, word) in changes {
        assert!(rt; *at < words.len());
        words[*at] = *word;
    }
    assert_eq!(rt;
        refusal_of::<Reach>(heap, &words)?,
        Some(expected),
        "{changes:?}"
    );
    Ok(())
}

#[test]
fn sizes_out_of_limits(rt: HostRuntime) -> Result<(), Fail> {
    let cases = [
        (0, 0),
        (0, 257),
        (0, 18_446_744_073_709_551_615),
        (1, 0),
        (1, 65),
        (2, 0),
        (2, 65),
        (3, 1025),
        (4, 257),
        (5, 513),
        (6, 257),
        (7, 257),
    ];
    for (at, size) in cases {
        check_damage(&rt, rt.alloc(), &[(at, size)], (2, at))?;
    }
    check_damage(&rt, rt.alloc(), &[(7, 257), (1, 65)], (2, 1))
}

/// The length due of a size that is within its limits, and not the one that the example has.
#[test]
fn sizes_of_another_length(rt: HostRuntime) -> Result<(), Fail> {
    let cases = [
        (0, 3, 200),
        (0, 256, 2224),
        (3, 0, 176),
        (3, 1024, 16_560),
        (4, 3, 224),
        (5, 512, 8384),
        (6, 0, 192),
        (7, 256, 4288),
    ];
    for (at, size, due) in cases {
        check_damage(&rt, rt.alloc(), &[(at, size)], (3, due))?;
    }
    Ok(())
}

/// Bytes that end too early or too late.
#[test]
fn lengths(rt: HostRuntime) -> Result<(), Fail> {
    let mut longer = bytes(rt.alloc(), &EXAMPLE)?;
    longer.extend_from_slice(&[0; 8])?;
    let cases = [
        (0, (1, 0)),
        (63, (1, 63)),
        (64, (3, LENGTH)),
        (200, (3, LENGTH)),
        (207, (3, LENGTH)),
        (209, (3, LENGTH)),
        (216, (3, LENGTH)),
    ];
    for (length, expected) in cases {
        assert!(rt; length <= longer.len());
        let answer = refusal(read::<Reach>(rt.alloc(), &longer[0..length]))?;
        assert_eq!(rt; answer, Some(expected), "{length} bytes");
    }
    Ok(())
}

#[test]
fn numbers_out_of_range(rt: HostRuntime) -> Result<(), Fail> {
    let cases = [
        (8, 16_777_216),
        (11, 16_777_216),
        (12, 4),
        (13, 4),
        (14, 2),
        (15, 2),
        (16, 3),
        (17, 3),
        (18, 3),
        (19, 3),
        (20, 128),
        (20, 3),
        (20, 4096),
        (22, 130),
        (22, 67),
        (24, 3),
        (25, 3),
        (25, 18_446_744_073_709_551_615),
    ];
    for (at, word) in cases {
        check_damage(&rt, rt.alloc(), &[(at, word)], (4, at))?;
    }
    Ok(())
}

/// Fewer posts or steps than the rows name.
#[test]
fn numbers_out_of_smaller_ranges(rt: HostRuntime) -> Result<(), Fail> {
    check_damage(&rt, rt.alloc(), &[(1, 1)], (4, 15))?;
    check_damage(&rt, rt.alloc(), &[(2, 2)], (4, 19))?;
    check_damage(&rt, rt.alloc(), &[(2, 1)], (4, 18))
}

#[test]
fn strengths_and_clashes(rt: HostRuntime) -> Result<(), Fail> {
    let cases = [
        (21, 5, (5, 21)),
        (21, 4_294_967_296, (5, 21)),
        (23, 5, (5, 23)),
        (23, 4_294_967_296, (5, 23)),
        (24, 2, (6, 25)),
        (25, 1, (6, 25)),
    ];
    for (at, word, expected) in cases {
        check_damage(&rt, rt.alloc(), &[(at, word)], expected)?;
    }
    Ok(())
}

/// Two faults: the first in file order answers.
#[test]
fn first_of_two_faults(rt: HostRuntime) -> Result<(), Fail> {
    let cases = [
        ([(8, 16_777_216), (25, 1)], (4, 8)),
        ([(25, 3), (12, 4)], (4, 12)),
        ([(14, 2), (13, 4)], (4, 13)),
        ([(19, 3), (20, 128)], (4, 19)),
        ([(20, 3), (21, 5)], (4, 20)),
        ([(22, 130), (21, 5)], (5, 21)),
        ([(24, 3), (23, 5)], (5, 23)),
        ([(24, 3), (25, 3)], (4, 24)),
    ];
    for (changes, expected) in cases {
        check_damage(&rt, rt.alloc(), &changes, expected)?;
    }
    Ok(())
}

/// The example with two clashes, whose steps are words 24 and 25 with 26 and 27.
fn with_two_clashes(heap: Global, steps: &[u64]) -> Result<Vec<u64>, AllocError> {
    let mut words = Vec::from_slice(heap, &EXAMPLE[0..7])?;
    words.push(2)?;
    words.extend_from_slice(&EXAMPLE[8..24])?;
    words.extend_from_slice(steps)?;
    Ok(words)
}

/// In the last column too the first fault answers, whichever it is.
#[test]
fn last_column_in_order(rt: HostRuntime) -> Result<(), Fail> {
    let cases = [
        ([1, 0, 2, 2], None),
        ([1, 0, 1, 3], Some((6, 26))),
        ([1, 0, 3, 0], Some((4, 26))),
        ([1, 0, 2, 0], Some((6, 27))),
        ([1, 0, 2, 3], Some((4, 27))),
        ([1, 3, 1, 3], Some((4, 25))),
    ];
    for (steps, expected) in cases {
        let words = with_two_clashes(rt.alloc(), &steps)?;
        assert_eq!(rt;
            refusal_of::<Reach>(rt.alloc(), &words)?,
            expected,
            "{steps:?}"
        );
    }
    Ok(())
}
