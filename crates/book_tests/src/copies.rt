// Books written, and read and written back.

use crate::support::{EXAMPLE, LENGTH, bytes, made, refusal};
use book::{Book, read, reread, write};
use std::alloc::Global;
use std::process::Abort;
use std::test::Fail;
use strength::Reach;

// What buffers hold before.
const BLANK: u8 = 170;

/// Checks a buffer that a book was written to: it has the book's bytes, and then what it had before.
fn check_copy(rt: &impl Abort, copy: &[u8], bytes: &[u8]) {
    assert!(rt; bytes.len() <= copy.len());
    assert!(rt; &copy[0..bytes.len()] == bytes);
    check_blank(rt, &copy[bytes.len()..]);
}

/// Checks that nothing was written.
fn check_blank(rt: &impl Abort, bytes: &[u8]) {
    assert!(rt; bytes.iter().all(|byte| *byte == BLANK));
}

fn example(heap: Global, bytes: &[u8]) -> Result<Book<Reach>, Fail> {
    made(read::<Reach>(heap, bytes))
}

#[test]
fn written(rt: HostRuntime) -> Result<(), Fail> {
    let heap = rt.alloc();
    let bytes = bytes(heap, &EXAMPLE)?;
    let book = example(heap, &bytes)?;
    for length in [208, 209, 216, 300] {
        let mut copy = vec![in heap; BLANK; length]?;
        assert_eq!(rt; write(&book, &mut copy), Ok(LENGTH));
        check_copy(&rt, &copy, &bytes);
    }
    Ok(())
}

#[test]
fn not_written_to_short_buffers(rt: HostRuntime) -> Result<(), Fail> {
    let heap = rt.alloc();
    let bytes = bytes(heap, &EXAMPLE)?;
    let book = example(heap, &bytes)?;
    for length in [0, 64, 200, 207] {
        let mut copy = vec![in heap; BLANK; length]?;
        let told = write(&book, &mut copy).map_err(|(cause, place)| (cause.number(), place));
        assert_eq!(rt; told, Err((8, LENGTH)));
        check_blank(&rt, &copy);
    }
    Ok(())
}

#[test]
fn reread_and_written(rt: HostRuntime) -> Result<(), Fail> {
    let heap = rt.alloc();
    let bytes = bytes(heap, &EXAMPLE)?;
    for length in [208, 209, 300] {
        let mut copy = vec![in heap; BLANK; length]?;
        let book = made(reread::<Reach>(heap, &bytes, &mut copy))?;
        check_copy(&rt, &copy, &bytes);
        assert_eq!(rt; book.rows().plays.len(), 2);
    }
    Ok(())
}

/// A copy that is too short is refused, and so is a book that is not sound, whatever the copy.
#[test]
fn not_reread(rt: HostRuntime) -> Result<(), Fail> {
    let heap = rt.alloc();
    let bytes = bytes(heap, &EXAMPLE)?;
    let cases = [
        (208, 0, (8, LENGTH)),
        (208, 207, (8, LENGTH)),
        (207, 208, (3, LENGTH)),
        (63, 0, (1, 63)),
    ];
    for (end, length, expected) in cases {
        assert!(rt; end <= bytes.len());
        let mut copy = vec![in heap; BLANK; length]?;
        let answer = refusal(reread::<Reach>(heap, &bytes[0..end], &mut copy))?;
        assert_eq!(rt; answer, Some(expected));
        check_blank(&rt, &copy);
    }
    Ok(())
}
