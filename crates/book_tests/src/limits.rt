// The largest book and the smallest.

use crate::support::{bytes, made};
use book::{Person, Post, Step, reread};
use std::alloc::{AllocError, Global};
use std::test::Fail;
use strength::Reach;

/// Adds a column that has this word in each place.
fn push_column(bytes: &mut Vec<u8>, word: u64, size: usize) -> Result<(), AllocError> {
    for _ in 0..size {
        bytes.extend_from_slice(&word.to_le_bytes())?;
    }
    Ok(())
}

/// The bytes of a book with all sizes and numbers at their limits.
fn largest(heap: Global) -> Result<Vec<u8>, AllocError> {
    let mut bytes = bytes(heap, &[256, 64, 64, 1024, 256, 512, 256, 256])?;
    let columns = [
        (16_777_215, 256),
        (255, 1024),
        (63, 1024),
        (63, 256),
        (63, 256),
        (4095, 512),
        (4_294_967_295, 512),
        (4095, 256),
        (4_294_967_295, 256),
        (63, 256),
        (62, 256),
    ];
    for (word, size) in columns {
        push_column(&mut bytes, word, size)?;
    }
    Ok(bytes)
}

#[test]
fn largest_book(rt: HostRuntime) -> Result<(), Fail> {
    let heap = rt.alloc();
    let bytes = largest(heap)?;
    assert_eq!(rt; bytes.len(), 38_976);
    let mut copy = vec![in heap; 0; 38_976]?;
    let book = made(reread::<Reach>(heap, &bytes, &mut copy))?;
    assert!(rt; copy == bytes);
    assert!(rt; book.plays(Person(255), Post(63)));
    assert!(rt; !book.plays(Person(0), Post(0)));
    assert!(rt; book.covers(Step(63), Step(63)));
    assert!(rt; !book.covers(Step(63), Step(62)));
    let rows = book.rows();
    assert_eq!(rt; (rows.posts, rows.steps, rows.marks.len()), (64, 64, 256));
    assert_eq!(rt; (rows.plays.len(), rows.covers.len()), (1024, 256));
    assert_eq!(rt;
        (rows.holds.len(), rows.bars.len(), rows.clashes.len()),
        (512, 256, 256)
    );
    Ok(())
}

#[test]
fn smallest_book(rt: HostRuntime) -> Result<(), Fail> {
    let heap = rt.alloc();
    let bytes = bytes(heap, &[1, 1, 1, 0, 0, 0, 0, 0, 0])?;
    let mut copy = vec![in heap; 255; 72]?;
    let book = made(reread::<Reach>(heap, &bytes, &mut copy))?;
    assert!(rt; copy == bytes);
    assert!(rt; !book.plays(Person(0), Post(0)));
    assert!(rt; book.covers(Step(0), Step(0)));
    let rows = book.rows();
    assert_eq!(rt; (rows.posts, rows.steps, rows.marks.len()), (1, 1, 1));
    assert_eq!(rt; (rows.plays.len(), rows.covers.len()), (0, 0));
    assert_eq!(rt;
        (rows.holds.len(), rows.bars.len(), rows.clashes.len()),
        (0, 0, 0)
    );
    Ok(())
}
