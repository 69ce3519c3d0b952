// The book that most tests begin with, and what they ask of bytes.

use book::{Book, BookFault, read};
use std::alloc::{AllocError, Global};
use std::test::Fail;
use strength::Strength;

/// The words of a small book of the press line. Two tables have two rows, and three have one.
///
/// | words | column |
/// |---|---|
/// | 0 to 7 | sizes: people, posts, steps, plays, covers, holds, bars, clashes |
/// | 8 to 11 | marks |
/// | 12 to 13, 14 to 15 | persons and posts of the plays |
/// | 16 to 17, 18 to 19 | stronger and weaker steps of the covers |
/// | 20, 21 | key and strength of the hold |
/// | 22, 23 | key and strength of the bar |
/// | 24, 25 | steps of the clash |
// Alike in both crates of tests: one more crate would be longer than these few lines.
pub(crate) const EXAMPLE: [u64; 26] = [
    4, 2, 3, 2, 2, 1, 1, 1, 1, 1, 1, 0, 0, 3, 0, 1, 0, 0, 1, 2, 0, 33_554_432, 66, 16_777_216, 1, 2,
];

/// How many bytes the example has.
pub(crate) const LENGTH: usize = 208;

// Alike in both crates of tests: one more crate would be longer than these few lines.
/// The bytes of these words, least byte first.
pub(crate) fn bytes(heap: Global, words: &[u64]) -> Result<Vec<u8>, AllocError> {
    words
        .iter()
        .flat_map(|word| word.to_le_bytes())
        .collect(heap)
}

// Alike in both crates of tests: one more crate would be longer than these few lines.
/// A book that has to be there.
pub(crate) fn made<S: Strength>(book: Result<Book<S>, BookFault>) -> Result<Book<S>, Fail> {
    match book {
        Ok(book) => Ok(book),
        Err(BookFault::Refused((cause, place))) => {
            Err(Fail::new(format_args!("refused: {cause:?} at {place}")))
        }
        Err(BookFault::Memory) => Err(Fail::new("no memory")),
    }
}

/// The number and the place by which a panel is told of a refusal.
pub(crate) type Told = (u8, usize);

/// The refusal of a book, if it is refused.
pub(crate) fn refusal<S: Strength>(book: Result<Book<S>, BookFault>) -> Result<Option<Told>, Fail> {
    match book {
        Ok(_book) => Ok(None),
        Err(BookFault::Refused((cause, place))) => Ok(Some((cause.number(), place))),
        Err(BookFault::Memory) => Err(Fail::new("no memory")),
    }
}

/// How the book of these words is refused, if it is.
pub(crate) fn refusal_of<S: Strength>(heap: Global, words: &[u64]) -> Result<Option<Told>, Fail> {
    let bytes = bytes(heap, words)?;
    refusal(read::<S>(heap, &bytes))
}
