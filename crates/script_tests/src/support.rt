// The book that most tests use, and how a script is held to the answers that are due.

use book::{Book, BookFault, read};
use script::answers;
use std::alloc::{AllocError, Global};
use std::process::Abort;
use std::test::Fail;
use strength::Strength;

/// A book of the press line with 4 people, 2 posts and 3 steps. Persons 0, 1 and 2 have mark 0. Person 0 plays post 0,
/// and person 3 plays post 1. Step 0 covers steps 1 and 2. Post 0 holds step 0 at count 2. Nobody who plays post 1 is
/// given step 2 at count 1 or more. Steps 1 and 2 clash.
// Alike in both crates of tests: one more crate would be longer than these few lines.
pub(crate) const EXAMPLE: [u64; 26] = [
    4, 2, 3, 2, 2, 1, 1, 1, 1, 1, 1, 0, 0, 3, 0, 1, 0, 0, 1, 2, 0, 33_554_432, 66, 16_777_216, 1, 2,
];

/// Where the example has the strength of its hold.
pub(crate) const HELD: usize = 21;

// Alike in both crates of tests: one more crate would be longer than these few lines.
/// The bytes of these words, least byte first.
fn bytes(heap: Global, words: &[u64]) -> Result<Vec<u8>, AllocError> {
    words
        .iter()
        .flat_map(|word| word.to_le_bytes())
        .collect(heap)
}

// Alike in both crates of tests: one more crate would be longer than these few lines.
/// The book of these words, which has to be sound.
pub(crate) fn book_of<S: Strength>(heap: Global, words: &[u64]) -> Result<Book<S>, Fail> {
    let bytes = bytes(heap, words)?;
    match read::<S>(heap, &bytes) {
        Ok(book) => Ok(book),
        Err(BookFault::Refused((cause, place))) => {
            Err(Fail::new(format_args!("book refused: {cause:?} at {place}")))
        }
        Err(BookFault::Memory) => Err(Fail::new("no memory")),
    }
}

/// Holds a script to the whole text that it has to print.
pub(crate) fn check_answers<S: Strength>(
    rt: &impl Abort,
    heap: Global,
    words: &[u64],
    script: &str,
    expected: &str,
) -> Result<(), Fail> {
    let Some(filler) = S::from_word(0) else {
        return Err(Fail::new("no strength has word 0"));
    };
    let book = book_of::<S>(heap, words)?;
    let output = answers(heap, &book, script.as_bytes(), filler)?;
    assert!(rt;
        output.as_slice() == expected.as_bytes(),
        "{script:?} has to print {expected:?}"
    );
    Ok(())
}
