// From a book and a script to the answers.
use crate::failure::Failure;
use book::{BookFault, MOST_BYTES};
use files::{file_or_none, input};
use script::{Fault, LONGEST_SCRIPT, answers, tell_refusal};
use std::alloc::AllocError;
use std::io::Write;
use strength::Strength;

// With one byte more a book is known to be too long.
const MOST_BOOK: u64 = MOST_BYTES as u64 + 1;

// With one byte more a script is known to be too long.
const MOST_SCRIPT: u64 = LONGEST_SCRIPT as u64 + 1;

/// What is printed: the answers, or the one line of a book that is refused. The script is read only after its book.
fn printed<S: Strength>(rt: &HostRuntime, path: &str, filler: S) -> Result<Vec<u8>, Failure> {
    let bytes = file_or_none(rt, path, MOST_BOOK)?;
    match book::read::<S>(rt.alloc(), &bytes) {
        Ok(book) => {
            let script = input(rt, MOST_SCRIPT)?;
            Ok(answers(rt.alloc(), &book, &script, filler)?)
        }
        Err(BookFault::Refused(refusal)) => {
            let mut output = Vec::new(rt.alloc());
            tell_refusal(Fault::OfBook(refusal), &mut output)?;
            Ok(output)
        }
        Err(BookFault::Memory) => Err(AllocError.into()),
    }
}

/// Prints what is to be printed.
fn print<S: Strength>(rt: &HostRuntime, path: &str, filler: S) -> Result<(), Failure> {
    let output = printed(rt, path, filler)?;
    rt.stdout().write_all(&output)?;
    Ok(())
}

/// Answers the script on standard input under the book at this path. The filler is any strength of the line's kind: it
/// stands in places of the arrays that hold no grant yet.
pub fn serve<S: Strength>(rt: &HostRuntime, path: &str, filler: S) -> Result<(), Failure> {
    let end = print(rt, path, filler);
    if let Err(failure) = &end {
        // Where standard error fails too, what is answered is all that is left to say it.
        let _ = eprintln!(rt; "{failure}");
    }
    end
}
