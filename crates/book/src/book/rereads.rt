// Reading a book and writing it back.
ghost use Rattle.book.specs.Books.{Rewrites};

use super::Book;
use super::reads::read;
use super::writes::write;
use crate::faults::BookFault;
use std::alloc::Global;
use strength::Strength;

/// The book that these bytes say, written back into the buffer byte for byte.
pub fn reread<S: Strength>(
    heap: Global,
    bytes: &[u8],
    copy: &mut [u8],
) -> Result<Book<S>, BookFault>
    ensures { Rewrites S.kind bytes.now copy.old copy.new result }
{
    let book = read::<S>(heap, bytes)?;
    let _length = write(&book, copy)?;
    Ok(book)
}
