// Why the program ends without an answer.
use std::alloc::AllocError;
use std::io;
use thiserror::Error;

#[derive(Debug, Drop, Error)]
pub enum Failure {
    /// The arguments are not a file and a kind.
    #[error("usage: book_show FILE KIND, where KIND is press or malaxer")]
    Usage,
    /// There is no memory for the book.
    #[error("book_show: there is no memory for the book")]
    Memory(#[from] AllocError),
    /// The file cannot be read, or standard output not written.
    #[error("book_show: {0}")]
    Stream(#[from] io::Error),
}
