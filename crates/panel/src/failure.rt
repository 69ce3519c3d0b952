// Why a program ends without an answer.
use std::alloc::AllocError;
use std::io;
use thiserror::Error;

#[derive(Debug, Drop, Error)]
pub enum Failure {
    /// There is no memory.
    #[error("there is no memory")]
    Memory,
    /// A file or a stream fails.
    #[error(transparent)]
    Stream(#[from] io::Error),
}

// By hand, since a derive would keep the `AllocError`, which says no more.
impl From<AllocError> for Failure {
    fn from(_fault: AllocError) -> Failure {
        Failure::Memory
    }
}
