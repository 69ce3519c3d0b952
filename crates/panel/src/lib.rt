//! A line's whole work: the book from its file, the script from standard input, the answers to standard output.
#![tactic(auto)]

mod failure;
mod work;

pub use failure::Failure;
pub use work::serve;
