//! A book: who there is and who may do what, read from words and written to them.
#![tactic(auto)]

mod book;
mod checks;
mod faults;
mod form;
mod judging;
mod keys;
mod layout;
mod plan;
mod rows;
mod sizes;
mod tables;
mod words;

pub use book::Book;
pub use book::reads::read;
pub use book::rereads::reread;
pub use book::writes::write;
pub use faults::{BookFault, Cause, Refusal};
pub use form::Limit;
pub use keys::Key;
pub use rows::{Clash, Cover, Entry, Lot, Person, Play, Post, Rows, Step};
pub use sizes::{MOST_BYTES, MOST_PEOPLE, MOST_POSTS, MOST_STEPS, SIZES, size_limits};
