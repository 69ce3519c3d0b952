//! Kinds of strength: how far a right goes, and what is left of it when it is passed on.
#![tactic(auto)]

mod examples;
mod kinds;
mod values;

pub use examples::worked_examples;
pub use kinds::{Half, Strength};
pub use values::{Band, Count, Marks, Pair, Reach, Tenths};
