//! Rights, grants and what backs them.
#![tactic(auto)]

mod bars;
mod chains;
mod grants;
mod rights;
mod standing;
mod withdrawals;

pub use bars::first_bar;
pub use chains::{MOST_GRANTS, chained};
pub use grants::{Grant, Question, Right};
pub use rights::{backs, gives, heads, supports};
pub use standing::{backed, count_on, entitled, stands};
pub use withdrawals::{chained_beside, stays};
