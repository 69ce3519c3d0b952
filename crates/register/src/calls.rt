// What is asked of a register.

use book::{Lot, Person, Step};

/// A call. A word is the number that stands for a strength.
#[derive(Clone, Copy, Debug, PartialEq, Eq)]
pub enum Call {
    /// To open a lot.
    Open {
        lot: Lot,
    },
    /// To close a lot.
    Close {
        lot: Lot,
    },
    /// Whether somebody is entitled to a step.
    Entitled {
        person: Person,
        step: Step,
        word: u64,
        lot: Lot,
    },
    /// To pass a right on.
    Grant {
        giver: Person,
        receiver: Person,
        step: Step,
        word: u64,
        lot: Lot,
    },
}
