// What is recorded of the work on a lot.

use book::{Lot, Person, Step};

/// A person performed a step on a lot.
#[derive(Clone, Copy, Debug, Default, PartialEq, Eq)]
pub struct Record {
    pub person: Person,
    pub step: Step,
    pub lot: Lot,
}
