// Rights and grants.
ghost use Rattle.std.specs.Prelude.{◌≡◌, ◌==◌};
ghost use Rattle.std.specs.Ordering.{eq_of_both, on};
ghost use Rattle.std.specs.Cmp.Rules.{comparing};
ghost use Rattle.std.proofs.Common.{rules};
ghost use Rattle.delegation.specs.Rights.{right_of};

use book::{Entry, Lot, Person, Step};
use strength::Strength;

/// To do a step at a strength.
#[derive(Clone, Copy, Debug)]
pub struct Right<S> {
    pub step: Step,
    pub strength: S,
}

/// The giver passes a right on to the receiver, for one lot.
#[derive(Clone, Copy, Debug)]
#[derive_where(PartialEq, Eq; S: Strength)]
pub struct Grant<S> {
    pub giver: Person,
    pub receiver: Person,
    pub right: Right<S>,
    pub lot: Lot,
}

/// Whether the person may use the right on the lot.
#[derive(Clone, Copy, Debug)]
pub struct Question<S> {
    pub person: Person,
    pub right: Right<S>,
    pub lot: Lot,
}

// By hand, since a derive would ask every kind of strength for an `==` beside its word.
impl<S: Strength> PartialEq for Right<S> {
    ghost eq = { eq_of_both (on (λ a. a.step.0) ◌==◌) (on (λ a. S.kind.word a.strength) ◌==◌) };

    ghost laws = { Prim.search (comparing, rules) };

    fn eq(&self, other: &Right<S>) -> bool {
        self.step == other.step && self.strength.word() == other.strength.word()
    }
}

impl<S: Strength> Eq for Right<S> {
    ghost laws = { Prim.search (comparing, rules) };
}

/// The right that a row of holds or bars names.
impl<S> From<Entry<S>> for Right<S> {
    ghost from_gives = { λ row right. right ≡ right_of row };

    fn from(row: Entry<S>) -> Right<S> {
        Right {
            step: row.key.step(),
            strength: row.strength,
        }
    }
}
