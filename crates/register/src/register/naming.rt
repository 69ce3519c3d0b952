// The checks of what a question or a grant names, in the order of the numbers of their causes.
ghost use Rattle.std.specs.Prelude.{◌≡◌, ◌≤◌, length, Some, Decides};
ghost use Rattle.book.specs.Books.{rules};
ghost use Rattle.register.specs.Causes.{causes, naming, passing};
ghost use Rattle.register.specs.Refusals.{Checks};
ghost use Rattle.register.specs.Shape.{state_of};
ghost use Rattle.register.specs.declared.calls.Call.TheVariants.{Entitled as Asks};

use super::Register;
use crate::faults::{Cause, RegisterFault};
use book::{Lot, Person, Step};
use strength::Strength;

/// What a question or a grant names beside its people.
#[derive(Clone, Copy)]
pub(super) struct Named {
    pub(super) step: Step,
    pub(super) word: u64,
    pub(super) lot: Lot,
}

impl<'b, 'g, 'r, S: Strength> Register<'b, 'g, 'r, S> {
    /// The strength that the word stands for, where what is named, from this place on, is in order.
    fn check_naming(&self, place: usize, named: Named) -> Result<S, RegisterFault>
        requires { place ≤ 2 }
        ensures { Checks (naming S.kind (rules self.now.book.now) (state_of self.now).lots place named.step named.word named.lot) (λ s. S.kind.of_word named.word ≡ Some s) result }
    {
        if named.step.0 >= self.book.rows().steps {
            return Err(Cause::UnknownStep.at(place));
        }
        let Some(strength) = S::from_word(named.word) else {
            return Err(Cause::UnlawfulWord.at(place + 1));
        };
        self.check_open(named.lot, place + 2)?;
        Ok(strength)
    }

    /// Whether the book has no such person.
    fn is_nobody(&self, person: Person) -> bool
        ensures { Decides result (length (rules self.now.book.now).marks ≤ person.0) }
    {
        let marks = self.book.rows().marks.as_slice();
        person.0 >= marks.len() as u64
    }

    /// The strength that the word stands for, where what a question names is in order.
    pub(super) fn check_asking(&self, person: Person, named: Named) -> Result<S, RegisterFault>
        ensures { Checks (causes S.kind (rules self.now.book.now) (state_of self.now) (Asks person named.step named.word named.lot)) (λ s. S.kind.of_word named.word ≡ Some s) result }
    {
        if self.is_nobody(person) {
            return Err(Cause::UnknownPerson.at(0));
        }
        self.check_naming(1, named)
    }

    /// The strength that the word stands for, where what a grant names is in order.
    pub(super) fn check_passing(
        &self,
        giver: Person,
        receiver: Person,
        named: Named,
    ) -> Result<S, RegisterFault>
        ensures { Checks (passing S.kind (rules self.now.book.now) (state_of self.now).lots giver receiver named.step named.word named.lot) (λ s. S.kind.of_word named.word ≡ Some s) result }
    {
        if self.is_nobody(giver) {
            return Err(Cause::UnknownPerson.at(0));
        }
        if self.is_nobody(receiver) {
            return Err(Cause::UnknownPerson.at(1));
        }
        self.check_naming(2, named)
    }
}
