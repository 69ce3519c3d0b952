// Passing rights on, and asking who is entitled.
ghost use Rattle.book.specs.Books.{rules};
ghost use Rattle.delegation.specs.Rights.{Entitled};
ghost use Rattle.register.specs.Replies.{Says};
ghost use Rattle.register.specs.Shape.{Called, state_of};
ghost use Rattle.register.specs.declared.calls.Call.TheVariants.{Entitled as Asks, Grant as Grants};

use super::Register;
use super::naming::Named;
use crate::faults::RegisterFault;
use book::{Lot, Person, Step};
use delegation::{Grant, Question, Right, entitled};
use strength::Strength;

impl<'b, 'g, 'r, S: Strength> Register<'b, 'g, 'r, S> {
    /// Answers 1 if the person is entitled to the right on the lot, else 0.
    // A number and no bool, since the rules have every call told a number.
    fn answer(&self, question: Question<S>) -> u64
        ensures { Says (Entitled S.kind (rules self.now.book.now) (state_of self.now).grants question.person question.right question.lot) result }
    {
        u64::from(entitled(self.book, self.grants.rows(), question))
    }

    /// Answers 1 if the person is entitled on the lot to the step at the strength that the word
    /// stands for, else 0.
    pub fn entitled(
        &mut self,
        person: Person,
        step: Step,
        word: u64,
        lot: Lot,
    ) -> Result<u64, RegisterFault>
        ensures { Called S.kind (Asks person step word lot) result self.old self.new }
    {
        let named = Named { step, word, lot };
        let strength = self.check_asking(person, named)?;
        let right = Right { step, strength };
        let question = Question { person, right, lot };
        Ok(self.answer(question))
    }

    /// Passes a right on for the lot, and answers how many grants stand on it now.
    pub fn grant(
        &mut self,
        giver: Person,
        receiver: Person,
        step: Step,
        word: u64,
        lot: Lot,
    ) -> Result<u64, RegisterFault>
        ensures { Called S.kind (Grants giver receiver step word lot) result self.old self.new }
    {
        let named = Named { step, word, lot };
        let strength = self.check_passing(giver, receiver, named)?;
        let right = Right { step, strength };
        let grant = Grant {
            giver,
            receiver,
            right,
            lot,
        };
        self.check_granting(grant)?;
        Ok(self.grants.add(grant) as u64)
    }
}
