// Any call.
ghost use Rattle.std.specs.Prelude.{◌↔◌};
ghost use Rattle.book.specs.Books.{rules};
ghost use Rattle.register.specs.Answers.{DueYes};
ghost use Rattle.register.specs.Causes.{causes};
ghost use Rattle.register.specs.Refusals.{Rising};
ghost use Rattle.register.specs.Replies.{ToldYes};
ghost use Rattle.register.specs.Shape.{Called, state_of};

use super::Register;
use crate::calls::Call;
use crate::faults::RegisterFault;
use strength::Strength;

impl<'b, 'g, 'r, S: Strength> Register<'b, 'g, 'r, S> {
    /// Makes a call. It is refused for the first cause that holds, and their numbers rise. A question
    /// is told yes exactly when that is due.
    pub fn send(&mut self, call: Call) -> Result<u64, RegisterFault>
        ensures called { Called S.kind call result self.old self.new }
        ensures told { ToldYes call result ↔ DueYes S.kind (rules self.old.book.now) (state_of self.old) call }
        ensures rising { Rising (causes S.kind (rules self.old.book.now) (state_of self.old) call) }
    {
        // Calls are values, which lines are read as, so they are no closures.
        match call {
            Call::Open { lot } => self.open_lot(lot),
            Call::Close { lot } => self.close_lot(lot),
            Call::Entitled {
                person,
                step,
                word,
                lot,
            } => self.entitled(person, step, word, lot),
            Call::Grant {
                giver,
                receiver,
                step,
                word,
                lot,
            } => self.grant(giver, receiver, step, word, lot),
        }
    }
}
