// Opening and closing lots.
ghost use Rattle.std.specs.Prelude.{◌<◌, length, ◌≢◌};
ghost use Rattle.book.specs.Books.{rules};
ghost use Rattle.delegation.specs.Found.{Filtered};
ghost use Rattle.register.specs.Causes.{causes, on_open_lot};
ghost use Rattle.register.specs.Refusals.{Checks};
ghost use Rattle.register.specs.Shape.{Called, Cleared, state_of};
ghost use Rattle.register.specs.declared.calls.Call.TheVariants.{Open, Close};

use super::Register;
use crate::checks::{LAST_LOT, MOST_LOTS};
use crate::faults::{Cause, RegisterFault};
use arrayvec::ArrayVec;
use book::Lot;
use strength::Strength;

/// Takes a lot out of the open ones.
fn shut(lots: &mut ArrayVec<Lot, MOST_LOTS>, lot: Lot)
    ensures { Filtered (λ l. l ≢ lot) lots.old.items lots.new.items }
{
    lots.retain(|other| *other != lot);
}

impl<'b, 'g, 'r, S: Strength> Register<'b, 'g, 'r, S> {
    /// Whether a lot may be opened beside those that are open.
    #[tactic(auto, using(crate::proofs::Lots::found_lot))]
    fn check_opening(&self, lot: Lot) -> Result<(), RegisterFault>
        ensures { Checks (causes S.kind (rules self.now.book.now) (state_of self.now) (Open lot)) (λ _. length (state_of self.now).lots < 32) result }
    {
        if lot.0 > LAST_LOT {
            return Err(Cause::LotOutOfRange.at(0));
        }
        let lots = self.lots.as_slice();
        if lots.contains(&lot) {
            return Err(Cause::LotAlreadyOpen.at(0));
        }
        if lots.len() == MOST_LOTS {
            return Err(Cause::TooManyLots.at(0));
        }
        Ok(())
    }

    /// Whether a lot, which is named at this place, is open.
    #[tactic(auto, using(crate::proofs::Lots::found_lot))]
    pub(super) fn check_open(&self, lot: Lot, place: usize) -> Result<(), RegisterFault>
        ensures { Checks (on_open_lot (state_of self.now).lots lot place) (λ _. Unit {0}) result }
    {
        if lot.0 > LAST_LOT {
            return Err(Cause::LotOutOfRange.at(place));
        }
        if !self.lots.contains(&lot) {
            return Err(Cause::LotNotOpen.at(place));
        }
        Ok(())
    }

    /// Opens a lot, and answers 0.
    pub fn open_lot(&mut self, lot: Lot) -> Result<u64, RegisterFault>
        ensures { Called S.kind (Open lot) result self.old self.new }
    {
        self.check_opening(lot)?;
        self.lots.push(lot);
        Ok(0)
    }

    /// Drops a lot with all that lies on it, and answers how many grants that were.
    fn clear_lot(&mut self, lot: Lot) -> u64
        ensures { Cleared lot result self.old self.new }
    {
        shut(&mut self.lots, lot);
        let went = self.grants.count_on(lot);
        self.grants.drop_lot(lot);
        self.records.drop_lot(lot);
        went as u64
    }

    /// Closes a lot with all that lies on it, and answers how many grants that were.
    pub fn close_lot(&mut self, lot: Lot) -> Result<u64, RegisterFault>
        ensures { Called S.kind (Close lot) result self.old self.new }
    {
        self.check_open(lot, 0)?;
        Ok(self.clear_lot(lot))
    }
}
