// The checks of a grant against the grants that stand.
ghost use Rattle.std.specs.Prelude.{◌<◌, length};
ghost use Rattle.book.specs.Books.{rules};
ghost use Rattle.delegation.specs.Rights.{Backed};
ghost use Rattle.register.specs.Causes.{backing, granting, joining};
ghost use Rattle.register.specs.Refusals.{Checks};
ghost use Rattle.register.specs.Shape.{state_of};

use super::Register;
use crate::faults::{Cause, RegisterFault};
use delegation::{Grant, MOST_GRANTS, backed, first_bar, stands};
use strength::Strength;

impl<'b, 'g, 'r, S: Strength> Register<'b, 'g, 'r, S> {
    /// Whether a right of the giver on the lot backs a grant to somebody else.
    fn check_backing(&self, grant: Grant<S>) -> Result<(), RegisterFault>
        ensures { Checks (backing S.kind (rules self.now.book.now) (state_of self.now).grants grant) (λ _. Backed S.kind (rules self.now.book.now) (state_of self.now).grants grant) result }
    {
        if grant.giver == grant.receiver {
            return Err(Cause::GiverIsReceiver.at(0));
        }
        if !backed(self.book, self.grants.rows(), grant) {
            return Err(Cause::NotBacked.at(0));
        }
        Ok(())
    }

    /// Whether no bar forbids a grant, and it is none of those that stand, and there is room for it.
    fn check_joining(&self, grant: Grant<S>) -> Result<(), RegisterFault>
        ensures { Checks (joining S.kind (rules self.now.book.now) (state_of self.now).grants grant) (λ _. self.now.grants.used < 512) result }
    {
        if let Some(bar) = first_bar(self.book, grant) {
            return Err(Cause::Barred.at(bar));
        }
        let grants = self.grants.rows();
        if stands(grants, grant) {
            return Err(Cause::AlreadyStands.at(0));
        }
        if grants.len() == MOST_GRANTS {
            return Err(Cause::TooManyGrants.at(0));
        }
        Ok(())
    }

    /// Whether a grant may join those that stand.
    pub(super) fn check_granting(&self, grant: Grant<S>) -> Result<(), RegisterFault>
        ensures { Checks (granting S.kind (rules self.now.book.now) (state_of self.now).grants grant) (λ _. Backed S.kind (rules self.now.book.now) (state_of self.now).grants grant × (self.now.grants.used < 512)) result }
    {
        self.check_backing(grant)?;
        self.check_joining(grant)
    }
}
