// The limits of a register, and the check of its arrays.
ghost use Rattle.std.specs.Prelude.{◌≤◌};
ghost use Rattle.register.specs.Causes.{short_arrays};
ghost use Rattle.register.specs.Refusals.{Checks};

use crate::faults::{Cause, RegisterFault};
use delegation::MOST_GRANTS;

/// Lots are numbered up to this.
pub(crate) const LAST_LOT: u64 = 65_535;

/// How many lots are open at most.
pub(crate) const MOST_LOTS: usize = 32;

/// How many records there are at most.
pub const MOST_RECORDS: usize = 1024;

/// Whether arrays of these lengths have room for the grants and the records of a register.
pub fn check_arrays(grants: usize, records: usize) -> Result<(), RegisterFault>
    ensures { Checks (short_arrays grants records) (λ _. (512 ≤ grants) × (1024 ≤ records)) result }
{
    if grants < MOST_GRANTS || records < MOST_RECORDS {
        return Err(Cause::ShortArrays.at(0));
    }
    Ok(())
}
