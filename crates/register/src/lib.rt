//! A register of grants: lots are opened and closed, rights are passed on, and people ask what they
//! are entitled to.
#![tactic(auto)]

mod calls;
mod checks;
mod faults;
mod records;
mod register;
mod table;

pub use calls::Call;
pub use checks::{MOST_RECORDS, check_arrays};
pub use delegation::MOST_GRANTS;
pub use faults::{Cause, RegisterFault};
pub use records::Record;
pub use register::Register;
