// Setting a register up.
ghost use Rattle.std.specs.Prelude.{◌≡◌, ◌≤◌, length};
ghost use Rattle.register.specs.Shape.{state_of};
ghost use Rattle.register.specs.State.{empty};

use super::Register;
use crate::records::Record;
use crate::table::Table;
use arrayvec::ArrayVec;
use book::Book;
use delegation::Grant;
use strength::Strength;

impl<'b, 'g, 'r, S: Strength> Register<'b, 'g, 'r, S> {
    /// A register in which nothing is open, over arrays that `check_arrays` finds long enough.
    /// Whatever they hold counts as nothing, and stays until it is written over.
    pub fn new(
        book: &'b Book<S>,
        grants: &'g mut [Grant<S>],
        records: &'r mut [Record],
    ) -> Register<'b, 'g, 'r, S>
        requires { (512 ≤ length grants.old) × (1024 ≤ length records.old) }
        ensures state { state_of result ≡ empty S }
        ensures grants { result.grants.places.now ≡ grants.old }
        ensures records { result.records.places.now ≡ records.old }
        ensures lender { result.grants.places.ghost_name ≡ grants.entry.ghost_name }
        ensures recorder { result.records.places.ghost_name ≡ records.entry.ghost_name }
        ensures book { result.book.now ≡ book.now }
    {
        Register {
            book,
            grants: Table::new(grants),
            records: Table::new(records),
            lots: ArrayVec::new(),
        }
    }
}
