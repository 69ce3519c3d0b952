// What a register holds.

mod granting;
mod grants;
mod lots;
mod making;
mod naming;
mod sending;

use crate::checks::{MOST_LOTS, MOST_RECORDS};
use crate::records::Record;
use crate::table::Table;
use arrayvec::ArrayVec;
use book::{Book, Lot};
use delegation::{Grant, MOST_GRANTS};

/// The open lots, the grants that stand on them and what was recorded there, under the rules of a
/// book. Grants and records lie in arrays of the caller's.
#[derive(Drop)]
pub struct Register<'b, 'g, 'r, S> {
    book: &'b Book<S>,
    grants: Table<'g, Grant<S>, MOST_GRANTS>,
    records: Table<'r, Record, MOST_RECORDS>,
    lots: ArrayVec<Lot, MOST_LOTS>,
}
