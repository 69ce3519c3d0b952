// What covers what and who plays what, as tables of flags. They differ in how they are filled, and in what is so out of range.
ghost use Rattle.std.specs.Prelude.{◌≡◌, ℕ, ◌<◌, true, length, slice_set, IfOk};
ghost use Rattle.book.specs.Flags.{Clear, Raised};

mod covering;
mod playing;

pub(crate) use covering::{Covering, covering_table, covers};
pub(crate) use playing::{Playing, playing_table, plays};
use std::alloc::{AllocError, Global};

/// A table of this many rows, in which no flag is raised. It is made row by row, since a whole one would lie on the stack first.
fn clear_table<const N: usize>(heap: Global, rows: usize) -> Result<Vec<[bool; N]>, AllocError>
    ensures { IfOk result (λ v. (length v.items ≡ rows) × Clear v.items) }
{
    vec![in heap; [false; N]; rows]
}

/// Raises a flag of a row.
fn raise<const N: usize>(row: &mut [bool; N], column: usize)
    requires { column < N }
    ensures new { row.new ≡ slice_set row.old column true }
    ensures raised { Raised row.new column }
    ensures grows { (b : ℕ) → Raised row.old b → Raised row.new b }
{
    row[column] = true;
}
