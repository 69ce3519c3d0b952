// Which step covers which: row by row, until a round over the rows changes nothing.
ghost use Rattle.std.specs.Prelude.{◌≡◌, ℕ, ◌<◌, true, false, ◌⊎◌, List, length, IfOk, Decides};
ghost use Rattle.book.specs.Covering.{Covers, CoveringExact, StepsInRange, TellsCovering};
ghost use Rattle.book.specs.Flags.{Clear, Grows, Raised, lowered, unset};
ghost use Rattle.book.specs.Passing.{AllPassed, OnlyPassed, OnlySelves, RowPassed, Selves, Sound};

use super::{clear_table, raise};
use crate::rows::{Cover, Step};
use crate::sizes::MOST_STEPS;
use std::alloc::{AllocError, Global};

/// Which steps a step covers.
pub(crate) type Covering = [bool; MOST_STEPS];

// Each step covers itself.
fn mark_selves(table: &mut [Covering])
    requires size { length table.old ≡ 64 }
    requires clear { Clear table.old }
    ensures only { OnlySelves table.new }
    ensures selves { Selves table.new 64 }
{
    for (step, covered) in table.iter_mut().enumerate() {
        raise(covered, step);
    }
}

// Where a step that covers these covers the stronger step, it covers the weaker one; whether that is new.
fn pass_step(covered: &mut Covering, stronger: usize, weaker: usize) -> bool
    requires { (stronger < 64) × (weaker < 64) }
    ensures only { (b : ℕ) → Raised covered.new b → Raised covered.old b ⊎ ((b ≡ weaker) × Raised covered.old stronger) }
    ensures grows { (b : ℕ) → Raised covered.old b → Raised covered.new b }
    ensures passed { Raised covered.new stronger → Raised covered.new weaker }
    ensures fewer { result ≡ true → lowered covered.new < lowered covered.old }
    ensures same { result ≡ false → covered.new ≡ covered.old }
{
    if !covered[stronger] || covered[weaker] {
        return false;
    }
    raise(covered, weaker);
    true
}

// Each step that covers the row's stronger step covers its weaker one; whether that is new of any.
fn pass_row(row: Cover, table: &mut [Covering]) -> bool
    requires { (row.stronger.0 < 64) × (row.weaker.0 < 64) }
    ensures only { OnlyPassed row.stronger.0 row.weaker.0 table.old table.new }
    ensures grows { Grows table.old table.new }
    ensures passed { RowPassed table.new row }
    ensures fewer { result ≡ true → unset table.new < unset table.old }
    ensures same { result ≡ false → table.new ≡ table.old }
{
    let stronger = row.stronger.0 as usize;
    let weaker = row.weaker.0 as usize;
    let mut changed = false;
    for covered in table.iter_mut() {
        if pass_step(covered, stronger, weaker) {
            changed = true;
        }
    }
    changed
}

// Rows in range are no type: one would be made just once, of rows that the book's check has passed, and would ask the same.
// One pass of each row; whether the table changed.
fn pass_rows(rows: &[Cover], table: &mut [Covering]) -> bool
    requires range { StepsInRange rows.now }
    requires sound { Sound rows.now table.old }
    ensures sound { Sound rows.now table.new }
    ensures grows { Grows table.old table.new }
    ensures fewer { result ≡ true → unset table.new < unset table.old }
    ensures passed { result ≡ false → AllPassed rows.now table.new }
{
    let mut changed = false;
    for row in rows {
        if pass_row(*row, table) {
            changed = true;
        }
    }
    changed
}

// Completes a table in which each step covers just itself: rounds over the rows, until one changes nothing.
fn close(rows: &[Cover], table: &mut [Covering])
    requires range { StepsInRange rows.now }
    requires only { OnlySelves table.old }
    requires selves { Selves table.old 64 }
    ensures { TellsCovering rows.now table.new }
{
    while pass_rows(rows, table) {}
}

// The table of what covers what.
pub(crate) fn covering_table(heap: Global, rows: &[Cover]) -> Result<Vec<Covering>, AllocError>
    requires { StepsInRange rows.now }
    ensures { IfOk result (λ v. CoveringExact rows.now v.items) }
{
    let mut table = clear_table(heap, MOST_STEPS)?;
    mark_selves(&mut table);
    close(rows, &mut table);
    Ok(table)
}

// Whether the stronger step covers the weaker one, for all rows whose table this is.
pub(crate) fn covers(table: &[Covering], stronger: Step, weaker: Step) -> bool
    requires { length table.now ≡ 64 }
    ensures { (rows : List Cover) → CoveringExact rows table.now → Decides result (Covers rows stronger.0 weaker.0) }
{
    let a = stronger.0 as usize;
    let b = weaker.0 as usize;
    if a < MOST_STEPS && b < MOST_STEPS {
        table[a][b]
    } else {
        a == b
    }
}
