// Where the parts of a book lie, by its sizes.
ghost use Rattle.std.specs.Prelude.{◌≡◌, ◌≤◌, IfOk};
ghost use Rattle.std.specs.Result.{result_err};
ghost use Rattle.book.specs.Form.{Small, due, in_sizes, last_at};
ghost use Rattle.book.specs.Places.{places};

use crate::checks::{check_sizes, total};
use crate::faults::Refusal;
use crate::form::{Places, Sizes};
use crate::sizes::{SIZES, columns_of, size_limits};

/// Sizes within their limits.
#[derive(Clone, Copy, Debug, PartialEq, Eq)]
pub(crate) struct Plan {
    pub(crate) sizes: Sizes,
    ghost small: { Small sizes },
}

impl Sizes {
    /// The plan of a book with these sizes, or the refusal of a size.
    pub(crate) fn plan(self) -> Result<Plan, Refusal>
        ensures fault { result_err result ≡ in_sizes self }
        ensures sizes { IfOk result (λ p. p.sizes ≡ self) }
    {
        check_sizes(&self.listed(), &size_limits())?;
        Ok(Plan { sizes: self })
    }
}

impl Plan {
    /// Where the tables begin.
    pub(crate) fn places(self) -> Places
        ensures { result ≡ places self.sizes }
    {
        let sizes = self.sizes;
        let plays = SIZES + sizes.people as usize;
        let covers = plays + 2 * sizes.plays as usize;
        let holds = covers + 2 * sizes.covers as usize;
        let bars = holds + 2 * sizes.holds as usize;
        let clashes = bars + 2 * sizes.bars as usize;
        Places {
            plays,
            covers,
            holds,
            bars,
            clashes,
        }
    }

    /// The place of the last column.
    pub(crate) fn last(self) -> usize
        ensures value { result ≡ last_at self.sizes }
        ensures bound { result ≤ 4872 }
    {
        SIZES + total(&columns_of(self.sizes)) as usize
    }

    /// How many bytes the book has.
    pub(crate) fn due(self) -> usize
        ensures { result ≡ due self.sizes }
    {
        8 * (self.last() + self.sizes.clashes as usize)
    }
}
