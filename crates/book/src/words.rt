// Words of 64 bits, and where rows have them.
ghost use Rattle.std.specs.Prelude.{◌≡◌, ℕ};
ghost use Rattle.book.specs.Words.{word_of};

use crate::layout::Row;
use strength::Marks;

/// One of the words that each row of a kind has: a column of a table.
pub trait WordOf<R> {
    ghost in_row: { R → ℕ };

    fn in_row(row: R) -> u64
        ensures { result ≡ in_row row };
}

/// The one word that something has.
pub struct Whole;

/// The first of two.
pub struct First;

/// The second of two.
pub struct Second;

/// A file has words least byte first.
impl WordOf<[u8; 8]> for Whole {
    ghost in_row = { word_of };

    fn in_row(row: [u8; 8]) -> u64 {
        u64::from_le_bytes(row)
    }
}

impl WordOf<u64> for Whole {
    ghost in_row = { λ w. w };

    fn in_row(row: u64) -> u64 {
        row
    }
}

impl WordOf<Marks> for Whole {
    ghost in_row = { λ m. m.0 };

    fn in_row(row: Marks) -> u64 {
        u64::from(row.0)
    }
}

impl<R: Row> WordOf<R> for First {
    ghost in_row = { R.Row.layout.first_word };

    fn in_row(row: R) -> u64 {
        row.first_word()
    }
}

impl<R: Row> WordOf<R> for Second {
    ghost in_row = { R.Row.layout.second_word };

    fn in_row(row: R) -> u64 {
        row.second_word()
    }
}
