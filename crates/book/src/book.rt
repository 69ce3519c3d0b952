// A book.
ghost use Rattle.std.specs.Prelude.{◌≡◌, true};
ghost use Rattle.book.specs.Covering.{CoveringExact};
ghost use Rattle.book.specs.Playing.{PlayingExact};
ghost use Rattle.book.specs.Rules.{fits, said};

pub mod making;
pub mod reads;
pub mod rereads;
pub mod rows;
pub mod writes;

use crate::rows::Rows;
use crate::tables::{Covering, Playing};

/// Who there is, and who may do what. Its sizes are within their limits, its numbers are in range, and its
/// tables are those of its rows.
#[derive(Drop)]
pub struct Book<S> {
    rows: Rows<S>,
    covering: Vec<Covering>,
    playing: Vec<Playing>,
    ghost fit: { fits {S = S} (said rows) ≡ true },
    ghost covered: { CoveringExact rows.covers.items covering.items },
    ghost played: { PlayingExact rows.plays.items playing.items },
}
