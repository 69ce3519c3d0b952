// Writing a book.
ghost use Rattle.std.specs.Prelude.{◌≡◌, ◌+◌, ◌*◌, ◌<◌, ◌≤◌, map, length};
ghost use Rattle.book.specs.Words.{bytes_of, spelled};
ghost use Rattle.book.specs.Layouts.{flat};
ghost use Rattle.book.specs.Rules.{said, sizes_in};
ghost use Rattle.book.specs.Over.{over};
ghost use Rattle.book.specs.Books.{Rereads, Writes, rules};

use super::Book;
use crate::faults::{Cause, Refusal};
use crate::form::Sizes;
use crate::layout::Row;
use crate::plan::Plan;
use crate::rows::Rows;
use crate::words::{First, Second, Whole, WordOf};
use strength::{Marks, Strength};

/// Writes a word at this place, and answers the place after it.
fn put_word(out: &mut [u8], place: usize, word: u64) -> usize
    requires { place + 8 ≤ length out.old }
    ensures after { out.new ≡ over out.old place (bytes_of word) }
    ensures value { result ≡ place + 8 }
{
    let end = place + 8;
    out[place..end].copy_from_slice(&word.to_le_bytes());
    end
}

// The chunks that as_chunks_mut lends promise nothing of what the slice ends as, so words go to places.
/// Writes a column of words from this place on, and answers the place after them.
fn put_column<R: Copy, W: WordOf<R>>(out: &mut [u8], place: usize, rows: &[R]) -> usize
    requires { place + 8 * length rows.now ≤ length out.old }
    ensures after { out.new ≡ over out.old place (spelled (map W.in_row rows.now)) }
    ensures value { result ≡ place + 8 * length rows.now }
{
    let mut end = place;
    for row in rows {
        end = put_word(out, end, W::in_row(*row));
    }
    end
}

/// Writes the two columns of a table from this place on, and answers the place after them.
fn put_table<R: Row>(out: &mut [u8], place: usize, rows: &[R]) -> usize
    requires { place + 16 * length rows.now ≤ length out.old }
    ensures after { out.new ≡ over out.old place (spelled (flat R.layout rows.now)) }
    ensures value { result ≡ place + 16 * length rows.now }
{
    let middle = put_column::<R, First>(out, place, rows);
    put_column::<R, Second>(out, middle, rows)
}

impl<S> Rows<S> {
    /// The sizes of these rows.
    pub(crate) fn sizes(&self) -> Sizes
        ensures { result ≡ sizes_in (said self.now) }
    {
        Sizes {
            people: self.marks.len() as u64,
            posts: self.posts,
            steps: self.steps,
            plays: self.plays.len() as u64,
            covers: self.covers.len() as u64,
            holds: self.holds.len() as u64,
            bars: self.bars.len() as u64,
            clashes: self.clashes.len() as u64,
        }
    }
}

impl<S> Book<S> {
    fn plan(&self) -> Plan
        ensures { result.sizes ≡ sizes_in (rules self.now) }
    {
        Plan {
            sizes: self.rows.sizes(),
        }
    }
}

/// Writes a book, and answers its length; a buffer that is too short is refused, and nothing is written.
pub fn write<S: Strength>(book: &Book<S>, out: &mut [u8]) -> Result<usize, Refusal>
    ensures writes { Writes S.kind (rules book.now) out.old out.new result }
    ensures rereads { Rereads S.kind book.now }
{
    let plan = book.plan();
    let due = plan.due();
    if out.len() < due {
        return Err((Cause::ShortBuffer, due));
    }
    let place = put_column::<u64, Whole>(out, 0, &plan.sizes.listed());
    let place = put_column::<Marks, Whole>(out, place, &book.rows.marks);
    let place = put_table(out, place, &book.rows.plays);
    let place = put_table(out, place, &book.rows.covers);
    let place = put_table(out, place, &book.rows.holds);
    let place = put_table(out, place, &book.rows.bars);
    let _end = put_table(out, place, &book.rows.clashes);
    Ok(due)
}
