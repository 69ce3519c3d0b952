// Reading a book.
ghost use Rattle.std.specs.Prelude.{◌≡◌, ℕ, ◌+◌, ◌*◌, ◌<◌, ◌≤◌, true, map, length, is_some, IfOk, None, slice_index};
ghost use Rattle.book.specs.Words.{word_of};
ghost use Rattle.book.specs.Layouts.{TableAt};
ghost use Rattle.book.specs.Form.{due, judged, last_at, sizes_of};
ghost use Rattle.book.specs.Rules.{fits, said, words_in};
ghost use Rattle.book.specs.Books.{Reads};
ghost use Rattle.book.specs.Least.{FirstCause};

use super::Book;
use crate::faults::BookFault;
use crate::judging::check;
use crate::layout::Row;
use crate::plan::Plan;
use crate::rows::{Clash, Cover, Entry, Play, Rows};
use crate::sizes::SIZES;
use crate::words::{Whole, WordOf};
use std::alloc::{AllocError, Global};
use strength::{Marks, Strength};

/// The marks that these words say.
fn read_marks(heap: Global, words: &[[u8; 8]]) -> Result<Vec<Marks>, AllocError>
    requires { (j : ℕ) → j < length words.now → slice_index (map word_of words.now) j < 16777216 }
    ensures { IfOk result (λ v. map (λ m. m.0) v.items ≡ map word_of words.now) }
{
    words
        .iter()
        .map(|word| Marks(Whole::in_row(*word) as u32))
        .collect(heap)
}

/// The row that two words say.
fn read_row<R: Row>(first: [u8; 8], second: [u8; 8]) -> R
    requires { is_some (R.layout.of_words (word_of first) (word_of second)) ≡ true }
    ensures { (R.layout.first_word result ≡ word_of first) × (R.layout.second_word result ≡ word_of second) }
{
    R::from_words(Whole::in_row(first), Whole::in_row(second)).unwrap()
}

/// The rows that two columns say.
fn read_rows<R: Row>(
    heap: Global,
    firsts: &[[u8; 8]],
    seconds: &[[u8; 8]],
) -> Result<Vec<R>, AllocError>
    requires same { length firsts.now ≡ length seconds.now }
    requires lawful { (j : ℕ) → j < length firsts.now → is_some (R.layout.of_words (slice_index (map word_of firsts.now) j) (slice_index (map word_of seconds.now) j)) ≡ true }
    ensures { IfOk result (λ v. (map R.layout.first_word v.items ≡ map word_of firsts.now) × (map R.layout.second_word v.items ≡ map word_of seconds.now)) }
{
    firsts
        .iter()
        .zip(seconds)
        .map(|(first, second)| read_row(*first, *second))
        .collect(heap)
}

/// The rows of a table of this size whose first column begins at this place.
fn read_table<R: Row>(
    heap: Global,
    words: &[[u8; 8]],
    place: usize,
    size: u64,
) -> Result<Vec<R>, AllocError>
    requires room { place + 2 * size ≤ length words.now }
    requires lawful { (j : ℕ) → j < size → is_some (R.layout.of_words (slice_index (map word_of words.now) (place + j)) (slice_index (map word_of words.now) (place + size + j))) ≡ true }
    ensures { IfOk result (λ v. TableAt R.layout (map word_of words.now) place size v.items) }
{
    let middle = place + size as usize;
    let end = middle + size as usize;
    read_rows(heap, &words[place..middle], &words[middle..end])
}

/// The rows that sound words say.
fn read_all<S: Strength>(heap: Global, words: &[[u8; 8]], plan: Plan) -> Result<Rows<S>, AllocError>
    requires sound { judged S.kind (due plan.sizes) plan.sizes (map word_of words.now) ≡ None }
    requires sizes { plan.sizes ≡ sizes_of (map word_of words.now) }
    requires long { length words.now ≡ last_at plan.sizes + plan.sizes.clashes }
    ensures { IfOk result (λ rows. (fits (said rows) ≡ true) × (words_in S.kind (said rows) ≡ map word_of words.now)) }
{
    let sizes = plan.sizes;
    let places = plan.places();
    let marks = read_marks(heap, &words[SIZES..places.plays])?;
    let plays: Vec<Play> = read_table(heap, words, places.plays, sizes.plays)?;
    let covers: Vec<Cover> = read_table(heap, words, places.covers, sizes.covers)?;
    let holds: Vec<Entry<S>> = read_table(heap, words, places.holds, sizes.holds)?;
    let bars: Vec<Entry<S>> = read_table(heap, words, places.bars, sizes.bars)?;
    let clashes: Vec<Clash> = read_table(heap, words, places.clashes, sizes.clashes)?;
    Ok(Rows {
        posts: sizes.posts,
        steps: sizes.steps,
        marks,
        plays,
        covers,
        holds,
        bars,
        clashes,
    })
}

/// The book that these bytes say, or why they say none.
pub fn read<S: Strength>(heap: Global, bytes: &[u8]) -> Result<Book<S>, BookFault>
    ensures reads { Reads S.kind bytes.now result }
    ensures first { FirstCause S.kind bytes.now }
{
    let plan = check::<S>(bytes)?;
    let (words, _none) = bytes.as_chunks::<8>();
    let rows = read_all::<S>(heap, words, plan)?;
    let book = Book::index(heap, rows)?;
    Ok(book)
}
