// Making a book of rows that the caller has.
ghost use Rattle.std.specs.Prelude.{◌≡◌, ◌+◌, ◌*◌, ◌^◌, ◌<◌, map, length, drop};
ghost use Rattle.std.specs.Result.{result_err};
ghost use Rattle.std.specs.List.{zip};
ghost use Rattle.book.specs.Causes.{cause, clash_cause, first, or_else};
ghost use Rattle.book.specs.Form.{columns, in_clashes, in_columns};
ghost use Rattle.book.specs.Books.{Makes, rows_refusal};
ghost use Rattle.book.specs.Rules.{said, sizes_in, words_in};

use super::Book;
use crate::checks::{check_clashes, check_column};
use crate::faults::{BookFault, Refusal};
use crate::form::Test;
use crate::layout::Row;
use crate::plan::Plan;
use crate::rows::{Clash, Cover, Entry, Play, Rows};
use crate::sizes::{SIZES, columns_of};
use crate::words::{First, Second, Whole};
use std::alloc::Global;
use strength::{Marks, Strength};

/// Whether the two columns of a table pass their tests; the first begins at this place.
fn check_table<S: Strength, R: Row>(
    rows: &[R],
    place: usize,
    one: Test,
    other: Test,
) -> Result<(), Refusal>
    requires { place + 2 * length rows.now < 2 ^ 64 }
    ensures { result_err result ≡ or_else (first (cause S.kind one) place (map R.layout.first_word rows.now)) (first (cause S.kind other) (place + length rows.now) (map R.layout.second_word rows.now)) }
{
    check_column::<S, R, First>(rows, place, one)?;
    check_column::<S, R, Second>(rows, place + rows.len(), other)
}

/// Whether the two columns of the clashes pass, which begin at these places.
fn check_clash_table<S: Strength>(
    rows: &[Clash],
    ones_at: usize,
    others_at: usize,
    test: Test,
    steps: u64,
) -> Result<(), Refusal>
    requires ones { ones_at + length rows.now < 2 ^ 64 }
    requires others { others_at + length rows.now < 2 ^ 64 }
    ensures { result_err result ≡ or_else (first (cause S.kind test) ones_at (map (λ p. p.one.0) rows.now)) (first (clash_cause steps) others_at (zip (map (λ p. p.one.0) rows.now) (map (λ p. p.other.0) rows.now))) }
{
    check_column::<S, Clash, First>(rows, ones_at, test)?;
    check_clashes::<Clash, Clash, First, Second>(rows, rows, others_at, steps)
}

/// Whether all words of rows pass, which have this plan.
fn check_tables<S: Strength>(rows: &Rows<S>, plan: Plan) -> Result<(), Refusal>
    requires { plan.sizes ≡ sizes_in (said rows.now) }
    ensures { result_err result ≡ or_else (in_columns S.kind (columns plan.sizes) 8 (drop 8 (words_in S.kind (said rows.now)))) (in_clashes plan.sizes (words_in S.kind (said rows.now))) }
{
    let [
        marks,
        people,
        posts,
        stronger,
        weaker,
        held,
        held_strengths,
        barred,
        barred_strengths,
        clashing,
    ] = columns_of(plan.sizes);
    let places = plan.places();
    let last = plan.last();
    let steps = plan.sizes.steps;
    check_column::<S, Marks, Whole>(&rows.marks, SIZES, marks.test)?;
    check_table::<S, Play>(&rows.plays, places.plays, people.test, posts.test)?;
    check_table::<S, Cover>(&rows.covers, places.covers, stronger.test, weaker.test)?;
    check_table::<S, Entry<S>>(&rows.holds, places.holds, held.test, held_strengths.test)?;
    check_table::<S, Entry<S>>(&rows.bars, places.bars, barred.test, barred_strengths.test)?;
    check_clash_table::<S>(&rows.clashes, places.clashes, last, clashing.test, steps)
}

/// Whether rows make a sound book; they are refused as the file is that they would be written to.
fn check_rows<S: Strength>(rows: &Rows<S>) -> Result<(), Refusal>
    ensures { result_err result ≡ rows_refusal S.kind (said rows.now) }
{
    let plan = rows.sizes().plan()?;
    check_tables(rows, plan)
}

impl<S: Strength> Book<S> {
    /// The book of these rows, or why they make none.
    pub fn from_rows(heap: Global, rows: Rows<S>) -> Result<Book<S>, BookFault>
        ensures { Makes S.kind (said rows) result }
    {
        check_rows(&rows)?;
        let book = Book::index(heap, rows)?;
        Ok(book)
    }
}
