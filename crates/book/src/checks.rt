// The checks of words, whether they lie in a file or in rows. A refusal is a cause and a place.
ghost use Rattle.std.specs.Prelude.{◌≡◌, ◌+◌, ◌^◌, ◌<◌, ◌≤◌, List, Option, map, length, drop};
ghost use Rattle.std.specs.Iterator.{AlwaysYields, IsFinite, size};
ghost use Rattle.std.specs.Result.{result_err};
ghost use Rattle.std.specs.List.{zip};
ghost use Rattle.book.specs.Words.{word_of};
ghost use Rattle.book.specs.Causes.{size_cause, cause, clash_cause, first};
ghost use Rattle.book.specs.Form.{total, in_columns};
ghost use Rattle.book.specs.declared.faults.Cause.{Cause};

use crate::faults::{Cause, Refusal};
use crate::form::{Column, Limit, Test};
use crate::words::{Whole, WordOf};
use strength::Strength;

/// What its limits find wrong with a size.
fn judge_size(limit: Limit, size: u64) -> Option<Cause>
    ensures { result ≡ size_cause (limit, size) }
{
    if limit.least <= size && size <= limit.most {
        None
    } else {
        Some(Cause::SizeOutOfLimits)
    }
}

/// Refuses the first cause, if there is one; places count from this one.
fn refuse_first<I: Iterator<Item = Option<Cause>>>(causes: I, place: usize) -> Result<(), Refusal>
    requires can { I.can_next causes }
    requires finite { IsFinite (I.remaining causes) }
    requires fits { place + size (I.remaining causes) < 2 ^ 64 }
    ensures { (cs : List (Option Cause)) → AlwaysYields I.next_gives (λ c. c) causes cs → result_err result ≡ first (λ c. c) place cs }
{
    for (i, cause) in causes.enumerate() {
        if let Some(cause) = cause {
            return Err((cause, place + i));
        }
    }
    Ok(())
}

/// Whether each size is within its limits; the place is the first that is not.
pub(crate) fn check_sizes<const N: usize>(
    sizes: &[u64; N],
    limits: &[Limit; N],
) -> Result<(), Refusal>
    ensures { result_err result ≡ first size_cause 0 (zip limits.now sizes.now) }
{
    let pairs = limits.iter().zip(sizes);
    refuse_first(pairs.map(|(limit, size)| judge_size(*limit, *size)), 0)
}

// Tests are data, which the definition of a book lists with its columns, so they are no closures.
/// What a test finds wrong with a word.
fn judge<S: Strength>(test: Test, word: u64) -> Option<Cause>
    ensures { result ≡ cause S.kind test word }
{
    match test {
        Test::Below(limit) if word < limit => None,
        // By hand: `Key::from_word` refuses posts from 64 on, and the limit of a test may be higher.
        Test::Key(posts, steps) if word / 64 < posts && word % 64 < steps => None,
        Test::Strength if S::from_word(word).is_some() => None,
        Test::Below(_) | Test::Key(..) => Some(Cause::OutOfRange),
        Test::Strength => Some(Cause::UnlawfulWord),
    }
}

// Rows and the place of their column are no struct, as each call would make one just to have it taken apart.
/// Whether this word of each row passes the test; the column begins at this place.
pub(crate) fn check_column<S: Strength, R: Copy, W: WordOf<R>>(
    rows: &[R],
    place: usize,
    test: Test,
) -> Result<(), Refusal>
    requires { place + length rows.now < 2 ^ 64 }
    ensures { result_err result ≡ first (cause S.kind test) place (map W.in_row rows.now) }
{
    let words = rows.iter().map(|row| W::in_row(*row));
    refuse_first(words.map(|word| judge::<S>(test, word)), place)
}

/// How many words the columns have.
pub(crate) fn total(columns: &[Column]) -> u64
    requires { total columns.now < 2 ^ 64 }
    ensures { result ≡ total columns.now }
{
    columns.iter().map(|column| column.size).sum()
}

/// Whether each word of each column passes its test; the first column begins at this place.
pub(crate) fn check_columns<S: Strength>(
    words: &[[u8; 8]],
    start: usize,
    columns: &[Column],
) -> Result<(), Refusal>
    requires room { start + total columns.now ≤ length words.now }
    requires fits { length words.now < 2 ^ 64 }
    ensures { result_err result ≡ in_columns S.kind columns.now start (drop start (map word_of words.now)) }
{
    let mut place = start;
    for column in columns {
        let end = place + column.size as usize;
        check_column::<S, [u8; 8], Whole>(&words[place..end], place, column.test)?;
        place = end;
    }
    Ok(())
}

/// What is wrong with the second step of a clash.
fn judge_clash(steps: u64, one: u64, other: u64) -> Option<Cause>
    ensures { result ≡ clash_cause steps (one, other) }
{
    if other >= steps {
        Some(Cause::OutOfRange)
    } else if one == other {
        Some(Cause::SelfClash)
    } else {
        None
    }
}

/// Whether each second step of a clash is in range and differs from the first; the second steps begin at this place.
pub(crate) fn check_clashes<A: Copy, B: Copy, V: WordOf<A>, W: WordOf<B>>(
    ones: &[A],
    others: &[B],
    place: usize,
    steps: u64,
) -> Result<(), Refusal>
    requires { place + length others.now < 2 ^ 64 }
    ensures { result_err result ≡ first (clash_cause steps) place (zip (map V.in_row ones.now) (map W.in_row others.now)) }
{
    let ones = ones.iter().map(|one| V::in_row(*one));
    let others = others.iter().map(|other| W::in_row(*other));
    let pairs = ones.zip(others);
    refuse_first(
        pairs.map(|(one, other)| judge_clash(steps, one, other)),
        place,
    )
}
