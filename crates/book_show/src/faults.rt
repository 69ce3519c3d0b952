// Why a book is refused, in words.
ghost use Rattle.std.specs.Prelude.{◌≡◌, ◌≤◌, MatchOption};
ghost use Rattle.book_show.specs.Limits.{limit_at};

use book::{Cause, Limit, Refusal, SIZES, size_limits};
use std::fmt;

/// A refusal as a sentence.
#[derive(Drop)]
pub struct Refused(pub Refusal);

/// What each size counts, in file order.
const NAMES: [&str; SIZES] = [
    "people", "posts", "steps", "plays", "covers", "holds", "bars", "clashes",
];

/// What the size at this place counts, and its limits.
fn size_at(place: usize) -> Option<(&'static str, Limit)>
    ensures { MatchOption result (8 ≤ place) (λ size. size.1 ≡ limit_at place) }
{
    let name = NAMES.get(place)?;
    let limit = size_limits().get(place).copied()?;
    Some((*name, limit))
}

/// The sentence about a size outside its limits.
#[derive(Drop)]
struct BadSize(usize);

impl fmt::Display for BadSize {
    fn fmt<W: fmt::Write>(&self, f: &mut fmt::Formatter<W>) -> fmt::Result {
        match size_at(self.0) {
            Some((name, Limit { least, most })) => write!(
                f,
                "the number of {name} is outside its limits, {least} to {most}"
            ),
            None => write!(f, "a size is outside its limits"),
        }
    }
}

impl fmt::Display for Refused {
    fn fmt<W: fmt::Write>(&self, f: &mut fmt::Formatter<W>) -> fmt::Result {
        let (cause, place) = self.0;
        write!(f, "refused with {} at {place}: ", cause.number())?;
        match cause {
            Cause::ShortBook => write!(
                f,
                "the book is shorter than its eight sizes; it has {place} bytes"
            ),
            Cause::SizeOutOfLimits => write!(f, "{}", BadSize(place)),
            Cause::WrongLength => write!(
                f,
                "the length is not what the sizes say; {place} bytes are due"
            ),
            Cause::OutOfRange => write!(f, "word {place} is a number out of range"),
            Cause::UnlawfulWord => {
                write!(f, "word {place} is the word of no strength of this line")
            }
            Cause::SelfClash => write!(f, "word {place} makes a step clash with itself"),
            Cause::ShortBuffer => write!(f, "the book is not sound"),
        }
    }
}
