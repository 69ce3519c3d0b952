// The fields of a line.
ghost use Rattle.std.specs.Prelude.{◌≡◌, ◌+◌, ◌≤◌, length, drop};
ghost use Rattle.script.specs.Grammar.{cut, gathered, zeros};
ghost use Rattle.script.specs.Fields.{field_of};

use crate::digits::number;
use crate::faults::{Cause, Refusal};

// An enum of its own, as docs/DECISIONS.md says: number or word, borrowing the script's bytes, told with its place.
/// A field of a line: a part of the script itself, with its place after the letter, from 0.
#[derive(Clone, Copy, Debug, PartialEq, Eq)]
pub enum Field<'s> {
    /// 1 to 19 digits, and the number that they write.
    Number {
        text: &'s [u8],
        place: usize,
        value: u64,
    },
    /// Anything else.
    Word {
        text: &'s [u8],
        place: usize,
    },
}

/// The field at a place, told apart.
pub(crate) fn told_apart<'s>(text: &'s [u8], place: usize) -> Field<'s>
    ensures { result ≡ field_of text.entry place }
{
    match number(text) {
        Some(value) => Field::Number { text, place, value },
        None => Field::Word { text, place },
    }
}

/// How many fields follow the letter of a line: one after each space.
pub(crate) fn count(line: &[u8]) -> usize
    ensures { result + 1 ≡ length (cut 32 line.now) }
{
    line.iter().filter(|b| **b == b' ').count()
}

// Five places, zeros behind the last field: a vector would be asked for its length at each number of a call.
/// The numbers of the fields after the letter, at most five, or the place of the first that is none.
pub(crate) fn numbers(line: &[u8]) -> Result<[u64; 5], Refusal>
    requires { length (cut 32 line.now) ≤ 6 }
    ensures { result ≡ gathered 0 zeros (drop 1 (cut 32 line.now)) }
{
    let mut values = [0u64; 5];
    for (k, text) in line.split(|b| *b == b' ').skip(1).enumerate() {
        match told_apart(text, k) {
            Field::Number { value, .. } => values[k] = value,
            Field::Word { place, .. } => return Err((Cause::NotANumber, place)),
        }
    }
    Ok(values)
}
