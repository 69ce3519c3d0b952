// From a line to a call.
ghost use Rattle.std.specs.Prelude.{◌≡◌};
ghost use Rattle.script.specs.Grammar.{cut};
ghost use Rattle.script.specs.Parsed.{arity, called, commanded, first, known, lettered, parsed};

use crate::faults::{Cause, Refusal};
use crate::fields::{count, numbers};
use book::{Lot, Person, Step};
use register::Call;

/// The longest line, without the byte that ends it.
const LONGEST_LINE: usize = 120;

// Lines name commands, so they are values, matched where something is asked of them, and no closures.
/// What the first field of a line asks for.
#[derive(Clone, Copy, Debug, PartialEq, Eq)]
pub enum Command {
    Opening,
    Closing,
    Asking,
    Granting,
}

// One match on chars, as docs/DECISIONS.md says: a letter and its command stand side by side.
impl TryFrom<char> for Command {
    type Error = Refusal;

    ghost try_from_gives = { λ letter r. r ≡ known (commanded letter) };

    fn try_from(letter: char) -> Result<Command, Refusal> {
        match letter {
            'o' => Ok(Command::Opening),
            'c' => Ok(Command::Closing),
            'm' => Ok(Command::Asking),
            'g' => Ok(Command::Granting),
            _ => Err((Cause::UnknownLetter, 0)),
        }
    }
}

/// The command of a line: its first field is exactly one known letter.
fn command_of(line: &[u8]) -> Result<Command, Refusal>
    ensures { result ≡ known (lettered (first (cut 32 line.now))) }
{
    match line {
        [letter] | [letter, b' ', ..] => Command::try_from(char::from(*letter)),
        _ => Err((Cause::UnknownLetter, 0)),
    }
}

impl Command {
    /// How many fields follow the letter.
    fn fields_due(self) -> usize
        ensures { result ≡ arity self }
    {
        match self {
            Command::Opening | Command::Closing => 1,
            Command::Asking => 4,
            Command::Granting => 5,
        }
    }

    /// The call of these numbers.
    fn call(self, v: [u64; 5]) -> Call
        ensures { result ≡ called self v }
    {
        match self {
            Command::Opening => Call::Open { lot: Lot(v[0]) },
            Command::Closing => Call::Close { lot: Lot(v[0]) },
            Command::Asking => Call::Entitled {
                person: Person(v[0]),
                step: Step(v[1]),
                word: v[2],
                lot: Lot(v[3]),
            },
            Command::Granting => Call::Grant {
                giver: Person(v[0]),
                receiver: Person(v[1]),
                step: Step(v[2]),
                word: v[3],
                lot: Lot(v[4]),
            },
        }
    }
}

/// The call that a line writes, or its refusal.
pub fn parse(line: &[u8]) -> Result<Call, Refusal>
    ensures { result ≡ parsed line.now }
{
    if line.len() > LONGEST_LINE {
        return Err((Cause::LongLine, LONGEST_LINE));
    }
    let command = command_of(line)?;
    let n = count(line);
    if n != command.fields_due() {
        return Err((Cause::FieldCount, n));
    }
    let values = numbers(line)?;
    Ok(command.call(values))
}
