// What the program is given: its arguments.
ghost use Rattle.book_show.specs.Kinds.{ReadsKind};

use crate::failure::Failure;
use std::env;
use std::str::FromStr;

/// The line whose book it is, which says what its strengths are.
#[derive(Clone, Copy, Debug, PartialEq, Eq)]
pub enum Kind {
    Press,
    Malaxer,
}

impl FromStr for Kind {
    type Err = Failure;

    ghost from_str_gives = { ReadsKind };

    fn from_str(word: &str) -> Result<Kind, Failure> {
        match word {
            "press" => Ok(Kind::Press),
            "malaxer" => Ok(Kind::Malaxer),
            _ => Err(Failure::Usage),
        }
    }
}

/// The path of the book, and its kind.
pub fn arguments(rt: &HostRuntime) -> Result<(String, Kind), Failure> {
    let mut words = env::args(rt)?;
    let _program = words.next();
    let (Some(path), Some(word), None) = (words.next(), words.next(), words.next()) else {
        return Err(Failure::Usage);
    };
    Ok((path, word.parse()?))
}
