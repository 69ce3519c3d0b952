// What numbers are of: a noun before them, in the singular or the plural.
ghost use Rattle.std.specs.Prelude.{◌≡◌, ◌≢◌};

use crate::numbers::Numbers;
use std::fmt;

/// The words for none, one and several of a thing.
#[derive(Clone, Copy, Debug, PartialEq, Eq)]
pub struct Noun {
    none: &'static str,
    one: &'static str,
    many: &'static str,
}

pub const MARKS: Noun = Noun {
    none: "no marks",
    one: "marks",
    many: "marks",
};

pub const MASK: Noun = Noun {
    none: "no mask",
    one: "mask",
    many: "mask",
};

pub const POSTS: Noun = Noun {
    none: "no post",
    one: "post",
    many: "posts",
};

pub const STEPS: Noun = Noun {
    none: "no other step",
    one: "step",
    many: "steps",
};

/// The word for so many.
pub fn counted(count: u64, one: &'static str, many: &'static str) -> &'static str
    ensures singular { count ≡ 1 → result.now ≡ one.now }
    ensures plural { (count ≢ 1) → result.now ≡ many.now }
{
    if count == 1 { one } else { many }
}

/// Numbers after their noun.
#[derive(Drop)]
pub struct Listed(pub Numbers, pub Noun);

impl fmt::Display for Listed {
    fn fmt<W: fmt::Write>(&self, f: &mut fmt::Formatter<W>) -> fmt::Result {
        let Listed(numbers, noun) = *self;
        let count = numbers.count();
        if count == 0 {
            return write!(f, "{}", noun.none);
        }
        write!(
            f,
            "{} {numbers}",
            counted(count as u64, noun.one, noun.many)
        )
    }
}
