// Strengths in words.
ghost use Rattle.std.specs.Prelude.{◌/◌, ◌%◌, ◌++◌, if◌then◌else◌, Some, codes, decimal, nat_eq};

use crate::nouns::{Listed, MASK};
use crate::numbers::Numbers;
use std::fmt;
use strength::{Band, Count, Pair, Reach, Tenths};

/// A strength that can be put into words.
pub trait Describe: Copy {
    fn describe<W: fmt::Write>(self, f: &mut fmt::Formatter<W>) -> fmt::Result;
}

/// A strength in words.
#[derive(Drop)]
pub struct Described<S>(pub S);

impl<S: Describe> fmt::Display for Described<S> {
    fn fmt<W: fmt::Write>(&self, f: &mut fmt::Formatter<W>) -> fmt::Result {
        self.0.describe(f)
    }
}

#[derive(Drop)]
struct CountShown(Count);

impl fmt::Display for CountShown {
    ghost output = { λ c. Some (if nat_eq c.0.0 255 then codes "count without limit" else codes "count " ++ decimal c.0.0) };

    fn fmt<W: fmt::Write>(&self, f: &mut fmt::Formatter<W>) -> fmt::Result {
        if self.0 == Count::UNLIMITED {
            return write!(f, "count without limit");
        }
        let count = self.0.0;
        write!(f, "count {count}")
    }
}

#[derive(Drop)]
struct Degrees(Tenths);

impl fmt::Display for Degrees {
    ghost output = { λ d. Some (decimal (d.0.0 / 10) ++ (codes "." ++ decimal (d.0.0 % 10))) };

    fn fmt<W: fmt::Write>(&self, f: &mut fmt::Formatter<W>) -> fmt::Result {
        let whole = self.0.0 / 10;
        let tenth = self.0.0 % 10;
        write!(f, "{whole}.{tenth}")
    }
}

impl Describe for Reach {
    fn describe<W: fmt::Write>(self, f: &mut fmt::Formatter<W>) -> fmt::Result {
        let mask = Numbers::of_marks(self.mask());
        write!(f, "{}, {}", CountShown(self.count()), Listed(mask, MASK))
    }
}

impl Describe for Band {
    fn describe<W: fmt::Write>(self, f: &mut fmt::Formatter<W>) -> fmt::Result {
        write!(
            f,
            "between {} and {} °C",
            Degrees(self.lowest()),
            Degrees(self.highest())
        )
    }
}

impl<P: Describe, Q: Describe> Describe for Pair<P, Q> {
    fn describe<W: fmt::Write>(self, f: &mut fmt::Formatter<W>) -> fmt::Result {
        write!(
            f,
            "{}, {}",
            Described(self.first()),
            Described(self.second())
        )
    }
}
