// Sets of small numbers, and their lists.
ghost use Rattle.std.specs.Prelude.{◌≡◌, ℕ, ◌/◌, ◌%◌, ◌^◌, ◌<◌, false, ◌≢◌, slice_index_or};
ghost use Rattle.book.specs.Covering.{Covers};
ghost use Rattle.book.specs.Playing.{Plays};
ghost use Rattle.book_show.specs.Flags.{Tells, raised};

use book::{Book, MOST_STEPS, Person, Post, Step};
use std::{array, fmt};
use strength::{Marks, Strength};

// A book has at most as many posts, and marks have fewer bits.
const LIMIT: usize = MOST_STEPS;

// Flags in the value itself, since a set of the library takes memory, and may want for it.
/// Some of the numbers below 64.
#[derive(Clone, Copy, Debug, PartialEq, Eq)]
pub struct Numbers([bool; LIMIT]);

impl Numbers {
    /// The numbers that pass a test.
    fn passing<F: Fn(u64) -> bool>(test: F) -> Numbers
        requires { (k : ℕ) → k < 64 → F.pre test k }
        ensures { (k : ℕ) → k < 64 → F.post test k (slice_index_or result.0 k false) }
    {
        Numbers(array::from_fn(
            |k: usize| -> bool
                requires { F.pre test k }
            { test(k as u64) },
        ))
    }

    /// The marks that are set.
    pub fn of_marks(marks: Marks) -> Numbers
        ensures { Tells (λ k. marks.0 / 2 ^ k % 2 ≡ 1) result.0 64 }
    {
        Numbers::passing(|bit| (u64::from(marks.0) >> bit) % 2 == 1)
    }

    /// The posts that the person plays.
    pub fn of_posts<S: Strength>(book: &Book<S>, person: Person) -> Numbers
        ensures { Tells (Plays book.now.rows.plays.items person.0) result.0 64 }
    {
        Numbers::passing(|post| book.plays(person, Post(post)))
    }

    /// The steps that the step covers, without itself.
    pub fn of_steps<S: Strength>(book: &Book<S>, step: Step) -> Numbers
        ensures { Tells (λ k. (k ≢ step.0) × Covers book.now.rows.covers.items step.0 k) result.0 64 }
    {
        Numbers::passing(|other| other != step.0 && book.covers(step, Step(other)))
    }

    pub fn count(self) -> usize
        ensures { result ≡ raised self.0 }
    {
        self.0.iter().filter(|there| **there).count()
    }
}

impl fmt::Display for Numbers {
    fn fmt<W: fmt::Write>(&self, f: &mut fmt::Formatter<W>) -> fmt::Result {
        let mut separator = "";
        for (number, there) in self.0.iter().enumerate() {
            if *there {
                write!(f, "{separator}{number}")?;
                separator = ", ";
            }
        }
        Ok(())
    }
}
