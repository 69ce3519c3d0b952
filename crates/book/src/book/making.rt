// Making a book of rows, and asking it.
ghost use Rattle.std.specs.Prelude.{◌≡◌, true, IfOk, Decides};
ghost use Rattle.book.specs.Covering.{Covers};
ghost use Rattle.book.specs.Playing.{Plays};
ghost use Rattle.book.specs.Rules.{fits, said};

use super::Book;
use crate::rows::{Person, Post, Rows, Step};
use crate::tables::{covering_table, covers, playing_table, plays};
use std::alloc::{AllocError, Global};
use strength::Strength;

impl<S: Strength> Book<S> {
    /// The book of rows that fit.
    pub(crate) fn index(heap: Global, rows: Rows<S>) -> Result<Book<S>, AllocError>
        requires { fits (said rows) ≡ true }
        ensures { IfOk result (λ b. b.rows ≡ rows) }
    {
        let covering = covering_table(heap, &rows.covers)?;
        let playing = playing_table(heap, &rows.plays)?;
        Ok(Book {
            rows,
            covering,
            playing,
        })
    }

    /// All that the book says.
    pub fn rows(&self) -> &Rows<S>
        ensures { result.now ≡ self.now.rows }
    {
        &self.rows
    }

    /// Whether the stronger step covers the weaker one.
    pub fn covers(&self, stronger: Step, weaker: Step) -> bool
        ensures { Decides result (Covers self.now.rows.covers.items stronger.0 weaker.0) }
    {
        covers(&self.covering, stronger, weaker)
    }

    /// Whether the person plays the post.
    pub fn plays(&self, person: Person, post: Post) -> bool
        ensures { Decides result (Plays self.now.rows.plays.items person.0 post.0) }
    {
        plays(&self.playing, person, post)
    }
}
