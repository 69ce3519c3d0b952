// The sections of a shown book.
use crate::nouns::{Listed, MARKS, POSTS, STEPS};
use crate::numbers::Numbers;
use crate::strengths::{Describe, Described};
use book::{Book, Clash, Entry, Person, Post, Step};
use std::fmt;
use strength::Strength;

/// Everybody, with marks and posts.
#[derive(Drop)]
pub struct People<'a, S>(pub &'a Book<S>);

impl<S: Strength> fmt::Display for People<'_, S> {
    fn fmt<W: fmt::Write>(&self, f: &mut fmt::Formatter<W>) -> fmt::Result {
        let book = self.0;
        for (person, marks) in book.rows().marks.iter().enumerate() {
            let posts = Numbers::of_posts(book, Person(person as u64));
            let marks = Numbers::of_marks(*marks);
            writeln!(
                f,
                "  {person}: {}; plays {}",
                Listed(marks, MARKS),
                Listed(posts, POSTS)
            )?;
        }
        Ok(())
    }
}

/// The rights of one post.
#[derive(Drop)]
struct Holdings<'a, S> {
    post: Post,
    holds: &'a [Entry<S>],
}

impl<S: Describe> fmt::Display for Holdings<'_, S> {
    fn fmt<W: fmt::Write>(&self, f: &mut fmt::Formatter<W>) -> fmt::Result {
        let post = self.post;
        let mut rights = self.holds.iter().filter(|entry| entry.key.post() == post);
        let Some(first) = rights.next() else {
            return writeln!(f, "  {}: holds nothing", post.0);
        };
        writeln!(f, "  {}: holds {}", post.0, Held(*first))?;
        // The others stand below the first one.
        let margin = if post.0 < 10 { "     " } else { "      " };
        for entry in rights {
            writeln!(f, "{margin}and {}", Held(*entry))?;
        }
        Ok(())
    }
}

/// A right in words.
#[derive(Drop)]
struct Held<S>(Entry<S>);

impl<S: Describe> fmt::Display for Held<S> {
    fn fmt<W: fmt::Write>(&self, f: &mut fmt::Formatter<W>) -> fmt::Result {
        let Entry { key, strength } = self.0;
        write!(f, "step {} at {}", key.step().0, Described(strength))
    }
}

/// Every post, with its rights.
#[derive(Drop)]
pub struct Posts<'a, S>(pub &'a Book<S>);

impl<S: Strength + Describe> fmt::Display for Posts<'_, S> {
    fn fmt<W: fmt::Write>(&self, f: &mut fmt::Formatter<W>) -> fmt::Result {
        let rows = self.0.rows();
        for post in 0..rows.posts {
            let holdings = Holdings {
                post: Post(post),
                holds: &rows.holds,
            };
            write!(f, "{holdings}")?;
        }
        Ok(())
    }
}

/// Every step, with all that it covers.
#[derive(Drop)]
pub struct Steps<'a, S>(pub &'a Book<S>);

impl<S: Strength> fmt::Display for Steps<'_, S> {
    fn fmt<W: fmt::Write>(&self, f: &mut fmt::Formatter<W>) -> fmt::Result {
        let book = self.0;
        for step in 0..book.rows().steps {
            let weaker = Numbers::of_steps(book, Step(step));
            writeln!(f, "  {step}: covers {}", Listed(weaker, STEPS))?;
        }
        Ok(())
    }
}

/// The bars, row by row.
#[derive(Drop)]
pub struct Bars<'a, S>(pub &'a [Entry<S>]);

impl<S: Describe> fmt::Display for Bars<'_, S> {
    fn fmt<W: fmt::Write>(&self, f: &mut fmt::Formatter<W>) -> fmt::Result {
        if self.0.is_empty() {
            return writeln!(f, "  none");
        }
        for bar in self.0 {
            let post = bar.key.post().0;
            let step = bar.key.step().0;
            writeln!(
                f,
                "  post {post} is not given step {step} at {}, or stronger",
                Described(bar.strength)
            )?;
        }
        Ok(())
    }
}

/// The clashes, row by row.
#[derive(Drop)]
pub struct Clashes<'a>(pub &'a [Clash]);

impl fmt::Display for Clashes<'_> {
    fn fmt<W: fmt::Write>(&self, f: &mut fmt::Formatter<W>) -> fmt::Result {
        if self.0.is_empty() {
            return writeln!(f, "  none");
        }
        for clash in self.0 {
            writeln!(
                f,
                "  nobody performs both step {} and step {} on one lot",
                clash.one.0, clash.other.0
            )?;
        }
        Ok(())
    }
}
