// A whole book, or its refusal.
use crate::failure::Failure;
use crate::faults::Refused;
use crate::nouns::counted;
use crate::sections::{Bars, Clashes, People, Posts, Steps};
use crate::strengths::Describe;
use book::{Book, BookFault};
use std::alloc::AllocError;
use std::fmt;
use strength::Strength;

/// A book in words.
#[derive(Drop)]
struct Shown<'a, S>(&'a Book<S>);

impl<S: Strength + Describe> fmt::Display for Shown<'_, S> {
    fn fmt<W: fmt::Write>(&self, f: &mut fmt::Formatter<W>) -> fmt::Result {
        let book = self.0;
        let rows = book.rows();
        let people = rows.marks.len() as u64;
        write!(f, "{people} {}, ", counted(people, "person", "people"))?;
        write!(
            f,
            "{} {}, ",
            rows.posts,
            counted(rows.posts, "post", "posts")
        )?;
        writeln!(f, "{} {}", rows.steps, counted(rows.steps, "step", "steps"))?;
        write!(f, "\npeople\n{}", People(book))?;
        write!(f, "\nposts\n{}", Posts(book))?;
        write!(f, "\nsteps\n{}", Steps(book))?;
        write!(f, "\nbars\n{}", Bars(&rows.bars))?;
        write!(f, "\nclashes\n{}", Clashes(&rows.clashes))
    }
}

/// Prints the book that these bytes say, or why they are refused. The book is written back from what was read, to
/// show that nothing of the file is lost.
pub fn show<S: Strength + Describe>(rt: &HostRuntime, bytes: &[u8]) -> Result<(), Failure> {
    let mut copy = vec![in rt.alloc(); 0u8; bytes.len()]?;
    match book::reread::<S>(rt.alloc(), bytes, &mut copy) {
        Ok(book) => {
            rt.print(Shown(&book))?;
            println!(rt; "\nread and written back, {} bytes alike", copy.len())?;
        }
        Err(BookFault::Refused(refusal)) => rt.println(Refused(refusal))?,
        Err(BookFault::Memory) => return Err(AllocError.into()),
    }
    Ok(())
}
