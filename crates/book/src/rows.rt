// What a book speaks of, and its rows.

use crate::keys::Key;
use strength::Marks;

/// Somebody who works at the mill, by number.
#[derive(Clone, Copy, Debug, Default, PartialEq, Eq)]
pub struct Person(pub u64);

/// A role that people play, by number.
#[derive(Clone, Copy, Debug, PartialEq, Eq)]
pub struct Post(pub u64);

/// A task of the work, by number.
#[derive(Clone, Copy, Debug, Default, PartialEq, Eq)]
pub struct Step(pub u64);

/// One batch of olives, by number.
#[derive(Clone, Copy, Debug, Default, PartialEq, Eq)]
pub struct Lot(pub u64);

/// A person plays a post.
#[derive(Clone, Copy, Debug, PartialEq, Eq)]
pub struct Play {
    pub person: Person,
    pub post: Post,
}

/// Who may do the stronger step may do the weaker one.
#[derive(Clone, Copy, Debug, PartialEq, Eq)]
pub struct Cover {
    pub stronger: Step,
    pub weaker: Step,
}

/// A step at a strength for a post: a right that the post holds, or one that a bar keeps from it.
#[derive(Clone, Copy, Debug, PartialEq, Eq)]
pub struct Entry<S> {
    pub key: Key,
    pub strength: S,
}

/// Two steps that nobody may both perform on one lot.
#[derive(Clone, Copy, Debug, PartialEq, Eq)]
pub struct Clash {
    pub one: Step,
    pub other: Step,
}

/// All rows of a book. Nothing is promised of the numbers in them.
#[derive(Drop)]
pub struct Rows<S> {
    /// How many posts there are.
    pub posts: u64,
    /// How many steps there are.
    pub steps: u64,
    /// The marks of each person.
    pub marks: Vec<Marks>,
    pub plays: Vec<Play>,
    pub covers: Vec<Cover>,
    pub holds: Vec<Entry<S>>,
    pub bars: Vec<Entry<S>>,
    pub clashes: Vec<Clash>,
}
