// The form of a sheet of words: sizes first, each within limits, and then columns that the sizes measure.

/// The least and the greatest that a size may be.
#[derive(Clone, Copy, Debug, PartialEq, Eq)]
pub struct Limit {
    pub least: u64,
    pub most: u64,
}

/// What is asked of each word of a column.
#[derive(Clone, Copy, Debug, PartialEq, Eq)]
pub enum Test {
    /// A number below this.
    Below(u64),
    /// A key whose post and step are below these.
    Key(u64, u64),
    /// A word of a strength.
    Strength,
}

/// A column of words.
#[derive(Clone, Copy, Debug, PartialEq, Eq)]
pub struct Column {
    pub test: Test,
    pub size: u64,
}

/// The sizes of a book.
#[derive(Clone, Copy, Debug, PartialEq, Eq)]
pub struct Sizes {
    pub people: u64,
    pub posts: u64,
    pub steps: u64,
    pub plays: u64,
    pub covers: u64,
    pub holds: u64,
    pub bars: u64,
    pub clashes: u64,
}

/// Where the tables of a book begin, counted in words.
#[derive(Clone, Copy, Debug, PartialEq, Eq)]
pub struct Places {
    pub plays: usize,
    pub covers: usize,
    pub holds: usize,
    pub bars: usize,
    pub clashes: usize,
}
