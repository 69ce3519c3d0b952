// The form of a book as data: the limits of its sizes, and its columns.
ghost use Rattle.std.specs.Prelude.{◌≡◌, ◌≤◌, map, length};
ghost use Rattle.book.specs.Words.{word_of};
ghost use Rattle.book.specs.Form.{columns, limits, listed_sizes, sizes_of};

use crate::form::{Column, Limit, Sizes, Test};
use crate::words::{Whole, WordOf};
use strength::Marks;

/// How many sizes a book begins with.
pub const SIZES: usize = 8;

/// How many people a book has at most.
pub const MOST_PEOPLE: usize = 256;

/// How many posts a book has at most.
pub const MOST_POSTS: usize = 64;

/// How many steps a book has at most.
pub const MOST_STEPS: usize = 64;

/// How many bytes a sound book has at most.
pub const MOST_BYTES: usize = 38_976;

/// The limits of the sizes, in file order.
pub fn size_limits() -> [Limit; SIZES]
    ensures { result ≡ limits }
{
    [
        Limit {
            least: 1,
            most: MOST_PEOPLE as u64,
        },
        Limit {
            least: 1,
            most: MOST_POSTS as u64,
        },
        Limit {
            least: 1,
            most: MOST_STEPS as u64,
        },
        Limit {
            least: 0,
            most: 1024,
        },
        Limit {
            least: 0,
            most: 256,
        },
        Limit {
            least: 0,
            most: 512,
        },
        Limit {
            least: 0,
            most: 256,
        },
        Limit {
            least: 0,
            most: 256,
        },
    ]
}

/// All columns but the last, in file order. The last is that of the second steps of the clashes, which
/// are looked at beside the first.
pub(crate) fn columns_of(sizes: Sizes) -> [Column; 10]
    ensures { result ≡ columns sizes }
{
    let Sizes {
        people,
        posts,
        steps,
        plays,
        covers,
        holds,
        bars,
        clashes,
    } = sizes;
    [
        Column {
            test: Test::Below(u64::from(Marks::LIMIT)),
            size: people,
        },
        Column {
            test: Test::Below(people),
            size: plays,
        },
        Column {
            test: Test::Below(posts),
            size: plays,
        },
        Column {
            test: Test::Below(steps),
            size: covers,
        },
        Column {
            test: Test::Below(steps),
            size: covers,
        },
        Column {
            test: Test::Key(posts, steps),
            size: holds,
        },
        Column {
            test: Test::Strength,
            size: holds,
        },
        Column {
            test: Test::Key(posts, steps),
            size: bars,
        },
        Column {
            test: Test::Strength,
            size: bars,
        },
        Column {
            test: Test::Below(steps),
            size: clashes,
        },
    ]
}

impl Sizes {
    /// The sizes that words begin with.
    pub(crate) fn read(words: &[[u8; 8]]) -> Sizes
        requires { 8 ≤ length (map word_of words.now) }
        ensures { result ≡ sizes_of (map word_of words.now) }
    {
        Sizes {
            people: Whole::in_row(words[0]),
            posts: Whole::in_row(words[1]),
            steps: Whole::in_row(words[2]),
            plays: Whole::in_row(words[3]),
            covers: Whole::in_row(words[4]),
            holds: Whole::in_row(words[5]),
            bars: Whole::in_row(words[6]),
            clashes: Whole::in_row(words[7]),
        }
    }

    /// The sizes in file order.
    pub(crate) fn listed(self) -> [u64; SIZES]
        ensures { result ≡ listed_sizes self }
    {
        [
            self.people,
            self.posts,
            self.steps,
            self.plays,
            self.covers,
            self.holds,
            self.bars,
            self.clashes,
        ]
    }
}
