// How rows lie in a book: each has two words, one in each column of its table.
ghost use Rattle.std.specs.Prelude.{◌≡◌};
ghost use Rattle.book.specs.Layouts.{Layout, ReadsBackRow, KeepsWords, play_layout, cover_layout, clash_layout, entry_layout};
ghost use Rattle.std.proofs.Common.{rules};
ghost use Rattle.book.specs.KeyLaws.{entry_reads_back, entry_keeps_words};

use crate::keys::Key;
use crate::rows::{Clash, Cover, Entry, Person, Play, Post, Step};
use strength::Strength;

/// A row of a table with two columns.
pub trait Row: Copy {
    ghost layout: { Layout Self };

    fn first_word(self) -> u64
        ensures { result ≡ layout.first_word self };

    fn second_word(self) -> u64
        ensures { result ≡ layout.second_word self };

    fn from_words(first: u64, second: u64) -> Option<Self>
        ensures { result ≡ layout.of_words first second };

    /// A row is read back from its words.
    ghost reads_back: { ReadsBackRow layout };

    /// A row that is read has the words that it was read from.
    ghost keeps_words: { KeepsWords layout };
}

// Each row names its own fields, so that no number is taken for one of another meaning: the impls below are alike in shape alone.
impl Row for Play {
    ghost layout = { play_layout };

    ghost reads_back = { Prim.search rules };

    ghost keeps_words = { Prim.search rules };

    fn first_word(self) -> u64 {
        self.person.0
    }

    fn second_word(self) -> u64 {
        self.post.0
    }

    fn from_words(first: u64, second: u64) -> Option<Play> {
        Some(Play {
            person: Person(first),
            post: Post(second),
        })
    }
}

impl Row for Cover {
    ghost layout = { cover_layout };

    ghost reads_back = { Prim.search rules };

    ghost keeps_words = { Prim.search rules };

    fn first_word(self) -> u64 {
        self.stronger.0
    }

    fn second_word(self) -> u64 {
        self.weaker.0
    }

    fn from_words(first: u64, second: u64) -> Option<Cover> {
        Some(Cover {
            stronger: Step(first),
            weaker: Step(second),
        })
    }
}

impl Row for Clash {
    ghost layout = { clash_layout };

    ghost reads_back = { Prim.search rules };

    ghost keeps_words = { Prim.search rules };

    fn first_word(self) -> u64 {
        self.one.0
    }

    fn second_word(self) -> u64 {
        self.other.0
    }

    fn from_words(first: u64, second: u64) -> Option<Clash> {
        Some(Clash {
            one: Step(first),
            other: Step(second),
        })
    }
}

impl<S: Strength> Row for Entry<S> {
    ghost layout = { entry_layout S.Strength.kind };

    ghost reads_back = { entry_reads_back S.Strength.kind S.Strength.reads_back };

    ghost keeps_words = { entry_keeps_words S.Strength.kind S.Strength.keeps_word };

    fn first_word(self) -> u64 {
        self.key.word()
    }

    fn second_word(self) -> u64 {
        self.strength.word()
    }

    fn from_words(first: u64, second: u64) -> Option<Entry<S>> {
        let key = Key::from_word(first)?;
        let strength = S::from_word(second)?;
        Some(Entry { key, strength })
    }
}
