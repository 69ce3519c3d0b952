// Making a key, reading it, and its word.
ghost use Rattle.std.specs.Prelude.{◌≡◌};
ghost use Rattle.book.specs.Entries.{key, key_word, key_of_word};

use super::Key;
use crate::rows::{Post, Step};
use crate::sizes::{MOST_POSTS, MOST_STEPS};

// As a word counts them.
const POSTS: u64 = MOST_POSTS as u64;

const STEPS: u64 = MOST_STEPS as u64;

impl Key {
    /// The key of this post and step, if both are numbers that a book can have.
    pub fn new(post: Post, step: Step) -> Option<Key>
        ensures { result ≡ key post.0 step.0 }
    {
        if post.0 >= POSTS || step.0 >= STEPS {
            return None;
        }
        Some(Key { post, step })
    }

    pub fn post(self) -> Post
        ensures { result ≡ self.post }
    {
        self.post
    }

    pub fn step(self) -> Step
        ensures { result ≡ self.step }
    {
        self.step
    }

    pub fn word(self) -> u64
        ensures { result ≡ key_word self }
    {
        self.post.0 * STEPS + self.step.0
    }

    // As a kind of strength tells a strength from its word; a TryFrom would need an error that says no more.
    /// The key that has this word, if there is one.
    pub fn from_word(word: u64) -> Option<Key>
        ensures { result ≡ key_of_word word }
    {
        Key::new(Post(word / STEPS), Step(word % STEPS))
    }
}
