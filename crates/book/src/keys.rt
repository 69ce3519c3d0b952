// The key of a hold or a bar.
ghost use Rattle.book.specs.Keys.{KeyInRange};

use crate::rows::{Post, Step};

pub mod access;

/// A step at a post. A book has it as one word, post × 64 + step.
#[derive(Clone, Copy, Debug, PartialEq, Eq)]
pub struct Key {
    post: Post,
    step: Step,
    ghost ok: { KeyInRange post.0 step.0 },
}
