// Why there is no book.
ghost use Rattle.std.specs.Prelude.{◌≡◌};
ghost use Rattle.book.specs.Causes.{number};
ghost use Rattle.book.specs.declared.faults.BookFault.TheVariants.{Memory, Refused};

use std::alloc::AllocError;

/// What is wrong with a book, or with a buffer for one.
#[derive(Clone, Copy, Debug, PartialEq, Eq, PartialOrd, Ord, Hash)]
pub enum Cause {
    /// The bytes are fewer than the sizes take. The place is their number.
    ShortBook = 1,
    /// A size is outside its limits. The place is that of the size.
    SizeOutOfLimits = 2,
    /// The length is not what the sizes say. The place is the length due in bytes.
    WrongLength = 3,
    /// A number is out of range. The place is that of the word.
    OutOfRange = 4,
    /// A word is that of no strength. The place is that of the word.
    UnlawfulWord = 5,
    /// A step clashes with itself. The place is that of the second step.
    SelfClash = 6,
    /// A buffer has no room for the book. The place is the length due in bytes.
    ShortBuffer = 8,
}

// Each layer has its own causes, and a definition of their numbers: a trait for one cast would be no plainer.
impl Cause {
    /// The number that a panel is told.
    pub fn number(self) -> u8
        ensures { result ≡ number self }
    {
        self as u8
    }
}

/// A cause, and the place that it concerns.
pub type Refusal = (Cause, usize);

#[derive(Clone, Copy, Debug, PartialEq, Eq)]
pub enum BookFault {
    /// The book is not sound.
    Refused(Refusal),
    /// The book is sound, and there is no memory for it.
    Memory,
}

// By hand, since the clause says which fault `?` makes; a derive would promise nothing of it.
impl From<Refusal> for BookFault {
    ghost from_gives = { λ p r. r ≡ Refused p };

    fn from(refusal: Refusal) -> BookFault {
        BookFault::Refused(refusal)
    }
}

// By hand, since the clause says which fault `?` makes; a derive would promise nothing of it.
impl From<AllocError> for BookFault {
    ghost from_gives = { λ _ r. r ≡ Memory };

    fn from(_fault: AllocError) -> BookFault {
        BookFault::Memory
    }
}
