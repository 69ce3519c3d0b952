// What a kind of strength offers, and the laws that it keeps.
ghost use Rattle.strength.specs.Kind.{Kind, Reflexive, Transitive, Antisymmetric, Decreasing, Monotone, ReadsBack, KeepsWord, Bounded, Short};
ghost use Rattle.std.specs.Prelude.{◌≡◌};
ghost use Rattle.std.proofs.Common.{arith};

use super::values::Marks;

/// A kind of strength. A strength says how far a right goes: two of one kind can be compared, and
/// one that is passed on to a person becomes a strength again, or nothing, as the person's marks
/// decide. Its word is a number that no other strength of its kind has.
///
/// `kind` says what the four methods answer. They depend on nothing else, and an implementation
/// has to prove the laws, which generic code may then use.
pub trait Strength: Copy {
    ghost kind: { Kind Self };

    /// Whether this strength is at least the other.
    fn at_least(self, other: Self) -> bool
        ensures { result ≡ kind.at_least self other };

    /// What this strength becomes when it is passed on to somebody with these marks.
    fn passed_on(self, marks: Marks) -> Option<Self>
        ensures { result ≡ kind.passed_on self marks.0 };

    /// The number that stands for this strength.
    fn word(self) -> u64
        ensures { result ≡ kind.word self };

    /// The strength that has this word, if there is one.
    fn from_word(word: u64) -> Option<Self>
        ensures { result ≡ kind.of_word word };

    /// A strength is at least itself.
    ghost reflexive: { Reflexive kind };

    /// If a is at least b and b at least c, then a is at least c.
    ghost transitive: { Transitive kind };

    /// Two strengths that are at least each other are equal.
    ghost antisymmetric: { Antisymmetric kind };

    /// Passing on adds nothing: a is at least what it becomes.
    ghost decreasing: { Decreasing kind };

    /// Where b passes, any a that is at least b passes too, and becomes at least what b becomes.
    ghost monotone: { Monotone kind };

    /// A strength is read back from its word.
    ghost reads_back: { ReadsBack kind };

    /// What is read from a word has that word.
    ghost keeps_word: { KeepsWord kind };

    /// A word fits into 64 bits.
    ghost bounded: { Bounded kind };
}

/// A kind with words of 32 bits, so that two of them make a pair with a word of 64 bits. The
/// methods and laws are those of `Strength`, but for the last law.
// They stand here again, as docs/DECISIONS.md says: a half has word, order and passing on in a trait of its own.
pub trait Half: Copy {
    ghost half: { Kind Self };

    /// Whether this strength is at least the other.
    fn half_at_least(self, other: Self) -> bool
        ensures { result ≡ half.at_least self other };

    /// What this strength becomes when it is passed on to somebody with these marks.
    fn half_passed_on(self, marks: Marks) -> Option<Self>
        ensures { result ≡ half.passed_on self marks.0 };

    /// The number that stands for this strength.
    fn half_word(self) -> u32
        ensures { result ≡ half.word self };

    /// The strength that has this word, if there is one.
    fn from_half_word(word: u32) -> Option<Self>
        ensures { result ≡ half.of_word word };

    /// A strength is at least itself.
    ghost reflexive: { Reflexive half };

    /// If a is at least b and b at least c, then a is at least c.
    ghost transitive: { Transitive half };

    /// Two strengths that are at least each other are equal.
    ghost antisymmetric: { Antisymmetric half };

    /// Passing on adds nothing: a is at least what it becomes.
    ghost decreasing: { Decreasing half };

    /// Where b passes, any a that is at least b passes too, and becomes at least what b becomes.
    ghost monotone: { Monotone half };

    /// A strength is read back from its word.
    ghost reads_back: { ReadsBack half };

    /// What is read from a word has that word.
    ghost keeps_word: { KeepsWord half };

    /// A word fits into 32 bits.
    ghost short: { Short half };
}

/// Each half is a kind by itself, so a new half owes only the laws of `Half`.
impl<H: Half> Strength for H {
    ghost kind = { H.half };

    ghost reflexive = { H.reflexive };

    ghost transitive = { H.transitive };

    ghost antisymmetric = { H.antisymmetric };

    ghost decreasing = { H.decreasing };

    ghost monotone = { H.monotone };

    ghost reads_back = { H.reads_back };

    ghost keeps_word = { H.keeps_word };

    ghost bounded = { λ a. omega (arith, H.short a) };

    fn at_least(self, other: H) -> bool {
        self.half_at_least(other)
    }

    fn passed_on(self, marks: Marks) -> Option<H> {
        self.half_passed_on(marks)
    }

    fn word(self) -> u64 {
        u64::from(self.half_word())
    }

    fn from_word(word: u64) -> Option<H> {
        let word = u32::try_from(word).ok()?;
        H::from_half_word(word)
    }
}
