// What rights give, and which grants they back.
ghost use Rattle.std.specs.Prelude.{◌≡◌, true, false, Decides};
ghost use Rattle.std.specs.Bool.{MatchBool};
ghost use Rattle.book.specs.Books.{rules};
ghost use Rattle.delegation.specs.Rights.{marks_of_lem, Holds, Gives, Backs, Heads, Supports};
ghost use Rattle.delegation.specs.declared.grants.Right.{Right};

use crate::grants::{Grant, Right};
use book::{Book, Entry, Person};
use strength::{Marks, Strength};

/// Whether a right gives another: its step covers the other's, and its strength is at least the
/// other's.
pub fn gives<S: Strength>(book: &Book<S>, right: Right<S>, other: Right<S>) -> bool
    ensures { Decides result (Gives S.kind (rules book.now) right other) }
{
    book.covers(right.step, other.step) && right.strength.at_least(other.strength)
}

/// The marks of a person; somebody who is not in the book has none.
fn marks_of<S: Strength>(book: &Book<S>, person: Person) -> Marks
    ensures { result.0 ≡ marks_of_lem S.kind (rules book.now) person }
{
    let marks = &book.rows().marks;
    marks.get(person.0 as usize).copied().unwrap_or(Marks(0))
}

/// Whether a right backs a grant: its step covers the granted one, and its strength becomes at
/// least the granted one when it is passed on to the receiver.
pub fn backs<S: Strength>(book: &Book<S>, right: Right<S>, grant: Grant<S>) -> bool
    ensures { Decides result (Backs S.kind (rules book.now) right grant) }
{
    book.covers(right.step, grant.right.step)
        && right
            .strength
            .passed_on(marks_of(book, grant.receiver))
            .is_some_and(|strength| strength.at_least(grant.right.strength))
}

/// Whether some right that the person holds by post passes the test.
pub(crate) fn holds_some<S: Strength, F: Fn(Right<S>) -> bool>(
    book: &Book<S>,
    person: Person,
    test: F,
) -> bool
    requires { F.IsAlwaysCallable test }
    ensures { MatchBool result ((p : Right S) × Holds S.kind (rules book.now) person p × F.post test p true) ((p : Right S) → Holds S.kind (rules book.now) person p → F.post test p false) }
{
    let holds = &book.rows().holds;
    holds.iter().any(|row| book.plays(person, row.key.post()) && test(Right::from(*row)))
}

/// Whether a right that the giver holds by post backs the grant.
pub fn heads<S: Strength>(book: &Book<S>, grant: Grant<S>) -> bool
    ensures { Decides result ((p : Right S) × Heads S.kind (rules book.now) p grant) }
{
    holds_some(book, grant.giver, |right| backs(book, right, grant))
}

/// Whether the receiver of an earlier grant gives this one, and the earlier right backs it.
pub fn supports<S: Strength>(book: &Book<S>, earlier: Grant<S>, grant: Grant<S>) -> bool
    ensures { Decides result (Supports S.kind (rules book.now) earlier grant) }
{
    earlier.receiver == grant.giver && backs(book, earlier.right, grant)
}
