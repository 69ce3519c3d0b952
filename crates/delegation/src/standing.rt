// Which rights people have under the grants that stand.
ghost use mathlib.Core.List.{Memᴰ};
ghost use Rattle.std.specs.Prelude.{◌≡◌, Decides};
ghost use Rattle.book.specs.Books.{rules};
ghost use Rattle.delegation.specs.Found.{Counted};
ghost use Rattle.delegation.specs.Passes.{GiveOn, SupportOn};
ghost use Rattle.delegation.specs.Rights.{Holds, Gives, Entitled, Backed};
ghost use Rattle.delegation.specs.declared.grants.Right.{Right};

use crate::grants::{Grant, Question};
use crate::rights::{gives, heads, holds_some, supports};
use book::{Book, Lot};
use strength::Strength;

/// Whether an earlier grant supports this one on its lot.
fn supports_on<S: Strength>(book: &Book<S>, earlier: Grant<S>, grant: Grant<S>) -> bool
    ensures { Decides result (SupportOn S.kind (rules book.now) grant earlier) }
{
    earlier.lot == grant.lot && supports(book, earlier, grant)
}

// The register lends book and grants from two fields; a struct would be made just to be split.
/// Whether a right that the giver has on the lot, by post or by one of these grants, backs the
/// grant.
pub fn backed<S: Strength>(book: &Book<S>, grants: &[Grant<S>], grant: Grant<S>) -> bool
    ensures { Decides result (Backed S.kind (rules book.now) grants.now grant) }
{
    heads(book, grant)
        || grants
            .iter()
            .any(|earlier| supports_on(book, *earlier, grant))
}

/// Whether a right that the person holds by post gives the one in question.
fn by_post<S: Strength>(book: &Book<S>, question: Question<S>) -> bool
    ensures { Decides result ((p : Right S) × Holds S.kind (rules book.now) question.person p × Gives S.kind (rules book.now) p question.right) }
{
    holds_some(
        book,
        question.person,
        |right| gives(book, right, question.right),
    )
}

/// Whether the person has received this grant on the lot, and its right gives this one.
fn grant_gives<S: Strength>(book: &Book<S>, grant: Grant<S>, question: Question<S>) -> bool
    ensures { Decides result (GiveOn S.kind (rules book.now) question.person question.right question.lot grant) }
{
    grant.lot == question.lot
        && grant.receiver == question.person
        && gives(book, grant.right, question.right)
}

/// Whether a right that the person has on the lot, by post or by one of these grants, gives the
/// one in question.
pub fn entitled<S: Strength>(book: &Book<S>, grants: &[Grant<S>], question: Question<S>) -> bool
    ensures { Decides result (Entitled S.kind (rules book.now) grants.now question.person question.right question.lot) }
{
    by_post(book, question)
        || grants
            .iter()
            .any(|grant| grant_gives(book, *grant, question))
}

/// Whether a grant is one of these.
pub fn stands<S: Strength>(grants: &[Grant<S>], grant: Grant<S>) -> bool
    ensures { Decides result (Memᴰ grant grants.now) }
{
    grants.contains(&grant)
}

/// How many of these grants are on the lot.
pub fn count_on<S: Strength>(grants: &[Grant<S>], lot: Lot) -> usize
    ensures { Counted (λ g. g.lot ≡ lot) grants.now result }
{
    // Summed, since a filter would branch at each grant.
    grants
        .iter()
        .map(|grant| usize::from(grant.lot == lot))
        .sum()
}
