// What stays when a grant is withdrawn.
ghost use Rattle.std.specs.Prelude.{◌≡◌, ◌≤◌, true, ◌⊎◌, length, Decides, ◌≢◌};
ghost use Rattle.book.specs.Books.{rules};
ghost use Rattle.delegation.specs.Rights.{Chained};
ghost use Rattle.delegation.specs.Withdrawals.{FlagsOf, Apart, Beside};

use crate::chains::{MOST_GRANTS, chained};
use crate::grants::Grant;
use book::Book;
use strength::Strength;

/// Whether no chain may use a grant: it lies on another lot, or it is the named one.
fn is_apart<S: Strength>(grant: Grant<S>, named: Grant<S>) -> bool
    ensures { Decides result (Apart named grant) }
{
    grant.lot != named.lot || grant == named
}

/// Flags of the grants that have a chain among the others on the lot of the named one.
pub fn chained_beside<S: Strength>(
    book: &Book<S>,
    grants: &[Grant<S>],
    named: Grant<S>,
) -> [bool; MOST_GRANTS]
    requires { length grants.now ≤ MOST_GRANTS }
    ensures { FlagsOf (Chained S.kind (rules book.now) (Beside grants.now named)) grants.now result }
{
    let mut gone = [false; MOST_GRANTS];
    // By place, since of what a loop over `iter_mut().zip(..)` writes a proof would know nothing.
    for (i, grant) in grants.iter().enumerate() {
        gone[i] = is_apart(*grant, named);
    }
    chained(book, grants, &gone)
}

// The flag is that of the grant's place in what `chained_beside` answers, so it is a bool.
/// Whether a grant stays when the named one is withdrawn, where it is known whether it has a chain
/// among the others.
pub fn stays<S: Strength>(grant: Grant<S>, named: Grant<S>, has_chain: bool) -> bool
    ensures { Decides result ((grant.lot ≢ named.lot) ⊎ (has_chain ≡ true)) }
{
    has_chain || grant.lot != named.lot
}
