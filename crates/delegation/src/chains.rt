// Which grants a chain ends in.
ghost use Rattle.std.specs.Prelude.{◌≤◌, length, Decides};
ghost use Rattle.book.specs.Books.{rules};
ghost use Rattle.delegation.specs.Walks.{Queued, Longer, Leads, Reached, ChainsFlagged};

use crate::grants::Grant;
use crate::rights::{heads, supports};
use arrayvec::ArrayVec;
use book::Book;
use strength::Strength;

// Contracts of functions on slices say this bound: a type would be made at each call, of rows that are few already.
/// At most this many grants stand in a register.
pub const MOST_GRANTS: usize = 512;

/// Places of grants that wait. It lies in the value itself, so a walk never wants for memory.
type Queue = ArrayVec<usize, MOST_GRANTS>;

/// Whether a grant may come next in a chain: at its head, or after another grant.
fn leads<S: Strength>(book: &Book<S>, earlier: Option<Grant<S>>, grant: Grant<S>) -> bool
    ensures { Decides result (Leads S.kind (rules book.now) earlier grant) }
{
    match earlier {
        None => heads(book, grant),
        Some(earlier) => supports(book, earlier, grant),
    }
}

// The flags lie beside the grants, in arrays of fixed size that callers have: a withdrawal must not want for memory.
/// Flags and queues each grant that is not gone and may come next.
fn reach<S: Strength>(
    book: &Book<S>,
    grants: &[Grant<S>],
    gone: &[bool],
    earlier: Option<Grant<S>>,
    seen: &mut [bool],
    queue: &mut Queue,
)
    requires flags { length grants.now ≤ length gone.now }
    requires room { length grants.now ≤ length seen.old }
    requires fits { length seen.old ≤ MOST_GRANTS }
    requires queued { Queued (length grants.now) seen.old queue.old.items }
    ensures reached { Reached S.kind (rules book.now) earlier grants.now gone.now (length grants.now) seen.old seen.new }
    ensures queued { Queued (length grants.now) seen.new queue.new.items }
    ensures longer { Longer queue.old.items queue.new.items }
{
    for (i, grant) in grants.iter().enumerate() {
        if gone[i] || seen[i] || !leads(book, earlier, *grant) {
            continue;
        }
        seen[i] = true;
        queue.push(i);
    }
}

/// Flags of the grants that a chain of those that are not gone ends in. The walk goes breadth
/// first, so that it meets each grant by a shortest chain.
pub fn chained<S: Strength>(
    book: &Book<S>,
    grants: &[Grant<S>],
    gone: &[bool],
) -> [bool; MOST_GRANTS]
    requires few { length grants.now ≤ MOST_GRANTS }
    requires flags { length grants.now ≤ length gone.now }
    ensures { ChainsFlagged S.kind (rules book.now) grants.now gone.now result }
{
    let mut seen = [false; MOST_GRANTS];
    let mut queue = Queue::new();
    reach(book, grants, gone, None, &mut seen, &mut queue);
    let mut done = 0;
    // By index, since the queue grows while it is walked: an iterator would hold it.
    while done < queue.len() {
        let earlier = grants[queue[done]];
        reach(book, grants, gone, Some(earlier), &mut seen, &mut queue);
        done += 1;
    }
    seen
}
