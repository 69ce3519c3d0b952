// Which bar forbids a grant.
ghost use Rattle.std.specs.Prelude.{MatchOption};
ghost use Rattle.book.specs.Books.{rules};
ghost use Rattle.delegation.specs.Found.{NoneOf, First};
ghost use Rattle.delegation.specs.Rights.{Forbids};

use crate::grants::{Grant, Right};
use crate::rights::gives;
use book::Book;
use strength::Strength;

/// The place of the first bar that forbids a grant: the receiver plays its post, and the granted
/// right gives the one that it names.
pub fn first_bar<S: Strength>(book: &Book<S>, grant: Grant<S>) -> Option<usize>
    ensures { MatchOption result (NoneOf (Forbids S.kind (rules book.now) grant) book.now.rows.bars.items) (First (Forbids S.kind (rules book.now) grant) book.now.rows.bars.items) }
{
    let receiver = grant.receiver;
    let right = grant.right;
    let rows = book.rows();
    let mut place = None;
    // Labelled loops, as docs/DECISIONS.md says: left at the first row that forbids, what is dear tested last.
    'bars: for (i, bar) in rows.bars.iter().enumerate() {
        if !gives(book, right, Right::from(*bar)) {
            continue 'bars;
        }
        let barred = bar.key.post();
        'posts: for post in 0..rows.posts {
            if post != barred.0 {
                continue 'posts;
            }
            if book.plays(receiver, barred) {
                place = Some(i);
                break 'bars;
            }
        }
    }
    place
}
