// Who plays what: one flag for each row.
ghost use Rattle.std.specs.Prelude.{◌≡◌, List, length, IfOk, Decides};
ghost use Rattle.book.specs.Flags.{Clear};
ghost use Rattle.book.specs.Playing.{PlayingExact, Plays, PlaysInRange, TellsPlaying};

use super::{clear_table, raise};
use crate::rows::{Person, Play, Post};
use crate::sizes::{MOST_PEOPLE, MOST_POSTS};
use std::alloc::{AllocError, Global};

/// Which posts a person plays.
pub(crate) type Playing = [bool; MOST_POSTS];

// Raises in a clear table the flag of each row.
fn fill(rows: &[Play], table: &mut [Playing])
    requires size { length table.old ≡ 256 }
    requires clear { Clear table.old }
    requires range { PlaysInRange rows.now }
    ensures { TellsPlaying rows.now table.new }
{
    for row in rows {
        raise(&mut table[row.person.0 as usize], row.post.0 as usize);
    }
}

// The table of who plays what.
pub(crate) fn playing_table(heap: Global, rows: &[Play]) -> Result<Vec<Playing>, AllocError>
    requires { PlaysInRange rows.now }
    ensures { IfOk result (λ v. PlayingExact rows.now v.items) }
{
    let mut table = clear_table(heap, MOST_PEOPLE)?;
    fill(rows, &mut table);
    Ok(table)
}

// Whether the person plays the post, for all rows whose table this is.
pub(crate) fn plays(table: &[Playing], person: Person, post: Post) -> bool
    requires { length table.now ≡ 256 }
    ensures { (rows : List Play) → PlayingExact rows table.now → Decides result (Plays rows person.0 post.0) }
{
    let u = person.0 as usize;
    let p = post.0 as usize;
    u < MOST_PEOPLE && p < MOST_POSTS && table[u][p]
}
