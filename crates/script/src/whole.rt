// A script under a book, from nothing to its last output line.
ghost use Rattle.std.specs.Prelude.{◌≡◌, IfOk};
ghost use Rattle.script.specs.Runs.{Answered, filled_with};

use crate::runs::run;
use book::{Book, Lot, Person, Step};
use delegation::{Grant, Right};
use register::{MOST_GRANTS, MOST_RECORDS, Record, Register};
use std::alloc::{AllocError, Global};
use strength::Strength;

/// A grant that nobody made, for the places of an array that hold none.
fn filling<S: Strength>(strength: S) -> Grant<S>
    ensures { result ≡ filled_with strength }
{
    let right = Right {
        step: Step::default(),
        strength,
    };
    Grant {
        giver: Person::default(),
        receiver: Person::default(),
        right,
        lot: Lot::default(),
    }
}

/// What a script is answered under a book, where nothing is open at first. The filler is any strength: it stands in
/// places that hold no grant.
pub fn answers<S: Strength>(
    heap: Global,
    book: &Book<S>,
    script: &[u8],
    filler: S,
) -> Result<Vec<u8>, AllocError>
    ensures { IfOk result (λ v. Answered S.kind book.now script.now v.items) }
{
    let mut grants = vec![in heap; filling(filler); MOST_GRANTS]?;
    let mut records = vec![in heap; Record::default(); MOST_RECORDS]?;
    let mut output = Vec::new(heap);
    let mut register = Register::new(book, &mut grants, &mut records);
    run(&mut register, script, &mut output)?;
    Ok(output)
}
