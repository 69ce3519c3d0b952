// The example book is read as its words say.

use crate::support::{EXAMPLE, bytes, made};
use book::{Book, Person, Post, Step, read};
use std::alloc::{AllocError, Global};
use std::process::Abort;
use std::test::Fail;
use strength::{Reach, Strength};

/// Each step covers itself and what the rows say, and nothing else.
fn check_covers(rt: &impl Abort, book: &Book<Reach>) {
    let cases = [
        (0, 0, true),
        (0, 1, true),
        (0, 2, true),
        (1, 1, true),
        (1, 0, false),
        (1, 2, false),
        (2, 0, false),
        (2, 1, false),
        (0, 3, false),
        (3, 0, false),
        (0, 64, false),
        (64, 0, false),
        (64, 64, true),
        (64, 65, false),
    ];
    for (stronger, weaker, expected) in cases {
        let answer = book.covers(Step(stronger), Step(weaker));
        assert_eq!(rt; answer, expected, "steps {stronger} and {weaker}");
    }
}

/// Person 0 plays post 0, person 3 plays post 1, and nobody plays anything else.
fn check_plays(rt: &impl Abort, book: &Book<Reach>) {
    let cases = [
        (0, 0, true),
        (3, 1, true),
        (0, 1, false),
        (3, 0, false),
        (1, 0, false),
        (2, 1, false),
        (4, 0, false),
        (0, 2, false),
        (0, 64, false),
        (2, 65, false),
        (256, 0, false),
        (
            18_446_744_073_709_551_615,
            18_446_744_073_709_551_615,
            false,
        ),
    ];
    for (person, post, expected) in cases {
        let answer = book.plays(Person(person), Post(post));
        assert_eq!(rt; answer, expected, "person {person} and post {post}");
    }
}

#[test]
fn is_read(rt: HostRuntime) -> Result<(), Fail> {
    let bytes = bytes(rt.alloc(), &EXAMPLE)?;
    let book = made(read::<Reach>(rt.alloc(), &bytes))?;
    check_covers(&rt, &book);
    check_plays(&rt, &book);
    Ok(())
}

#[test]
fn has_its_rows(rt: HostRuntime) -> Result<(), Fail> {
    let bytes = bytes(rt.alloc(), &EXAMPLE)?;
    let book = made(read::<Reach>(rt.alloc(), &bytes))?;
    let rows = book.rows();
    assert_eq!(rt; (rows.posts, rows.steps), (2, 3));
    assert!(rt; rows.marks.len() == 4 && rows.plays.len() == 2 && rows.covers.len() == 2);
    assert!(rt; rows.holds.len() == 1 && rows.bars.len() == 1 && rows.clashes.len() == 1);
    assert_eq!(rt; (rows.marks[0].0, rows.marks[3].0), (1, 0));
    assert_eq!(rt; (rows.plays[1].person.0, rows.plays[1].post.0), (3, 1));
    assert_eq!(rt;
        (rows.covers[1].stronger.0, rows.covers[1].weaker.0),
        (0, 2)
    );
    assert_eq!(rt;
        (rows.holds[0].key.word(), rows.holds[0].strength.word()),
        (0, 33_554_432)
    );
    assert_eq!(rt;
        (rows.bars[0].key.post().0, rows.bars[0].key.step().0),
        (1, 2)
    );
    assert_eq!(rt; rows.bars[0].strength.word(), 16_777_216);
    assert_eq!(rt; (rows.clashes[0].one.0, rows.clashes[0].other.0), (1, 2));
    Ok(())
}

/// The bytes of the example with other covers: these are two stronger steps and then two weaker ones.
fn with_covers(heap: Global, steps: &[u64]) -> Result<Vec<u8>, AllocError> {
    let mut words = Vec::from_slice(heap, &EXAMPLE[0..16])?;
    words.extend_from_slice(steps)?;
    words.extend_from_slice(&EXAMPLE[20..26])?;
    bytes(heap, &words)
}

/// Step 0 covers step 1, and that covers step 2, in either order of the rows.
#[test]
fn covers_over_two_rows(rt: HostRuntime) -> Result<(), Fail> {
    for steps in [[0, 1, 1, 2], [1, 0, 2, 1]] {
        let bytes = with_covers(rt.alloc(), &steps)?;
        let book = made(read::<Reach>(rt.alloc(), &bytes))?;
        assert!(rt; book.covers(Step(0), Step(1)) && book.covers(Step(1), Step(2)));
        assert!(rt; book.covers(Step(0), Step(2)) && !book.covers(Step(2), Step(0)));
    }
    Ok(())
}
