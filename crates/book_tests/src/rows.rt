// Books made of rows, which are refused as the file is that they would be written to.

use crate::support::{EXAMPLE, LENGTH, Told, bytes, made, refusal};
use book::{Book, Clash, Cover, Entry, Key, Person, Play, Post, Rows, Step, write};
use std::alloc::Global;
use std::process::Abort;
use std::test::Fail;
use strength::{Count, Marks, Reach};

fn play(person: u64, post: u64) -> Play {
    Play {
        person: Person(person),
        post: Post(post),
    }
}

fn cover(stronger: u64, weaker: u64) -> Cover {
    Cover {
        stronger: Step(stronger),
        weaker: Step(weaker),
    }
}

fn clash(one: u64, other: u64) -> Clash {
    Clash {
        one: Step(one),
        other: Step(other),
    }
}

/// An entry without a mask.
fn entry(post: u64, step: u64, count: u8) -> Result<Entry<Reach>, Fail> {
    let key = Key::new(Post(post), Step(step)).ok_or_else(|| Fail::new("no key"))?;
    let strength = Reach::new(Count(count), Marks(0)).ok_or_else(|| Fail::new("no reach"))?;
    Ok(Entry { key, strength })
}

/// The rows of the example book.
fn example_rows(heap: Global) -> Result<Rows<Reach>, Fail> {
    let hold = entry(0, 0, 2)?;
    let bar = entry(1, 2, 1)?;
    Ok(Rows {
        posts: 2,
        steps: 3,
        marks: vec![in heap; Marks(1), Marks(1), Marks(1), Marks(0)]?,
        plays: vec![in heap; play(0, 0), play(3, 1)]?,
        covers: vec![in heap; cover(0, 1), cover(0, 2)]?,
        holds: vec![in heap; hold]?,
        bars: vec![in heap; bar]?,
        clashes: vec![in heap; clash(1, 2)]?,
    })
}

fn check_refused(
    rt: &impl Abort,
    heap: Global,
    rows: Rows<Reach>,
    expected: Told,
) -> Result<(), Fail> {
    let answer = refusal(Book::from_rows(heap, rows))?;
    assert_eq!(rt; answer, Some(expected));
    Ok(())
}

#[test]
fn written_as_the_example(rt: HostRuntime) -> Result<(), Fail> {
    let heap = rt.alloc();
    let rows = example_rows(heap)?;
    let book = made(Book::from_rows(heap, rows))?;
    let mut copy = vec![in heap; 0; LENGTH]?;
    assert_eq!(rt; write(&book, &mut copy), Ok(LENGTH));
    assert!(rt; copy == bytes(heap, &EXAMPLE)?);
    assert!(rt; book.covers(Step(0), Step(2)) && !book.covers(Step(2), Step(0)));
    assert!(rt; book.plays(Person(3), Post(1)) && !book.plays(Person(3), Post(0)));
    Ok(())
}

#[test]
fn sizes_refused(rt: HostRuntime) -> Result<(), Fail> {
    let heap = rt.alloc();
    let mut rows = example_rows(heap)?;
    rows.posts = 65;
    rows.plays.push(play(4, 0))?;
    check_refused(&rt, heap, rows, (2, 1))?;
    let mut rows = example_rows(heap)?;
    rows.steps = 0;
    check_refused(&rt, heap, rows, (2, 2))?;
    let mut rows = example_rows(heap)?;
    rows.marks.clear();
    check_refused(&rt, heap, rows, (2, 0))
}

/// A third play: the persons are words 12 to 14, and the posts 15 to 17.
#[test]
fn plays_refused(rt: HostRuntime) -> Result<(), Fail> {
    for (person, post, place) in [(4, 0, 14), (0, 2, 17), (4, 2, 14)] {
        let mut rows = example_rows(rt.alloc())?;
        rows.plays.push(play(person, post))?;
        check_refused(&rt, rt.alloc(), rows, (4, place))?;
    }
    Ok(())
}

/// A third cover: the stronger steps are words 16 to 18, and the weaker ones 19 to 21.
#[test]
fn covers_refused(rt: HostRuntime) -> Result<(), Fail> {
    for (stronger, weaker, place) in [(3, 0, 18), (0, 3, 21)] {
        let mut rows = example_rows(rt.alloc())?;
        rows.covers.push(cover(stronger, weaker))?;
        check_refused(&rt, rt.alloc(), rows, (4, place))?;
    }
    Ok(())
}

/// A second entry: the keys of the holds are words 20 and 21, and those of the bars 22 and 23.
#[test]
fn keys_refused(rt: HostRuntime) -> Result<(), Fail> {
    for (post, step) in [(2, 0), (0, 3), (63, 63)] {
        let mut rows = example_rows(rt.alloc())?;
        rows.holds.push(entry(post, step, 0)?)?;
        check_refused(&rt, rt.alloc(), rows, (4, 21))?;
        let mut rows = example_rows(rt.alloc())?;
        rows.bars.push(entry(post, step, 0)?)?;
        check_refused(&rt, rt.alloc(), rows, (4, 23))?;
    }
    Ok(())
}

/// A second clash: the first steps are words 24 and 25, and the second ones 26 and 27.
#[test]
fn clashes_refused(rt: HostRuntime) -> Result<(), Fail> {
    for (one, other, expected) in [
        (3, 0, (4, 25)),
        (0, 3, (4, 27)),
        (0, 0, (6, 27)),
        (3, 3, (4, 25)),
    ] {
        let mut rows = example_rows(rt.alloc())?;
        rows.clashes.push(clash(one, other))?;
        check_refused(&rt, rt.alloc(), rows, expected)?;
    }
    Ok(())
}

/// A fifth person, whose marks are word 12.
#[test]
fn marks_refused(rt: HostRuntime) -> Result<(), Fail> {
    let mut rows = example_rows(rt.alloc())?;
    rows.marks.push(Marks(16_777_216))?;
    rows.clashes.push(clash(1, 1))?;
    check_refused(&rt, rt.alloc(), rows, (4, 12))
}
