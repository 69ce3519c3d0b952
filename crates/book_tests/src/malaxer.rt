// Books of the malaxer line, whose strengths are pairs of a reach and a band.

use crate::support::{bytes, made, refusal_of};
use book::{Book, Entry, Key, Post, Rows, Step, reread, write};
use std::alloc::Global;
use std::test::Fail;
use strength::{Band, Count, Marks, Pair, Reach, Strength, Tenths};

// Alike in both crates of tests: one more crate would be longer than these few lines.
/// The word of a pair of a reach and a band.
fn pair_word(reach: u32, lowest: u16, highest: u16) -> u64 {
    (u64::from(highest) * 65_536 + u64::from(lowest)) * 4_294_967_296 + u64::from(reach)
}

/// A book with one hold, whose strength is word 10, and one bar, whose strength is word 12.
fn words(hold: u64, bar: u64) -> [u64; 13] {
    [1, 1, 1, 0, 0, 1, 1, 0, 0, 0, hold, 0, bar]
}

#[test]
fn pairs_are_read(rt: HostRuntime) -> Result<(), Fail> {
    let heap = rt.alloc();
    let hold = pair_word(33_554_432, 200, 300);
    let bytes = bytes(heap, &words(hold, 0))?;
    let mut copy = vec![in heap; 0; 104]?;
    let book = made(reread::<Pair<Reach, Band>>(heap, &bytes, &mut copy))?;
    assert!(rt; copy == bytes);
    let rows = book.rows();
    assert!(rt; rows.holds.len() == 1 && rows.bars.len() == 1);
    let strength = rows.holds[0].strength;
    assert_eq!(rt; strength.word(), hold);
    assert_eq!(rt;
        (strength.first().count().0, strength.first().mask().0),
        (2, 0)
    );
    assert_eq!(rt;
        (strength.second().lowest().0, strength.second().highest().0),
        (200, 300)
    );
    assert_eq!(rt; rows.bars[0].strength.word(), 0);
    Ok(())
}

#[test]
fn lawful_pairs(rt: HostRuntime) -> Result<(), Fail> {
    let cases = [
        (0, 0, 0),
        (0, 600, 600),
        (0, 0, 600),
        (4_294_967_295, 1, 2),
        (16_777_217, 299, 300),
    ];
    for (reach, lowest, highest) in cases {
        let word = pair_word(reach, lowest, highest);
        assert_eq!(rt;
            refusal_of::<Pair<Reach, Band>>(rt.alloc(), &words(word, word))?,
            None
        );
    }
    Ok(())
}

#[test]
fn unlawful_pairs(rt: HostRuntime) -> Result<(), Fail> {
    let cases = [
        (0, 301, 300),
        (0, 200, 601),
        (0, 601, 601),
        (0, 0, 65_535),
        (0, 1, 0),
        (5, 200, 300),
        (16_777_215, 0, 0),
    ];
    for (reach, lowest, highest) in cases {
        let word = pair_word(reach, lowest, highest);
        let held = refusal_of::<Pair<Reach, Band>>(rt.alloc(), &words(word, word))?;
        assert_eq!(rt; held, Some((5, 10)), "hold {word}");
        let barred = refusal_of::<Pair<Reach, Band>>(rt.alloc(), &words(0, word))?;
        assert_eq!(rt; barred, Some((5, 12)), "bar {word}");
    }
    Ok(())
}

fn entry(count: u8, lowest: u16, highest: u16) -> Result<Entry<Pair<Reach, Band>>, Fail> {
    let key = Key::new(Post(0), Step(0)).ok_or_else(|| Fail::new("no key"))?;
    let reach = Reach::new(Count(count), Marks(0)).ok_or_else(|| Fail::new("no reach"))?;
    let band = Band::new(Tenths(lowest), Tenths(highest)).ok_or_else(|| Fail::new("no band"))?;
    Ok(Entry {
        key,
        strength: Pair::new(reach, band),
    })
}

/// Rows with one hold and one bar.
fn rows(
    heap: Global,
    hold: Entry<Pair<Reach, Band>>,
    bar: Entry<Pair<Reach, Band>>,
) -> Result<Rows<Pair<Reach, Band>>, Fail> {
    Ok(Rows {
        posts: 1,
        steps: 1,
        marks: vec![in heap; Marks(0)]?,
        plays: Vec::new(heap),
        covers: Vec::new(heap),
        holds: vec![in heap; hold]?,
        bars: vec![in heap; bar]?,
        clashes: Vec::new(heap),
    })
}

#[test]
fn made_of_rows(rt: HostRuntime) -> Result<(), Fail> {
    let heap = rt.alloc();
    let rows = rows(heap, entry(2, 200, 300)?, entry(1, 0, 600)?)?;
    let book = made(Book::from_rows(heap, rows))?;
    let mut copy = vec![in heap; 0; 104]?;
    assert_eq!(rt; write(&book, &mut copy), Ok(104));
    let expected = words(
        pair_word(33_554_432, 200, 300),
        pair_word(16_777_216, 0, 600),
    );
    assert!(rt; copy == bytes(heap, &expected)?);
    Ok(())
}
