// Keys and their words.

use book::{Key, Post, Step};
use std::test::Fail;

#[test]
fn read_from_words(rt: HostRuntime) -> Result<(), Fail> {
    for (word, post, step) in [(0, 0, 0), (66, 1, 2), (128, 2, 0), (4095, 63, 63)] {
        let key = Key::from_word(word).ok_or_else(|| Fail::new(format_args!("no key {word}")))?;
        assert_eq!(rt;
            (key.post().0, key.step().0, key.word()),
            (post, step, word)
        );
    }
    assert!(rt; Key::from_word(4096).is_none());
    Ok(())
}

#[test]
fn made_of_numbers_below_64(rt: HostRuntime) {
    let cases = [(0, 0, true), (63, 63, true), (64, 0, false), (0, 64, false)];
    for (post, step, expected) in cases {
        assert_eq!(rt; Key::new(Post(post), Step(step)).is_some(), expected);
    }
}
