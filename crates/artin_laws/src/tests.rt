ghost use Rattle.std.specs.Prelude.{◌≤◌};

use crate::{ActErr, act};
use braid_word::{Letter, read_strict_word};
use free_word::{FreeWord, Gen};
use std::alloc::{AllocError, Global};
use std::test::Fail;

// The image of a generator.
fn image_of(alloc: Global, word: &[Letter], x: Gen, limit: u32) -> Result<FreeWord, ActErr>
    requires { 1 ≤ limit }
{
    let start = FreeWord::single(alloc, x)?;
    act(alloc, word, &start, limit)
}

// The generators of a free word that is written as a braid word is.
fn generators(alloc: Global, text: &str) -> Result<Vec<Gen>, Fail> {
    let word = read_strict_word(alloc, text.as_bytes())?;
    let mut letters = Vec::new(alloc);
    for x in word.letters() {
        letters.push(Gen::new(x.index(), x.negative))?;
    }
    Ok(letters)
}

#[test]
fn sends_generators_to_their_images(rt: HostRuntime) -> Result<(), Fail> {
    let alloc = rt.alloc();
    let (x, y, z) = (Gen::new(1, false), Gen::new(2, false), Gen::new(3, false));
    for (word, start, want) in [
        ("1", x, "1 2 -1"),
        ("-1", x, "2"),
        ("1", y, "1"),
        ("-1", y, "-2 1 2"),
        ("1", x.opposite(), "1 -2 -1"),
        ("-1", y.opposite(), "-2 -1 2"),
        ("1", z, "3"),
        ("", x, "1"),
        ("1 1", x, "1 2 1 -2 -1"),
        ("2 1", x, "1 2 3 -2 -1"),
        ("1 2", x, "1 2 -1"),
        ("1 -1", x, "1"),
    ] {
        let letters = read_strict_word(alloc, word.as_bytes())?;
        let image = image_of(alloc, letters.letters(), start, 10)?;
        let want = generators(alloc, want)?;
        assert_eq!(rt;
            image.letters(),
            want.as_slice(),
            "of {start:?} under {word:?}"
        );
    }
    Ok(())
}

#[test]
fn refuses_an_image_past_the_limit(rt: HostRuntime) -> Result<(), Fail> {
    let alloc = rt.alloc();
    let x = Gen::new(1, false);
    let s = Letter::new(1, false);
    let refused = image_of(alloc, &[s, s], x, 3);
    assert!(rt;
        matches!(refused, Err(ActErr::TooLong)),
        "two letters, limit 3"
    );
    let refused = image_of(alloc, &[s, s], x, 4);
    assert!(rt;
        matches!(refused, Err(ActErr::TooLong)),
        "two letters, limit 4"
    );
    let kept = image_of(alloc, &[s, s], x, 5)?;
    assert_eq!(rt; kept.letters().len(), 5);
    let refused = image_of(alloc, &[s.opposite(), s], x, 2);
    assert!(rt;
        matches!(refused, Err(ActErr::TooLong)),
        "an image before the last"
    );
    let kept = image_of(alloc, &[s.opposite(), s], x, 3)?;
    assert_eq!(rt; kept.letters(), [x].as_slice());
    Ok(())
}

#[test]
fn equivalent_words_act_alike_on_each_generator(rt: HostRuntime) -> Result<(), Fail> {
    let alloc = rt.alloc();
    let u = read_strict_word(alloc, b"1 2 1 1 2 1 1")?;
    let v = read_strict_word(alloc, b"1 1 2 1 1 2 1")?;
    for x in [Gen::new(1, false), Gen::new(2, false), Gen::new(3, false)] {
        let image = image_of(alloc, u.letters(), x, 1000)?;
        let other = image_of(alloc, v.letters(), x, 1000)?;
        assert_eq!(rt; image.letters(), other.letters(), "of {x:?}");
    }
    Ok(())
}

// Each generator of 64 strands, from the last to the first.
fn falling(alloc: Global) -> Result<Vec<Letter>, AllocError> {
    let mut letters = Vec::with_capacity(alloc, 63)?;
    for index in (1..64u16).rev() {
        letters.push(Letter::new(index, false))?;
    }
    Ok(letters)
}

#[test]
fn acts_by_words_of_64_strands(rt: HostRuntime) -> Result<(), Fail> {
    let alloc = rt.alloc();
    let word = falling(alloc)?;
    let mut want = Vec::new(alloc);
    for index in 1..65u16 {
        want.push(Gen::new(index, false))?;
    }
    for index in (1..64u16).rev() {
        want.push(Gen::new(index, true))?;
    }
    let image = image_of(alloc, &word, Gen::new(1, false), 127)?;
    assert_eq!(rt; image.letters(), want.as_slice());
    let image = image_of(alloc, &word, Gen::new(64, false), 1)?;
    assert_eq!(rt; image.letters(), [Gen::new(63, false)].as_slice());
    Ok(())
}
