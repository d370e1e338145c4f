use crate::{FreeWord, Gen, inverse_of, product, put_free};
use std::alloc::{AllocError, Global};
use std::test::Fail;
use wb_base::MemSink;

// The product of some generators.
fn element(alloc: Global, letters: &[Gen]) -> Result<FreeWord, AllocError> {
    let mut word = FreeWord::with_capacity(alloc, letters.len())?;
    for x in letters {
        word.push(*x)?;
    }
    Ok(word)
}

// The text of an element.
fn text(alloc: Global, word: &FreeWord) -> Result<Vec<u8>, Fail> {
    let mut sink = MemSink::new(alloc, 64, 3, &[])?;
    put_free(&mut sink, word)?;
    Ok(sink.bytes().to_vec(alloc)?)
}

#[test]
fn writes_elements_as_signed_numbers(rt: HostRuntime) -> Result<(), Fail> {
    let alloc = rt.alloc();
    let one = FreeWord::single(alloc, Gen::new(300, true))?;
    assert_eq!(rt; text(alloc, &one)?.as_slice(), b"-300".as_slice());
    let (x, y) = (Gen::new(1, false), Gen::new(2, false));
    let some = element(alloc, &[x, y, x.opposite()])?;
    assert_eq!(rt; text(alloc, &some)?.as_slice(), b"1 2 -1".as_slice());
    let none = element(alloc, &[x, x.opposite()])?;
    assert_eq!(rt; text(alloc, &none)?.as_slice(), b"".as_slice());
    Ok(())
}

#[test]
fn multiplies_and_inverts(rt: HostRuntime) -> Result<(), Fail> {
    let alloc = rt.alloc();
    let a = element(alloc, &[Gen::new(1, false), Gen::new(2, false)])?;
    let b = element(alloc, &[Gen::new(2, true), Gen::new(3, false)])?;
    let both = product(alloc, &a, &b)?;
    assert_eq!(rt; text(alloc, &both)?.as_slice(), b"1 3".as_slice());
    let inverted = inverse_of(alloc, &b)?;
    assert_eq!(rt; text(alloc, &inverted)?.as_slice(), b"-3 2".as_slice());
    let copied = b.copy(alloc)?;
    let none = product(alloc, &copied, &inverted)?;
    assert_eq!(rt; text(alloc, &none)?.as_slice(), b"".as_slice());
    Ok(())
}
