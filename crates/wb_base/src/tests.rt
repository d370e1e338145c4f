// Worked values, calls that fail in mid-stream, and the adapters over readers and writers.
ghost use Rattle.std.specs.Prelude.{◌≡◌, ◌<◌, ◌↔◌, IsTrue};

use crate::{
    MemSink, MemSource, Name, ReadErr, Sink, Status, StdSink, StdSource, Steps, SureSource,
    count_lines, give_all, is_canonical, lines, put_number, read_all, read_number, read_place,
    read_within, split_keyword,
};
use std::alloc::{AllocError, Global};
use std::io::{Error, ErrorKind, Read, Result as IoResult, Write};
use std::marker::Brand;
use std::mem::size_of_val;
use std::sync::ledger::{Blank, Ledger};
use std::test::Fail;

#[test]
fn a_number_is_read_from_the_front(rt: HostRuntime) {
    let cases: [(&[u8], Option<(u64, usize)>); 8] = [
        (b"102 7", Some((102, 3))),
        (b"7x", Some((7, 1))),
        (b"0", Some((0, 1))),
        (b"01", None),
        (b"", None),
        (b"x", None),
        (b"18446744073709551615", Some((u64::MAX, 20))),
        (b"18446744073709551616", None),
    ];
    for (bytes, want) in cases {
        assert_eq!(rt; read_number(bytes), want, "at {bytes:?}");
    }
    assert!(rt; is_canonical(b"10") && !is_canonical(b"01"));
    let whole: [(&[u8], Option<u32>); 6] = [
        (b"1", Some(1)),
        (b"64", Some(64)),
        (b"0", None),
        (b"65", None),
        (b"01", None),
        (b"1x", None),
    ];
    for (text, want) in whole {
        assert_eq!(rt; read_within(text, 1, 64), want, "the text {text:?}");
    }
}

#[test]
fn a_number_is_put_as_its_decimal_text(rt: HostRuntime) -> Result<(), Fail> {
    let cases: [(u64, &[u8]); 3] = [(0, b"0"), (10, b"10"), (u64::MAX, b"18446744073709551615")];
    for (value, want) in cases {
        let mut sink = MemSink::new(rt.alloc(), 20, 3, &[])?;
        put_number(&mut sink, value)?;
        assert_eq!(rt; sink.bytes(), want, "at {value}");
    }
    Ok(())
}

#[test]
fn a_line_has_a_keyword_and_places_behind_it(rt: HostRuntime) {
    let lines: [(&[u8], (&[u8], &[u8])); 4] = [
        (b"h 2 4", (b"h", b" 2 4")),
        (b"end", (b"end", b"")),
        (b" h", (b"", b" h")),
        (b"", (b"", b"")),
    ];
    for (line, want) in lines {
        assert_eq!(rt; split_keyword(line), want, "the line {line:?}");
    }
    let places: [(&[u8], Option<(u32, &[u8])>); 6] = [
        (b" 2 4", Some((2, b" 4"))),
        (b" 4294967295", Some((u32::MAX, b""))),
        (b" 4294967296", None),
        (b" 0", None),
        (b" 02", None),
        (b"2", None),
    ];
    for (bytes, want) in places {
        assert_eq!(rt; read_place(bytes), want, "at {bytes:?}");
    }
}

#[test]
fn a_line_ends_at_lf_and_the_last_at_the_end(rt: HostRuntime) -> Result<(), Fail> {
    let cases: [(&[u8], &[u8], usize); 6] = [
        (b"a\n\nb", b"a||b|", 3),
        (b"", b"", 0),
        (b"\n", b"|", 1),
        (b"a", b"a|", 1),
        (b"a\n", b"a|", 1),
        (b"\n\nab", b"||ab|", 3),
    ];
    for (bytes, want, count) in cases {
        let mut barred = Vec::new(rt.alloc());
        for line in lines(bytes) {
            barred.extend_from_slice(line)?;
            barred.push(b'|')?;
        }
        assert_eq!(rt; barred.as_slice(), want, "at {bytes:?}");
        assert_eq!(rt; count_lines(bytes), count, "at {bytes:?}");
    }
    Ok(())
}

#[test]
fn a_status_is_an_exit_code(rt: HostRuntime) {
    let cases = [
        (Status::Done, 0),
        (Status::Refused, 1),
        (Status::Words, 2),
        (Status::Input, 3),
        (Status::Limit, 4),
        (Status::ReadFault, 5),
        (Status::WriteFault, 6),
        (Status::Memory, 7),
    ];
    for (status, want) in cases {
        assert_eq!(rt; status.code(), want, "at {status:?}");
    }
}

// How many bytes a counter has.
fn bytes_of_counter<L: Ledger>(blank: Blank) -> usize
    requires name { blank.name ≡ L.name }
    requires parts { blank.parts ≡ L.parts }
    requires shared { 0 < blank.parts }
{
    let mut steps = Steps::<L>::new(blank);
    steps.tick();
    size_of_val(&steps)
}

#[test]
fn a_counter_of_steps_has_no_bytes(rt: HostRuntime) {
    assert_eq!(rt; bytes_of_counter::<Brand>(Blank::new(1)), 0);
}

// The bytes that were read whole, or why they weren't.
fn outcome(answer: &Result<Vec<u8>, ReadErr>) -> &[u8] {
    match answer {
        Ok(bytes) => bytes.as_slice(),
        Err(ReadErr::Fault) => b"fault",
        Err(ReadErr::TooLarge) => b"too large",
        Err(ReadErr::Memory) => b"memory",
    }
}

#[test]
fn a_source_is_read_to_its_end_and_goes_on_after_a_fault(rt: HostRuntime) -> Result<(), Fail> {
    let cases: [(usize, &[u64], &[u8], &[u8]); 5] = [
        (10, &[], b"0123456789", b""),
        (9, &[], b"too large", b""),
        (10, &[0], b"fault", b"0123456789"),
        (10, &[2], b"fault", b"6789"),
        (10, &[4], b"fault", b""),
    ];
    for (limit, failing, first, second) in cases {
        let mut source = MemSource::new(rt.alloc(), b"0123456789", 3, failing)?;
        let read = read_all(rt.alloc(), &mut source, limit);
        assert_eq!(rt; outcome(&read), first, "at {limit}, {failing:?}");
        let read = read_all(rt.alloc(), &mut source, limit);
        assert_eq!(rt; outcome(&read), second, "again at {limit}, {failing:?}");
    }
    let mut sure = SureSource::new(rt.alloc(), b"012345", 4)?;
    let read = read_all(rt.alloc(), &mut sure, 6);
    assert_eq!(rt; outcome(&read), b"012345".as_slice());
    Ok(())
}

#[test]
fn a_sink_takes_a_front_up_to_a_fault(rt: HostRuntime) -> Result<(), Fail> {
    let cases: [(usize, &[u64], bool, &[u8]); 4] = [
        (5, &[], true, b"01234"),
        (4, &[], false, b"0123"),
        (5, &[1], false, b"01"),
        (5, &[0], false, b""),
    ];
    for (room, failing, whole, want) in cases {
        let mut sink = MemSink::new(rt.alloc(), room, 2, failing)?;
        let given = give_all(&mut sink, b"01234");
        assert_eq!(rt; given.is_ok(), whole, "at {room}, {failing:?}");
        assert_eq!(rt; sink.bytes(), want, "at {room}, {failing:?}");
    }
    Ok(())
}

#[test]
fn done_may_fail_and_then_succeed(rt: HostRuntime) -> Result<(), Fail> {
    let mut sink = MemSink::new(rt.alloc(), 5, 5, &[1])?;
    give_all(&mut sink, b"012")?;
    assert!(rt; sink.done().is_err());
    sink.done()?;
    give_all(&mut sink, b"34")?;
    assert_eq!(rt; sink.bytes(), b"01234".as_slice());
    Ok(())
}

// More bytes than an adapter holds at once.
fn many_bytes(alloc: Global) -> Result<Vec<u8>, AllocError> {
    let mut bytes = Vec::new(alloc);
    for i in 0..20_000u32 {
        bytes.push((i % 251) as u8)?;
    }
    Ok(bytes)
}

// A reader and a writer whose calls fail by their number.
#[derive(Drop)]
struct Unsteady<T> {
    inner: T,
    calls: u64,
}

impl Read for Unsteady<&[u8]> {
    fn read(&mut self, into: &mut [u8]) -> IoResult<usize> {
        self.calls = self.calls.saturating_add(1);
        match self.calls {
            2 => Err(Error::from(ErrorKind::Other)),
            _ => self.inner.read(into),
        }
    }
}

impl Write for Unsteady<Vec<u8>> {
    fn write(&mut self, bytes: &[u8]) -> IoResult<usize> {
        self.calls = self.calls.saturating_add(1);
        match self.calls {
            1 => self.inner.write(&bytes[..bytes.len() / 2]),
            2 => Err(Error::from(ErrorKind::Other)),
            3 => Ok(0),
            _ => self.inner.write(bytes),
        }
    }

    fn flush(&mut self) -> IoResult<()> {
        self.calls = self.calls.saturating_add(1);
        match self.calls {
            5 => Err(Error::from(ErrorKind::Other)),
            _ => Ok(()),
        }
    }
}

#[test]
fn bytes_pass_through_the_adapters_in_few_calls(rt: HostRuntime) -> Result<(), Fail> {
    let bytes = many_bytes(rt.alloc())?;
    let mut source = StdSource::new(bytes.as_slice());
    let read = read_all(rt.alloc(), &mut source, 20_000)?;
    let mut writer = Unsteady {
        inner: Vec::new(rt.alloc()),
        calls: 10,
    };
    {
        let mut sink = StdSink::new(&mut writer);
        give_all(&mut sink, &read)?;
        sink.done()?;
    }
    assert!(rt; writer.inner == bytes);
    assert_eq!(rt;
        writer.calls,
        14,
        "three writes and a flush, behind the calls that fail"
    );
    Ok(())
}

#[test]
fn an_adapter_loses_no_byte_at_an_error(rt: HostRuntime) -> Result<(), Fail> {
    let bytes = many_bytes(rt.alloc())?;
    let mut source = StdSource::new(Unsteady {
        inner: bytes.as_slice(),
        calls: 0,
    });
    let read = read_all(rt.alloc(), &mut source, 20_000);
    assert_eq!(rt; outcome(&read), b"fault".as_slice());
    let rest = read_all(rt.alloc(), &mut source, 20_000)?;
    assert_eq!(rt; rest.len(), 20_000 - 8_192);
    assert!(rt; bytes.ends_with(&rest));

    let mut writer = Unsteady {
        inner: Vec::new(rt.alloc()),
        calls: 0,
    };
    {
        let mut sink = StdSink::new(&mut writer);
        let given = give_all(&mut sink, &bytes);
        assert!(rt; given.is_err(), "the second write fails");
        assert!(rt; sink.done().is_err(), "the third write takes nothing");
        assert!(rt; sink.done().is_err(), "the first flush fails");
        sink.done()?;
    }
    assert_eq!(rt; writer.inner.len(), 8_192);
    assert!(rt; bytes.starts_with(&writer.inner));
    Ok(())
}

// The derived comparison of names is that of their bytes.
fn is_same(a: &Name, b: &Name) -> bool
    ensures { IsTrue result ↔ (a.now ≡ b.now) }
{
    a == b
}

#[test]
fn a_name_is_1_to_32_small_letters_and_digits(rt: HostRuntime) {
    let cases: [(&[u8], bool); 14] = [
        (b"a", true),
        (b"x", true),
        (b"z9", true),
        (b"abcdefghijklmnopqrstuvwxyz012345", true),
        (b"abcdefghijklmnopqrstuvwxyz0123456", false),
        (b"", false),
        (b"1a", false),
        (b"A", false),
        (b"aB", false),
        (b"a-b", false),
        (b"a b", false),
        (b"a`", false),
        (b"a{", false),
        (b"a:", false),
    ];
    for (bytes, is_name) in cases {
        match Name::read(bytes) {
            Some(name) => assert!(rt; is_name && name.bytes() == bytes, "at {bytes:?}"),
            None => assert!(rt; !is_name, "at {bytes:?}"),
        }
    }
}

#[test]
fn names_are_equal_where_their_bytes_are(rt: HostRuntime) {
    let cases: [(&[u8], &[u8], bool); 4] = [
        (b"ab", b"ab", true),
        (b"ab", b"a", false),
        (b"a", b"ab", false),
        (b"ab", b"ac", false),
    ];
    for (a, b, same) in cases {
        if let (Some(a), Some(b)) = (Name::read(a), Name::read(b)) {
            assert_eq!(rt; is_same(&a, &b), same);
        }
    }
}
