// A format of three kinds of lines, in pieces of every size, and out of a source.
ghost use Rattle.std.specs.Prelude.{◌==◌, not, if◌then◌else◌, true, false, codes, Some, None, Ok, Err};
ghost use Rattle.std.specs.Str.{bytes_eq};
ghost use Rattle.wb_base.specs.Streams.{one_more};
ghost use Rattle.line_file.specs.declared.tests.Fault.TheVariants as Fault;

use crate::{Checker, FileErr, LineFormat, SourceErr, Stop, check_file, check_source};
use std::alloc::{AllocError, Global};
use std::test::Fail;
use wb_base::MemSource;

// A tally: a line `tally`, lines `one`, a line `end`. It claims how many lines `one` there are.
#[derive(Debug, Drop)]
struct Tally {
    begun: bool,
    passed: bool,
    count: u64,
}

// Why a tally is refused.
#[derive(Clone, Copy, Debug, PartialEq, Eq)]
enum Fault {
    Form,
    Extra,
    Long,
    Truncated,
}

impl LineFormat for Tally {
    type Why = Fault;

    type Claim = u64;

    ghost format = { record {
      start = record { begun = false; passed = false; count = 0 };
      kept = λ now line.
          if not now.begun
          then (if bytes_eq line (codes "tally") then Ok (record now { begun = true }) else Err Fault.Form)
          else (if bytes_eq line (codes "one") then Ok (record now { count = one_more now.count })
          else (if bytes_eq line (codes "end") then Ok (record now { passed = true }) else Err Fault.Form));
      passed = λ now. if now.passed then Some now.count else None;
      most = 5;
      extra = Fault.Extra;
      long = Fault.Long;
      truncated = Fault.Truncated;
    } };

    fn start(_alloc: Global) -> Result<Tally, AllocError> {
        Ok(Tally {
            begun: false,
            passed: false,
            count: 0,
        })
    }

    fn keep(self, _alloc: Global, line: &[u8]) -> Result<Tally, Stop<Fault>> {
        if !self.begun {
            if line == b"tally".as_slice() {
                return Ok(Tally {
                    begun: true,
                    ..self
                });
            }
        } else if line == b"one".as_slice() {
            return Ok(Tally {
                count: self.count.saturating_add(1),
                ..self
            });
        } else if line == b"end".as_slice() {
            return Ok(Tally {
                passed: true,
                ..self
            });
        }
        Err(Stop::Refused(Fault::Form))
    }

    fn is_passed(&self) -> bool {
        self.passed
    }

    fn claim(self) -> Option<u64> {
        if self.passed { Some(self.count) } else { None }
    }

    fn most() -> u32 {
        5
    }

    fn extra() -> Fault {
        Fault::Extra
    }

    fn long() -> Fault {
        Fault::Long
    }

    fn truncated() -> Fault {
        Fault::Truncated
    }
}

// Files, each with its claim or its first refusal.
const FILES: [(&[u8], Result<u64, (u64, Fault)>); 12] = [
    (b"tally\none\none\nend\n", Ok(2)),
    (b"tally\nend\n", Ok(0)),
    (b"", Err((1, Fault::Truncated))),
    (b"tally\none", Err((2, Fault::Truncated))),
    (b"tally\none\nend", Err((3, Fault::Truncated))),
    (b"one\nend\n", Err((1, Fault::Form))),
    (b"tally\none\n\nend\n", Err((3, Fault::Form))),
    (b"tally\nend\none\n", Err((3, Fault::Extra))),
    (b"tally\nend\n\n", Err((3, Fault::Extra))),
    (b"tally\nend\nthe rest", Err((3, Fault::Extra))),
    (b"tally\nlonger\n", Err((2, Fault::Long))),
    (b"tally\none\nlonger", Err((3, Fault::Long))),
];

// What is answered of a file that claims this or is refused so.
fn answer(want: Result<u64, (u64, Fault)>) -> Result<u64, FileErr<Fault>> {
    want.map_err(|(line, why)| FileErr::Refused { line, why })
}

#[test]
fn a_file_claims_something_or_is_refused_at_its_first_line(rt: HostRuntime) {
    for (bytes, want) in FILES {
        assert_eq!(rt;
            check_file::<Tally>(rt.alloc(), bytes),
            answer(want),
            "the file {bytes:?}"
        );
    }
}

#[test]
fn pieces_of_any_size_are_one_file(rt: HostRuntime) -> Result<(), Fail> {
    for (bytes, want) in FILES {
        for size in 1..8 {
            let mut checker = Checker::<Tally>::begin(rt.alloc())?;
            for piece in bytes.chunks(size) {
                let _ = checker.feed(piece);
            }
            assert_eq!(rt;
                checker.finish(),
                answer(want),
                "the file {bytes:?} in pieces of {size}"
            );
        }
    }
    Ok(())
}

#[test]
fn an_early_refusal_comes_at_once(rt: HostRuntime) -> Result<(), Fail> {
    // Pieces, and how many of them are fed before the refusal is told.
    let cases: [(&[&[u8]], usize, Fault); 5] = [
        (&[b"one", b"\n", b"tally\n"], 1, Fault::Form),
        (&[b"tally\n", b"longe", b"r", b"\n"], 2, Fault::Long),
        (&[b"tally\nend\n", b"\n", b""], 1, Fault::Extra),
        (&[b"tally\nend\n", b"x"], 1, Fault::Extra),
        (&[b"tally\nen", b"d \nend\n", b"end\n"], 1, Fault::Form),
    ];
    for (pieces, count, want) in cases {
        let mut checker = Checker::<Tally>::begin(rt.alloc())?;
        for (k, piece) in pieces.iter().enumerate() {
            let told = checker.feed(piece);
            assert_eq!(rt; told.is_err(), k >= count, "piece {k} of {pieces:?}");
        }
        assert_eq!(rt; checker.held(), 0, "the pieces {pieces:?}");
        match checker.finish() {
            Err(FileErr::Refused { why, .. }) => assert_eq!(rt; why, want, "the pieces {pieces:?}"),
            _ => assert!(rt; false, "the pieces {pieces:?}"),
        }
    }
    let mut checker = Checker::<Tally>::begin(rt.alloc())?;
    checker.feed(b"tally\non")?;
    assert_eq!(rt; checker.held(), 2);
    Ok(())
}

#[test]
fn a_source_is_checked_within_a_limit(rt: HostRuntime) -> Result<(), Fail> {
    let file: &[u8] = b"tally\none\none\nend\n";
    let cases: [(&[u8], usize, &[u64], Result<u64, SourceErr<Fault>>); 8] = [
        (file, 18, &[], Ok(2)),
        (file, 17, &[], Err(SourceErr::TooLarge)),
        (file, 0, &[], Err(SourceErr::TooLarge)),
        (file, 18, &[2], Err(SourceErr::Fault)),
        (
            b"tally\n\n",
            18,
            &[],
            Err(SourceErr::Refused {
                line: 2,
                why: Fault::Form,
            }),
        ),
        (b"one\nand so on", 12, &[], Err(SourceErr::TooLarge)),
        (
            b"one\nand so on",
            13,
            &[],
            Err(SourceErr::Refused {
                line: 1,
                why: Fault::Form,
            }),
        ),
        (
            b"",
            0,
            &[],
            Err(SourceErr::Refused {
                line: 1,
                why: Fault::Truncated,
            }),
        ),
    ];
    for (bytes, limit, failing, want) in cases {
        let mut source = MemSource::new(rt.alloc(), bytes, 4, failing)?;
        let checked = check_source::<Tally, MemSource>(rt.alloc(), &mut source, limit);
        assert_eq!(rt; checked, want, "at {limit}, the file {bytes:?}");
    }
    Ok(())
}
