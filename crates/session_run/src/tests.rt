// Whole sessions over streams in memory, and sessions by their commands.
use crate::{MAX_INPUT, MAX_JOBS, Reply, Session, read_command, serve};
use std::alloc::Global;
use std::test::Fail;
use wb_base::{MemSink, MemSource, Status};

// What a session over an input that comes in pieces says, if it ends well.
fn conversation(alloc: Global, text: &[u8], piece: usize) -> Result<Vec<u8>, Fail> {
    let mut source = MemSource::new(alloc, text, piece.max(1), &[])?;
    let mut sink = MemSink::new(alloc, 4096, 7, &[])?;
    match serve(alloc, &mut source, &mut sink) {
        Status::Done => Ok(sink.bytes().to_vec(alloc)?),
        _ => Ok(Vec::new(alloc)),
    }
}

#[test]
fn jobs_go_on_by_their_own_turns(rt: HostRuntime) -> Result<(), Fail> {
    let text =
        "open a 9 9 | 1 2 | 2 1\nopen b 9 9 | 1 2 1 | 2 1 2\nturn a 1\nturn b 2\nturn a 1\ntake a\nclose a\nopen a 9 9 | 1 2 | 2 1\nshow a\nshow c\nopen a 9 9 | 1 | 2\nlist\nwalk";
    let want =
        "opened a\nopened b\nstate a running 1\nstate b running 2\nstate a less 2\nbraid-trace 1\nleft 1 2\nright 2 1\nh 2 4\nh 1 2\nverdict less\nwitness 1 -2\nend\nclosed a\nopened a\nstate a running 0\nno job c\ntwice a\njobs 2\nstate b running 2\nstate a running 0\nbad\n";
    for piece in [1, 13, 5000] {
        let got = conversation(rt.alloc(), text.as_bytes(), piece)?;
        assert_eq!(rt; got.as_slice(), want.as_bytes(), "at {piece}");
    }
    Ok(())
}

#[test]
fn a_bad_line_changes_nothing(rt: HostRuntime) -> Result<(), Fail> {
    let text =
        "open a 9 9 |1 2|2 1\n\nturn a 1 |\nturn a 01\nturn a 100001\nopen b 9 9 | 1 | 02\nopen b 9 9 | 1\nopen b 9 9 | 1 | 2 | 3\nlist 1\nclose A\n  show   a  \nlist";
    let want =
        "opened a\nbad\nbad\nbad\nbad\nbad\nbad\nbad\nbad\nbad\nstate a running 0\njobs 1\nstate a running 0\n";
    let got = conversation(rt.alloc(), text.as_bytes(), 4096)?;
    assert_eq!(rt; got.as_slice(), want.as_bytes());
    Ok(())
}

#[test]
fn limits_end_a_run(rt: HostRuntime) -> Result<(), Fail> {
    let text =
        "open a 1 9 | 1 2 | 2 1\nturn a 5\ntake a\nopen b 9 3 | 1 2 | 2 1\nshow b\nopen c 0 0 | |\ntake c\nshow c";
    let want =
        "opened a\nstate a handles 1\nstate a handles 1\nopened b\nstate b length 0\nopened c\nbraid-trace 1\nleft\nright\nverdict equal\nwitness\nend\nstate c equal 0\n";
    let got = conversation(rt.alloc(), text.as_bytes(), 4096)?;
    assert_eq!(rt; got.as_slice(), want.as_bytes());
    Ok(())
}

#[test]
fn as_many_jobs_are_open_as_may_be(rt: HostRuntime) -> Result<(), Fail> {
    let alloc = rt.alloc();
    let mut session = Session::new(alloc);
    for k in 0..=MAX_JOBS {
        let line = format!(in alloc; "open j{k} 1 1 | | 1")?;
        let reply = session.command(read_command(alloc, line.as_bytes())?);
        assert_eq!(rt; reply == Reply::Full, k == MAX_JOBS, "at {k}");
    }
    assert_eq!(rt; session.job_count(), MAX_JOBS);
    assert!(rt; session.job_at(MAX_JOBS - 1).is_some());
    assert!(rt; session.job_at(MAX_JOBS).is_none());
    let twice = session.command(read_command(alloc, b"open j0 1 1 | | 1")?);
    assert!(rt; matches!(twice, Reply::Twice(_)));
    Ok(())
}

#[test]
fn a_session_is_full_by_its_65th_job(rt: HostRuntime) -> Result<(), Fail> {
    let alloc = rt.alloc();
    let mut text = Vec::new(alloc);
    let mut want = Vec::new(alloc);
    for k in 0..MAX_JOBS {
        text.extend_from_slice(format!(in alloc; "open j{k} 1 1 | | 1\n")?.as_bytes())?;
        want.extend_from_slice(format!(in alloc; "opened j{k}\n")?.as_bytes())?;
    }
    text.extend_from_slice(b"open j64 1 1 | | 1\nopen j0 1 1 | | 1\n")?;
    want.extend_from_slice(b"full\ntwice j0\n")?;
    let got = conversation(alloc, &text, 4096)?;
    assert_eq!(rt; got, want);
    Ok(())
}

#[test]
fn a_quotient_of_too_many_letters_is_refused(rt: HostRuntime) -> Result<(), Fail> {
    let alloc = rt.alloc();
    let mut line = Vec::from_slice(alloc, b"open a 9 9 |")?;
    for _ in 0..60_000 {
        line.extend_from_slice(b" 1")?;
    }
    line.extend_from_slice(b" |")?;
    for _ in 0..60_000 {
        line.extend_from_slice(b" 2")?;
    }
    let got = conversation(alloc, &line, 4096)?;
    assert_eq!(rt; got.as_slice(), b"too long 120000\n".as_slice());
    Ok(())
}

// The line `list`, then a line of so many spaces with its LF, and then some more bytes.
fn long_input(alloc: Global, spaces: usize, more: &[u8]) -> Result<Vec<u8>, Fail> {
    let mut input = Vec::from_slice(alloc, b"list\n")?;
    let line = vec![in alloc; b' '; spaces]?;
    input.extend_from_slice(&line)?;
    input.push(b'\n')?;
    input.extend_from_slice(more)?;
    Ok(input)
}

// The LF of the second line stands at the limit, or one byte behind it.
#[test]
fn lines_within_the_limit_are_answered(rt: HostRuntime) -> Result<(), Fail> {
    let alloc = rt.alloc();
    let cases: [(usize, &[u8], Status, &[u8]); 3] = [
        (MAX_INPUT - 6, b"", Status::Done, b"jobs 0\nbad\n"),
        (
            MAX_INPUT - 6,
            b"x",
            Status::Limit,
            b"jobs 0\nbad\nlimit input 8388608\n",
        ),
        (
            MAX_INPUT - 5,
            b"list",
            Status::Limit,
            b"jobs 0\nlimit input 8388608\n",
        ),
    ];
    for (spaces, more, status, want) in cases {
        let input = long_input(alloc, spaces, more)?;
        let mut source = MemSource::new(alloc, &input, 100_000, &[])?;
        let mut sink = MemSink::new(alloc, 64, 64, &[])?;
        let got = serve(alloc, &mut source, &mut sink);
        assert_eq!(rt; got, status, "at {want:?}");
        assert_eq!(rt; sink.bytes(), want, "at {want:?}");
    }
    Ok(())
}

// A fault of the source in its third call, and faults of the sink in its first call, in the first `done`,
// and where it has no room.
#[test]
fn a_fault_ends_a_session(rt: HostRuntime) -> Result<(), Fail> {
    let alloc = rt.alloc();
    let cases: [(&[u64], &[u64], usize, Status, &[u8]); 5] = [
        (&[], &[], 64, Status::Done, b"jobs 0\njobs 0\nbad\n"),
        (&[2], &[], 64, Status::ReadFault, b"jobs 0\njobs 0\n"),
        (&[], &[0], 64, Status::WriteFault, b""),
        (&[], &[3], 64, Status::WriteFault, b"jobs 0\n"),
        (&[], &[], 9, Status::WriteFault, b"jobs 0\njo"),
    ];
    for (reads, writes, room, status, want) in cases {
        let mut source = MemSource::new(alloc, b"list\nlist\nshow", 5, reads)?;
        let mut sink = MemSink::new(alloc, room, 64, writes)?;
        assert_eq!(rt; serve(alloc, &mut source, &mut sink), status, "at {want:?}");
        assert_eq!(rt; sink.bytes(), want, "at {want:?}");
    }
    Ok(())
}
