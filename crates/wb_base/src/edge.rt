// The calls of std's readers and writers: one `read`, one `write`, one `flush`.
//
// Std counts neither reads nor errors, and tells of no flush: so these are noted here, where each call is
// made.
// The clauses of `standard.rt` speak of the notes. That a function here makes its call, once, and notes what
// was answered, no clause can say: this is the program's edge.
ghost use Rattle.std.specs.Prelude.{◌≡◌, ◌≤◌, ◌<◌, true, false, IfOk, OnOk, OnErr, length};
ghost use Rattle.std.specs.Io.KnownBytes.{Keeps, ReadConsumes, WriteAppends};
ghost use Rattle.wb_base.specs.Streams.{HasCause, CountsErrors, one_more};

use crate::stream::Failed;
use std::io::{Read, Write};

// Counts an error: the stream has failed.
fn count_error(errors: &mut u64) -> Failed
    ensures counted { errors.new ≡ one_more errors.old }
    ensures later { errors.old ≤ errors.new }
{
    *errors = errors.saturating_add(1);
    Failed
}

// A reader, with how many reads and how many errors there were.
#[derive(Drop)]
pub struct CountedReader<R: Read + Drop> {
    reader: R,
    reads: u64,
    errors: u64,
}

impl<R: Read + Drop> CountedReader<R> {
    pub fn new(reader: R) -> CountedReader<R>
        ensures { result ≡ record { reader = reader; reads = 0; errors = 0 } }
    {
        CountedReader {
            reader,
            reads: 0,
            errors: 0,
        }
    }

    // One read.
    pub fn read(&mut self, into: &mut [u8]) -> Result<usize, Failed>
        ensures within { IfOk result (λ n. n ≤ length into.new) }
        ensures bytes { ReadConsumes (R.remaining self.old.reader) (R.remaining self.new.reader) result
            into.new }
        ensures counted { self.new.reads ≡ one_more self.old.reads }
        ensures cause { HasCause self.old.errors self.new.errors result }
        ensures errors { CountsErrors self.old.errors self.new.errors result }
    {
        self.reads = self.reads.saturating_add(1);
        match self.reader.read(into) {
            Ok(n) => Ok(n),
            Err(_) => Err(count_error(&mut self.errors)),
        }
    }
}

// A writer, with how many errors there were, and whether it was flushed and has not been written to since.
#[derive(Drop)]
pub struct CountedWriter<W: Write + Drop> {
    writer: W,
    errors: u64,
    flushed: bool,
}

impl<W: Write + Drop> CountedWriter<W> {
    // The writer may hold bytes that it was given before, so it isn't known to be flushed.
    pub fn new(writer: W) -> CountedWriter<W>
        ensures { result ≡ record { writer = writer; errors = 0; flushed = false } }
    {
        CountedWriter {
            writer,
            errors: 0,
            flushed: false,
        }
    }

    // One write of a front of the bytes. It is an error too that none is written where there is one.
    pub fn write(&mut self, bytes: &[u8]) -> Result<usize, Failed>
        ensures within { IfOk result (λ n. n ≤ length bytes.now) }
        ensures some { IfOk result (λ n. 0 < length bytes.now → 0 < n) }
        ensures written { WriteAppends (W.contents self.old.writer) (W.contents self.new.writer) result
            bytes.now }
        ensures unflushed { self.new.flushed ≡ false }
        ensures cause { HasCause self.old.errors self.new.errors result }
        ensures errors { CountsErrors self.old.errors self.new.errors result }
    {
        self.flushed = false;
        match self.writer.write(bytes) {
            Ok(n) if n > 0 || bytes.is_empty() => Ok(n),
            _ => Err(count_error(&mut self.errors)),
        }
    }

    // One flush.
    pub fn flush(&mut self) -> Result<(), Failed>
        ensures kept { Keeps (W.contents self.old.writer) (W.contents self.new.writer) }
        ensures flushed { OnOk result (self.new.flushed ≡ true) }
        ensures unflushed { OnErr result (self.new.flushed ≡ self.old.flushed) }
        ensures cause { HasCause self.old.errors self.new.errors result }
        ensures errors { CountsErrors self.old.errors self.new.errors result }
    {
        match self.writer.flush() {
            Ok(()) => {
                self.flushed = true;
                Ok(())
            }
            Err(_) => Err(count_error(&mut self.errors)),
        }
    }
}
