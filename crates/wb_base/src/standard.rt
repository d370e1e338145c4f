// Sources and sinks over std's readers and writers.
//
// A reader may tell the bytes that it has left, and a writer those that it holds. Standard input and
// output tell none: what they give and take is known to no proof. Their calls are made in `edge.rt`.
ghost use Rattle.std.specs.Prelude.{◌≡◌, ◌+◌, ◌-◌, ◌≤◌, ◌<◌, min, true, false, None, IfOk, OnOk, IsErr, length, take, ◌++◌};
ghost use Rattle.std.specs.Io.KnownBytes.{Keeps, Appends, ReadConsumes, WriteAppends};
ghost use Rattle.wb_base.specs.Streams.{HasCause, TakesFront, GivesFront, WaitsAtMost, one_more, CountsErrors};
ghost use Rattle.wb_base.specs.StreamStates.{waiting_before};

use crate::edge::{CountedReader, CountedWriter};
use crate::stream::{Failed, Sink, Source};
use std::io::{Read, Write};
use std::marker::Model;

// How many bytes a sink collects before it writes them out.
const CAPACITY: usize = 8192;

/// A source over a reader. It tells no bytes to code that is generic over sources.
///
/// Each `take` reads once, into the bytes that it is given. Each error of the reader is a fault, also that a
/// read was interrupted; the call can be made again.
#[derive(Drop)]
pub struct StdSource<R: Read + Drop> {
    reader: CountedReader<R>,
}

impl<R: Read + Drop> Model for StdSource<R> {
    ghost use Rattle.wb_base.specs.StreamStates.{ReaderState};

    ghost Value = { ReaderState };

    ghost view = { λ s. record {
      left = R.remaining s.reader.reader;
      reads = s.reader.reads;
      faults = s.reader.errors;
    } };
}

impl<R: Read + Drop> StdSource<R> {
    /// A source of what the reader gives.
    pub fn new(reader: R) -> StdSource<R>
        ensures { result ≡ record { left = R.remaining reader; reads = 0; faults = 0 } }
    {
        StdSource {
            reader: CountedReader::new(reader),
        }
    }
}

impl<R: Read + Drop> Source for StdSource<R> {
    ghost left = { λ _. None };

    ghost faults = { λ s. s.faults };

    ghost calls = { λ s. s.reads };

    fn take(&mut self, into: &mut [u8]) -> Result<usize, Failed>
        ensures within { IfOk result (λ n. n ≤ length into.new) }
        ensures bytes { TakesFront None None result into.new }
        ensures cause { HasCause self.old.faults self.new.faults result }
        ensures counted { self.new.reads ≡ one_more self.old.reads }

        // The reader's bytes, where it tells them, and each error counts.
        ensures read { ReadConsumes self.old.left self.new.left result into.new }
        ensures errors { CountsErrors self.old.faults self.new.faults result }
    {
        self.reader.read(into)
    }
}

/// A sink over a writer. It tells no bytes to code that is generic over sinks.
///
/// It collects up to 8,192 bytes, which wait. It writes them out at the first `give` of bytes that finds no
/// room, and in `done`, which flushes the writer too. Each error of the writer is a fault, and so is a write
/// of no bytes; what wasn't written still waits then, and the call can be made again. Bytes that wait when it
/// is dropped are lost.
#[derive(Drop)]
pub struct StdSink<W: Write + Drop> {
    writer: CountedWriter<W>,
    buffer: [u8; CAPACITY],
    len: usize,
}

impl<W: Write + Drop> Model for StdSink<W> {
    ghost use Rattle.std.specs.Prelude.{◌≤◌, ◌≡◌, length, take};
    ghost use Rattle.std.specs.Io.KnownBytes.{append_known};
    ghost use Rattle.wb_base.specs.StreamStates.{WriterState};

    ghost Value = { WriterState };

    ghost view = { λ s. record {
      taken = append_known (W.contents s.writer.writer) (take s.len s.buffer);
      waiting = s.len;
      flushed = s.writer.flushed;
      faults = s.writer.errors;
    } };

    ghost invariant = { λ s. s.len ≤ 8192 };
}

// Writes out the first `len` bytes of a buffer, and answers how many it wrote before an error.
fn write_out<W: Write + Drop>(writer: &mut CountedWriter<W>, buffer: &[u8], len: usize) -> usize
    requires { len ≤ length buffer.now }
    ensures within { result ≤ len }
    ensures written { Appends (W.contents writer.old.writer) (W.contents writer.new.writer)
        (take result buffer.now) }
    ensures whole { result ≡ len → writer.new.errors ≡ writer.old.errors }
    ensures error { result < len → writer.new.errors ≡ one_more writer.old.errors }
    ensures later { writer.old.errors ≤ writer.new.errors }
{
    let mut written = 0;
    while written < len {
        let Ok(n) = writer.write(&buffer[written..len]) else {
            return written;
        };
        written += n;
    }
    written
}

// Copies a front of some bytes to a place of a buffer, and answers its length: as much as has room.
fn fill(buffer: &mut [u8], at: usize, bytes: &[u8]) -> usize
    requires { at ≤ length buffer.old }
    ensures count { result ≡ min (length buffer.new - at) (length bytes.now) }
    ensures filled { take (at + result) buffer.new ≡ take at buffer.old ++ take result bytes.now }
{
    let n = bytes.len().min(buffer.len() - at);
    buffer[at..at + n].copy_from_slice(&bytes[..n]);
    n
}

impl<W: Write + Drop> StdSink<W> {
    /// A sink that passes bytes on to the writer.
    pub fn new(writer: W) -> StdSink<W>
        ensures { result ≡ record { taken = W.contents writer; waiting = 0; flushed = false; faults = 0 } }
    {
        StdSink {
            writer: CountedWriter::new(writer),
            buffer: [0; CAPACITY],
            len: 0,
        }
    }

    // Writes out the bytes that wait. After an error those wait that weren't written.
    fn pass_on(&mut self) -> Result<(), Failed>
        ensures passed { OnOk result (self.new.waiting ≡ 0) }
        ensures waits { self.new.waiting ≤ self.old.waiting }
        ensures cause { HasCause self.old.faults self.new.faults result }
        ensures kept { Keeps self.old.taken self.new.taken }
        ensures errors { CountsErrors self.old.faults self.new.faults result }
    {
        let written = write_out(&mut self.writer, &self.buffer, self.len);
        let left = self.len - written;
        self.buffer.copy_within(written..self.len, 0);
        self.len = left;
        if left > 0 {
            return Err(Failed);
        }
        Ok(())
    }

    // Writes out the bytes that wait where there is no room for more.
    fn make_room(&mut self) -> Result<(), Failed>
        ensures full { IsErr result → self.old.waiting ≡ 8192 }
        ensures made { OnOk result (self.new.waiting ≡ waiting_before self.old.waiting) }
        ensures room { OnOk result (self.new.waiting < 8192) }
        ensures waits { self.new.waiting ≤ self.old.waiting }
        ensures cause { HasCause self.old.faults self.new.faults result }
        ensures kept { Keeps self.old.taken self.new.taken }
        ensures errors { CountsErrors self.old.faults self.new.faults result }
    {
        if self.len < CAPACITY {
            return Ok(());
        }
        self.pass_on()
    }

    // Takes as many bytes as have room, and answers how many these are.
    fn collect(&mut self, bytes: &[u8]) -> usize
        ensures count { result ≡ min (8192 - self.old.waiting) (length bytes.now) }
        ensures waits { self.new.waiting ≡ self.old.waiting + result }
        ensures took { Appends self.old.taken self.new.taken (take result bytes.now) }
        ensures unfailed { self.new.faults ≡ self.old.faults }
    {
        let n = fill(&mut self.buffer, self.len, bytes);
        self.len += n;
        n
    }
}

impl<W: Write + Drop> Sink for StdSink<W> {
    ghost taken = { λ _. None };

    ghost waiting = { λ s. s.waiting };

    ghost faults = { λ s. s.faults };

    fn give(&mut self, bytes: &[u8]) -> Result<usize, Failed>
        ensures within { IfOk result (λ n. n ≤ length bytes.now) }
        ensures took { GivesFront None None result bytes.now }
        ensures waits { WaitsAtMost self.old.waiting self.new.waiting result }
        ensures cause { HasCause self.old.faults self.new.faults result }

        // It takes as many bytes as have room, and these wait. It fails only where no room was left for a
        // byte.
        // No byte is lost, where the writer tells those that it holds, and each error counts.
        ensures takes { IfOk result
            (λ n. n ≡ min (8192 - waiting_before self.old.waiting) (length bytes.now)) }
        ensures collects { 0 < length bytes.now
            → IfOk result (λ n. self.new.waiting ≡ waiting_before self.old.waiting + n) }
        ensures full { IsErr result → (self.old.waiting ≡ 8192) × (0 < length bytes.now) }
        ensures written { WriteAppends self.old.taken self.new.taken result bytes.now }
        ensures errors { CountsErrors self.old.faults self.new.faults result }
    {
        if bytes.is_empty() {
            return Ok(0);
        }
        self.make_room()?;
        Ok(self.collect(bytes))
    }

    fn done(&mut self) -> Result<(), Failed>
        ensures passed { OnOk result (self.new.waiting ≡ 0) }
        ensures waits { self.new.waiting ≤ self.old.waiting }
        ensures cause { HasCause self.old.faults self.new.faults result }

        // The writer is flushed. No byte is lost, where it tells those that it holds, and each error counts.
        ensures flushed { OnOk result (self.new.flushed ≡ true) }
        ensures none_lost { Keeps self.old.taken self.new.taken }
        ensures errors { CountsErrors self.old.faults self.new.faults result }
    {
        self.pass_on()?;
        self.writer.flush()
    }
}
