//! The process's own streams, or any reader and writer of std. They tell nothing of their bytes as
//! sources and sinks; what a reader or a writer itself tells, their own clauses keep.
ghost use Rattle.std.specs.Prelude.{◌≡◌, ◌<◌, ◌≤◌, ◌+◌, ◌-◌, ◌^◌, min, ℕ, List, None, length, take, Option, IfOk, OnOk, OnErr};
ghost use Rattle.std.specs.IoError.{error_kind};
ghost use Rattle.std.specs.Io.{ReadsAtMost, WritesAtMost};
ghost use Rattle.std.specs.Io.KnownBytes.{Appends, Keeps, ReadConsumes, WriteAppends};
ghost use Rattle.ir_base.specs.Calls.{next_count};
ghost use Rattle.ir_base.specs.Outside.{Rose};

use crate::{Failed, Sink, Source};
use std::io;
use std::io::{ErrorKind, Read, Write};
use std::marker::Model;

// How often a call that the system interrupted is made before it counts as a fault.
const TRIES: u32 = 1_000;

fn interrupted() -> io::Error
    ensures { error_kind result ≡ ErrorKind.Interrupted }
{
    io::Error::from(ErrorKind::Interrupted)
}

fn read_again<R: Read>(from: &mut R, into: &mut [u8]) -> io::Result<usize>
    ensures bound { ReadsAtMost result into.new }
    ensures bytes { ReadConsumes (R.remaining from.old) (R.remaining from.new) result into.new }
{
    for _ in 0..TRIES {
        match from.read(into) {
            Err(error) if error.kind() == ErrorKind::Interrupted => {}
            outcome => return outcome,
        }
    }
    Err(interrupted())
}

// An interrupted write took nothing, so no byte is written twice.
fn write_again<W: Write>(to: &mut W, piece: &[u8]) -> io::Result<usize>
    ensures bound { WritesAtMost result piece.now }
    ensures bytes { WriteAppends (W.contents to.old) (W.contents to.new) result piece.now }
{
    for _ in 0..TRIES {
        match to.write(piece) {
            Err(error) if error.kind() == ErrorKind::Interrupted => {}
            outcome => return outcome,
        }
    }
    Err(interrupted())
}

fn flush_again<W: Write>(to: &mut W) -> io::Result<()>
    ensures { Keeps (W.contents to.old) (W.contents to.new) }
{
    for _ in 0..TRIES {
        match to.flush() {
            Err(error) if error.kind() == ErrorKind::Interrupted => {}
            outcome => return outcome,
        }
    }
    Err(interrupted())
}

// Where the flush fails the piece is not written again.
fn write_through<W: Write>(to: &mut W, piece: &[u8]) -> io::Result<usize>
    ensures bound { WritesAtMost result piece.now }
    ensures bytes { IfOk result (λ n. Appends (W.contents to.old) (W.contents to.new) (take n piece.now)) }
{
    let n = write_again(to, piece)?;
    flush_again(to)?;
    Ok(n)
}

/// A reader as a source. Contracts see the reader, and how many of its reads have failed.
#[derive(Drop)]
pub struct StdSource<R> {
    from: R,
    failures: u64,
}

impl<R> Model for StdSource<R> {
    ghost use Rattle.ir_base.specs.Standard.{Adapted};

    ghost Value = { Adapted R };

    ghost view = { λ source. record { inner = source.from; faults = source.failures } };
}

impl<R: Read> StdSource<R> {
    /// A source of what the reader gives.
    pub fn new(from: R) -> Self
        ensures { result ≡ record { inner = from; faults = 0 } }
    {
        StdSource { from, failures: 0 }
    }
}

impl<R: Read> Source for StdSource<R> {
    ghost left = { λ _. None };

    ghost faults = { λ source. source.faults };

    fn read(&mut self, into: &mut [u8]) -> Result<usize, Failed>
        requires { 0 < length into.old }
        ensures within { IfOk result (λ n. n ≤ length into.new) }
        ensures fine { OnOk result (self.new.faults ≡ self.old.faults) }
        ensures later { self.old.faults ≤ self.new.faults }
        ensures rose { OnErr result (Rose self.old.faults self.new.faults) }
        ensures counted { OnErr result (self.new.faults ≡ next_count self.old.faults) }
        ensures bytes { ReadConsumes (R.remaining self.old.inner) (R.remaining self.new.inner) result into.new }
    {
        match read_again(&mut self.from, into) {
            Ok(n) => Ok(n),
            Err(_) => {
                self.failures = self.failures.saturating_add(1);
                Err(Failed)
            }
        }
    }
}

/// A writer as a sink, flushed in each call. Contracts see the writer, and how many of its writes have failed.
#[derive(Drop)]
pub struct StdSink<W> {
    to: W,
    failures: u64,
}

impl<W> Model for StdSink<W> {
    ghost use Rattle.ir_base.specs.Standard.{Adapted};

    ghost Value = { Adapted W };

    ghost view = { λ sink. record { inner = sink.to; faults = sink.failures } };
}

impl<W: Write> StdSink<W> {
    /// A sink that writes to the writer.
    pub fn new(to: W) -> Self
        ensures { result ≡ record { inner = to; faults = 0 } }
    {
        StdSink { to, failures: 0 }
    }
}

impl<W: Write> Sink for StdSink<W> {
    ghost taken = { λ _. None };

    ghost faults = { λ sink. sink.faults };

    fn write(&mut self, piece: &[u8]) -> Result<usize, Failed>
        requires { 0 < length piece.now }
        ensures some { IfOk result (λ n. 0 < n) }
        ensures within { IfOk result (λ n. n ≤ length piece.now) }
        ensures fine { OnOk result (self.new.faults ≡ self.old.faults) }
        ensures later { self.old.faults ≤ self.new.faults }
        ensures rose { OnErr result (Rose self.old.faults self.new.faults) }
        ensures counted { OnErr result (self.new.faults ≡ next_count self.old.faults) }
        ensures bytes { IfOk result (λ n. Appends (W.contents self.old.inner) (W.contents self.new.inner) (take n piece.now)) }
    {
        match write_through(&mut self.to, piece) {
            Ok(n) if n > 0 => Ok(n),
            _ => {
                self.failures = self.failures.saturating_add(1);
                Err(Failed)
            }
        }
    }
}
