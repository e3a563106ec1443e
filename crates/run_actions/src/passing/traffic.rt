//! The bytes of a step on their way out and in.
ghost use Rattle.std.specs.Prelude.{◌≡◌, ◌^◌, ◌<◌, OnErr};
ghost use Rattle.run_rules.specs.Clauses.{outside};
ghost use Rattle.run_actions.specs.Passing.Traffic.{Finishes, Flushes, Gets, MakesWay, number_got, Puts, TakesByte};

use crate::stack::Stack;
use ir_base::{Failed, Sink, Source};
use ir_eval::Scalar;
use run_rules::traffic::{Input, Output};
use run_rules::{END_OF_INPUT, End, RunFault};

/// Writes all that was put out. A fault tells that a write failed; then a front of it is written, and all of it is held still.
pub fn flush<O: Sink>(held: &mut Output, sink: &mut O) -> Result<(), RunFault>
    ensures { Flushes result held.old held.new (O.taken sink.old) (O.faults sink.old) (O.taken sink.new) (O.faults sink.new) }
{
    match held.flush(sink) {
        Ok(()) => Ok(()),
        Err(Failed) => Err(RunFault::WriteFault),
    }
}

/// Puts out what an instruction writes. A fault tells that a write failed; then a front of what was held and of these bytes is written,
/// and what was held before is held still.
#[inline]
pub fn put<O: Sink>(held: &mut Output, bytes: &[u8], sink: &mut O) -> Result<(), RunFault>
    ensures { Puts result bytes.now held.old held.new (O.taken sink.old) (O.faults sink.old) (O.taken sink.new) (O.faults sink.new) }
{
    if bytes.is_empty() {
        return Ok(());
    }
    match held.put(bytes, sink) {
        Ok(()) => Ok(()),
        Err(Failed) => Err(RunFault::WriteFault),
    }
}

/// The run is over with this end, which comes back: all that was put out is written. A fault tells that a write failed; then a front of
/// it is written, and all of it is held still.
pub fn finish<O: Sink>(end: End, held: &mut Output, sink: &mut O) -> Result<End, RunFault>
    ensures { Finishes end result held.old held.new (O.taken sink.old) (O.faults sink.old) (O.taken sink.new) (O.faults sink.new) }
{
    flush(held, sink)?;
    Ok(end)
}

/// Before input is read all that was put out is written.
fn make_way<O: Sink>(waiting: &Input, held: &mut Output, sink: &mut O) -> Result<(), RunFault>
    ensures { MakesWay waiting.now result held.old held.new (O.taken sink.old) (O.faults sink.old) (O.taken sink.new) (O.faults sink.new) }
{
    if waiting.must_read() {
        flush(held, sink)
    } else {
        Ok(())
    }
}

/// What `getchar` gives.
fn number_of(byte: Option<u8>) -> u128
    ensures value { result ≡ number_got byte }
    ensures few { result < 2 ^ 32 }
{
    match byte {
        Some(byte) => u128::from(byte),
        None => END_OF_INPUT,
    }
}

/// The newest frame gets the next byte of the input at that place, or -1 at its end. Before input is read all that was put out is
/// written. A fault tells that a read or that write failed; then the frames are as they were.
pub fn get<I: Source, O: Sink>(
    stack: &mut Stack,
    to: u32,
    waiting: &mut Input,
    held: &mut Output,
    source: &mut I,
    sink: &mut O,
) -> Result<(), RunFault>
    requires { TakesByte stack.old to }
    ensures got { Gets to result stack.old stack.new waiting.old waiting.new held.old held.new (outside (I.left source.old) (I.faults source.old) (O.taken sink.old) (O.faults sink.old)) (outside (I.left source.new) (I.faults source.new) (O.taken sink.new) (O.faults sink.new)) }
    ensures frames { OnErr result (stack.new ≡ stack.old) }
{
    make_way(waiting, held, sink)?;
    let byte = match waiting.take(source) {
        Ok(byte) => byte,
        Err(Failed) => return Err(RunFault::ReadFault),
    };
    stack.set(to, Scalar::Int(number_of(byte)));
    Ok(())
}
