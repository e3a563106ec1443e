//! Output that was put out and is not written yet.
ghost use Rattle.std.specs.Prelude.{◌≡◌, ◌+◌, ◌<◌, ◌≤◌, ◌++◌, [], length, IfOk, OnOk, OnErr};
ghost use Rattle.ir_base.specs.Outside.{Added, Rose};
ghost use Rattle.run_rules.specs.Traffic.Output.{Puts, WritesFront};
ghost use Rattle.run_rules.specs.declared.traffic.output.TheConstants.{OUTPUT_PIECE};

use ir_base::{Failed, Sink, write_all};
use std::alloc::{AllocError, Global};
use std::marker::Model;

/// Output is gathered until so many bytes of it are there, and then written.
pub const OUTPUT_PIECE: usize = 65_536;

/// Bytes that a run has put out and that are not written yet, fewer than 65,536. A clause sees the list of them.
#[derive(Drop)]
pub struct Output {
    bytes: Vec<u8>,
}

impl Model for Output {
    ghost use Rattle.std.specs.Prelude.{List, ℕ, ◌<◌, ◌≤◌, vec_len, vec_capacity};
    ghost use Rattle.run_rules.specs.declared.traffic.output.TheConstants.{OUTPUT_PIECE};

    ghost Value = { List ℕ };

    ghost view = { λ o. o.bytes.items };

    ghost invariant = { λ o. (vec_len o.bytes < OUTPUT_PIECE) × (OUTPUT_PIECE ≤ vec_capacity o.bytes) };
}

impl Output {
    /// Nothing is put out yet. The room that it takes is all that it ever needs.
    pub fn new(alloc: Global) -> Result<Output, AllocError>
        ensures { IfOk result (λ output. output ≡ []) }
    {
        Ok(Output {
            bytes: Vec::with_capacity(alloc, OUTPUT_PIECE)?,
        })
    }

    /// Puts bytes behind the others. Where there are 65,536 or more then, all of them are written; else none is.
    ///
    /// Failed where a write failed: a front of them all is written, and the same bytes as before are held.
    #[tactic(auto, using(crate::proofs::OnTraffic::Written::puts_held, crate::proofs::OnTraffic::Written::puts_through))]
    pub fn put<O: Sink>(&mut self, bytes: &[u8], sink: &mut O) -> Result<(), Failed>
        ensures ok { OnOk result (Puts (O.taken sink.old) (O.taken sink.new) self.old bytes.now self.new) }
        ensures front { OnErr result (WritesFront (O.taken sink.old) (O.taken sink.new) (self.old ++ bytes.now)) }
        ensures kept { OnErr result (self.new ≡ self.old) }
        ensures fine { OnOk result (O.faults sink.new ≡ O.faults sink.old) }
        ensures rose { OnErr result (Rose (O.faults sink.old) (O.faults sink.new)) }
        ensures later { O.faults sink.old ≤ O.faults sink.new }
        ensures short { length self.new < OUTPUT_PIECE }
    {
        if bytes.len() < OUTPUT_PIECE - self.bytes.len() {
            self.hold(bytes);
            return Ok(());
        }
        self.write_with(bytes, sink)
    }

    // Holds bytes that have room behind the others.
    fn hold(&mut self, bytes: &[u8])
        requires { length self.old + length bytes.now < OUTPUT_PIECE }
        ensures { self.new ≡ self.old ++ bytes.now }
    {
        match self.bytes.extend_from_slice(bytes) {
            Ok(()) => {}
            Err(_) => unreachable!(),
        }
    }

    // Writes what is held, and these bytes behind it: first what is held and as many of them as fill it up, by one write.
    fn write_with<O: Sink>(&mut self, bytes: &[u8], sink: &mut O) -> Result<(), Failed>
        ensures ok { OnOk result (Added (O.taken sink.old) (O.taken sink.new) (self.old ++ bytes.now)) }
        ensures none { OnOk result (self.new ≡ []) }
        ensures front { OnErr result (WritesFront (O.taken sink.old) (O.taken sink.new) (self.old ++ bytes.now)) }
        ensures kept { OnErr result (self.new ≡ self.old) }
        ensures fine { OnOk result (O.faults sink.new ≡ O.faults sink.old) }
        ensures rose { OnErr result (Rose (O.faults sink.old) (O.faults sink.new)) }
        ensures later { O.faults sink.old ≤ O.faults sink.new }
        ensures short { length self.new < OUTPUT_PIECE }
    {
        let held = self.bytes.len();
        let more = bytes.len().min(OUTPUT_PIECE - held);
        match self.bytes.extend_from_slice(&bytes[..more]) {
            Ok(()) => {}
            Err(_) => unreachable!(),
        }
        let written = write_both(&self.bytes, &bytes[more..], sink);
        match written {
            Ok(()) => self.bytes.clear(),
            Err(_) => self.bytes.truncate(held),
        }
        written
    }

    /// Writes all that is held.
    ///
    /// Failed where a write failed: a front of it is written, and the same bytes as before are held.
    #[tactic(auto, using(crate::proofs::OnTraffic::Written::front_alone, crate::proofs::OnTraffic::Written::added_alone))]
    pub fn flush<O: Sink>(&mut self, sink: &mut O) -> Result<(), Failed>
        ensures ok { OnOk result (Added (O.taken sink.old) (O.taken sink.new) self.old) }
        ensures none { OnOk result (self.new ≡ []) }
        ensures front { OnErr result (WritesFront (O.taken sink.old) (O.taken sink.new) self.old) }
        ensures kept { OnErr result (self.new ≡ self.old) }
        ensures fine { OnOk result (O.faults sink.new ≡ O.faults sink.old) }
        ensures rose { OnErr result (Rose (O.faults sink.old) (O.faults sink.new)) }
        ensures later { O.faults sink.old ≤ O.faults sink.new }
        ensures short { length self.new < OUTPUT_PIECE }
    {
        self.write_with(&[], sink)
    }
}

// Writes bytes and those behind them.
fn write_both<O: Sink>(bytes: &[u8], behind: &[u8], sink: &mut O) -> Result<(), Failed>
    ensures ok { OnOk result (Added (O.taken sink.old) (O.taken sink.new) (bytes.now ++ behind.now)) }
    ensures front { OnErr result (WritesFront (O.taken sink.old) (O.taken sink.new) (bytes.now ++ behind.now)) }
    ensures fine { OnOk result (O.faults sink.new ≡ O.faults sink.old) }
    ensures rose { OnErr result (Rose (O.faults sink.old) (O.faults sink.new)) }
    ensures later { O.faults sink.old ≤ O.faults sink.new }
{
    write_all(sink, bytes)?;
    write_all(sink, behind)?;
    Ok(())
}
