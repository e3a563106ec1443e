//! Input that was read and is not used yet.
ghost use Rattle.std.specs.Prelude.{◌≡◌, ◌↔◌, ◌≤◌, [], false, IsTrue, IfOk, OnOk, OnErr};
ghost use Rattle.ir_base.specs.Outside.{Rose};
ghost use Rattle.run_rules.specs.Traffic.Input.{IsHeard, IsNext, IsWaiting, Takes};

use ir_base::{Failed, Source};
use std::alloc::{AllocError, Global};
use std::marker::Model;

/// The most bytes of one read.
pub const INPUT_PIECE: usize = 65_536;

/// Bytes that a run has read and not used yet, and whether a read has given none, after which nothing is read any more.
#[derive(Drop)]
pub struct Input {
    bytes: Vec<u8>,
    at: usize,
    end: usize,
    closed: bool,
}

impl Model for Input {
    ghost use Rattle.std.specs.Prelude.{◌≡◌, ◌≤◌, take, drop, vec_len};
    ghost use Rattle.run_rules.specs.Traffic.Input.{Waiting};
    ghost use Rattle.run_rules.specs.declared.traffic.input.TheConstants.{INPUT_PIECE};

    ghost Value = { Waiting };

    ghost view = { λ i. record { unused = drop i.at (take i.end i.bytes.items); closed = i.closed } };

    ghost invariant = { λ i. (i.at ≤ i.end) × (i.end ≤ vec_len i.bytes) × (vec_len i.bytes ≡ INPUT_PIECE) };
}

impl Input {
    /// Nothing is read yet. The room that it takes is all that it ever needs.
    pub fn new(alloc: Global) -> Result<Input, AllocError>
        ensures { IfOk result (λ input. input ≡ record { unused = []; closed = false }) }
    {
        Ok(Input {
            bytes: vec![in alloc; 0u8; INPUT_PIECE]?,
            at: 0,
            end: 0,
            closed: false,
        })
    }

    /// Whether `take` will read: no byte waits, and no read has given none. Output that is held is to be written before that.
    #[inline]
    pub fn must_read(&self) -> bool
        ensures { IsTrue result ↔ IsWaiting self.now }
    {
        self.at == self.end && !self.closed
    }

    /// Takes the next byte of the input, or None at its end. Where no byte waits, and no read has given none, it reads once, at most
    /// 65,536 bytes.
    ///
    /// Failed where that read failed: nothing is read, and nothing changes.
    #[tactic(auto, using(crate::proofs::OnTraffic::Taken::takes_unused, crate::proofs::OnTraffic::Taken::takes_heard))]
    pub fn take<I: Source>(&mut self, source: &mut I) -> Result<Option<u8>, Failed>
        ensures ok { IfOk result (λ byte. Takes self.old byte self.new (I.left source.old) (I.left source.new)) }
        ensures waits { OnErr result (IsWaiting self.old) }
        ensures same { OnErr result (self.new ≡ self.old) }
        ensures kept { OnErr result (I.left source.new ≡ I.left source.old) }
        ensures fine { OnOk result (I.faults source.new ≡ I.faults source.old) }
        ensures rose { OnErr result (Rose (I.faults source.old) (I.faults source.new)) }
        ensures later { I.faults source.old ≤ I.faults source.new }
    {
        if !self.must_read() {
            return Ok(self.next());
        }
        self.refill(source)?;
        Ok(self.next())
    }

    // The first byte that waits, if one does.
    #[inline]
    #[tactic(auto, using(crate::proofs::OnTraffic::Buffers::none_taken, crate::proofs::OnTraffic::Buffers::first_between))]
    fn next(&mut self) -> Option<u8>
        ensures first { IsNext self.old.unused result self.new.unused }
        ensures same { self.new.closed ≡ self.old.closed }
    {
        if self.at == self.end {
            return None;
        }
        let byte = self.bytes[self.at];
        self.at += 1;
        Some(byte)
    }

    // Reads once; a read of no bytes is the last.
    #[tactic(auto, using(crate::proofs::OnTraffic::Taken::heard_is, crate::proofs::OnTraffic::Taken::still_waiting))]
    fn refill<I: Source>(&mut self, source: &mut I) -> Result<(), Failed>
        requires { IsWaiting self.old }
        ensures ok { OnOk result (IsHeard (I.left source.old) (I.left source.new) self.new) }
        ensures same { OnErr result (self.new ≡ self.old) }
        ensures kept { OnErr result (I.left source.new ≡ I.left source.old) }
        ensures fine { OnOk result (I.faults source.new ≡ I.faults source.old) }
        ensures rose { OnErr result (Rose (I.faults source.old) (I.faults source.new)) }
        ensures later { I.faults source.old ≤ I.faults source.new }
    {
        self.at = 0;
        self.end = 0;
        let count = source.read(&mut self.bytes)?;
        self.end = count;
        self.closed = count == 0;
        Ok(())
    }
}
