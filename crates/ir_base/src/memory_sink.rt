//! A sink in memory.
ghost use Rattle.std.specs.Prelude.{◌≡◌, ◌↔◌, ◌⊎◌, ◌<◌, ◌≤◌, ◌-◌, ℕ, List, [], Some, IsTrue, IsErr, is_err, min, length, take, Option, IfOk, OnOk, OnErr};
ghost use Rattle.ir_base.specs.Calls.{next_count, next_fails};
ghost use Rattle.ir_base.specs.MemorySink.{IsFull, WriteFails, full_calls_behind, sink_faults};
ghost use Rattle.ir_base.specs.Outside.{Rose, Added};

use crate::failing_calls::FailingCalls;
use crate::{Failed, NumberList, Sink};
use std::alloc::{AllocError, Global};
use std::marker::Model;

/// A sink that keeps the bytes it has taken, has room for so many, and fails where it is full and at the calls that
/// it was told.
///
/// ```
/// let mut sink = MemorySink::new(alloc, 4, NumberList::new(alloc))?;
/// sink.write(b"ret") // Ok(3)
/// sink.write(b" void") // Ok(1): there is room for one byte more
/// sink.write(b"void") // Err(Failed): it is full
/// sink.taken() // `ret `
/// ```
#[derive(Debug, Drop)]
pub struct MemorySink {
    // The bytes taken, with room from the start for as many as the sink takes.
    taken: Vec<u8>,
    capacity: usize,
    calls: FailingCalls,
    full_calls: u64,
}

impl Model for MemorySink {
    ghost use Rattle.std.specs.Prelude.{◌≤◌, vec_len, vec_capacity};
    ghost use Rattle.ir_base.specs.MemorySink.{SinkState};

    ghost Value = { SinkState };

    ghost view = { λ s. record {
      taken = s.taken.items;
      capacity = s.capacity;
      fails = s.calls.fails;
      calls = s.calls.made;
      full_calls = s.full_calls;
    } };

    ghost invariant = { λ s. (vec_len s.taken ≤ s.capacity) × (s.capacity ≤ vec_capacity s.taken) };
}

impl MemorySink {
    /// A sink with room for so many bytes. The calls with these numbers, counted from 1, fail.
    #[tactic(auto, using(crate::proofs::NamedCalls::named_calls_zero))]
    pub fn new(alloc: Global, capacity: u64, fails: NumberList) -> Result<MemorySink, AllocError>
        ensures state { IfOk result (λ sink. sink ≡ record { taken = []; capacity = capacity; fails = fails; calls = 0; full_calls = 0 }) }
        ensures faults { IfOk result (λ sink. sink_faults sink ≡ 0) }
    {
        let capacity = capacity as usize;
        Ok(MemorySink {
            taken: Vec::with_capacity(alloc, capacity)?,
            capacity,
            calls: FailingCalls::new(fails),
            full_calls: 0,
        })
    }

    /// The bytes that it has taken.
    pub fn taken(&self) -> &[u8]
        ensures { result.now ≡ self.now.taken }
    {
        self.taken.as_slice()
    }
}

impl Sink for MemorySink {
    ghost taken = { λ sink. Some sink.taken };

    ghost faults = { sink_faults };

    fn write(&mut self, piece: &[u8]) -> Result<usize, Failed>
        requires { 0 < length piece.now }
        ensures some { IfOk result (λ n. 0 < n) }
        ensures within { IfOk result (λ n. n ≤ length piece.now) }
        ensures added { IfOk result (λ n. Added (Some self.old.taken) (Some self.new.taken) (take n piece.now)) }
        ensures fine { OnOk result (sink_faults self.new ≡ sink_faults self.old) }
        ensures kept { OnErr result (self.new.taken ≡ self.old.taken) }
        ensures later { sink_faults self.old ≤ sink_faults self.new }
        ensures rose { OnErr result (Rose (sink_faults self.old) (sink_faults self.new)) }
        ensures much { IfOk result (λ n. n ≡ min (length piece.now) (self.old.capacity - length self.old.taken)) }
        ensures told { IsTrue (next_fails self.old.fails self.old.calls) → IsErr result }
        ensures full { self.old.capacity ≡ length self.old.taken → IsErr result }
        ensures cause { OnErr result (IsTrue (next_fails self.old.fails self.old.calls) ⊎ IsFull self.new) }
        ensures room { OnOk result (self.new.capacity ≡ self.old.capacity) }
        ensures no_room { self.new.capacity ≡ self.old.capacity ⊎ IsFull self.new }
        ensures full_calls { self.new.full_calls ≡ full_calls_behind self.old (is_err result) }
        ensures fails { self.new.fails ≡ self.old.fails }
        ensures calls { self.new.calls ≡ next_count self.old.calls }
        ensures when { IsErr result ↔ WriteFails self.old }
        ensures same_room { self.new.capacity ≡ self.old.capacity }
    {
        if self.calls.next_fails() {
            return Err(Failed);
        }
        let n = piece.len().min(self.capacity - self.taken.len());
        if n == 0 {
            self.full_calls = self.full_calls.saturating_add(1);
            return Err(Failed);
        }
        // The room was made at the start, so this takes no memory.
        let is_added = self.taken.extend_from_slice(&piece[..n]).is_ok();
        prove!(is_added);
        Ok(n)
    }
}
