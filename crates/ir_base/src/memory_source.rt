//! A source in memory.
ghost use Rattle.std.specs.Prelude.{◌≡◌, ◌↔◌, ◌⊎◌, ◌<◌, ◌≤◌, ℕ, List, [], Some, IsTrue, IsErr, min, length, take, Option, IfOk, IfSome, OnOk, OnErr};
ghost use Rattle.ir_base.specs.Calls.{next_count, next_fails};
ghost use Rattle.ir_base.specs.MemorySource.{after_read, read_answer, source_faults};
ghost use Rattle.ir_base.specs.Outside.{Rose, Lost};

use crate::failing_calls::FailingCalls;
use crate::{Failed, NumberList, Source, Text};
use std::marker::Model;

/// A source that gives the bytes it was made of, and fails at the calls that it was told.
///
/// ```
/// let mut fails = NumberList::new(alloc);
/// fails.push(2)?;
/// let mut source = MemorySource::new(Text::from_slice(alloc, b"ret")?, fails);
/// source.read(&mut two_bytes) // Ok(2): `re`
/// source.read(&mut two_bytes) // Err(Failed): the second call was told to fail
/// source.read(&mut two_bytes) // Ok(1): `t`
/// source.read(&mut two_bytes) // Ok(0): the end
/// ```
#[derive(Debug, Drop)]
pub struct MemorySource {
    bytes: Text,
    at: usize,
    calls: FailingCalls,
}

impl Model for MemorySource {
    ghost use Rattle.std.specs.Prelude.{◌≤◌, drop, length};
    ghost use Rattle.ir_base.specs.MemorySource.{SourceState};

    ghost Value = { SourceState };

    ghost view = { λ s. record { left = drop s.at s.bytes; fails = s.calls.fails; calls = s.calls.made } };

    ghost invariant = { λ s. s.at ≤ length s.bytes };
}

impl MemorySource {
    /// A source of these bytes. The calls with these numbers, counted from 1, fail.
    #[tactic(auto, using(crate::proofs::NamedCalls::named_calls_zero))]
    pub fn new(bytes: Text, fails: NumberList) -> MemorySource
        ensures state { result ≡ record { left = bytes; fails = fails; calls = 0 } }
        ensures faults { source_faults result ≡ 0 }
    {
        MemorySource {
            bytes,
            at: 0,
            calls: FailingCalls::new(fails),
        }
    }
}

impl Source for MemorySource {
    ghost left = { λ source. Some source.left };

    ghost faults = { source_faults };

    #[tactic(auto, using(crate::proofs::NamedCalls::named_calls_none))]
    fn read(&mut self, into: &mut [u8]) -> Result<usize, Failed>
        requires { 0 < length into.old }
        ensures within { IfOk result (λ n. n ≤ length into.new) }
        ensures lost { IfOk result (λ n. Lost (Some self.old.left) (Some self.new.left) (take n into.new)) }
        ensures end { IfOk result (λ n. (n ≡ 0) ↔ (self.old.left ≡ [])) }
        ensures fine { OnOk result (source_faults self.new ≡ source_faults self.old) }
        ensures kept { OnErr result (self.new.left ≡ self.old.left) }
        ensures later { source_faults self.old ≤ source_faults self.new }
        ensures rose { OnErr result (Rose (source_faults self.old) (source_faults self.new)) }
        ensures much { IfOk result (λ n. n ≡ min (length into.old) (length self.old.left)) }
        ensures told { IsErr result ↔ IsTrue (next_fails self.old.fails self.old.calls) }
        ensures fails { self.new.fails ≡ self.old.fails }
        ensures calls { self.new.calls ≡ next_count self.old.calls }
        ensures none { self.new.fails ≡ [] → source_faults self.new ≡ 0 }
        ensures answer { result ≡ read_answer self.old (length into.old) }
        ensures after { self.new ≡ after_read self.old (length into.old) }
    {
        if self.calls.next_fails() {
            return Err(Failed);
        }
        let rest = &self.bytes.bytes()[self.at..];
        let n = into.len().min(rest.len());
        into[..n].copy_from_slice(&rest[..n]);
        self.at += n;
        Ok(n)
    }
}
