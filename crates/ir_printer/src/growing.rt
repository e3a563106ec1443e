//! A sink that grows.
ghost use Rattle.std.specs.Prelude.{◌≡◌, ◌<◌, ◌≤◌, [], Some, length, take, IfOk, OnOk, OnErr};
ghost use Rattle.ir_base.specs.Outside.{Rose, Added};

use ir_base::{Failed, Sink, Text};
use std::alloc::Global;

/// A text that grows by what is written. A write fails where there is no memory for it.
#[derive(Drop)]
pub(crate) struct GrowingText {
    /// What was written so far.
    pub text: Text,
    /// How many writes failed.
    refused: u64,
}

impl GrowingText {
    /// Nothing was written yet.
    pub(crate) fn new(alloc: Global) -> GrowingText
        ensures { result.text ≡ [] }
    {
        GrowingText {
            text: Text::new(alloc),
            refused: 0,
        }
    }
}

impl Sink for GrowingText {
    ghost taken = { λ sink. Some sink.text };

    ghost faults = { λ sink. sink.refused };

    fn write(&mut self, piece: &[u8]) -> Result<usize, Failed>
        requires { 0 < length piece.now }
        ensures some { IfOk result (λ n. 0 < n) }
        ensures within { IfOk result (λ n. n ≤ length piece.now) }
        ensures added { IfOk result (λ n. Added (Some self.old.text) (Some self.new.text) (take n piece.now)) }
        ensures fine { OnOk result (self.new.refused ≡ self.old.refused) }
        ensures kept { OnErr result (Some self.new.text ≡ Some self.old.text) }
        ensures later { self.old.refused ≤ self.new.refused }
        ensures rose { OnErr result (Rose self.old.refused self.new.refused) }
    {
        if self.text.extend(piece).is_err() {
            self.refused = self.refused.saturating_add(1);
            return Err(Failed);
        }
        Ok(piece.len())
    }
}
