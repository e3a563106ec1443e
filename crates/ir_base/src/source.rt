//! Where bytes are read.
ghost use Rattle.std.specs.Prelude.{◌≡◌, ◌↔◌, ◌⊎◌, ◌<◌, ◌≤◌, ℕ, List, [], length, take, Option, IfOk, IfSome, OnOk, OnErr, IsErrOf};
ghost use Rattle.ir_base.specs.Outside.{Rose, Lost, LostUpTo};
ghost use Rattle.ir_base.specs.declared.source.ReadFault.TheVariants.{CannotRead, Memory};

use crate::{Failed, Text};
use std::alloc::{AllocError, Global};
use thiserror::Error;

/// An object of the outside that gives bytes. It tells which bytes are left, or nothing of them.
pub trait Source {
    /// The bytes that are left, where they are told.
    ghost left: { Self → Option (List ℕ) };

    /// How often a read has failed, a number that never falls.
    ghost faults: { Self → ℕ };

    /// Reads into the front of the buffer, which is not empty, and says how many bytes.
    fn read(&mut self, into: &mut [u8]) -> Result<usize, Failed>
        requires { 0 < length into.old }
        ensures within { IfOk result (λ n. n ≤ length into.new) }
        ensures lost { IfOk result (λ n. Lost (left self.old) (left self.new) (take n into.new)) }
        ensures end { IfOk result (λ n. IfSome (left self.old) (λ bytes. (n ≡ 0) ↔ (bytes ≡ []))) }
        ensures fine { OnOk result (faults self.new ≡ faults self.old) }
        ensures kept { OnErr result (left self.new ≡ left self.old) }
        ensures later { faults self.old ≤ faults self.new }
        ensures rose { OnErr result (Rose (faults self.old) (faults self.new)) };
}

/// Why a source was not read whole.
#[derive(Clone, Copy, Debug, PartialEq, Eq, Error)]
pub enum ReadFault {
    /// A read failed.
    #[error("a read failed")]
    CannotRead,
    /// Memory ran out.
    #[error("memory ran out")]
    Memory,
}

impl From<AllocError> for ReadFault {
    ghost from_gives = { λ _ fault. fault ≡ Memory };

    fn from(_: AllocError) -> Self {
        ReadFault::Memory
    }
}

impl From<Failed> for ReadFault {
    ghost from_gives = { λ _ fault. fault ≡ CannotRead };

    fn from(_: Failed) -> Self {
        ReadFault::CannotRead
    }
}

// The most bytes of one read.
const PIECE: usize = 65_536;

/// Reads to the end, or as many bytes as the limit, whichever comes first.
pub fn read_all<I: Source>(alloc: Global, input: &mut I, limit: usize) -> Result<Text, ReadFault>
    ensures lost { IfOk result (λ text. Lost (I.left input.old) (I.left input.new) text) }
    ensures few { IfOk result (λ text. length text ≤ limit) }
    ensures all { IfOk result (λ text. IfSome (I.left input.new) (λ rest. (rest ≡ []) ⊎ (length text ≡ limit))) }
    ensures front { IfOk result (λ text. IfSome (I.left input.old) (λ bytes. text ≡ take limit bytes)) }
    ensures err { OnErr result (LostUpTo limit (I.left input.old) (I.left input.new)) }
    ensures fine { OnOk result (I.faults input.new ≡ I.faults input.old) }
    ensures memory { IsErrOf result ReadFault.Memory → I.faults input.new ≡ I.faults input.old }
    ensures passed_on { I.faults input.old < I.faults input.new → IsErrOf result ReadFault.CannotRead }
    ensures later { I.faults input.old ≤ I.faults input.new }
    ensures rose { IsErrOf result ReadFault.CannotRead → Rose (I.faults input.old) (I.faults input.new) }
{
    let mut bytes = Vec::new(alloc);
    let mut buffer = vec![in alloc; 0u8; PIECE.min(limit)]?;
    let piece = buffer.as_mut_slice();
    'reading: while bytes.len() < limit {
        let room = piece.len().min(limit - bytes.len());
        let n = input.read(&mut piece[..room])?;
        if n == 0 {
            break 'reading;
        }
        bytes.extend_from_slice(&piece[..n])?;
    }
    Ok(Text::from_vec(bytes))
}
