//! Memory of blocks that have ended, for those that begin.
ghost use Rattle.std.specs.Prelude.{◌≡◌, IfOk, Some, replicate};

use crate::masked::MaskedBytes;
use std::alloc::{AllocError, Global};

/// How many bytes a block may have whose memory is kept.
const WIDEST: usize = 64;

/// For how many blocks memory is kept.
const MOST: usize = 64;

/// The memory of small blocks that have ended. A function that is called and left again and again takes that of its allocas from here.
#[derive(Drop)]
pub struct Spare {
    kept: Vec<MaskedBytes>,
}

impl Spare {
    /// None yet.
    pub fn new(alloc: Global) -> Spare {
        Spare {
            kept: Vec::new(alloc),
        }
    }

    /// So many zeros, in memory that was kept where they are few.
    #[inline]
    pub fn zeros(&mut self, alloc: Global, count: usize) -> Result<MaskedBytes, AllocError>
        ensures { IfOk result (λ bytes. bytes ≡ replicate count (Some 0)) }
    {
        if count > WIDEST {
            return MaskedBytes::new(alloc, count);
        }
        match self.kept.pop() {
            Some(bytes) => bytes.renewed(alloc, count),
            None => {
                // What is kept later finds its room here: a block that ends takes no memory.
                self.kept.reserve(MOST)?;
                MaskedBytes::new(alloc, count)
            }
        }
    }

    /// Keeps the memory of bytes that are wanted no more, if they are few.
    #[inline]
    pub fn keep(&mut self, bytes: MaskedBytes) {
        if bytes.len() > WIDEST || self.kept.len() >= MOST {
            return;
        }
        // There has been room for as many since the first small block was made.
        let _kept = self.kept.push(bytes);
    }
}
