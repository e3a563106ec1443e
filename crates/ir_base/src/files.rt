//! Files by name.
ghost use Rattle.std.specs.Prelude.{◌≡◌, ◌≢◌, ◌⊎◌, ◌≤◌, ℕ, List, length, Option, Ok, Err, OnOk, OnErr, IfOk, IfSome, IsErr, IsErrOf};
ghost use Rattle.ir_base.specs.Outside.{Rose};
ghost use Rattle.ir_base.specs.Files.{Holds, HoldsFront, IsMissing, IsOver, Named, ReadsFrom};
ghost use Rattle.ir_base.specs.declared.files.FileFault.TheVariants.{Memory};

use crate::Text;
use std::alloc::{AllocError, Global};
use thiserror::Error;

/// Why a file was not read or written.
#[derive(Clone, Copy, Debug, PartialEq, Eq, Error)]
pub enum FileFault {
    /// The call failed.
    #[error("a call of the files failed")]
    Failed,
    /// The file is larger than the limit.
    #[error("the file is too large")]
    TooLarge,
    /// Memory ran out.
    #[error("memory ran out")]
    Memory,
}

impl From<AllocError> for FileFault {
    ghost from_gives = { λ _ fault. fault ≡ Memory };

    fn from(_: AllocError) -> Self {
        FileFault::Memory
    }
}

/// Files of the outside, each under a name. It tells what each file holds, or nothing of them.
pub trait Files {
    /// What is in each file, where that is told.
    ghost contents: { Self → Option Named };

    /// How often a read has failed, a number that never falls.
    ghost read_faults: { Self → ℕ };

    /// How often a write has failed, a number that never falls.
    ghost write_faults: { Self → ℕ };

    /// All the bytes of the file of this name, which are at most the limit.
    fn read_file(&mut self, alloc: Global, name: &Text, limit: u64) -> Result<Text, FileFault>
        ensures found { IfOk result (λ text. ReadsFrom (contents self.old) name.now text) }
        ensures few { IfOk result (λ text. length text ≤ limit) }
        ensures missing { IsMissing (contents self.old) name.now →
            IsErrOf result FileFault.Failed ⊎ IsErrOf result FileFault.Memory }
        ensures large { IsErrOf result FileFault.TooLarge →
            IfSome (contents self.old) (λ files. IsOver limit files name.now) }
        ensures over { IfSome (contents self.old) (λ files. IsOver limit files name.now → IsErr result) }
        ensures kept { contents self.new ≡ contents self.old }
        ensures later { read_faults self.old ≤ read_faults self.new }
        ensures fine { result ≢ Err FileFault.Failed → read_faults self.new ≡ read_faults self.old }
        ensures writes { write_faults self.new ≡ write_faults self.old }
        ensures rose { IsErrOf result FileFault.Failed →
            Rose (read_faults self.old) (read_faults self.new) ⊎ IsMissing (contents self.old) name.now };

    /// Makes the file of this name hold these bytes. Where the call fails it may hold a front of them.
    fn write_file(&mut self, alloc: Global, name: &Text, bytes: &Text) -> Result<(), FileFault>
        ensures written { OnOk result (Holds (contents self.old) (contents self.new) name.now bytes.now) }
        ensures broken { IsErrOf result FileFault.Failed →
            HoldsFront (contents self.old) (contents self.new) name.now bytes.now }
        ensures memory { IsErrOf result FileFault.Memory → contents self.new ≡ contents self.old }
        ensures any_size { result ≢ Err FileFault.TooLarge }
        ensures later { write_faults self.old ≤ write_faults self.new }
        ensures fine { result ≢ Err FileFault.Failed → write_faults self.new ≡ write_faults self.old }
        ensures reads { read_faults self.new ≡ read_faults self.old }
        ensures rose { IsErrOf result FileFault.Failed → Rose (write_faults self.old) (write_faults self.new) };
}
