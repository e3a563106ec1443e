//! A module in the making.
ghost use Rattle.std.specs.Prelude.{◌≡◌, length, false, IfOk};
ghost use Rattle.module_arena.specs.Known.{KnowsConst, counts};
ghost use Rattle.record_read.specs.Reader.{is_broken};
ghost use Rattle.type_read.specs.Arena.Kept.{KeepsConstant};

use crate::arena::{GlobalCounts, GrowingArena, LocalCounts};
use module_arena::{Const, ConstId};
use record_read::RecordReader;
use std::alloc::{AllocError, Global};

/// A reader of records, the arena that they are read into, and how many there are of what has an index.
///
/// ```
/// // in front of the records of a module, in which so many entries are announced
/// let growing = GrowingArena::over(alloc, Arena::new(alloc))?;
/// let locals = LocalCounts { values: 0, blocks: 0 };
/// ModuleReader { reader, alloc, growing, globals, locals }
/// ```
#[derive(Drop)]
pub struct ModuleReader<'b> {
    pub reader: RecordReader<'b>,
    pub alloc: Global,
    pub growing: GrowingArena,
    pub globals: GlobalCounts,
    /// Those of the body that is read.
    pub locals: LocalCounts,
}

impl<'b> ModuleReader<'b> {
    /// The id of the constant, which is kept where the record breaks no rule so far; else nothing is. It is refused for want
    /// of memory alone.
    pub fn keep_unbroken(&mut self, constant: Const) -> Result<Option<ConstId>, AllocError>
        requires { is_broken self.old.reader.walk ≡ false → KnowsConst (length self.old.growing.arena.table.types) (counts self.old.growing.arena) (length self.old.growing.arena.constants) constant }
        ensures { IfOk result (KeepsConstant self.old constant self.new) }
    {
        if self.reader.is_broken() {
            return Ok(None);
        }
        Ok(Some(self.growing.keep(constant)?))
    }
}
