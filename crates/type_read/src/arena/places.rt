//! Types, blocks and locals by their indices.
ghost use Rattle.std.specs.Prelude.{◌≡◌, ◌<◌, length};
ghost use Rattle.record_table.specs.Fields.{Numbering, block, local};
ghost use Rattle.record_read.specs.Reader.{ReadsAs};
ghost use Rattle.type_read.specs.Arena.Numbered.{Numbers, IsBlock, IsLocal};
ghost use Rattle.type_read.specs.Arena.Kept.{IsKnownType, ReadsType, TakesOnly};

use crate::arena::ModuleReader;
use module_arena::{BlockId, ValueId};
use record_read::read_place;
use type_table::TypeId;

/// A type by its index. Another index breaks rule 2; then there is none, which stands for `void`.
pub fn read_type(m: &mut ModuleReader<'_>) -> Option<TypeId>
    ensures takes { TakesOnly m.old m.new }
    ensures known { IsKnownType m.new result }
    ensures reads { (k : Numbering) → Numbers m.old k → ReadsType k m.old m.new result }
{
    let count = m.growing.type_count();
    let number = m.reader.number();
    m.reader.ask(2, number < count);
    m.reader.stops_where_broken();
    if number < count {
        Some(TypeId::new(number))
    } else {
        None
    }
}

/// A block of the body by its index. Another index breaks rule 2; then there is none.
pub fn read_block(m: &mut ModuleReader<'_>) -> Option<BlockId>
    ensures takes { TakesOnly m.old m.new }
    ensures reads { (k : Numbering) → Numbers m.old k → ReadsAs (IsBlock k) (block k) m.old.reader m.new.reader result }
{
    let count = u64::from(m.locals.blocks);
    match read_place(&mut m.reader, count) {
        Some(place) => Some(BlockId::new(place as u32)),
        None => None,
    }
}

/// A parameter or result of the body by its index. Another index breaks rule 2; then there is none.
pub fn read_local(m: &mut ModuleReader<'_>) -> Option<ValueId>
    ensures takes { TakesOnly m.old m.new }
    ensures reads { (k : Numbering) → Numbers m.old k → ReadsAs (IsLocal k) (local k) m.old.reader m.new.reader result }
{
    let count = u64::from(m.locals.values);
    match read_place(&mut m.reader, count) {
        Some(place) => Some(ValueId::new(place as u32)),
        None => None,
    }
}
