//! A whole module.
ghost use Rattle.std.specs.Prelude.{◌≡◌, ◌<◌, ℕ, [], false, OnOk, IfOk, slice_index};
ghost use Rattle.module_arena.specs.View.{module_of};
ghost use Rattle.module_arena.specs.WellFormed.{IsWellFormed};
ghost use Rattle.bit_tree.specs.Written.{no_more, written};
ghost use Rattle.record_table.specs.Spelling.{put_block, put_module, spelling, texts_in};
ghost use Rattle.record_table.specs.Spelling.{written_module};
ghost use Rattle.bitcode_write.specs.Put.{IsOutside};
ghost use Rattle.bitcode_write.specs.Entries.{AreEntries};

use crate::bodies::put_bodies;
use crate::byte_blocks::put_byte_block;
use crate::globals::{put_globals, put_head};
use crate::records::RecordSink;
use crate::types::put_types;
use ir_base::Text;
use module_arena::Checked;
use record_table::{MODULE_BLOCK, PRODUCER, PRODUCER_BLOCK, TABLE_BLOCK, TYPES_BLOCK};
use record_write::operands::Numbering;
use std::alloc::{AllocError, Global};

/// Writes the block of the module.
fn put_module_block(out: &mut RecordSink, numbering: &Numbering<'_>) -> Result<(), AllocError>
    requires outside { IsOutside out.old.writer }
    requires empty { out.old.operands.items ≡ [] }
    requires entries { AreEntries numbering.now }
    ensures put { OnOk result (out.new.writer ≡ written out.old.writer (put_block 8 (put_module (texts_in (module_of numbering.now)) (module_of numbering.now)) no_more)) }
    ensures unspent { OnOk result (out.new.writer.spent ≡ false) }
    ensures outside { OnOk result (out.new.writer.around ≡ []) }
{
    out.enter(MODULE_BLOCK)?;
    put_head(out, numbering)?;
    out.enter(TYPES_BLOCK)?;
    put_types(out, numbering)?;
    out.leave()?;
    put_globals(out, numbering)?;
    put_bodies(out, numbering)?;
    out.leave()?;
    Ok(())
}

/// Writes the blocks of a stream: the producer's, the string table and the module's.
fn put_stream(
    out: &mut RecordSink,
    alloc: Global,
    numbering: &Numbering<'_>,
) -> Result<(), AllocError>
    requires outside { IsOutside out.old.writer }
    requires empty { out.old.operands.items ≡ [] }
    requires well_formed { IsWellFormed (module_of numbering.now) }
    requires entries { AreEntries numbering.now }
    ensures put { OnOk result
        (out.new.writer ≡ written out.old.writer (written_module (module_of numbering.now))) }
    ensures unspent { OnOk result (out.new.writer.spent ≡ false) }
    ensures outside { OnOk result (out.new.writer.around ≡ []) }
{
    put_byte_block(out, alloc, PRODUCER_BLOCK, &PRODUCER)?;
    put_byte_block(out, alloc, TABLE_BLOCK, numbering.table())?;
    put_module_block(out, numbering)
}

/// What holds of all bytes: each is below 256.
fn bytes_fit(bytes: &[u8])
    ensures { (place : ℕ) → slice_index bytes.now place < 256 }
{
    let _count = bytes.len();
}

/// The bitcode of a module by its numbering.
fn write_numbered(alloc: Global, numbering: &Numbering<'_>) -> Result<Text, AllocError>
    requires well_formed { IsWellFormed (module_of numbering.now) }
    requires entries { AreEntries numbering.now }
    ensures { IfOk result (λ text. text ≡ spelling (module_of numbering.now)) }
{
    let mut out = RecordSink::new(alloc)?;
    put_stream(&mut out, alloc, numbering)?;
    let text = out.finish();
    bytes_fit(text.bytes());
    Ok(text)
}

/// The bitcode of a module: the producer's block, the string table and the module, in version 2 of the record table. It is
/// refused for want of memory alone.
pub fn write(alloc: Global, checked: &Checked) -> Result<Text, AllocError>
    ensures { IfOk result (λ text. text ≡ spelling (module_of checked.now)) }
{
    let arena = checked.arena();
    // What holds of the entries of each arena.
    let _count = arena.variable_count();
    let numbering = Numbering::new(alloc, arena)?;
    write_numbered(alloc, &numbering)
}
