//! The blocks of functions' bodies.
ghost use Rattle.std.specs.Prelude.{◌≡◌, ◌+◌, ◌++◌, ◌∷◌, [], map, flat_map, filter_map, length, All, OnOk, Some};
ghost use Rattle.ir_tables.specs.Opcode.{opcode_code};
ghost use Rattle.module_arena.specs.Lists.{function_blocks};
ghost use Rattle.module_arena.specs.Known.{KnowsFunction};
ghost use Rattle.module_arena.specs.View.{local_view};
ghost use Rattle.bit_tree.specs.Written.{no_more};
ghost use Rattle.record_table.specs.Fields.{label};
ghost use Rattle.record_table.specs.Spelling.{put, put_block as a_block, put_bodies as the_bodies, block_lines, body_lines, body_of, instruction_line, ending_line};
ghost use Rattle.record_write.specs.Operands.Numbered.{indices, inside, texts};
ghost use Rattle.bitcode_write.specs.Lines.Ids.{KnowsLine};
ghost use Rattle.bitcode_write.specs.Lines.Lines.{IsLine, instruction_of, ending_of};
ghost use Rattle.bitcode_write.specs.Put.{IsOpen, Puts, PutsLines};
ghost use Rattle.bitcode_write.specs.Entries.{function_of, block_of, IsBlock, AreEntries};

use crate::lines::{ending_opcode, instruction_opcode, put_ending, put_instruction};
use crate::records::RecordSink;
use ir_tables::Opcode;
use module_arena::{Block, Body, Function, FunctionId, Inst, Parameter};
use record_table::{BLOCK, BODY_BLOCK, FIRST_LINE, PARAMETERS};
use record_write::operands::{Numbering, put_label};
use std::alloc::AllocError;

/// The code of the record of a line with that opcode.
fn line_code(opcode: Opcode) -> u32
    ensures { result ≡ 10 + opcode_code opcode }
{
    FIRST_LINE + u32::from(opcode.code())
}

/// Writes the record of an instruction.
fn put_line(
    out: &mut RecordSink,
    numbering: &Numbering<'_>,
    function: &Function,
    instruction: &Inst,
) -> Result<(), AllocError>
    requires ready { IsOpen out.old.writer }
    requires empty { out.old.operands.items ≡ [] }
    requires known { KnowsLine numbering.now function.now instruction.now }
    requires line { IsLine numbering.now function.now instruction.now }
    ensures put { OnOk result (PutsLines out.old.writer (instruction_line (texts numbering.now) (inside numbering.now function.now) (instruction_of numbering.now function.now instruction.now) ∷ []) out.new.writer) }
    ensures none { OnOk result (out.new.operands.items ≡ []) }
{
    put_instruction(&mut out.operands, numbering, function, instruction)?;
    let opcode = instruction_opcode(instruction);
    out.put(line_code(opcode))
}

/// Writes the records of instructions.
fn put_lines(
    out: &mut RecordSink,
    numbering: &Numbering<'_>,
    function: &Function,
    instructions: &[Inst],
) -> Result<(), AllocError>
    requires ready { IsOpen out.old.writer }
    requires empty { out.old.operands.items ≡ [] }
    requires known { All (KnowsLine numbering.now function.now) instructions.now }
    requires lines { All (IsLine numbering.now function.now) instructions.now }
    ensures put { OnOk result (PutsLines out.old.writer (map (instruction_line (texts numbering.now) (inside numbering.now function.now)) (map (instruction_of numbering.now function.now) instructions.now)) out.new.writer) }
    ensures none { OnOk result (out.new.operands.items ≡ []) }
{
    'parts: for place in 0..instructions.len() {
        put_line(out, numbering, function, &instructions[place])?;
    }
    Ok(())
}

/// Writes the records of a block: its name, its instructions and its end.
fn put_block(
    out: &mut RecordSink,
    numbering: &Numbering<'_>,
    function: &Function,
    block: &Block,
) -> Result<(), AllocError>
    requires ready { IsOpen out.old.writer }
    requires empty { out.old.operands.items ≡ [] }
    requires known { IsBlock numbering.now function.now block.now }
    ensures put { OnOk result (PutsLines out.old.writer (block_lines (texts numbering.now) (inside numbering.now function.now) (block_of numbering.now function.now block.now)) out.new.writer) }
    ensures none { OnOk result (out.new.operands.items ≡ []) }
{
    put_label(&mut out.operands, numbering, &block.name)?;
    out.put(BLOCK)?;
    put_lines(out, numbering, function, block.instructions.as_slice())?;
    put_ending(&mut out.operands, numbering, &block.end)?;
    let opcode = ending_opcode(&block.end);
    out.put(line_code(opcode))
}

/// Writes the records of blocks.
fn put_blocks(
    out: &mut RecordSink,
    numbering: &Numbering<'_>,
    function: &Function,
    blocks: &[Block],
) -> Result<(), AllocError>
    requires ready { IsOpen out.old.writer }
    requires empty { out.old.operands.items ≡ [] }
    requires known { All (IsBlock numbering.now function.now) blocks.now }
    ensures put { OnOk result (PutsLines out.old.writer (flat_map (block_lines (texts numbering.now) (inside numbering.now function.now)) (map (block_of numbering.now function.now) blocks.now)) out.new.writer) }
    ensures none { OnOk result (out.new.operands.items ≡ []) }
{
    'parts: for place in 0..blocks.len() {
        put_block(out, numbering, function, &blocks[place])?;
    }
    Ok(())
}

/// Appends what the parameters are called.
fn put_names(
    operands: &mut Vec<u64>,
    numbering: &Numbering<'_>,
    parameters: &[Parameter],
) -> Result<(), AllocError>
    ensures { OnOk result (operands.new.items ≡ operands.old.items ++ flat_map (label (texts numbering.now) 0).spell (map (λ p. local_view p.name) parameters.now)) }
{
    'parts: for place in 0..parameters.len() {
        let parameter = &parameters[place];
        put_label(operands, numbering, &parameter.name)?;
    }
    Ok(())
}

/// Writes the block of a body: the names of the parameters, and then the function's blocks.
fn put_body(
    out: &mut RecordSink,
    numbering: &Numbering<'_>,
    function: &Function,
    body: &Body,
) -> Result<(), AllocError>
    requires ready { IsOpen out.old.writer }
    requires empty { out.old.operands.items ≡ [] }
    requires known { KnowsFunction (length numbering.now.table.types) (length numbering.now.constants) function.now }
    requires blocks { All (IsBlock numbering.now function.now) (function_blocks function.now) }
    requires own { function.now.body ≡ Some body.now }
    ensures put { OnOk result (Puts out.old.writer (the_bodies (filter_map (body_of (texts numbering.now) (indices numbering.now)) (function_of numbering.now function.now ∷ [])) no_more) out.new.writer) }
    ensures none { OnOk result (out.new.operands.items ≡ []) }
{
    out.enter(BODY_BLOCK)?;
    put_names(&mut out.operands, numbering, function.parameters.as_slice())?;
    out.put(PARAMETERS)?;
    put_blocks(out, numbering, function, body.blocks.as_slice())?;
    out.leave()?;
    Ok(())
}

/// Writes the body of a function, where it has one.
fn put_own_body(
    out: &mut RecordSink,
    numbering: &Numbering<'_>,
    function: &Function,
) -> Result<(), AllocError>
    requires ready { IsOpen out.old.writer }
    requires empty { out.old.operands.items ≡ [] }
    requires known { KnowsFunction (length numbering.now.table.types) (length numbering.now.constants) function.now }
    requires blocks { All (IsBlock numbering.now function.now) (function_blocks function.now) }
    ensures put { OnOk result (Puts out.old.writer (the_bodies (filter_map (body_of (texts numbering.now) (indices numbering.now)) (function_of numbering.now function.now ∷ [])) no_more) out.new.writer) }
    ensures none { OnOk result (out.new.operands.items ≡ []) }
{
    match &function.body {
        Some(body) => put_body(out, numbering, function, body),
        None => Ok(()),
    }
}

/// Writes the bodies of the functions that are defined.
pub(crate) fn put_bodies(out: &mut RecordSink, numbering: &Numbering<'_>) -> Result<(), AllocError>
    requires ready { IsOpen out.old.writer }
    requires empty { out.old.operands.items ≡ [] }
    requires entries { AreEntries numbering.now }
    ensures put { OnOk result (Puts out.old.writer (the_bodies (filter_map (body_of (texts numbering.now) (indices numbering.now)) (map (function_of numbering.now) numbering.now.functions)) no_more) out.new.writer) }
    ensures none { OnOk result (out.new.operands.items ≡ []) }
{
    let arena = numbering.arena();
    // What holds of the entries of each arena.
    let _count = arena.variable_count();
    'parts: for place in 0..arena.function_count() {
        put_own_body(out, numbering, arena.function(FunctionId::new(place)))?;
    }
    Ok(())
}
