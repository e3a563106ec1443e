//! Blocks, line by line.
ghost use Rattle.std.specs.Prelude.{map, All};
ghost use Rattle.ir_printer.specs.Gathered.Told.{state};
ghost use Rattle.ir_lexer.specs.Pieces as pieces;
ghost use Rattle.ir_lexer.specs.Pieces.{Indented};
ghost use Rattle.canonical.specs.Instructions.{instruction_phrase, block_phrase, blocks_phrase};
ghost use Rattle.canonical.specs.Phrase.{each};
ghost use Rattle.ir_printer.specs.Phrases.Printing.{separator_of, Prints};
ghost use Rattle.ir_printer.specs.Instructions.Lines.{instruction_of};
ghost use Rattle.ir_printer.specs.Blocks.{HasInst, HasBlock, block_of};

use crate::gathered::Gathered;
use crate::instructions::{put_ending, put_instruction};
use crate::phrases::{Separator, put_label};
use ir_base::Sink;
use module_arena::{Arena, Block, Function, Inst};

/// Puts instructions, each with a line feed and two spaces behind it.
fn put_lines<S: Sink>(
    out: &mut Gathered,
    sink: &mut S,
    arena: &Arena,
    function: &Function,
    instructions: &[Inst],
)
    requires { All (HasInst arena.now function.now) instructions.now }
    ensures { (s : pieces.Separator) → Prints (state out.old (S.taken sink.old) (S.faults sink.old)) (state out.new (S.taken sink.new) (S.faults sink.new)) (each Indented (map instruction_phrase (map (instruction_of arena.now function.now) instructions.now)) s) }
{
    'parts: for place in 0..instructions.len() {
        put_instruction(
            out,
            sink,
            arena,
            function,
            &instructions[place],
            Separator::Indented,
        );
    }
}

/// Puts a block: its label, its instructions and its end.
fn put_block<S: Sink>(
    out: &mut Gathered,
    sink: &mut S,
    arena: &Arena,
    function: &Function,
    block: &Block,
    behind: Separator,
)
    requires { HasBlock arena.now function.now block.now }
    ensures { Prints (state out.old (S.taken sink.old) (S.faults sink.old)) (state out.new (S.taken sink.new) (S.faults sink.new)) (block_phrase (block_of arena.now function.now block.now) (separator_of behind)) }
{
    put_label(out, sink, &block.name, Separator::Indented);
    put_lines(out, sink, arena, function, block.instructions.as_slice());
    put_ending(out, sink, arena, function, &block.end, behind);
}

/// Puts blocks, each of whose lines ends.
pub(crate) fn put_blocks<S: Sink>(
    out: &mut Gathered,
    sink: &mut S,
    arena: &Arena,
    function: &Function,
    blocks: &[Block],
)
    requires { All (HasBlock arena.now function.now) blocks.now }
    ensures { (s : pieces.Separator) → Prints (state out.old (S.taken sink.old) (S.faults sink.old)) (state out.new (S.taken sink.new) (S.faults sink.new)) (blocks_phrase (map (block_of arena.now function.now) blocks.now) s) }
{
    'parts: for place in 0..blocks.len() {
        put_block(out, sink, arena, function, &blocks[place], Separator::Line);
    }
}
