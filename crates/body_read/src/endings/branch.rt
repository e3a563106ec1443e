//! `br`, with and without a condition.
ghost use Rattle.std.specs.Prelude.{◌≡◌, IfOk};
ghost use Rattle.std.specs.Option.{option_map};
ghost use Rattle.ir_tables.specs.declared.opcode.Opcode.TheVariants as op;
ghost use Rattle.module_arena.specs.declared.instruction.Ending.TheVariants as kept;
ghost use Rattle.record_table.specs.Lines.{ending};
ghost use Rattle.body_read.specs.Operands.Found.{Finds, both};
ghost use Rattle.body_read.specs.Endings.Ends.{HasEnding, condition, ending_in, kept_branch};

use crate::operands::read_operand_of;
use module_arena::{BlockId, Ending, Operand};
use std::alloc::AllocError;
use type_read::arena::{ModuleReader, read_block};

/// A branch by a condition, where its parts are known.
fn branch_of(
    condition: Option<Operand>,
    then_to: Option<BlockId>,
    else_to: Option<BlockId>,
) -> Option<Ending>
    ensures { result ≡ option_map kept_branch (both condition (both then_to else_to)) }
{
    Some(Ending::Branch {
        condition: condition?,
        then_to: then_to?,
        else_to: else_to?,
    })
}

/// `br` on a condition, behind the 1 that says so: a value of i1, and two blocks. None only where a rule is broken.
fn read_condition(m: &mut ModuleReader<'_>) -> Result<Option<Ending>, AllocError>
    ensures { IfOk result (Finds HasEnding ending_in condition m.old m.new) }
{
    let bit = m.growing.bit();
    let value = read_operand_of(m, &Some(bit))?;
    let then_to = read_block(m);
    let else_to = read_block(m);
    Ok(branch_of(value, then_to, else_to))
}

/// A jump to a block, where that is known.
fn jump_to(target: Option<BlockId>) -> Option<Ending>
    ensures { result ≡ option_map (λ b. kept.Jump b) target }
{
    Some(Ending::Jump(target?))
}

/// `br`: 0 and a block, or 1, a condition and two blocks. Another number breaks rule 3.
pub(crate) fn read_branch(m: &mut ModuleReader<'_>) -> Result<Option<Ending>, AllocError>
    ensures { IfOk result (Finds HasEnding ending_in (λ k. (ending k op.Br).read) m.old m.new) }
{
    match m.reader.number() {
        0 => {
            let target = read_block(m);
            Ok(jump_to(target))
        }
        1 => read_condition(m),
        _ => {
            m.reader.stop(3);
            m.reader.stops_where_broken();
            Ok(None)
        }
    }
}
