//! The end of a block, by its opcode.
ghost use Rattle.std.specs.Prelude.{◌≡◌, true, None, IfOk, if◌then◌else◌};
ghost use Rattle.std.specs.Option.{option_map};
ghost use Rattle.ir_tables.specs.declared.opcode.Opcode.TheVariants as op;
ghost use Rattle.record_table.specs.Lines as lines;
ghost use Rattle.record_read.specs.Reader.{is_broken};
ghost use Rattle.body_read.specs.Operands.Found.{Finds};
ghost use Rattle.body_read.specs.Endings.Ends.{HasEnding, ReadsEnding, ending_in, kept_return};

use crate::endings::branch::read_branch;
use crate::endings::switch::read_switch;
use crate::operands::read_optional_operand;
use ir_tables::Opcode;
use module_arena::{Ending, Operand};
use record_read::RecordReader;
use std::alloc::AllocError;
use type_read::arena::ModuleReader;

/// Whether a line of that opcode ends its block.
pub fn is_end(opcode: Opcode) -> bool
    ensures { result ≡ lines.is_end opcode }
{
    matches!(
        opcode,
        Opcode::Ret | Opcode::Br | Opcode::Switch | Opcode::Unreachable
    )
}

/// A return of what is written, if that is known.
fn return_of(value: Option<Option<Operand>>) -> Option<Ending>
    ensures { result ≡ option_map kept_return value }
{
    match value? {
        Some(value) => Some(Ending::Return(value)),
        None => Some(Ending::ReturnVoid),
    }
}

/// `ret`: 0, or 1 and a value with its type.
fn read_return(m: &mut ModuleReader<'_>) -> Result<Option<Ending>, AllocError>
    ensures { IfOk result (Finds HasEnding ending_in (λ k. (lines.ending k op.Ret).read) m.old m.new) }
{
    let value = read_optional_operand(m)?;
    Ok(return_of(value))
}

/// The end, where the record breaks no rule so far.
fn unless_broken(reader: &RecordReader<'_>, ending: Option<Ending>) -> Option<Ending>
    ensures { result ≡ (if is_broken reader.now.walk then None else ending) }
{
    if reader.is_broken() { None } else { ending }
}

/// What ends a block by that opcode. None only where a rule is broken.
fn read_any(m: &mut ModuleReader<'_>, opcode: Opcode) -> Result<Option<Ending>, AllocError>
    requires { lines.is_end opcode ≡ true }
    ensures { IfOk result (Finds HasEnding ending_in (λ k. (lines.ending k opcode).read) m.old m.new) }
{
    match opcode {
        Opcode::Ret => read_return(m),
        Opcode::Br => read_branch(m),
        Opcode::Switch => read_switch(m),
        _ => Ok(Some(Ending::Unreachable)),
    }
}

/// The end of a block, of that opcode. None exactly where a rule is broken. It is refused for want of memory alone.
pub fn read_ending(m: &mut ModuleReader<'_>, opcode: Opcode) -> Result<Option<Ending>, AllocError>
    requires { lines.is_end opcode ≡ true }
    ensures { IfOk result (ReadsEnding opcode m.old m.new) }
{
    let ending = read_any(m, opcode)?;
    Ok(unless_broken(&m.reader, ending))
}
