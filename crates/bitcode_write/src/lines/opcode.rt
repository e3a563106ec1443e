//! The opcodes of lines.
ghost use Rattle.std.specs.Prelude.{◌≡◌};
ghost use Rattle.module_arena.specs.declared.entry.Function.{Function};
ghost use Rattle.module_arena.specs.Lists.{Lists};
ghost use Rattle.record_table.specs.Lines as lines;
ghost use Rattle.bitcode_write.specs.Lines.Lines.{instruction_of, ending_of};

use ir_tables::Opcode;
use module_arena::{Ending, Inst};

/// The opcode of an instruction.
pub fn instruction_opcode(instruction: &Inst) -> Opcode
    ensures { (a : Lists) (f : Function) → result ≡ lines.operation_opcode (instruction_of a f instruction.now).operation }
{
    match instruction {
        Inst::Binary(opcode, _, _, _, _) | Inst::Convert(opcode, _, _, _, _) => *opcode,
        Inst::Compare(_, _, _, _, _) => Opcode::ICmp,
        Inst::Select(_, _) => Opcode::Select,
        Inst::Freeze(_, _) => Opcode::Freeze,
        Inst::Phi(_, _, _) => Opcode::Phi,
        Inst::Load(_, _, _, _, _) => Opcode::Load,
        Inst::Store(_, _, _, _) => Opcode::Store,
        Inst::Alloca(_, _, _, _) => Opcode::Alloca,
        Inst::GetElementPtr(_, _, _, _, _) => Opcode::GetElementPtr,
        Inst::Call(_) => Opcode::Call,
        Inst::ExtractValue(_, _, _) => Opcode::ExtractValue,
        Inst::InsertValue(_, _) => Opcode::InsertValue,
    }
}

/// The opcode of the end of a block.
pub fn ending_opcode(ending: &Ending) -> Opcode
    ensures { (a : Lists) (f : Function) → result ≡ lines.ending_opcode (ending_of a f ending.now) }
{
    match ending {
        Ending::ReturnVoid | Ending::Return(_) => Opcode::Ret,
        Ending::Jump(_) | Ending::Branch { .. } => Opcode::Br,
        Ending::Switch { .. } => Opcode::Switch,
        Ending::Unreachable => Opcode::Unreachable,
    }
}
