//! An instruction with a result, by its opcode.
ghost use Rattle.std.specs.Prelude.{◌≡◌, true, IfOk};
ghost use Rattle.body_read.specs.Operands.Found.{Finds};
ghost use Rattle.body_read.specs.Lines.Kept.{GivesInst, operation_in};
ghost use Rattle.body_read.specs.Lines.Operations.{is_giving, operation};

use crate::lines::addresses::{read_alloca, read_load, read_steps};
use crate::lines::operations::{
    read_comparison, read_computation, read_conversion, read_extraction, read_freeze,
    read_insertion, read_select,
};
use crate::lines::phi::read_phi;
use ir_tables::Opcode;
use module_arena::{Inst, ValueId};
use std::alloc::AllocError;
use type_read::arena::ModuleReader;

/// What stands behind the name of the result, in an instruction of that opcode that is no call and ends no block: the
/// instruction that defines the value of that id. None only where a rule is broken. It is refused for want of memory alone.
pub fn read_operation(
    m: &mut ModuleReader<'_>,
    opcode: Opcode,
    defined: ValueId,
) -> Result<Option<Inst>, AllocError>
    requires { is_giving opcode ≡ true }
    ensures { IfOk result (Finds (GivesInst defined) operation_in (λ k. (operation k opcode).read) m.old m.new) }
{
    match opcode {
        Opcode::ICmp => read_comparison(m, defined),
        Opcode::Trunc => read_conversion(m, defined, Opcode::Trunc),
        Opcode::ZExt => read_conversion(m, defined, Opcode::ZExt),
        Opcode::SExt => read_conversion(m, defined, Opcode::SExt),
        Opcode::PtrToInt => read_conversion(m, defined, Opcode::PtrToInt),
        Opcode::IntToPtr => read_conversion(m, defined, Opcode::IntToPtr),
        Opcode::Select => read_select(m, defined),
        Opcode::Freeze => read_freeze(m, defined),
        Opcode::Phi => read_phi(m, defined),
        Opcode::Load => read_load(m, defined),
        Opcode::Alloca => read_alloca(m, defined),
        Opcode::GetElementPtr => read_steps(m, defined),
        Opcode::ExtractValue => read_extraction(m, defined),
        Opcode::InsertValue => read_insertion(m, defined),
        _ => read_computation(m, defined, opcode),
    }
}
