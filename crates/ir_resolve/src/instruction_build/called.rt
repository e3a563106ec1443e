//! What is called how.
ghost use Rattle.std.specs.Prelude.{◌≡◌, ◌<◌, ◌-◌, ◌^◌, IsTrue, ◌↔◌};
ghost use Rattle.ir_phrases.specs.Instructions.View.{instruction_view};
ghost use Rattle.module_arena.specs.View.{local_view};
ghost use Rattle.name_rules.specs.Locals.{local_in, next_behind, has_result};

use ir_phrases::constants::Type;
use ir_phrases::instructions::{Instruction, Operation};
use ir_terminals::Local;
use module_arena::LocalName;

/// Whether the name is the one that is written.
#[inline(always)]
pub(crate) fn is_written(name: &LocalName, written: &Local) -> bool
    ensures { IsTrue result ↔ (local_view name.now ≡ local_in written.now) }
{
    match (name, written) {
        (LocalName::Named(known), Local::Named(placed)) => {
            placed.name.bytes() == known.text().bytes()
        }
        (LocalName::Numbered(known), Local::Numbered(number, _)) => {
            number.to_u64() == Some(*known as u64)
        }
        (LocalName::Named(_), Local::Numbered(_, _)) | (LocalName::Numbered(_), Local::Named(_)) =>
            false,
    }
}

/// The next number behind it: a written name takes none.
pub(crate) fn number_behind(next: u32, written: &Option<Local>) -> u32
    requires { next < 2 ^ 32 - 1 }
    ensures { result ≡ next_behind next written.now }
{
    match written {
        Some(Local::Named(_)) => next,
        Some(Local::Numbered(_, _)) | None => next + 1,
    }
}

/// Whether the instruction has a result: it gives one, or one is written.
pub fn gives_result(instruction: &Instruction) -> bool
    ensures { result ≡ has_result (instruction_view instruction.now) }
{
    if instruction.result.is_some() {
        return true;
    }
    match &instruction.operation {
        Operation::Store { .. } => false,
        Operation::Call(call) => !matches!(&call.returns, Type::Void(_)),
        Operation::Binary { .. }
        | Operation::Compare { .. }
        | Operation::Cast { .. }
        | Operation::Select(_)
        | Operation::Freeze(_)
        | Operation::Phi(_)
        | Operation::Load { .. }
        | Operation::Alloca(_)
        | Operation::GetElementPtr { .. }
        | Operation::ExtractValue(_)
        | Operation::InsertValue(_) => true,
    }
}
