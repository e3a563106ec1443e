//! Ends of blocks.
ghost use Rattle.std.specs.Prelude.{◌≡◌, IfOk};
ghost use Rattle.entry_copy.specs.Moved.{moved_ending};

use crate::Copier;
use crate::moved::moved_list;
use crate::values::moved_operand;
use module_arena::Ending;
use std::alloc::{AllocError, Global};

/// The end of a block with new ids. Blocks keep theirs.
pub(crate) fn moved_ending(
    alloc: Global,
    copier: &Copier,
    end: &Ending,
) -> Result<Ending, AllocError>
    ensures { IfOk result (λ copy. copy ≡ moved_ending copier.now end.now) }
{
    Ok(match end {
        Ending::ReturnVoid => Ending::ReturnVoid,
        Ending::Return(operand) => Ending::Return(moved_operand(copier, *operand)),
        Ending::Jump(target) => Ending::Jump(*target),
        Ending::Branch {
            condition,
            then_to,
            else_to,
        } => Ending::Branch {
            condition: moved_operand(copier, *condition),
            then_to: *then_to,
            else_to: *else_to,
        },
        Ending::Switch {
            value,
            otherwise,
            cases,
        } => Ending::Switch {
            value: moved_operand(copier, *value),
            otherwise: *otherwise,
            cases: moved_list(alloc, copier, cases)?,
        },
        Ending::Unreachable => Ending::Unreachable,
    })
}
