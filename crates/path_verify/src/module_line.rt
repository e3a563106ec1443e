//! What is asked of the module itself.
ghost use Rattle.module_arena.specs.Valid.{module_demands};
ghost use Rattle.module_arena.specs.View.{module_of};
ghost use Rattle.module_arena.specs.LayoutText as rules;
ghost use Rattle.std.specs.Prelude.{◌≡◌};
ghost use Rattle.entry_verify.specs.Types.Judged.{Judged};

use crate::layout_text::has_own_layout;
use entry_verify::types::{VerifyFault, asked, judge_module};
use module_arena::Arena;

/// Whether the data layout of the module, where it has one, is little endian with pointers of 64 bits.
fn layout_suits(arena: &Arena) -> bool
    ensures { result ≡ rules.has_own_layout arena.now.layout }
{
    match arena.data_layout() {
        Some(text) => has_own_layout(text.bytes()),
        None => true,
    }
}

/// What the module itself is asked: a fault of rule 1 at the module where its data layout is foreign.
/// It takes no memory.
pub(crate) fn judge_module_line(arena: &Arena) -> Result<(), VerifyFault>
    ensures { Judged (module_demands (module_of arena.now)) result }
{
    judge_module(&[asked(1, layout_suits(arena))])
}
