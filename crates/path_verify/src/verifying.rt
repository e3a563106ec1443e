//! Whole modules.
ghost use Rattle.std.specs.Prelude.{◌≡◌, ◌<◌, ◌≤◌, ◌+◌, IfOk};
ghost use Rattle.module_arena.specs.Valid.{demands};
ghost use Rattle.module_arena.specs.View.{module_of};
ghost use Rattle.module_arena.specs.WellFormed.{IsWellFormed};
ghost use Rattle.entry_verify.specs.Types.Judged.{Judged};
ghost use Rattle.path_verify.specs.Verified.{Verifies, all_turns};

use crate::all_entries::{judge_aliases, judge_variables};
use crate::functions::judge_functions;
use crate::module_line::judge_module_line;
use crate::sizes::judge_sizes;
use entry_verify::constants::Judge;
use entry_verify::types::VerifyFault;
use module_arena::{Arena, Checked};
use path_rows::Steps;
use std::alloc::Global;
use std::marker::Brand;
use std::sync::ledger::{Blank, Ledger};

/// What the rules say of a module, in their order.
fn judge_rules<L: Ledger>(
    alloc: Global,
    arena: &Arena,
    turns: &mut Steps<L>,
) -> Result<(), VerifyFault>
    requires { IsWellFormed (module_of arena.now) }
    ensures judged { Judged (demands (module_of arena.now)) result }
    ensures turns { turns.new ≤ turns.old + all_turns (module_of arena.now) }
{
    judge_module_line(arena)?;
    let judge = Judge::new(alloc, arena)?;
    judge_variables(alloc, &judge)?;
    judge_aliases(alloc, &judge)?;
    judge_functions(alloc, &judge, turns)
}

/// The limit on sizes, and then the rules.
fn judge<L: Ledger>(alloc: Global, arena: &Arena, turns: &mut Steps<L>) -> Result<(), VerifyFault>
    requires { IsWellFormed (module_of arena.now) }
    ensures verdict { Verifies (module_of arena.now) result }
    ensures turns { turns.new ≤ turns.old + all_turns (module_of arena.now) }
{
    judge_sizes(alloc, arena)?;
    judge_rules(alloc, arena, turns)
}

/// The module of the arena, checked; it counts how often a block is spread, at most as often as the sum of blocks times values plus
/// blocks.
///
/// The refusals are those of [`verify`].
pub fn verify_counted<L: Ledger>(
    alloc: Global,
    arena: Arena,
    turns: &mut Steps<L>,
) -> Result<Checked, VerifyFault>
    requires { IsWellFormed (module_of arena) }
    ensures verdict { Verifies (module_of arena) result }
    ensures same { IfOk result (λ checked. checked ≡ arena) }
    ensures turns { turns.new ≤ turns.old + all_turns (module_of arena) }
{
    judge(alloc, &arena, turns)?;
    Ok(Checked::seal(arena))
}

/// The module of the arena, checked, with a count of turns of its own.
fn verify_from<L: Ledger>(alloc: Global, arena: Arena, blank: Blank) -> Result<Checked, VerifyFault>
    requires well_formed { IsWellFormed (module_of arena) }
    requires name { blank.name ≡ L.name }
    requires parts { blank.parts ≡ L.parts }
    requires some { 0 < blank.parts }
    ensures verdict { Verifies (module_of arena) result }
    ensures same { IfOk result (λ checked. checked ≡ arena) }
{
    let mut turns = Steps::<L>::open(blank);
    verify_counted(alloc, arena, &mut turns)
}

/// The module of the arena, checked.
///
/// `FunctionTooLarge` for the first function of which blocks times values pass 2^31, before any rule is judged; else `Invalid` with
/// the rule and the entity of the first demand that does not hold. `Memory` where memory runs out. The arena is gone with a refusal.
pub fn verify(alloc: Global, arena: Arena) -> Result<Checked, VerifyFault>
    requires { IsWellFormed (module_of arena) }
    ensures verdict { Verifies (module_of arena) result }
    ensures same { IfOk result (λ checked. checked ≡ arena) }
{
    verify_from::<Brand>(alloc, arena, Blank::new(1))
}
