//! What all variables, and all aliases, are asked, one after the other.
ghost use Rattle.std.specs.Prelude.{flat_map};
ghost use Rattle.module_arena.specs.Valid.{alias_demands, variable_demands};
ghost use Rattle.module_arena.specs.View.{module_of};
ghost use Rattle.entry_verify.specs.Types.Judged.{Judged};

use crate::entries::{judge_alias, judge_variable};
use entry_verify::constants::Judge;
use entry_verify::types::VerifyFault;
use module_arena::{AliasId, VariableId};
use std::alloc::Global;

/// What the variables of the arena are asked, in their order: the first fault of the first variable that has one.
/// Ok where all hold; else the first that does not, with a copy of the name of what is at
/// fault, so memory may be wanting.
pub(crate) fn judge_variables(alloc: Global, judge: &Judge<'_>) -> Result<(), VerifyFault>
    ensures { Judged (flat_map (variable_demands (module_of judge.now)) (module_of judge.now).variables) result }
{
    // The ids in each variable of an arena are of the arena.
    let arena = judge.arena();
    let count = arena.variable_count();
    'variables: for number in 0..count {
        judge_variable(alloc, judge, arena.variable(VariableId::new(number)))?;
    }
    Ok(())
}

/// What the aliases of the arena are asked, in their order: the first fault of the first alias that has one.
/// Ok where all hold; else the first that does not, with a copy of the name of what is at
/// fault, so memory may be wanting.
pub(crate) fn judge_aliases(alloc: Global, judge: &Judge<'_>) -> Result<(), VerifyFault>
    ensures { Judged (flat_map (alias_demands (module_of judge.now)) (module_of judge.now).aliases) result }
{
    // The ids in each alias of an arena are of the arena.
    let arena = judge.arena();
    let _known = arena.variable_count();
    let count = arena.alias_count();
    'aliases: for number in 0..count {
        judge_alias(alloc, judge, arena.alias(AliasId::new(number)))?;
    }
    Ok(())
}
