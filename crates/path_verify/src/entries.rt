//! What variables, aliases and functions are asked, each by itself.
ghost use Rattle.std.specs.Prelude.{◌≡◌, ◌<◌, Some, length, slice_get};
ghost use Rattle.module_arena.specs.Changes.{alias_in, function_in, variable_in};
ghost use Rattle.module_arena.specs.Known.{KnowsAlias, KnowsVariable, counts};
ghost use Rattle.module_arena.specs.Valid.{alias_demands, variable_demands};
ghost use Rattle.module_arena.specs.View.{module_of};
ghost use Rattle.module_arena.specs.declared.entry.Function as the_function;
ghost use Rattle.entry_verify.specs.Types.Judged.{Judged};
ghost use Rattle.path_verify.specs.Heads.{head_demands};

use entry_verify::constants::Judge;
use entry_verify::entries::{
    alias_names_suit, alias_suits, alias_types_suit, alignment_suits, appending_suits,
    common_suits, function_name_suits, function_types_suit, initialiser_fits,
    initialiser_takes_no_intrinsic, is_appending, is_common, linkage_suits, variable_name_suits,
    variable_types_suit,
};
use entry_verify::types::{VerifyFault, asked, judge_global};
use module_arena::{Alias, FunctionId, Variable};
use std::alloc::Global;

/// What a variable of the arena is asked: a fault of the first of the rules 2 to 7 and 18 that does not hold, at the variable.
/// Ok where all hold; else the first that does not, with a copy of the name of what is at
/// fault, so memory may be wanting.
pub(crate) fn judge_variable(
    alloc: Global,
    judge: &Judge<'_>,
    variable: &Variable,
) -> Result<(), VerifyFault>
    requires { KnowsVariable (length judge.now.table.types) (length judge.now.constants) variable.now }
    ensures { Judged (variable_demands (module_of judge.now) (variable_in judge.now variable.now)) result }
{
    let (ty, initialiser) = (variable.ty, variable.initialiser);
    let linked = linkage_suits(initialiser.is_some(), variable.linkage);
    let common = common_suits(judge, variable);
    let appending = appending_suits(judge, variable);
    let named = variable_name_suits(judge, variable)
        & initialiser_takes_no_intrinsic(judge, ty, initialiser);
    judge_global(
        alloc,
        &variable.name,
        &[
            asked(2, linked),
            asked(3, common),
            asked(4, appending),
            asked(5, named),
            asked(6, variable_types_suit(judge, ty, initialiser)),
            asked(7, alignment_suits(variable.alignment)),
            asked(18, initialiser_fits(judge, ty, initialiser)),
        ],
    )
}

/// What an alias of the arena is asked: a fault of the first of the rules 2 to 6 and 19 that does not hold, at the alias.
/// Ok where all hold; else the first that does not, with a copy of the name of what is at
/// fault, so memory may be wanting.
pub(crate) fn judge_alias(
    alloc: Global,
    judge: &Judge<'_>,
    alias: &Alias,
) -> Result<(), VerifyFault>
    requires { KnowsAlias (length judge.now.table.types) (counts judge.now) alias.now }
    ensures { Judged (alias_demands (module_of judge.now) (alias_in judge.now alias.now)) result }
{
    let arena = judge.arena();
    judge_global(
        alloc,
        &alias.name,
        &[
            asked(2, linkage_suits(true, alias.linkage)),
            asked(3, !is_common(alias.linkage)),
            asked(4, !is_appending(alias.linkage)),
            asked(5, alias_names_suit(arena, alias)),
            asked(6, alias_types_suit(judge, alias)),
            asked(19, alias_suits(arena, alias)),
        ],
    )
}

/// What a function of the arena is asked without its blocks: a fault of the first of the rules 2 to 6 that does not hold, at the
/// function.
/// Ok where all hold; else the first that does not, with a copy of the name of what is at
/// fault, so memory may be wanting.
pub(crate) fn judge_function(
    alloc: Global,
    judge: &Judge<'_>,
    id: FunctionId,
) -> Result<(), VerifyFault>
    requires { id < length judge.now.functions }
    ensures { (f : the_function.Function) → slice_get judge.now.functions id ≡ Some f → Judged (head_demands (module_of judge.now) (function_in judge.now f)) result }
{
    // The types of each function of an arena are types of the arena.
    let arena = judge.arena();
    let _count = arena.variable_count();
    let function = arena.function(id);
    judge_global(
        alloc,
        &function.name,
        &[
            asked(2, linkage_suits(function.body.is_some(), function.linkage)),
            asked(3, !is_common(function.linkage)),
            asked(4, !is_appending(function.linkage)),
            asked(5, function_name_suits(arena, id)),
            asked(6, function_types_suit(judge, function)),
        ],
    )
}
