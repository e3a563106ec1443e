//! All functions.
ghost use Rattle.std.specs.Prelude.{◌≡◌, ◌<◌, ◌≤◌, ◌+◌, length, slice_get, IfSome, Some, flat_map};
ghost use Rattle.module_arena.specs.declared.entry.Function as the_function;
ghost use Rattle.module_arena.specs.Changes.{function_in};
ghost use Rattle.module_arena.specs.Valid.{function_demands};
ghost use Rattle.module_arena.specs.View.{module_of};
ghost use Rattle.module_arena.specs.WellFormed.{IsWellFormed};
ghost use Rattle.entry_verify.specs.Types.Judged.{Judged};
ghost use Rattle.path_verify.specs.Bodies.{turns_of};
ghost use Rattle.path_verify.specs.Ready.{AreNumbers};
ghost use Rattle.path_verify.specs.Verified.{all_turns};

use crate::bodies::judge_body;
use crate::entries::judge_function;
use entry_verify::constants::Judge;
use entry_verify::types::VerifyFault;
use instruction_verify::last::LocalType;
use module_arena::{FunctionId, Operand};
use path_rows::{Spare, Steps};
use std::alloc::Global;
use std::sync::ledger::Ledger;

/// What the rules say of a function and all in it. `kept` has a number for each constant of the module, one for two exactly where they
/// are the same, or nothing yet; what `value_types`, `operands` and `spare` have does not matter.
fn judge_one<L: Ledger>(
    alloc: Global,
    judge: &Judge<'_>,
    kept: &mut Option<Vec<u64>>,
    value_types: &mut Vec<LocalType>,
    operands: &mut Vec<Operand>,
    spare: &mut Spare,
    id: FunctionId,
    turns: &mut Steps<L>,
) -> Result<(), VerifyFault>
    requires known { id < length judge.now.functions }
    requires well_formed { IsWellFormed (module_of judge.now) }
    requires kept { IfSome kept.old (λ classes. AreNumbers judge.now classes.items) }
    ensures kept { IfSome kept.new (λ classes. AreNumbers judge.now classes.items) }
    ensures judged { (f : the_function.Function) → slice_get judge.now.functions id ≡ Some f → Judged (function_demands (module_of judge.now) (function_in judge.now f)) result }
    ensures turns { (f : the_function.Function) → slice_get judge.now.functions id ≡ Some f → turns.new ≤ turns.old + turns_of (function_in judge.now f) }
{
    judge_function(alloc, judge, id)?;
    judge_body(alloc, judge, kept, value_types, operands, spare, id, turns)
}

/// What the rules say of all functions, in their order.
pub(crate) fn judge_functions<L: Ledger>(
    alloc: Global,
    judge: &Judge<'_>,
    turns: &mut Steps<L>,
) -> Result<(), VerifyFault>
    requires well_formed { IsWellFormed (module_of judge.now) }
    ensures judged { Judged (flat_map (function_demands (module_of judge.now)) (module_of judge.now).functions) result }
    ensures turns { turns.new ≤ turns.old + all_turns (module_of judge.now) }
{
    // Each function fills them anew, in the room that those before it have left.
    let mut value_types = Vec::new(alloc);
    let mut operands = Vec::new(alloc);
    let mut spare = Spare::new(alloc);
    // The numbers of the constants, from the first function on that is judged by its paths: without one, no constants are compared.
    let mut kept: Option<Vec<u64>> = None;
    let count = judge.arena().function_count();
    'functions: for number in 0..count {
        judge_one(
            alloc,
            judge,
            &mut kept,
            &mut value_types,
            &mut operands,
            &mut spare,
            FunctionId::new(number),
            turns,
        )?;
    }
    Ok(())
}
