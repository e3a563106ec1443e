//! What ends of blocks are asked of the types that they work on, and of their constants.
ghost use Rattle.std.specs.Prelude.{◌≡◌, ◌<◌, ◌&&◌, true, List, All, IfOk, flat_map, length, nat_eq};
ghost use Rattle.std.specs.List.{list_all};
ghost use Rattle.ir_tables.specs.Table.{is_distinct};
ghost use Rattle.type_table.specs.Types.{tree};
ghost use Rattle.module_arena.specs.Changes.{function_in};
ghost use Rattle.module_arena.specs.Mentions.{end_operands_of};
ghost use Rattle.module_arena.specs.Module as modules;
ghost use Rattle.module_arena.specs.Module.{LocalName};
ghost use Rattle.module_arena.specs.TypeTests.{is_integer};
ghost use Rattle.module_arena.specs.ValueRules as rules;
ghost use Rattle.module_arena.specs.Constants.{written_number};
ghost use Rattle.module_arena.specs.View.{constant_at, constants_of, module_of};
ghost use Rattle.entry_verify.specs.Types.Judged.{Judged};
ghost use Rattle.instruction_verify.specs.ArenaOperands.{HasCase, HasOperand, ending_in};
ghost use Rattle.instruction_verify.specs.Parts.{ending_type_demands, is_case_at, numbers_at};

use crate::operands::ending_fact;
use entry_verify::constants::{Judge, written_number};
use entry_verify::types::{VerifyFault, asked, judge_instruction};
use indexmap::IndexSet;
use module_arena::{Case, Ending, Function};
use std::alloc::{AllocError, Global};
use type_table::TypeId;

/// The number of a case, where it is one.
fn number_of(judge: &Judge<'_>, case: &Case) -> Option<u128>
    requires { HasCase judge.now case.now }
    ensures { result ≡ written_number (constant_at (constants_of judge.now) case.now.value) }
{
    written_number(judge.constant(case.value))
}

/// Whether a case is a number of that type.
fn is_case_of(judge: &Judge<'_>, ty: TypeId, case: &Case) -> bool
    requires ty { ty < length judge.now.table.types }
    requires case { HasCase judge.now case.now }
    ensures { result ≡ is_case_at judge.now ty case.now }
{
    let number = number_of(judge, case);
    judge.types().same_type(case.ty, ty) & number.is_some()
}

/// Whether each case is a number of that type.
fn are_cases_of(judge: &Judge<'_>, ty: TypeId, cases: &[Case]) -> bool
    requires ty { ty < length judge.now.table.types }
    requires cases { All (HasCase judge.now) cases.now }
    ensures { result ≡ list_all (is_case_at judge.now ty) cases.now }
{
    for case in cases {
        if !is_case_of(judge, ty, case) {
            return false;
        }
    }
    true
}

/// Whether the numbers of these cases differ, each from all others.
fn are_distinct(alloc: Global, judge: &Judge<'_>, cases: &[Case]) -> Result<bool, AllocError>
    requires { All (HasCase judge.now) cases.now }
    ensures { IfOk result (λ distinct. distinct ≡ is_distinct nat_eq (flat_map (numbers_at judge.now) cases.now)) }
{
    let mut seen = IndexSet::new(alloc);
    'cases: for case in cases {
        match number_of(judge, case) {
            Some(number) => {
                if !seen.insert(number)? {
                    return Ok(false);
                }
            }
            None => {}
        }
    }
    Ok(true)
}

/// Whether a `switch` is on an integer, with distinct integers of its type as cases.
fn switch_suits(
    alloc: Global,
    judge: &Judge<'_>,
    ty: TypeId,
    cases: &[Case],
) -> Result<bool, AllocError>
    requires ty { ty < length judge.now.table.types }
    requires cases { All (HasCase judge.now) cases.now }
    ensures { IfOk result (λ suits. suits ≡ (is_integer (tree judge.now.table ty) && (list_all (is_case_at judge.now ty) cases.now && is_distinct nat_eq (flat_map (numbers_at judge.now) cases.now)))) }
{
    let distinct = are_distinct(alloc, judge, cases)?;
    let numbers = are_cases_of(judge, ty, cases);
    Ok(judge.types().is_integer(ty) & (numbers & distinct))
}

/// Whether an end suits a function that returns that type: `ret` has the type, a `br` has a condition i1, and a `switch` is on an
/// integer, with distinct integers of its type as cases.
fn ending_suits(
    alloc: Global,
    judge: &Judge<'_>,
    returns: TypeId,
    ending: &Ending,
) -> Result<bool, AllocError>
    requires returns { returns < length judge.now.table.types }
    requires known { All (HasOperand judge.now) (end_operands_of ending.now) }
    ensures { IfOk result (λ suits. (f : modules.Function) (values blocks : List LocalName) → f.returns ≡ tree judge.now.table returns → suits ≡ rules.ending_suits f (ending_in judge.now values blocks ending.now)) }
{
    let types = judge.types();
    match ending {
        Ending::ReturnVoid => Ok(types.is_void(returns)),
        Ending::Return(operand) => Ok(types.same_type(operand.ty, returns)),
        Ending::Branch { condition, .. } => Ok(types.is_integer_of(condition.ty, 1)),
        Ending::Switch { value, cases, .. } => {
            switch_suits(alloc, judge, value.ty, cases.as_slice())
        }
        Ending::Jump(_) => Ok(true),
        Ending::Unreachable => Ok(true),
    }
}

/// Whether an end other than a `switch` suits a function that returns that type; false of a `switch`.
pub(crate) fn plain_ending_suits(judge: &Judge<'_>, returns: TypeId, ending: &Ending) -> bool
    requires returns { returns < length judge.now.table.types }
    requires known { All (HasOperand judge.now) (end_operands_of ending.now) }
    ensures { (f : modules.Function) (values blocks : List LocalName) → f.returns ≡ tree judge.now.table returns → result ≡ true → rules.ending_suits f (ending_in judge.now values blocks ending.now) ≡ true }
{
    let types = judge.types();
    match ending {
        Ending::ReturnVoid => types.is_void(returns),
        Ending::Return(operand) => types.same_type(operand.ty, returns),
        Ending::Branch { condition, .. } => types.is_integer_of(condition.ty, 1),
        Ending::Switch { .. } => false,
        Ending::Jump(_) => true,
        Ending::Unreachable => true,
    }
}

/// What the end of a block of a function is asked of the types that it works on, and of its constants: a fault of the first of the
/// rules 17 and 18 that does not hold, at the end by its number in the function.
/// Ok where all hold; else the first that does not, with a copy of the name of what is at
/// fault, so memory may be wanting.
pub fn judge_ending_types(
    alloc: Global,
    judge: &Judge<'_>,
    function: &Function,
    number: u64,
    ending: &Ending,
) -> Result<(), VerifyFault>
    requires returns { function.now.result < length judge.now.table.types }
    requires known { All (HasOperand judge.now) (end_operands_of ending.now) }
    ensures { (values blocks : List LocalName) → Judged (ending_type_demands (module_of judge.now) (function_in judge.now function.now) number (ending_in judge.now values blocks ending.now)) result }
{
    let suits = ending_suits(alloc, judge, function.result, ending)?;
    let fact = ending_fact(judge, ending);
    judge_instruction(
        alloc,
        number,
        &function.name,
        &[asked(17, suits), asked(18, fact.fits)],
    )
}
