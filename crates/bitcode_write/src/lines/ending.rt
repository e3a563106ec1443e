//! Ends of blocks as operands.
ghost use Rattle.std.specs.Prelude.{◌≡◌, ◌<◌, ◌++◌, ◌∷◌, [], length, All, OnOk};
ghost use Rattle.type_table.specs.Tree.{Tree, int};
ghost use Rattle.type_table.specs.Types.{tree};
ghost use Rattle.module_arena.specs.declared.entry.Function.{Function};
ghost use Rattle.module_arena.specs.Lists.{function_blocks};
ghost use Rattle.record_table.specs.Standing.{is_wide};
ghost use Rattle.record_write.specs.Operands.Wide.{IsBody, KnowsValue, HasValueAt, HasOperandIn, HasCaseIn};
ghost use Rattle.bitcode_write.specs.Lines.Parts.{case_operands, cases_operands, switch_operands, branch_operands};
ghost use Rattle.record_table.specs.Lines as lines;
ghost use Rattle.record_write.specs.Operands.Numbered.{inside};
ghost use Rattle.bitcode_write.specs.Lines.Lines.{ending_of, IsEnd};
ghost use Rattle.bitcode_write.specs.Lines.Ids.{KnowsEnd, KnowsCases, KnowsOperand};

use crate::lines::instruction::put_some;
use module_arena::{BlockId, Case, Ending, Operand, Value};
use record_write::operands::{
    Numbering, put_block, put_constant, put_count, put_number, put_operand, put_value,
};
use std::alloc::AllocError;

/// Appends a case of a `switch` over a type: its constant and its block.
fn put_case(
    operands: &mut Vec<u64>,
    numbering: &Numbering<'_>,
    wide: bool,
    part: Case,
) -> Result<(), AllocError>
    requires { part.value < length numbering.now.constants }
    ensures { (f : Function) (t : Tree) → is_wide t ≡ wide → IsBody numbering.now f → HasCaseIn numbering.now f t part
        → OnOk result (operands.new.items ≡ operands.old.items ++ case_operands numbering.now f t part) }
{
    put_constant(operands, numbering, wide, part.value)?;
    put_block(operands, part.target)
}

/// Appends a count, and so many cases of a `switch` over a type.
fn put_cases(
    operands: &mut Vec<u64>,
    numbering: &Numbering<'_>,
    wide: bool,
    cases: &[Case],
) -> Result<(), AllocError>
    requires { KnowsCases numbering.now cases.now }
    ensures { (f : Function) (t : Tree) → is_wide t ≡ wide → IsBody numbering.now f → All (HasCaseIn numbering.now f t) cases.now
        → OnOk result (operands.new.items ≡ operands.old.items ++ cases_operands numbering.now f t cases.now) }
{
    put_count(operands, cases.len())?;
    'parts: for part in cases {
        put_case(operands, numbering, wide, *part)?;
    }
    Ok(())
}

/// Appends a `switch`: type, value, block, and a count of cases with their blocks. Cases have the type of the value.
fn put_switch(
    operands: &mut Vec<u64>,
    numbering: &Numbering<'_>,
    part: Operand,
    otherwise: BlockId,
    cases: &[Case],
) -> Result<(), AllocError>
    requires part { KnowsOperand numbering.now part }
    requires cases { KnowsCases numbering.now cases.now }
    ensures { (f : Function) → IsBody numbering.now f → HasOperandIn numbering.now f part → otherwise < length (function_blocks f) → All (HasCaseIn numbering.now f (tree numbering.now.table part.ty)) cases.now
        → OnOk result (operands.new.items ≡ operands.old.items ++ switch_operands numbering.now f part otherwise cases.now) }
{
    let ty = part.ty;
    put_operand(operands, numbering, part)?;
    put_block(operands, otherwise)?;
    let wide = numbering.is_wide(ty);
    put_cases(operands, numbering, wide, cases)
}

/// Appends a `br` to one block.
fn put_jump(operands: &mut Vec<u64>, to: BlockId) -> Result<(), AllocError>
    ensures { OnOk result (operands.new.items ≡ operands.old.items ++ (0 ∷ to ∷ [])) }
{
    put_number(operands, 0)?;
    put_block(operands, to)
}

/// Appends a `br` on a condition.
fn put_branch(
    operands: &mut Vec<u64>,
    numbering: &Numbering<'_>,
    condition: Value,
    then_to: BlockId,
    else_to: BlockId,
) -> Result<(), AllocError>
    requires { KnowsValue (length numbering.now.constants) condition }
    ensures { (f : Function) → IsBody numbering.now f → HasValueAt numbering.now f (int 1) condition → then_to < length (function_blocks f) → else_to < length (function_blocks f)
        → OnOk result (operands.new.items ≡ operands.old.items ++ branch_operands numbering.now f condition then_to else_to) }
{
    put_number(operands, 1)?;
    put_value(operands, numbering, false, condition)?;
    put_block(operands, then_to)?;
    put_block(operands, else_to)
}

/// Appends the end of a block of a function. Only memory may be wanting.
pub fn put_ending(
    operands: &mut Vec<u64>,
    numbering: &Numbering<'_>,
    ending: &Ending,
) -> Result<(), AllocError>
    requires { KnowsEnd numbering.now ending.now }
    ensures { (f : Function) → IsEnd numbering.now f ending.now
        → OnOk result (operands.new.items ≡ operands.old.items
        ++ (lines.ending (inside numbering.now f) (lines.ending_opcode (ending_of numbering.now f ending.now))).spell (ending_of numbering.now f ending.now)) }
{
    match ending {
        Ending::ReturnVoid => put_number(operands, 0),
        Ending::Return(part) => put_some(operands, numbering, *part),
        Ending::Jump(to) => put_jump(operands, *to),
        Ending::Branch {
            condition,
            then_to,
            else_to,
        } => put_branch(operands, numbering, condition.value, *then_to, *else_to),
        Ending::Switch {
            value,
            otherwise,
            cases,
        } => put_switch(operands, numbering, *value, *otherwise, cases.as_slice()),
        Ending::Unreachable => Ok(()),
    }
}
