//! Reads the instructions that end a block.
ghost use Rattle.std.specs.Prelude.{◌≡◌, map};
ghost use Rattle.ir_terminals.specs.PhraseRows.Row.{begins};
ghost use Rattle.ir_terminals.specs.Position.{tokens_left};
ghost use Rattle.ir_terminals.specs.Role.{class};
ghost use Rattle.ir_phrases.specs.Instructions.Endings.{target_row, next_target_row, returned_row, return_value_row, return_row, condition_row, branch_target_row, branch_row, case_row, case_list_row, cases_row, switch_targets_row, switch_row, unreachable_row, ending_shape, ending_row};
ghost use Rattle.ir_phrases.specs.Instructions.View.{case_view, ending_view};
ghost use Rattle.ir_terminals.specs.Follows.{Follows};

use crate::constants::{
    TypedValue, begins_type, typed_constant_of, typed_value_of, value_of, value_type_of,
};
use crate::instructions::block::{Branch, Switch, WrittenCase, WrittenEnding};
use crate::instructions::boxed::boxed;
use crate::instructions::metadata::attachments;
use ir_tables::Opcode;
use ir_terminals::{Cursor, Fault, Local, Terminal};

/// `label LOCAL`
#[tactic(auto, unfolding(crate::specs::Instructions::Endings::target_core))]
fn target(cursor: &mut Cursor) -> Result<Local, Fault>
    ensures { Follows (λ _. target_row) (λ x. x) cursor.old result cursor.new }
{
    cursor.take_class(Terminal::LabelWord)?;
    cursor.local()
}

/// `, label LOCAL`
#[tactic(auto, unfolding(crate::specs::Instructions::Endings::next_target_core))]
fn next_target(cursor: &mut Cursor) -> Result<Local, Fault>
    ensures { Follows (λ _. next_target_row) (λ x. x) cursor.old result cursor.new }
{
    cursor.take_class(Terminal::Comma)?;
    target(cursor)
}

/// `TYPE VALUE`, the type not `void`.
fn returned(cursor: &mut Cursor) -> Result<WrittenEnding, Fault>
    ensures { Follows returned_row ending_view cursor.old result cursor.new }
{
    let ty = value_type_of(cursor)?;
    let value = value_of(cursor)?;
    Ok(WrittenEnding::Return(TypedValue { ty, value }))
}

/// `void`, or `TYPE VALUE`.
#[tactic(auto, unfolding(crate::specs::Instructions::Endings::return_value_core))]
fn return_value(cursor: &mut Cursor) -> Result<WrittenEnding, Fault>
    ensures { Follows return_value_row ending_view cursor.old result cursor.new }
{
    if cursor.is_class_next(Terminal::Void) {
        cursor.take_class(Terminal::Void)?;
        return Ok(WrittenEnding::ReturnVoid);
    }
    returned(cursor)
}

/// `ret void`, or `ret TYPE VALUE`.
#[tactic(auto, unfolding(crate::specs::Instructions::Endings::return_core))]
fn return_(cursor: &mut Cursor) -> Result<WrittenEnding, Fault>
    ensures { Follows return_row ending_view cursor.old result cursor.new }
{
    cursor.take_class(Terminal::Opcode(Opcode::Ret))?;
    let ending = return_value(cursor)?;
    attachments(cursor)?;
    Ok(ending)
}

/// `TYPE VALUE , label LOCAL , label LOCAL`
fn condition(cursor: &mut Cursor) -> Result<WrittenEnding, Fault>
    ensures { Follows condition_row ending_view cursor.old result cursor.new }
{
    let condition = typed_value_of(cursor)?;
    let then_to = next_target(cursor)?;
    let else_to = next_target(cursor)?;
    let branch = Branch {
        condition,
        then_to,
        else_to,
    };
    Ok(WrittenEnding::Branch(boxed(cursor.alloc(), branch)?))
}

/// `label LOCAL`, or `TYPE VALUE , label LOCAL , label LOCAL`.
#[tactic(auto, unfolding(crate::specs::Instructions::Endings::branch_target_core))]
fn branch_target(cursor: &mut Cursor) -> Result<WrittenEnding, Fault>
    ensures { Follows branch_target_row ending_view cursor.old result cursor.new }
{
    if cursor.is_class_next(Terminal::LabelWord) {
        return Ok(WrittenEnding::Jump(target(cursor)?));
    }
    condition(cursor)
}

/// `br label LOCAL`, or `br TYPE VALUE , label LOCAL , label LOCAL`.
#[tactic(auto, unfolding(crate::specs::Instructions::Endings::branch_core))]
fn branch(cursor: &mut Cursor) -> Result<WrittenEnding, Fault>
    ensures { Follows branch_row ending_view cursor.old result cursor.new }
{
    cursor.take_class(Terminal::Opcode(Opcode::Br))?;
    let ending = branch_target(cursor)?;
    attachments(cursor)?;
    Ok(ending)
}

/// `TYPE CONST , label LOCAL`
#[tactic(auto, unfolding(crate::specs::Instructions::Endings::case_core))]
fn case(cursor: &mut Cursor) -> Result<WrittenCase, Fault>
    ensures { Follows case_row case_view cursor.old result cursor.new }
{
    let value = typed_constant_of(cursor)?;
    let target = next_target(cursor)?;
    Ok(WrittenCase { value, target })
}

/// `(TYPE CONST , label LOCAL)*`
fn case_list(cursor: &mut Cursor) -> Result<Vec<WrittenCase>, Fault>
    ensures { Follows case_list_row (λ x. map case_view x.items) cursor.old result cursor.new }
{
    let mut cases = Vec::new(cursor.alloc());
    'cases: while begins_type(cursor) {
        cases.push(case(cursor)?)?;
    }
    cases.shrink_to_fit();
    Ok(cases)
}

/// `[ (TYPE CONST , label LOCAL)* ]`
#[tactic(auto, unfolding(crate::specs::Instructions::Endings::cases_core))]
fn cases(cursor: &mut Cursor) -> Result<Vec<WrittenCase>, Fault>
    ensures { Follows cases_row (λ x. map case_view x.items) cursor.old result cursor.new }
{
    cursor.take_class(Terminal::OpenBracket)?;
    let cases = case_list(cursor)?;
    cursor.take_class(Terminal::CloseBracket)?;
    Ok(cases)
}

/// `, label LOCAL [ (TYPE CONST , label LOCAL)* ] (, MD)*`
#[tactic(auto, unfolding(crate::specs::Instructions::Endings::switch_targets_core))]
fn switch_targets(cursor: &mut Cursor) -> Result<(Local, Vec<WrittenCase>), Fault>
    ensures { Follows switch_targets_row (λ x. (x.0, map case_view x.1.items)) cursor.old result cursor.new }
{
    let otherwise = next_target(cursor)?;
    let cases = cases(cursor)?;
    attachments(cursor)?;
    Ok((otherwise, cases))
}

/// `switch TYPE VALUE , label LOCAL [ (TYPE CONST , label LOCAL)* ]`
#[tactic(auto, unfolding(crate::specs::Instructions::Endings::switch_core))]
fn switch(cursor: &mut Cursor) -> Result<WrittenEnding, Fault>
    ensures { Follows switch_row ending_view cursor.old result cursor.new }
{
    cursor.take_class(Terminal::Opcode(Opcode::Switch))?;
    let value = typed_value_of(cursor)?;
    let (otherwise, cases) = switch_targets(cursor)?;
    let switch = Switch {
        value,
        otherwise,
        cases,
    };
    Ok(WrittenEnding::Switch(boxed(cursor.alloc(), switch)?))
}

/// `unreachable`
#[tactic(auto, unfolding(crate::specs::Instructions::Endings::unreachable_core))]
fn unreachable(cursor: &mut Cursor) -> Result<WrittenEnding, Fault>
    ensures { Follows (λ _. unreachable_row) ending_view cursor.old result cursor.new }
{
    cursor.take_class(Terminal::Opcode(Opcode::Unreachable))?;
    attachments(cursor)?;
    Ok(WrittenEnding::Unreachable)
}

/// Whether an instruction that ends a block is next.
pub fn is_ending_next(cursor: &Cursor) -> bool
    ensures { result ≡ begins class ending_shape.first (tokens_left cursor.now) }
{
    matches!(
        cursor.terminal(),
        Some(Terminal::Opcode(Opcode::Ret | Opcode::Br | Opcode::Switch | Opcode::Unreachable))
    )
}

/// `END`
#[tactic(auto, unfolding(crate::specs::Instructions::Endings::ending_core))]
pub fn ending(cursor: &mut Cursor) -> Result<WrittenEnding, Fault>
    ensures { Follows ending_row ending_view cursor.old result cursor.new }
{
    if cursor.is_class_next(Terminal::Opcode(Opcode::Ret)) {
        return_(cursor)
    } else if cursor.is_class_next(Terminal::Opcode(Opcode::Br)) {
        branch(cursor)
    } else if cursor.is_class_next(Terminal::Opcode(Opcode::Switch)) {
        switch(cursor)
    } else {
        unreachable(cursor)
    }
}
