//! Reads the instructions of a block.
ghost use Rattle.std.specs.Prelude.{◌≡◌, map};
ghost use Rattle.ir_terminals.specs.PhraseRows.Row.{among, begins, one};
ghost use Rattle.ir_phrases.specs.Instructions.Instructions.{result_classes, operation_classes, marked_call_row, operation_over, instruction_shape, instruction_row, instructions_row};
ghost use Rattle.ir_phrases.specs.Instructions.View.{operation_view, instruction_view};
ghost use Rattle.ir_terminals.specs.Follows.{Follows};
ghost use Rattle.ir_terminals.specs.Position.{tokens_left};
ghost use Rattle.ir_terminals.specs.Role.{class};
ghost use Rattle.ir_terminals.specs.Terminal.{code};
ghost use Rattle.ir_terminals.specs.Values.{opcode_of};

use crate::instructions::block::Instruction;
use crate::instructions::calls::call;
use crate::instructions::operation::Operation;
use crate::instructions::operations::operation_behind;
use crate::instructions::room::fitted;
use ir_tables::Opcode;
use ir_terminals::{Cursor, Fault, Terminal};

/// Whether an instruction with the opcode has a result, or may have one.
fn has_result(opcode: Opcode) -> bool
    ensures { result ≡ among (code (Terminal.Opcode opcode)) result_classes }
{
    !matches!(
        opcode,
        Opcode::Store | Opcode::Ret | Opcode::Br | Opcode::Switch | Opcode::Unreachable
    )
}

/// Whether an instruction with the opcode does not end a block.
fn is_operation(opcode: Opcode) -> bool
    ensures { result ≡ among (code (Terminal.Opcode opcode)) operation_classes }
{
    !matches!(
        opcode,
        Opcode::Ret | Opcode::Br | Opcode::Switch | Opcode::Unreachable
    )
}

/// The opcode of an instruction that has a result, or may have one.
fn result_opcode(cursor: &mut Cursor) -> Result<Opcode, Fault>
    ensures { Follows (λ _. one class result_classes opcode_of) (λ x. x) cursor.old result cursor.new }
{
    let Some(Terminal::Opcode(opcode)) = cursor.terminal() else {
        return Err(Fault::Refused);
    };
    if !has_result(opcode) {
        return Err(Fault::Refused);
    }
    cursor.take_class(Terminal::Opcode(opcode))?;
    Ok(opcode)
}

/// The opcode of an instruction that does not end a block.
fn operation_opcode(cursor: &mut Cursor) -> Result<Opcode, Fault>
    ensures { Follows (λ _. one class operation_classes opcode_of) (λ x. x) cursor.old result cursor.new }
{
    let Some(Terminal::Opcode(opcode)) = cursor.terminal() else {
        return Err(Fault::Refused);
    };
    if !is_operation(opcode) {
        return Err(Fault::Refused);
    }
    cursor.take_class(Terminal::Opcode(opcode))?;
    Ok(opcode)
}

/// `(tail|musttail|notail) call ..`
fn marked_call(cursor: &mut Cursor) -> Result<Operation, Fault>
    ensures { Follows marked_call_row operation_view cursor.old result cursor.new }
{
    cursor.take_class(Terminal::TailMark)?;
    cursor.take_class(Terminal::Opcode(Opcode::Call))?;
    call(cursor)
}

/// An instruction that has a result, or may have one, without what it is called.
#[tactic(auto, unfolding(crate::specs::Instructions::Instructions::operation_over_core))]
fn with_result(cursor: &mut Cursor) -> Result<Operation, Fault>
    ensures { Follows (operation_over result_classes) operation_view cursor.old result cursor.new }
{
    if cursor.is_class_next(Terminal::TailMark) {
        return marked_call(cursor);
    }
    let opcode = result_opcode(cursor)?;
    operation_behind(cursor, opcode)
}

/// An instruction that does not end a block, without what its result is called.
#[tactic(auto, unfolding(crate::specs::Instructions::Instructions::operation_over_core))]
fn operation(cursor: &mut Cursor) -> Result<Operation, Fault>
    ensures { Follows (operation_over operation_classes) operation_view cursor.old result cursor.new }
{
    if cursor.is_class_next(Terminal::TailMark) {
        return marked_call(cursor);
    }
    let opcode = operation_opcode(cursor)?;
    operation_behind(cursor, opcode)
}

/// `INST`
#[tactic(auto, unfolding(crate::specs::Instructions::Instructions::instruction_core))]
fn instruction(cursor: &mut Cursor) -> Result<Instruction, Fault>
    ensures { Follows instruction_row instruction_view cursor.old result cursor.new }
{
    if !cursor.is_class_next(Terminal::Local) {
        let operation = operation(cursor)?;
        return Ok(Instruction {
            result: None,
            operation,
        });
    }
    let result = cursor.local()?;
    cursor.take_class(Terminal::Equals)?;
    let operation = with_result(cursor)?;
    Ok(Instruction {
        result: Some(result),
        operation,
    })
}

/// Whether a token with the terminal is the opcode of an instruction that does not end a block.
fn begins_operation(terminal: Terminal) -> bool
    ensures { result ≡ among (code terminal) operation_classes }
{
    match terminal {
        Terminal::Opcode(opcode) => is_operation(opcode),
        _ => false,
    }
}

/// Whether the opcode of an instruction that does not end a block is next.
fn is_operation_next(cursor: &Cursor) -> bool
    ensures { result ≡ begins class operation_classes (tokens_left cursor.now) }
{
    match cursor.terminal() {
        Some(terminal) => begins_operation(terminal),
        None => false,
    }
}

/// Whether an instruction that does not end a block is next.
#[tactic(auto, using(crate::proofs::OnInstructions::Firsts::instruction_begins))]
pub fn is_instruction_next(cursor: &Cursor) -> bool
    ensures { result ≡ begins class instruction_shape.first (tokens_left cursor.now) }
{
    cursor.is_class_next(Terminal::Local)
        || cursor.is_class_next(Terminal::TailMark)
        || is_operation_next(cursor)
}

/// For how many instructions there is room at first: for none where none is next.
fn first_room(cursor: &Cursor) -> usize {
    if is_instruction_next(cursor) { 8 } else { 0 }
}

/// `INST*`
pub fn instructions(cursor: &mut Cursor) -> Result<Vec<Instruction>, Fault>
    ensures { Follows instructions_row (λ x. map instruction_view x.items) cursor.old result cursor.new }
{
    let mut instructions = Vec::with_capacity(cursor.alloc(), first_room(cursor))?;
    'instructions: while is_instruction_next(cursor) {
        instructions.push(instruction(cursor)?)?;
    }
    Ok(fitted(instructions))
}
