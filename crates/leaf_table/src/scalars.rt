//! What an instruction on scalars gives.
//!
//! A line `add nuw nsw`, `icmp samesign slt` or `trunc nuw 3` asks for the results on all operands
//! of 4 bits, the first of which changes slowest, with poison last. A line that begins with `row`
//! has its widths and its operands: `row add nuw 65 7 p`. A cast has two widths, `select` and
//! `freeze` have none, and `freeze pointer` is that of a pointer. The answer is in hexadecimal,
//! with `p` for poison, `z` for a division by zero, `o` for one that overflows, and `?` where
//! there is no such instruction.
ghost use Rattle.std.specs.Prelude.{IsTrue, IfSome};
ghost use Rattle.ir_eval.specs.Value.{IsInteger, IsWidth};
ghost use Rattle.ir_eval.specs.Cast.{IsCast};
ghost use Rattle.ir_eval.specs.Operators.{is_binary};

use crate::leaf::{is_integer, leaf_of, listed, push_leaf};
use ir_eval::{Scalar, binary, cast, compare, freeze, select};
use ir_tables::{Flag, Flags, Opcode, Predicate, UndefinedKind, WIDEST};
use std::alloc::AllocError;

/// An instruction, and the last three leaves of its line: its widths and its operands.
#[derive(Clone, Copy)]
struct Row {
    op: Option<Opcode>,
    predicate: Option<Predicate>,
    flags: Flags,
    is_pointer: bool,
    leaves: [Option<Scalar>; 3],
}

/// Adds the answer to the line.
pub fn push_answer(text: &mut String, line: &str) -> Result<(), AllocError> {
    write!(text, "{line}:")?;
    match line.strip_prefix("row ") {
        Some(words) => push_outcome(text, outcome_of(&read_row(words))),
        None => push_all(text, &read_row(line)),
    }
}

fn read_row(words: &str) -> Row {
    let mut row = Row {
        op: None,
        predicate: None,
        flags: Flags::empty(),
        is_pointer: false,
        leaves: [None, None, None],
    };
    for word in words.split(' ') {
        row = with_word(row, word);
    }
    row
}

fn with_word(row: Row, word: &str) -> Row {
    if let Some(flag) = Flag::of_word(word.as_bytes()) {
        let flags = row.flags.with(flag);
        return Row { flags, ..row };
    }
    if let Some(op) = Opcode::of_word(word.as_bytes()) {
        let op = Some(op);
        return Row { op, ..row };
    }
    if let Some(predicate) = Predicate::of_word(word.as_bytes()) {
        let predicate = Some(predicate);
        return Row { predicate, ..row };
    }
    if word == "pointer" {
        let is_pointer = true;
        return Row { is_pointer, ..row };
    }
    let [_, second, third] = row.leaves;
    let leaves = [second, third, leaf_of(word)];
    Row { leaves, ..row }
}

// Adds the results on all operands of 4 bits. A cast has the width that it goes to on its line.
fn push_all(text: &mut String, row: &Row) -> Result<(), AllocError> {
    let [_, _, to] = row.leaves;
    for first in 0..17u8 {
        match to {
            Some(to) => push_one(text, row, to, listed(16, u128::from(first)))?,
            None => push_pairs(text, row, listed(16, u128::from(first)))?,
        }
    }
    Ok(())
}

fn push_pairs(text: &mut String, row: &Row, first: Scalar) -> Result<(), AllocError> {
    for second in 0..17u8 {
        push_one(text, row, first, listed(16, u128::from(second)))?;
    }
    Ok(())
}

// Adds the result at width 4 with two more leaves.
fn push_one(text: &mut String, row: &Row, a: Scalar, b: Scalar) -> Result<(), AllocError> {
    let leaves = [Some(Scalar::Int(4)), Some(a), Some(b)];
    push_outcome(text, outcome_of(&Row { leaves, ..*row }))
}

// What the instruction gives, and None where it is none of those that `ir_eval` is for.
fn outcome_of(row: &Row) -> Option<Result<Scalar, UndefinedKind>> {
    match (row.op?, row.predicate) {
        (Opcode::ICmp, Some(predicate)) => compared(row, predicate),
        (Opcode::Select, None) => chosen(row.leaves),
        (Opcode::Freeze, None) => frozen(row),
        (op, None) if is_binary(op) => computed(row, op),
        (op, None) => converted(row, op),
        _ => None,
    }
}

fn is_binary(op: Opcode) -> bool
    ensures { IsTrue result → IsTrue (is_binary op) }
{
    match op {
        Opcode::Add | Opcode::Sub | Opcode::Mul | Opcode::Shl => true,
        Opcode::UDiv | Opcode::SDiv | Opcode::URem | Opcode::SRem => true,
        Opcode::LShr | Opcode::AShr | Opcode::And | Opcode::Or | Opcode::Xor => true,
        _ => false,
    }
}

// The leaf as a width, where it is one.
fn width_of(leaf: Scalar) -> Option<u8>
    ensures { IfSome result IsWidth }
{
    match leaf {
        Scalar::Int(width) if 1 <= width && width <= WIDEST as u128 => Some(width as u8),
        _ => None,
    }
}

fn computed(row: &Row, op: Opcode) -> Option<Result<Scalar, UndefinedKind>>
    requires { IsTrue (is_binary op) }
{
    let [width, a, b] = row.leaves;
    let (width, a, b) = (width_of(width?)?, a?, b?);
    if is_integer(width, a) && is_integer(width, b) {
        Some(binary(op, row.flags, width, a, b))
    } else {
        None
    }
}

fn compared(row: &Row, predicate: Predicate) -> Option<Result<Scalar, UndefinedKind>> {
    let [width, a, b] = row.leaves;
    let (width, a, b) = (width_of(width?)?, a?, b?);
    if is_integer(width, a) && is_integer(width, b) {
        let samesign = row.flags.has(Flag::Samesign);
        return Some(Ok(compare(predicate, samesign, width, a, b)));
    }
    compared_pointers(predicate, a, b)
}

fn compared_pointers(
    predicate: Predicate,
    a: Scalar,
    b: Scalar,
) -> Option<Result<Scalar, UndefinedKind>> {
    match (a, b) {
        (Scalar::Ptr(_), Scalar::Ptr(_)) => Some(Ok(compare(predicate, false, 64, a, b))),
        _ => None,
    }
}

fn converted(row: &Row, op: Opcode) -> Option<Result<Scalar, UndefinedKind>> {
    let [from, to, operand] = row.leaves;
    let (from, to, operand) = (width_of(from?)?, width_of(to?)?, operand?);
    if is_cast(op, from, to, operand) {
        Some(Ok(cast(op, row.flags, from, to, operand)))
    } else {
        None
    }
}

fn is_cast(op: Opcode, from: u8, to: u8, operand: Scalar) -> bool
    ensures { IsTrue result → IsCast op from to operand }
{
    match op {
        Opcode::Trunc => to < from && is_integer(from, operand),
        Opcode::ZExt | Opcode::SExt => from < to && is_integer(from, operand),
        Opcode::PtrToInt => from == 64 && matches!(operand, Scalar::Ptr(_) | Scalar::Poison),
        Opcode::IntToPtr => to == 64 && is_integer(from, operand),
        _ => false,
    }
}

fn chosen(leaves: [Option<Scalar>; 3]) -> Option<Result<Scalar, UndefinedKind>> {
    let [condition, a, b] = leaves;
    let (condition, a, b) = (condition?, a?, b?);
    if is_integer(1, condition) {
        Some(Ok(select(condition, a, b)))
    } else {
        None
    }
}

fn frozen(row: &Row) -> Option<Result<Scalar, UndefinedKind>> {
    let [_, _, operand] = row.leaves;
    Some(Ok(freeze(row.is_pointer, operand?)))
}

fn push_outcome(
    text: &mut String,
    outcome: Option<Result<Scalar, UndefinedKind>>,
) -> Result<(), AllocError> {
    text.push_str(" ")?;
    match outcome {
        Some(Ok(leaf)) => push_leaf(text, leaf),
        Some(Err(UndefinedKind::DivisionByZero)) => text.push_str("z"),
        Some(Err(UndefinedKind::DivisionOverflow)) => text.push_str("o"),
        _ => text.push_str("?"),
    }
}
