//! Blocks, as a text writes them.

use crate::constants::{TypedConstant, TypedValue};
use crate::instructions::operation::Operation;
use ir_terminals::Local;

/// An instruction, and what its result is called where that is written.
#[derive(Drop)]
pub struct Instruction {
    pub result: Option<Local>,
    pub operation: Operation,
}

/// A case of a switch, and the block that it goes to.
///
/// ```
/// // `i32 7, label %b`, where `value` is `i32 7` and `b` the name `b` with its place
/// WrittenCase { value, target: Local::Named(b) }
/// ```
#[derive(Drop)]
pub struct WrittenCase {
    pub value: TypedConstant,
    pub target: Local,
}

/// A condition, and where it goes: to the first block where it is true, else to the second.
///
/// ```
/// // of `br i1 %c, label %a, label %b`, whose condition is `i1 %c`, where `a` and `b` are these names with their places
/// Branch { condition, then_to: Local::Named(a), else_to: Local::Named(b) }
/// ```
#[derive(Drop)]
pub struct Branch {
    pub condition: TypedValue,
    pub then_to: Local,
    pub else_to: Local,
}

/// The value of a switch, the block for any other value, and the cases.
///
/// ```
/// // of `switch i32 %x, label %a [ i32 7, label %b ]`, where `a` is that name with its place
/// Switch {
///     value, // `i32 %x`
///     otherwise: Local::Named(a),
///     cases, // `i32 7, label %b` alone
/// }
/// ```
#[derive(Drop)]
pub struct Switch {
    pub value: TypedValue,
    pub otherwise: Local,
    pub cases: Vec<WrittenCase>,
}

/// How a block ends (LangRef, "Terminator Instructions").
///
/// ```
/// WrittenEnding::Return(value) // `ret i32 0`, whose value is `i32 0`
/// WrittenEnding::Jump(Local::Named(a)) // `br label %a`, where `a` is that name with its place
/// ```
#[derive(Drop)]
pub enum WrittenEnding {
    /// `ret void`
    ReturnVoid,
    /// `ret` with a value.
    Return(TypedValue),
    /// `br` to one block.
    Jump(Local),
    /// `br` on a condition.
    Branch(Box<Branch>),
    /// `switch`
    Switch(Box<Switch>),
    /// `unreachable`
    Unreachable,
}

/// A block: what it is called where that is written, its instructions, and its end.
///
/// ```
/// // `a: ret void`, where `a` is that name with its place
/// WrittenBlock { label: Some(Local::Named(a)), instructions: Vec::new(alloc), ending: WrittenEnding::ReturnVoid }
/// ```
#[derive(Drop)]
pub struct WrittenBlock {
    pub label: Option<Local>,
    pub instructions: Vec<Instruction>,
    pub ending: WrittenEnding,
}
