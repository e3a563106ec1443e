//! Instructions that do not end a block, as a text writes them.

use crate::constants::{Type, TypedValue, WrittenValue};
use ir_tables::{Flags, Opcode, Predicate};
use ir_terminals::{Integer, Local};

/// The parameters that a call or an alias writes, and whether `...` ends them.
///
/// ```
/// // `(ptr, ...)` of `call i32 (ptr, ...) @printf(ptr %p)`, whose parameters are `ptr` alone
/// SignatureTypes { parameters, variadic: true }
/// ```
#[derive(Drop)]
pub struct SignatureTypes {
    pub parameters: Vec<Type>,
    pub variadic: bool,
}

/// A call (LangRef, "'call' Instruction").
///
/// ```
/// // `call i32 @f(i32 %a)`, where `f` is that name with its place
/// WrittenCall {
///     returns, // `i32`
///     signature: None,
///     callee: WrittenValue::Constant(Constant::Global(f)),
///     arguments, // `i32 %a` alone
/// }
/// ```
#[derive(Drop)]
pub struct WrittenCall {
    /// The return type.
    pub returns: Type,
    /// The parameters, where the call writes them.
    pub signature: Option<SignatureTypes>,
    pub callee: WrittenValue,
    pub arguments: Vec<TypedValue>,
}

/// Two operands of one type: the left one with its type, and the right one.
#[derive(Drop)]
pub struct Operands {
    pub left: TypedValue,
    pub right: WrittenValue,
}

/// What a cast casts, and the type to which it does.
#[derive(Drop)]
pub struct CastParts {
    pub value: TypedValue,
    pub to: Type,
}

/// A condition, and the two arms.
///
/// ```
/// // of `select i1 %c, i32 %a, i32 7`, whose values are `i1 %c`, `i32 %a` and `i32 7`
/// Box::new(alloc, WrittenChoice { condition, first, second })?
/// ```
#[derive(Drop)]
pub struct WrittenChoice {
    pub condition: TypedValue,
    pub first: TypedValue,
    pub second: TypedValue,
}

/// A value of a phi, and the block that it comes from.
///
/// ```
/// // `[ %x, %entry ]`, where `x` and `entry` are these names with their places
/// WrittenIncoming { value: WrittenValue::Local(Local::Named(x)), block: Local::Named(entry) }
/// ```
#[derive(Drop)]
pub struct WrittenIncoming {
    pub value: WrittenValue,
    pub block: Local,
}

/// The type of a phi, and at least one value.
#[derive(Drop)]
pub struct Phi {
    pub ty: Type,
    pub incoming: Vec<WrittenIncoming>,
}

/// What a load reads, from where, and the alignment where it is written.
///
/// ```
/// // of `load i32, ptr %p`, whose type is `i32` and whose address is `ptr %p`
/// Load { ty, address, alignment: None }
/// ```
#[derive(Drop)]
pub struct Load {
    pub ty: Type,
    pub address: TypedValue,
    pub alignment: Option<Integer>,
}

/// What a store writes, to where, and the alignment where it is written.
///
/// ```
/// // of `store i32 7, ptr %p`, whose value is `i32 7` and whose address is `ptr %p`
/// Store { value, address, alignment: None }
/// ```
#[derive(Drop)]
pub struct Store {
    pub value: TypedValue,
    pub address: TypedValue,
    pub alignment: Option<Integer>,
}

/// What an alloca makes room for, with the count and the alignment where they are written.
#[derive(Drop)]
pub struct Alloca {
    pub ty: Type,
    pub count: Option<Box<TypedValue>>,
    pub alignment: Option<Integer>,
}

/// The source type of a `getelementptr`, and the base with the indices behind it.
#[derive(Drop)]
pub struct Address {
    pub source: Type,
    pub operands: Vec<TypedValue>,
}

/// The whole that a part is taken from, and at least one index.
#[derive(Drop)]
pub struct Extraction {
    pub value: TypedValue,
    pub indices: Vec<Integer>,
}

/// The whole that a part is put into, the part, and at least one index.
///
/// ```
/// // of `insertvalue { i32, i1 } %s, i32 7, 0`
/// WrittenInsertion {
///     value, // `{ i32, i1 } %s`
///     part, // `i32 7`
///     indices, // `0` alone
/// }
/// ```
#[derive(Drop)]
pub struct WrittenInsertion {
    pub value: TypedValue,
    pub part: TypedValue,
    pub indices: Vec<Integer>,
}

/// What an instruction does, one variant a phrase, with the parts of the phrase in their order.
///
/// ```
/// Operation::Freeze(Box::new(alloc, value)?) // `freeze i32 %x`, whose value is `i32 %x`
/// Operation::Call(Box::new(alloc, call)?) // `call i32 @f(i32 %a)`, which is that call
/// ```
#[derive(Drop)]
pub enum Operation {
    /// An operation on two operands.
    Binary {
        opcode: Opcode,
        flags: Flags,
        operands: Box<Operands>,
    },
    /// `icmp`: compares two integers or pointers.
    Compare {
        flags: Flags,
        predicate: Predicate,
        operands: Box<Operands>,
    },
    /// A cast.
    Cast {
        opcode: Opcode,
        flags: Flags,
        conversion: Box<CastParts>,
    },
    /// `select`: a condition chooses one of two values.
    Select(Box<WrittenChoice>),
    /// `freeze`: the value, or an arbitrary but fixed one where it is undefined or poison.
    Freeze(Box<TypedValue>),
    /// `phi`: a value for each block that control may come from.
    Phi(Box<Phi>),
    /// `load`: reads a value from memory.
    Load {
        flags: Flags,
        load: Box<Load>,
    },
    /// `store`: writes a value to memory.
    Store {
        flags: Flags,
        store: Box<Store>,
    },
    /// `alloca`: makes room in memory until the function returns.
    Alloca(Box<Alloca>),
    /// `getelementptr`: the address of a part, from a base and indices.
    GetElementPtr {
        flags: Flags,
        address: Box<Address>,
    },
    /// `call`: calls a function.
    Call(Box<WrittenCall>),
    /// `extractvalue`: takes a part from a whole.
    ExtractValue(Box<Extraction>),
    /// `insertvalue`: puts a part into a whole.
    InsertValue(Box<WrittenInsertion>),
}
