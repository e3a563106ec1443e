//! Instructions and ends of blocks of an arena, by the ids of their parts. Those of a text are in `ir_phrases::instructions`.

use crate::{BlockId, Boxed, ConstId, ValueId};
use ir_base::ItemList;
use ir_tables::{Flags, Opcode, Predicate};
use type_table::{TypeId, TypeList};

/// What an instruction works on: a parameter or result of its function, or a constant.
///
/// ```
/// Value::Local(ValueId::new(0)) // the first parameter, or the first result where there are no parameters
/// Value::Known(seven) // `7`, where that is the id of the constant
/// ```
#[derive(Clone, Copy, PartialEq, Eq)]
pub enum Value {
    /// A parameter or a result.
    Local(ValueId),
    /// A constant.
    Known(ConstId),
}

/// A value, and the type that is written before it.
///
/// ```
/// Operand { ty, value: Value::Local(ValueId::new(0)) } // `i32 %x`, where that is the first parameter
/// Operand { ty, value: Value::Known(seven) } // `i32 7`
/// ```
#[derive(Clone, Copy)]
pub struct Operand {
    pub ty: TypeId,
    pub value: Value,
}

/// Some operands, in order.
pub type OperandList = ItemList<Operand>;

/// A value of a phi, and the block that it comes from.
///
/// ```
/// Incoming { value: Value::Known(seven), block: BlockId::new(0) } // `[ 7, %entry ]`
/// ```
#[derive(Clone, Copy)]
pub struct Incoming {
    pub value: Value,
    pub block: BlockId,
}

/// The values of a phi, in order.
pub type IncomingList = ItemList<Incoming>;

/// The indices of `extractvalue` or `insertvalue`, in order.
pub type IndexList = ItemList<u32>;

/// The parts of a `select`.
///
/// ```
/// // of `select i1 %c, i32 %a, i32 7`, whose operands are `i1 %c`, `i32 %a` and `i32 7`
/// Boxed::new(alloc, Choice { condition, first, second })?
/// ```
#[derive(Clone, Copy)]
pub struct Choice {
    pub condition: Operand,
    pub first: Operand,
    pub second: Operand,
}

/// The parts of an `insertvalue`.
///
/// ```
/// // of `insertvalue { i32, ptr } %s, i32 7, 0`, whose operands are `{ i32, ptr } %s` and `i32 7`
/// indices.push(0)?;
/// Boxed::new(alloc, Insertion { aggregate, part, indices })?
/// ```
#[derive(Drop)]
pub struct Insertion {
    pub aggregate: Operand,
    pub part: Operand,
    pub indices: IndexList,
}

/// A function type, written whole.
///
/// ```
/// // `i32 (ptr, ...)`
/// parameters.push(pointer)?;
/// Signature { returns: word, parameters, variadic: true }
/// ```
#[derive(Drop)]
pub struct Signature {
    pub returns: TypeId,
    pub parameters: TypeList,
    pub variadic: bool,
}

/// The parts of a `call`.
///
/// ```
/// // `call void @free(ptr %p)`, where `free` is the id of that address as a constant.
/// let signature = Signature { returns: void, parameters, variadic: false };
/// Call { result: None, signature, callee: Value::Known(free), arguments }
/// ```
#[derive(Drop)]
pub struct Call {
    /// There where the call has a name or number.
    pub result: Option<ValueId>,
    pub signature: Signature,
    pub callee: Value,
    pub arguments: OperandList,
}

/// An instruction that does not end a block (LangRef, "Instruction Reference"), one variant a phrase, with the
/// parts of the phrase in their order. `result` is the value that it defines. It takes at most 64 bytes.
///
/// ```
/// // `%1 = add nsw i32 %0, 7`, where `word` is the id of `i32` and `seven` that of the constant 7.
/// let left = Operand { ty: word, value: Value::Local(ValueId::new(0)) };
/// let flags = Flags::empty().with(Flag::Nsw);
/// Inst::Binary(Opcode::Add, flags, ValueId::new(1), left, Value::Known(seven))
/// ```
#[derive(Drop)]
pub enum Inst {
    /// An operation on two operands of one type.
    Binary(Opcode, Flags, ValueId, Operand, Value),
    /// `icmp`
    Compare(Flags, Predicate, ValueId, Operand, Value),
    /// A cast to the type.
    Convert(Opcode, Flags, ValueId, Operand, TypeId),
    /// `select`
    Select(ValueId, Boxed<Choice>),
    /// `freeze`
    Freeze(ValueId, Operand),
    /// `phi`: at least one value.
    Phi(ValueId, TypeId, IncomingList),
    /// `load`: the type, the address, and the alignment where it is written.
    Load(Flags, ValueId, TypeId, Operand, Option<u32>),
    /// `store`: the value, the address, and the alignment where it is written.
    Store(Flags, Operand, Operand, Option<u32>),
    /// `alloca`: the type, and the count and the alignment where they are written.
    Alloca(ValueId, TypeId, Option<Operand>, Option<u32>),
    /// `getelementptr`: the source type, the base, and the indices.
    GetElementPtr(Flags, ValueId, TypeId, Operand, OperandList),
    /// `call`
    Call(Boxed<Call>),
    /// `extractvalue`: at least one index.
    ExtractValue(ValueId, Operand, IndexList),
    /// `insertvalue`
    InsertValue(ValueId, Boxed<Insertion>),
}

/// A case of a `switch`, and where it goes.
///
/// ```
/// Case { ty: word, value: seven, target: BlockId::new(1) } // `i32 7, label %b`, where that is the second block
/// ```
#[derive(Clone, Copy)]
pub struct Case {
    pub ty: TypeId,
    pub value: ConstId,
    pub target: BlockId,
}

/// The cases of a `switch`, in order.
pub type CaseList = ItemList<Case>;

/// How a block ends (LangRef, "Terminator Instructions"), one variant a phrase.
///
/// ```
/// Ending::Return(operand) // `ret i32 %x`, where that is the operand
/// // `br i1 %c, label %yes, label %no`
/// Ending::Branch { condition, then_to: BlockId::new(1), else_to: BlockId::new(2) }
/// ```
#[derive(Drop)]
pub enum Ending {
    /// `ret void`
    ReturnVoid,
    /// `ret` with a value.
    Return(Operand),
    /// `br` to one block.
    Jump(BlockId),
    /// `br` on a condition: to `then_to` where it is true, else to `else_to`.
    Branch {
        condition: Operand,
        then_to: BlockId,
        else_to: BlockId,
    },
    /// `switch`: to the target of the case that has the value, and to `otherwise` where none has it.
    Switch {
        value: Operand,
        otherwise: BlockId,
        cases: CaseList,
    },
    /// `unreachable`
    Unreachable,
}

const _: () = prove!(size_of::<Value>() <= 16);

const _: () = prove!(size_of::<Operand>() <= 24);

const _: () = prove!(size_of::<Inst>() <= 64);

const _: () = prove!(size_of::<Ending>() <= 64);
