//! Copies of what an arena holds, with the same ids.
ghost use Rattle.std.specs.Prelude.{◌≡◌, IfOk};

use crate::{
    Alias, AliasType, Block, Body, Boxed, Call, Const, ConstAddress, Ending, Function, Insertion,
    Inst, LocalName, Parameter, Signature, Variable,
};
use ir_base::{ItemList, Text};
use std::alloc::{AllocError, Global};

/// What can be copied where there is memory.
pub(crate) trait Copied: Drop {
    /// An equal value of its own.
    fn copied(&self, alloc: Global) -> Result<Self, AllocError>
    where
        Self: Sized,
        ensures { IfOk result (λ copy. copy ≡ self.now) };
}

/// Equal items of their own.
pub(crate) fn copied_items<T: Copied>(alloc: Global, items: &[T]) -> Result<Vec<T>, AllocError>
    ensures { IfOk result (λ copy. copy.items ≡ items.now) }
{
    let mut copy = Vec::with_capacity(alloc, items.len())?;
    for item in items {
        let next = item.copied(alloc)?;
        copy.push(next)?;
    }
    Ok(copy)
}

/// The same plain items, in a list of their own. It is refused for want of memory alone.
pub fn same_items<T: Copy>(alloc: Global, items: &ItemList<T>) -> Result<ItemList<T>, AllocError>
    ensures { IfOk result (λ copy. copy ≡ items.now) }
{
    Ok(ItemList::from_vec(Vec::from_slice(alloc, items.as_slice())?))
}

/// The same text, where there is one.
pub(crate) fn copied_text(alloc: Global, text: &Option<Text>) -> Result<Option<Text>, AllocError>
    ensures { IfOk result (λ copy. copy ≡ text.now) }
{
    Ok(match text {
        Some(text) => Some(text.copy(alloc)?),
        None => None,
    })
}

/// The same name again, with a text of its own. It is refused for want of memory alone.
pub fn copied_name(alloc: Global, name: &LocalName) -> Result<LocalName, AllocError>
    ensures { IfOk result (λ copy. copy ≡ name.now) }
{
    Ok(match name {
        LocalName::Named(name) => LocalName::Named(name.copy(alloc)?),
        LocalName::Numbered(number) => LocalName::Numbered(*number),
    })
}

impl Copied for LocalName {
    fn copied(&self, alloc: Global) -> Result<LocalName, AllocError> {
        copied_name(alloc, self)
    }
}

fn copied_address(alloc: Global, address: &ConstAddress) -> Result<ConstAddress, AllocError>
    ensures { IfOk result (λ copy. copy ≡ address.now) }
{
    Ok(ConstAddress {
        source: address.source,
        operands: same_items(alloc, &address.operands)?,
    })
}

impl Copied for Const {
    fn copied(&self, alloc: Global) -> Result<Const, AllocError> {
        Ok(match self {
            Const::Integer(number) => Const::Integer(*number),
            Const::Truth(truth) => Const::Truth(*truth),
            Const::Null => Const::Null,
            Const::Undef => Const::Undef,
            Const::Poison => Const::Poison,
            Const::ZeroInitializer => Const::ZeroInitializer,
            Const::Address(global) => Const::Address(*global),
            Const::ByteString(bytes) => Const::ByteString(bytes.copy(alloc)?),
            Const::Aggregate(round, elements) => {
                Const::Aggregate(*round, same_items(alloc, elements)?)
            }
            Const::ElementAddress(flags, address) => {
                let copy = copied_address(alloc, address.get())?;
                Const::ElementAddress(*flags, Boxed::new(alloc, copy)?)
            }
            Const::Cast(opcode, operand, to) => Const::Cast(*opcode, *operand, *to),
            Const::Binary(opcode, flags, pair) => {
                Const::Binary(*opcode, *flags, Boxed::new(alloc, *pair.get())?)
            }
        })
    }
}

fn copied_insertion(alloc: Global, insertion: &Insertion) -> Result<Boxed<Insertion>, AllocError>
    ensures { IfOk result (λ copy. copy ≡ insertion.now) }
{
    let copy = Insertion {
        aggregate: insertion.aggregate,
        part: insertion.part,
        indices: same_items(alloc, &insertion.indices)?,
    };
    Boxed::new(alloc, copy)
}

fn copied_call(alloc: Global, call: &Call) -> Result<Boxed<Call>, AllocError>
    ensures { IfOk result (λ copy. copy ≡ call.now) }
{
    let copy = Call {
        result: call.result,
        signature: Signature {
            returns: call.signature.returns,
            parameters: same_items(alloc, &call.signature.parameters)?,
            variadic: call.signature.variadic,
        },
        callee: call.callee,
        arguments: same_items(alloc, &call.arguments)?,
    };
    Boxed::new(alloc, copy)
}

impl Copied for Inst {
    fn copied(&self, alloc: Global) -> Result<Inst, AllocError> {
        Ok(match self {
            Inst::Binary(opcode, flags, result, left, right) => {
                Inst::Binary(*opcode, *flags, *result, *left, *right)
            }
            Inst::Compare(flags, predicate, result, left, right) => {
                Inst::Compare(*flags, *predicate, *result, *left, *right)
            }
            Inst::Convert(opcode, flags, result, operand, to) => {
                Inst::Convert(*opcode, *flags, *result, *operand, *to)
            }
            Inst::Select(result, choice) => {
                Inst::Select(*result, Boxed::new(alloc, *choice.get())?)
            }
            Inst::Freeze(result, operand) => Inst::Freeze(*result, *operand),
            Inst::Phi(result, ty, incoming) => {
                Inst::Phi(*result, *ty, same_items(alloc, incoming)?)
            }
            Inst::Load(flags, result, ty, address, alignment) => {
                Inst::Load(*flags, *result, *ty, *address, *alignment)
            }
            Inst::Store(flags, value, address, alignment) => {
                Inst::Store(*flags, *value, *address, *alignment)
            }
            Inst::Alloca(result, ty, count, alignment) => {
                Inst::Alloca(*result, *ty, *count, *alignment)
            }
            Inst::GetElementPtr(flags, result, source, base, indices) => {
                let indices = same_items(alloc, indices)?;
                Inst::GetElementPtr(*flags, *result, *source, *base, indices)
            }
            Inst::Call(call) => Inst::Call(copied_call(alloc, call.get())?),
            Inst::ExtractValue(result, aggregate, indices) => {
                Inst::ExtractValue(*result, *aggregate, same_items(alloc, indices)?)
            }
            Inst::InsertValue(result, insertion) => {
                Inst::InsertValue(*result, copied_insertion(alloc, insertion.get())?)
            }
        })
    }
}

fn copied_ending(alloc: Global, end: &Ending) -> Result<Ending, AllocError>
    ensures { IfOk result (λ copy. copy ≡ end.now) }
{
    Ok(match end {
        Ending::ReturnVoid => Ending::ReturnVoid,
        Ending::Return(operand) => Ending::Return(*operand),
        Ending::Jump(target) => Ending::Jump(*target),
        Ending::Branch {
            condition,
            then_to,
            else_to,
        } => Ending::Branch {
            condition: *condition,
            then_to: *then_to,
            else_to: *else_to,
        },
        Ending::Switch {
            value,
            otherwise,
            cases,
        } => Ending::Switch {
            value: *value,
            otherwise: *otherwise,
            cases: same_items(alloc, cases)?,
        },
        Ending::Unreachable => Ending::Unreachable,
    })
}

impl Copied for Block {
    fn copied(&self, alloc: Global) -> Result<Block, AllocError> {
        Ok(Block {
            name: self.name.copied(alloc)?,
            instructions: ItemList::from_vec(copied_items(alloc, self.instructions.as_slice())?),
            end: copied_ending(alloc, &self.end)?,
        })
    }
}

fn copied_body(alloc: Global, body: &Body) -> Result<Body, AllocError>
    ensures { IfOk result (λ copy. copy ≡ body.now) }
{
    Ok(Body {
        blocks: ItemList::from_vec(copied_items(alloc, body.blocks.as_slice())?),
        results: ItemList::from_vec(copied_items(alloc, body.results.as_slice())?),
    })
}

impl Copied for Parameter {
    fn copied(&self, alloc: Global) -> Result<Parameter, AllocError> {
        Ok(Parameter {
            ty: self.ty,
            name: self.name.copied(alloc)?,
        })
    }
}

impl Copied for Function {
    fn copied(&self, alloc: Global) -> Result<Function, AllocError> {
        Ok(Function {
            name: self.name.copy(alloc)?,
            linkage: self.linkage,
            result: self.result,
            parameters: ItemList::from_vec(copied_items(alloc, self.parameters.as_slice())?),
            variadic: self.variadic,
            body: match &self.body {
                Some(body) => Some(copied_body(alloc, body)?),
                None => None,
            },
        })
    }
}

impl Copied for Variable {
    fn copied(&self, alloc: Global) -> Result<Variable, AllocError> {
        Ok(Variable {
            name: self.name.copy(alloc)?,
            linkage: self.linkage,
            constant: self.constant,
            ty: self.ty,
            alignment: self.alignment,
            initialiser: self.initialiser,
        })
    }
}

impl Copied for Alias {
    fn copied(&self, alloc: Global) -> Result<Alias, AllocError> {
        Ok(Alias {
            name: self.name.copy(alloc)?,
            linkage: self.linkage,
            ty: match &self.ty {
                AliasType::Plain(ty) => AliasType::Plain(*ty),
                AliasType::Function(returns, parameters, variadic) => {
                    AliasType::Function(*returns, same_items(alloc, parameters)?, *variadic)
                }
            },
            target: self.target,
        })
    }
}
