//! Instructions.
ghost use Rattle.std.specs.Prelude.{◌≡◌, IfOk, true};
ghost use Rattle.module_arena.specs.Accesses.{is_access};
ghost use Rattle.entry_copy.specs.Moved.{moved_choice, moved_insertion, moved_call, moved_inst};

use crate::Copier;
use crate::moved::{Moved, moved_list};
use crate::types::moved_signature;
use crate::values::{moved_count, moved_operand, moved_value};
use module_arena::{Boxed, Call, Choice, Insertion, Inst, same_items};
use std::alloc::{AllocError, Global};

fn moved_choice(
    alloc: Global,
    copier: &Copier,
    choice: &Choice,
) -> Result<Boxed<Choice>, AllocError>
    ensures { IfOk result (λ copy. copy ≡ moved_choice copier.now choice.now) }
{
    let copy = Choice {
        condition: moved_operand(copier, choice.condition),
        first: moved_operand(copier, choice.first),
        second: moved_operand(copier, choice.second),
    };
    Boxed::new(alloc, copy)
}

fn moved_insertion(
    alloc: Global,
    copier: &Copier,
    insertion: &Insertion,
) -> Result<Boxed<Insertion>, AllocError>
    ensures { IfOk result (λ copy. copy ≡ moved_insertion copier.now insertion.now) }
{
    let copy = Insertion {
        aggregate: moved_operand(copier, insertion.aggregate),
        part: moved_operand(copier, insertion.part),
        indices: same_items(alloc, &insertion.indices)?,
    };
    Boxed::new(alloc, copy)
}

fn moved_call(alloc: Global, copier: &Copier, call: &Call) -> Result<Boxed<Call>, AllocError>
    ensures { IfOk result (λ copy. copy ≡ moved_call copier.now call.now) }
{
    let copy = Call {
        result: call.result,
        signature: moved_signature(alloc, copier, &call.signature)?,
        callee: moved_value(copier, call.callee),
        arguments: moved_list(alloc, copier, &call.arguments)?,
    };
    Boxed::new(alloc, copy)
}

/// An instruction that works on memory or computes an address, with new ids.
fn moved_access(alloc: Global, copier: &Copier, inst: &Inst) -> Result<Inst, AllocError>
    requires { is_access inst.now ≡ true }
    ensures { IfOk result (λ copy. copy ≡ moved_inst copier.now inst.now) }
{
    Ok(match inst {
        Inst::Load(flags, result, ty, address, alignment) => {
            let address = moved_operand(copier, *address);
            Inst::Load(*flags, *result, copier.new_type(*ty), address, *alignment)
        }
        Inst::Store(flags, value, address, alignment) => {
            let value = moved_operand(copier, *value);
            Inst::Store(*flags, value, moved_operand(copier, *address), *alignment)
        }
        Inst::Alloca(result, ty, count, alignment) => {
            let count = moved_count(copier, *count);
            Inst::Alloca(*result, copier.new_type(*ty), count, *alignment)
        }
        Inst::GetElementPtr(flags, result, source, base, indices) => {
            let base = moved_operand(copier, *base);
            let indices = moved_list(alloc, copier, indices)?;
            Inst::GetElementPtr(*flags, *result, copier.new_type(*source), base, indices)
        }
        _ => unreachable!(),
    })
}

impl Moved for Inst {
    ghost moved_by = { moved_inst };

    fn moved(&self, alloc: Global, copier: &Copier) -> Result<Inst, AllocError> {
        Ok(match self {
            Inst::Binary(opcode, flags, result, left, right) => {
                let (left, right) = (moved_operand(copier, *left), moved_value(copier, *right));
                Inst::Binary(*opcode, *flags, *result, left, right)
            }
            Inst::Compare(flags, predicate, result, left, right) => {
                let (left, right) = (moved_operand(copier, *left), moved_value(copier, *right));
                Inst::Compare(*flags, *predicate, *result, left, right)
            }
            Inst::Convert(opcode, flags, result, operand, to) => {
                let operand = moved_operand(copier, *operand);
                Inst::Convert(*opcode, *flags, *result, operand, copier.new_type(*to))
            }
            Inst::Select(result, choice) => {
                Inst::Select(*result, moved_choice(alloc, copier, choice.get())?)
            }
            Inst::Freeze(result, operand) => {
                Inst::Freeze(*result, moved_operand(copier, *operand))
            }
            Inst::Phi(result, ty, incoming) => {
                let incoming = moved_list(alloc, copier, incoming)?;
                Inst::Phi(*result, copier.new_type(*ty), incoming)
            }
            Inst::Call(call) => Inst::Call(moved_call(alloc, copier, call.get())?),
            Inst::ExtractValue(result, aggregate, indices) => {
                let aggregate = moved_operand(copier, *aggregate);
                Inst::ExtractValue(*result, aggregate, same_items(alloc, indices)?)
            }
            Inst::InsertValue(result, insertion) => {
                Inst::InsertValue(*result, moved_insertion(alloc, copier, insertion.get())?)
            }
            _ => moved_access(alloc, copier, self)?,
        })
    }
}
