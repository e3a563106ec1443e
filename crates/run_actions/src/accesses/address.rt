//! Addresses that are moved (LangRef, "getelementptr Instruction").
ghost use Rattle.std.specs.Prelude.{◌≡◌, List, Some};
ghost use Rattle.ir_eval.specs.declared.value.Scalar.TheVariants.{Ptr};
ghost use Rattle.ir_memory.specs.Given.{IsAddress, IsKnown};
ghost use Rattle.ir_memory.specs.Memory.{bounds_at};
ghost use Rattle.run_rules.specs.Action.{Displace, Term};
ghost use Rattle.run_rules.specs.Displace.{displaced, reach_of};
ghost use Rattle.run_rules.specs.Frame.{read};
ghost use Rattle.run_actions.specs.Stack.Origins.{origin_of};
ghost use Rattle.run_actions.specs.Stack.UnderWay.{newest};
ghost use Rattle.run_actions.specs.Operands.{IsPlace, IsThere, leaf_of, MayGoOn};
ghost use Rattle.run_actions.specs.Accesses.Done.{IsDone};

use crate::accesses::displaced::displaced_by;
use crate::give;
use crate::stack::{Origin, Stack};
use ir_eval::{Pointer, Scalar};
use ir_memory::Memory;

/// A pointer moved by a distance in bytes; `inbounds` asks for the bounds of its block.
#[inline]
fn moved_pointer(memory: &Memory, inbounds: bool, pointer: Pointer, distance: i128) -> Scalar
    requires { IsKnown memory.now.list pointer }
    ensures { result ≡ displaced (λ p. bounds_at memory.now.list p.block) inbounds (Ptr pointer) (Some distance) }
{
    let bounds = if inbounds {
        memory.bounds(pointer)
    } else {
        None
    };
    displaced_by(pointer, distance, bounds)
}

/// A base moved by a distance in bytes, which is not known where an index is poison.
#[inline]
fn moved(memory: &Memory, inbounds: bool, base: Scalar, distance: Option<i128>) -> Scalar
    requires { IsAddress memory.now.list base }
    ensures { result ≡ displaced (λ p. bounds_at memory.now.list p.block) inbounds base distance }
{
    match base {
        Scalar::Ptr(pointer) => match distance {
            Some(distance) => moved_pointer(memory, inbounds, pointer, distance),
            None => Scalar::Poison,
        },
        Scalar::Int(_) | Scalar::Poison => Scalar::Poison,
    }
}

/// An address moved by the distance to which the terms of the instruction come together; None is a distance that is not known, since
/// an index is poison.
#[inline]
pub fn displace(
    stack: &mut Stack,
    memory: &Memory,
    to: u32,
    inbounds: bool,
    base: &Origin,
    distance: Option<i128>,
)
    requires on { MayGoOn stack.old }
    requires place { IsPlace stack.old to }
    requires there { IsThere stack.old base.now }
    requires base { IsAddress memory.now.list (leaf_of stack.old base.now) }
    ensures { (terms : List Term) → reach_of (read (newest stack.old.frames)) terms ≡ distance
        → IsDone (Displace to inbounds (origin_of base.now) terms) stack.old stack.new memory.now memory.now }
{
    let leaf = moved(memory, inbounds, stack.read(base), distance);
    give(stack, to, leaf);
}
