//! The result of an instruction.
ghost use Rattle.std.specs.Prelude.{◌≡◌, ◌∷◌, [], length};
ghost use Rattle.run_rules.specs.Frame.{with_result, with_value};
ghost use Rattle.run_actions.specs.Stack.UnderWay.{changed};
ghost use Rattle.run_actions.specs.Operands.{HasPlaces, IsPlace, MayGoOn};

use crate::stack::Stack;
use ir_eval::Scalar;

/// The item of a list that has one.
#[inline]
pub fn only<T: Copy>(items: &[T]) -> T
    requires { length items.now ≡ 1 }
    ensures { items.now ≡ result ∷ [] }
{
    items[0]
}

/// Sets a leaf of the newest frame. A leaf of each kind is written as one of that kind, so that none is copied by way of memory.
#[inline(always)]
fn put(stack: &mut Stack, to: u32, leaf: Scalar)
    requires { IsPlace stack.old to }
    ensures { stack.new ≡ changed (λ f. with_value f to (leaf ∷ [])) stack.old }
{
    match leaf {
        Scalar::Int(number) => stack.set(to, Scalar::Int(number)),
        Scalar::Ptr(pointer) => stack.set(to, Scalar::Ptr(pointer)),
        Scalar::Poison => stack.set(to, Scalar::Poison),
    }
}

/// The result is this leaf, and the next instruction is due.
#[inline(always)]
pub fn give(stack: &mut Stack, to: u32, leaf: Scalar)
    requires on { MayGoOn stack.old }
    requires place { IsPlace stack.old to }
    ensures { stack.new ≡ changed (λ f. with_result f to (leaf ∷ [])) stack.old }
{
    put(stack, to, leaf);
    stack.move_on();
}

/// The result has these leaves, and the next instruction is due.
#[inline(never)]
pub fn give_all(stack: &mut Stack, to: u32, value: &[Scalar])
    requires on { MayGoOn stack.old }
    requires places { HasPlaces stack.old to (length value.now) }
    ensures { stack.new ≡ changed (λ f. with_result f to value.now) stack.old }
{
    stack.set_all(to, value);
    stack.move_on();
}
