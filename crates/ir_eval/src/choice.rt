//! The instructions that choose.
ghost use Rattle.std.specs.Prelude.{◌≡◌, ℕ, Bool};
ghost use Rattle.ir_eval.specs.Value.{IsDefined, IsInteger, IsLeaf};
ghost use Rattle.ir_eval.specs.Operators.{select_of, freeze_of};

use crate::{Pointer, Scalar};

/// The first arm where the condition, an integer of width 1, is 1, the second where it is 0, and poison
/// where it is poison. Nothing passes on from the other arm.
#[tactic(auto, using(crate::proofs::Ranges::select_kind))]
pub fn select(condition: Scalar, a: Scalar, b: Scalar) -> Scalar
    requires { IsInteger 1 condition }
    ensures value { result ≡ select_of condition a b }
    ensures kind { (pointer : Bool) (width : ℕ) → IsLeaf pointer width a → IsLeaf pointer width b → IsLeaf pointer width result }
{
    let Scalar::Int(number) = condition else {
        return Scalar::Poison;
    };
    if number == 0 { b } else { a }
}

/// The operand, and in the place of poison the null pointer or the integer 0.
#[tactic(auto, using(crate::proofs::Ranges::freeze_kind, crate::proofs::Ranges::freeze_defined))]
pub fn freeze(pointer: bool, operand: Scalar) -> Scalar
    ensures value { result ≡ freeze_of pointer operand }
    ensures kind { (width : ℕ) → IsLeaf pointer width operand → IsLeaf pointer width result }
    ensures defined { IsDefined result }
{
    match operand {
        Scalar::Poison if pointer => Scalar::Ptr(Pointer {
            block: None,
            address: 0,
        }),
        Scalar::Poison => Scalar::Int(0),
        _ => operand,
    }
}
