//! Results with a word on whether they are exact.
ghost use Rattle.std.specs.Prelude.{◌≡◌, ◌^◌, ◌<◌, IsTrue};
ghost use Rattle.ir_tables.specs.Flag.{flag_code};
ghost use Rattle.ir_eval.specs.Value.{IsWidth};
ghost use Rattle.ir_eval.specs.Compare.{truth};
ghost use Rattle.ir_intrinsics.specs.Exact.{exact_of, is_exact_operation, is_poison, told_of};

use crate::Outcome;
use ir_eval::{Scalar, binary};
use ir_tables::{Flag, Flags, Opcode};

/// The sum, the difference or the product modulo 2^width, and 1 where the exact result is out of the range that the
/// flag asks for.
#[tactic(auto, using(crate::proofs::Flagged::with_none), unfolding(crate::specs::Exact::told_of))]
pub fn overflowing(op: Opcode, flag: Flag, width: u8, a: u128, b: u128) -> Outcome
    requires op { IsTrue (is_exact_operation op) }
    requires width { IsWidth width }
    requires a { a < 2 ^ width }
    requires b { b < 2 ^ width }
    ensures { result ≡ told_of op (flag_code flag) width a b }
{
    let kept = exact(op, Flags::empty().with(flag), width, a, b);
    Outcome {
        first: exact(op, Flags::empty(), width, a, b),
        second: Some(truth(is_poison(kept))),
    }
}

fn is_poison(leaf: Scalar) -> bool
    ensures { result ≡ is_poison leaf }
{
    matches!(leaf, Scalar::Poison)
}

// True is 1 and false is 0, of width 1.
fn truth(holding: bool) -> Scalar
    ensures { result ≡ truth holding }
{
    Scalar::Int(if holding { 1 } else { 0 })
}

// The result of the instruction, which is never undefined.
fn exact(op: Opcode, flags: Flags, width: u8, a: u128, b: u128) -> Scalar
    requires op { IsTrue (is_exact_operation op) }
    requires width { IsWidth width }
    requires a { a < 2 ^ width }
    requires b { b < 2 ^ width }
    ensures { result ≡ exact_of op flags width a b }
{
    match binary(op, flags, width, Scalar::Int(a), Scalar::Int(b)) {
        Ok(leaf) => leaf,
        Err(_) => unreachable!(),
    }
}
