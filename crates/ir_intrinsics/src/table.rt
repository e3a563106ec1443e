//! The table of the intrinsics.
ghost use Rattle.std.specs.Prelude.{◌≡◌, ◌^◌, ◌<◌, IsTrue};
ghost use Rattle.ir_tables.specs.IntrinsicName.{has_width};
ghost use Rattle.ir_eval.specs.Value.{IsWidth, IsInteger};
ghost use Rattle.ir_intrinsics.specs.Operands.{IsOperand, second_width, third_width};
ghost use Rattle.ir_intrinsics.specs.Results.{apply_of, numbers, poisoned, has_second};
ghost use Rattle.ir_intrinsics.specs.Kinds.{IsOutcome};

use crate::Outcome;
use crate::absolute::{absolute, greatest_of, least_of};
use crate::count::{leading_zeros, set_bits, trailing_zeros};
use crate::funnel::{shifted_down, shifted_up};
use crate::overflow::overflowing;
use crate::reverse::{reversed_bits, reversed_bytes};
use crate::saturate::{
    saturated_difference, saturated_sum, signed_saturated_difference, signed_saturated_sum,
};
use ir_eval::Scalar;
use ir_tables::{Flag, Intrinsic, Opcode};

/// What the intrinsic gives at this width, in bits, from 1 to 128 and for `bswap` a multiple of 16. Operands are
/// integers below their widths or poison, and 0 where the intrinsic has none (LangRef, "Intrinsic Functions").
#[tactic(auto, using(crate::proofs::ResultKinds::apply_kind, crate::proofs::ResultKinds::operand_below), unfolding(crate::specs::Results::apply_of))]
pub fn apply(which: Intrinsic, width: u8, a: Scalar, b: Scalar, c: Scalar) -> Outcome
    requires width { IsWidth width }
    requires whole { IsTrue (has_width which width) }
    requires a { IsInteger width a }
    requires b { IsOperand (second_width which width) b }
    requires c { IsOperand (third_width which width) c }
    ensures value { result ≡ apply_of which width a b c }
    ensures kind { IsOutcome which width result }
{
    match (a, b, c) {
        (Scalar::Int(a), Scalar::Int(b), Scalar::Int(c)) => numbers(which, width, a, b, c),
        _ => poisoned(which),
    }
}

// Whether it gives two leaves.
fn has_second(which: Intrinsic) -> bool
    ensures { result ≡ has_second which }
{
    matches!(
        which,
        Intrinsic::SaddWithOverflow
            | Intrinsic::UaddWithOverflow
            | Intrinsic::SsubWithOverflow
            | Intrinsic::UsubWithOverflow
            | Intrinsic::SmulWithOverflow
            | Intrinsic::UmulWithOverflow
    )
}

// Poison in every leaf.
fn poisoned(which: Intrinsic) -> Outcome
    ensures { result ≡ poisoned which }
{
    let second = if has_second(which) {
        Some(Scalar::Poison)
    } else {
        None
    };
    Outcome {
        first: Scalar::Poison,
        second,
    }
}

fn one(first: Scalar) -> Outcome
    ensures { result ≡ record { first = first; second = None } }
{
    Outcome {
        first,
        second: None,
    }
}

#[tactic(auto, using(crate::proofs::Flagged::told_sum_signed, crate::proofs::Flagged::told_sum, crate::proofs::Flagged::told_difference_signed, crate::proofs::Flagged::told_difference, crate::proofs::Flagged::told_product_signed, crate::proofs::Flagged::told_product))]
fn numbers(which: Intrinsic, width: u8, a: u128, b: u128, c: u128) -> Outcome
    requires width { IsWidth width }
    requires whole { IsTrue (has_width which width) }
    requires a { a < 2 ^ width }
    requires b { b < 2 ^ width }
    ensures { result ≡ numbers which width a b c }
{
    match which {
        Intrinsic::Ctpop => one(set_bits(a)),
        Intrinsic::Bswap => one(reversed_bytes(width, a)),
        Intrinsic::Bitreverse => one(reversed_bits(width, a)),
        Intrinsic::Ctlz => one(leading_zeros(width, a, b)),
        Intrinsic::Cttz => one(trailing_zeros(width, a, b)),
        Intrinsic::Abs => one(absolute(width, a, b)),
        Intrinsic::Smin => one(least_of(width, a, b)),
        Intrinsic::Smax => one(greatest_of(width, a, b)),
        Intrinsic::Umin => one(Scalar::Int(a.min(b))),
        Intrinsic::Umax => one(Scalar::Int(a.max(b))),
        Intrinsic::SaddSat => one(signed_saturated_sum(width, a, b)),
        Intrinsic::UaddSat => one(saturated_sum(width, a, b)),
        Intrinsic::SsubSat => one(signed_saturated_difference(width, a, b)),
        Intrinsic::UsubSat => one(saturated_difference(a, b)),
        Intrinsic::SaddWithOverflow => overflowing(Opcode::Add, Flag::Nsw, width, a, b),
        Intrinsic::UaddWithOverflow => overflowing(Opcode::Add, Flag::Nuw, width, a, b),
        Intrinsic::SsubWithOverflow => overflowing(Opcode::Sub, Flag::Nsw, width, a, b),
        Intrinsic::UsubWithOverflow => overflowing(Opcode::Sub, Flag::Nuw, width, a, b),
        Intrinsic::SmulWithOverflow => overflowing(Opcode::Mul, Flag::Nsw, width, a, b),
        Intrinsic::UmulWithOverflow => overflowing(Opcode::Mul, Flag::Nuw, width, a, b),
        Intrinsic::Fshl => one(shifted_up(width, a, b, c)),
        Intrinsic::Fshr => one(shifted_down(width, a, b, c)),
    }
}
