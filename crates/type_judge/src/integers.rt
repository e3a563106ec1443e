//! Judges integers as they are written: constants, alignments, indices and lengths.
#![tactic(auto, using(crate::proofs::Parts::judged_front, crate::proofs::Parts::judged_rest, crate::proofs::Parts::judged_stop, crate::proofs::Parts::judged_next))]

ghost use Rattle.std.specs.Prelude.{◌≡◌, ◌≤◌, ◌-◌, ◌^◌, [], ◌∷◌, ◌&&◌, ◌||◌, if◌then◌else◌, not, nat_lt, nat_le, map, OnOk, Some, None};
ghost use Rattle.module_arena.specs.declared.arena.TheConstants.{INDEX_LIMIT};
ghost use Rattle.name_rules.specs.Demand.{is_natural, integer_fits, is_index, is_length};
ghost use Rattle.name_rules.specs.FunctionDemands.{index_demands, alignment_demands};
ghost use Rattle.type_judge.specs.Judging.{IsJudged};

use crate::asking::ask;
use ir_base::Place;
use ir_tables::WIDEST;
use ir_terminals::{Integer, Number};
use module_arena::INDEX_LIMIT;
use name_rules::ResolveFault;

/// Whether the number is at most so many.
fn is_at_most(number: &Number, limit: u128) -> bool
    ensures { result ≡ nat_le number.now limit }
{
    match number.to_u128() {
        Some(number) => number <= limit,
        None => false,
    }
}

/// Whether the integer is not negative; `-0` is not.
fn is_natural(written: &Integer) -> bool
    ensures { result ≡ is_natural written.now }
{
    if !written.negative {
        return true;
    }
    is_at_most(&written.magnitude, 0)
}

/// Whether the integer of that sign and magnitude is from -2^(bits-1) to 2^bits - 1, where there are from 1 to 128 bits.
fn fits(bits: u8, negative: bool, number: &Number) -> bool
    requires { bits ≤ WIDEST }
    ensures { result ≡ (if negative then nat_le number.now (2 ^ (bits - 1)) else nat_lt number.now (2 ^ bits)) }
{
    let Some(magnitude) = number.to_u128() else {
        return false;
    };
    if negative {
        magnitude <= 1u128 << bits.saturating_sub(1)
    } else {
        bits == WIDEST || magnitude < 1u128 << bits
    }
}

/// A constant of so many bits, of that sign and magnitude.
pub(crate) fn check_integer(
    bits: u8,
    negative: bool,
    place: Place,
    magnitude: &Number,
) -> Result<(), ResolveFault>
    ensures { IsJudged (integer_fits bits (record { negative = negative; magnitude = magnitude.now; place = place }) ∷ []) result }
{
    if bits > WIDEST {
        return Err(ResolveFault::Memory);
    }
    ask(
        fits(bits, negative, magnitude),
        ResolveFault::ConstantRange(place),
    )
}

/// Whether the integer is an index or an alignment.
fn is_index(written: &Integer) -> bool
    ensures { result ≡ (is_natural written.now && nat_lt written.now.magnitude INDEX_LIMIT) }
{
    if !is_natural(written) {
        return false;
    }
    is_at_most(&written.magnitude, u128::from(INDEX_LIMIT - 1))
}

/// An index or an alignment: from 0 to 2^32 - 1.
pub(crate) fn check_index(written: &Integer) -> Result<(), ResolveFault>
    ensures { IsJudged (is_index written.now ∷ []) result }
{
    ask(
        is_index(written),
        ResolveFault::ConstantRange(written.place),
    )
}

/// Indices, each of them.
pub fn check_indices(indices: &[Integer]) -> Result<(), ResolveFault>
    ensures { IsJudged (index_demands indices.now) result }
{
    'indices: for index in indices {
        check_index(index)?;
    }
    Ok(())
}

/// An alignment, where one is written.
pub fn check_alignment(alignment: &Option<Integer>) -> Result<(), ResolveFault>
    ensures { IsJudged (alignment_demands alignment.now) result }
{
    match alignment {
        None => Ok(()),
        Some(written) => check_index(written),
    }
}

/// The length of an array, not negative.
pub(crate) fn check_length(count: &Integer) -> Result<(), ResolveFault>
    ensures { IsJudged (is_length count.now ∷ []) result }
{
    ask(is_natural(count), ResolveFault::ConstantRange(count.place))
}
