//! Integers that a look at 64 bits tells to fit, as nearly all do. What is not told so, `type_judge` judges.
#![tactic(auto)]

ghost use Rattle.std.specs.Prelude.{◌≡◌, ◌≤◌, ◌^◌, nat_lt, true, [], ◌∷◌};
ghost use Rattle.ir_phrases.specs.Constants.View.{type_view, constant_view};
ghost use Rattle.name_rules.specs.Demand.{is_index};
ghost use Rattle.name_rules.specs.TypeDemands.{Known, constant_demands};
ghost use Rattle.name_rules.specs.Written.{type_in, bits_at};
ghost use Rattle.name_judge.specs.Locals.Literals.{short_of, fits_in, Hold};

use ir_phrases::constants::{Constant, Type};
use ir_terminals::{Integer, Number};
use module_arena::INDEX_LIMIT;

/// The magnitude, where the integer is not negative and below 2^64.
fn short_of(negative: bool, magnitude: &Number) -> Option<u64>
    ensures { result ≡ short_of negative magnitude.now }
{
    if negative { None } else { magnitude.to_u64() }
}

/// Whether a number has at most so many bits, of which there are at most 64.
fn is_within(bits: u8, number: u64) -> bool
    requires { bits ≤ 64 }
    ensures { result ≡ nat_lt number (2 ^ bits) }
{
    bits == 64 || number < 1u64 << bits
}

/// Whether a look tells that the integer of that sign and magnitude fits so many bits.
fn is_short(bits: u8, negative: bool, magnitude: &Number) -> bool
    ensures { result ≡ true → fits_in bits negative magnitude.now ≡ true }
{
    if bits > 64 {
        return false;
    }
    match short_of(negative, magnitude) {
        Some(number) => is_within(bits, number),
        None => false,
    }
}

/// Whether a look tells that the integer of that sign and magnitude fits the type.
fn is_short_at(ty: &Type, negative: bool, magnitude: &Number) -> bool
    ensures { result ≡ true → fits_in (bits_at (type_in (type_view ty.now))) negative magnitude.now ≡ true }
{
    match ty {
        Type::Integer(_, width) => is_short(*width, negative, magnitude),
        _ => false,
    }
}

/// Whether a look tells that the constant may stand at that type.
pub(crate) fn is_literal(constant: &Constant, ty: &Type) -> bool
    ensures { (known : Known) → result ≡ true → Hold (constant_demands known (type_in (type_view ty.now)) (constant_view constant.now)) }
{
    match constant {
        Constant::Integer(negative, _, magnitude) => is_short_at(ty, *negative, magnitude),
        _ => false,
    }
}

/// Whether a look tells that the integer is an index or an alignment.
#[inline(always)]
pub(crate) fn is_short_index(written: &Integer) -> bool
    ensures { result ≡ true → Hold (is_index written.now ∷ []) }
{
    match short_of(written.negative, &written.magnitude) {
        Some(number) => number < INDEX_LIMIT,
        None => false,
    }
}
