//! Steps of a `getelementptr` whose index is known, and how far they lead together.
ghost use Rattle.std.specs.Prelude.{◌≡◌, ◌*◌, ◌<◌, ◌≤◌, All, IfSome, length, pos};
ghost use Rattle.type_table.specs.declared.measure.TheConstants.{SIZE_LIMIT};
ghost use Rattle.run_decode.specs.declared.flat.action.TheConstants.{TERMS};
ghost use Rattle.run_decode.specs.declared.operands.counted.TheConstants.{NO_SIGN_BELOW};
ghost use Rattle.run_decode.specs.Operands.Open.{count_at, index_count, is_counted, leaf_count, led, led_by, number_count};

use crate::operands::steps::Step;
use ir_eval::Scalar;
use run_actions::stack::Origin;

/// Numbers below this have no sign at any width of 32 bits or more.
const NO_SIGN_BELOW: u128 = 2_147_483_648;

/// A number that has no sign at any width of 32 bits or more.
fn number_count(number: u128) -> Option<u32>
    ensures value { result ≡ number_count number }
    ensures below { IfSome result (λ count. count < NO_SIGN_BELOW) }
{
    if number < NO_SIGN_BELOW {
        return Some(number as u32);
    }
    None
}

/// The same of a leaf.
fn leaf_count(leaf: Scalar) -> Option<u32>
    ensures value { result ≡ leaf_count leaf }
    ensures below { IfSome result (λ count. count < NO_SIGN_BELOW) }
{
    match leaf {
        Scalar::Int(number) => number_count(number),
        Scalar::Ptr(_) => None,
        Scalar::Poison => None,
    }
}

/// The same of an index, where it is known.
fn index_count(index: Origin) -> Option<u32>
    ensures value { result ≡ index_count index }
    ensures below { IfSome result (λ count. count < NO_SIGN_BELOW) }
{
    match index {
        Origin::Held(_) => None,
        Origin::Known(leaf) => leaf_count(leaf),
    }
}

/// How often an index of that width, in bits, counts its size, where that is known while the body is read. Told are numbers below 2^31,
/// of 32 bits or more: these have no sign, and reach as far as they say.
fn count_at(index: Origin, width: u8) -> Option<u32>
    ensures value { result ≡ count_at index width }
    ensures below { IfSome result (λ count. count < NO_SIGN_BELOW) }
{
    if width < 32 {
        return None;
    }
    index_count(index)
}

/// Whether that is known.
pub(crate) fn is_counted(index: Origin, width: u8) -> bool
    ensures { result ≡ is_counted (count_at index width) }
{
    match count_at(index, width) {
        Some(_) => true,
        None => false,
    }
}

/// So many times so many bytes.
fn product(count: u32, size: u64) -> u128
    requires count { count < NO_SIGN_BELOW }
    requires size { size ≤ SIZE_LIMIT }
    ensures value { result ≡ count * size }
    ensures near { result ≤ NO_SIGN_BELOW * SIZE_LIMIT }
{
    count as u128 * size as u128
}

/// How many bytes a step leads over whose index is known, and 0 of another.
fn lead(step: Step) -> u128
    requires { step.size ≤ SIZE_LIMIT }
    ensures value { result ≡ led step }
    ensures near { result ≤ NO_SIGN_BELOW * SIZE_LIMIT }
{
    match count_at(step.index, step.width) {
        Some(count) => product(count, step.size),
        None => 0,
    }
}

/// How many bytes all those steps together lead over whose index is known.
pub(crate) fn lead_of_all(steps: &[Step]) -> i128
    requires sizes { All (λ s. s.size ≤ SIZE_LIMIT) steps.now }
    requires few { length steps.now ≤ TERMS }
    ensures value { result ≡ pos (led_by steps.now) }
    ensures near { led_by steps.now ≤ TERMS * (NO_SIGN_BELOW * SIZE_LIMIT) }
{
    let mut all: u128 = 0;
    'leads: for step in steps {
        let bytes = lead(*step);
        all += bytes;
    }
    all as i128
}
