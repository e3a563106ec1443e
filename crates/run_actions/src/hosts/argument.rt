//! The arguments of a call, by their places.
ghost use Rattle.std.specs.Prelude.{◌≡◌, ◌<◌, ◌^◌};
ghost use Rattle.std.specs.List.{list_any};
ghost use Rattle.run_rules.specs.Host.{is_poison, operand_at};
ghost use Rattle.run_actions.specs.Hosts.Taken.{number_of, pointer_of};

use ir_eval::{Pointer, Scalar};
use run_names::host::operand_at;

/// The number that a leaf is; 0 where it is none.
fn number_of(leaf: Scalar) -> u128
    ensures { result ≡ number_of leaf }
{
    match leaf {
        Scalar::Int(number) => number,
        Scalar::Ptr(_) => 0,
        Scalar::Poison => 0,
    }
}

/// The number that the argument at a place is.
pub(crate) fn number_at(arguments: &[Scalar], place: usize) -> u128
    ensures { result ≡ number_of (operand_at arguments.now place) }
{
    number_of(operand_at(arguments, place))
}

/// The same of a number below 2^64.
pub(crate) fn count_at(arguments: &[Scalar], place: usize) -> u64
    requires { number_of (operand_at arguments.now place) < 2 ^ 64 }
    ensures { result ≡ number_of (operand_at arguments.now place) }
{
    number_at(arguments, place) as u64
}

/// The pointer that a leaf is; null where it is none.
fn pointer_of(leaf: Scalar) -> Pointer
    ensures { result ≡ pointer_of leaf }
{
    let null = Pointer {
        block: None,
        address: 0,
    };
    match leaf {
        Scalar::Ptr(pointer) => pointer,
        Scalar::Int(_) => null,
        Scalar::Poison => null,
    }
}

/// The pointer that the argument at a place is.
pub(crate) fn pointer_at(arguments: &[Scalar], place: usize) -> Pointer
    ensures { result ≡ pointer_of (operand_at arguments.now place) }
{
    pointer_of(operand_at(arguments, place))
}

/// Whether a leaf is poison.
fn is_poison(leaf: Scalar) -> bool
    ensures { result ≡ is_poison leaf }
{
    match leaf {
        Scalar::Int(_) => false,
        Scalar::Ptr(_) => false,
        Scalar::Poison => true,
    }
}

/// Whether an argument is poison.
pub(crate) fn has_poison(arguments: &[Scalar]) -> bool
    ensures { result ≡ list_any is_poison arguments.now }
{
    arguments.iter().any(|leaf| is_poison(*leaf))
}
