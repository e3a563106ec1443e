//! Where a pointer is moved to.
ghost use Rattle.std.specs.Prelude.{◌≡◌, pos, ◌+ℤ◌};
ghost use Rattle.ir_eval.specs.Value.{reduced};
ghost use Rattle.run_rules.specs.Displace as rules;

use ir_eval::width::reduced;
use ir_eval::{Pointer, Scalar};

/// Whether an address that is moved by so many bytes lies before the start of a block or after its end, exactly and not modulo 2^64.
#[inline]
fn is_outside(address: u64, distance: i128, bounds: (u64, u64)) -> bool
    ensures { result ≡ rules.is_outside (pos address +ℤ distance) bounds }
{
    match i128::from(address).checked_add(distance) {
        Some(moved) => moved < i128::from(bounds.0) || i128::from(bounds.1) < moved,
        // Too far for 128 bits, so it is in no block.
        None => true,
    }
}

/// Whether the address of a pointer, or the exact sum, lies outside a block of these bounds. Without bounds nothing is checked.
#[inline]
fn leaves_block(pointer: Pointer, distance: i128, bounds: Option<(u64, u64)>) -> bool
    ensures { result ≡ rules.leaves_block pointer (pos pointer.address +ℤ distance) bounds }
{
    match bounds {
        Some(bounds) => {
            is_outside(pointer.address, 0, bounds) || is_outside(pointer.address, distance, bounds)
        }
        None => false,
    }
}

/// The address moved by so many bytes, modulo 2^64.
#[inline]
fn moved(address: u64, distance: i128) -> u64
    ensures { result ≡ reduced 64 (pos address +ℤ distance) }
{
    address.wrapping_add(reduced(64, distance) as u64)
}

/// A pointer moved by so many bytes; its block stays. Where bounds of its live block are given, it is poison if the address or the exact
/// sum lies outside of them (LangRef, "getelementptr Instruction", `inbounds`).
#[inline]
pub fn displaced_by(pointer: Pointer, distance: i128, bounds: Option<(u64, u64)>) -> Scalar
    ensures { result ≡ rules.displaced_by pointer distance bounds }
{
    if leaves_block(pointer, distance, bounds) {
        return Scalar::Poison;
    }
    Scalar::Ptr(Pointer {
        block: pointer.block,
        address: moved(pointer.address, distance),
    })
}
