//! Numbers of any size.
ghost use Rattle.std.specs.Prelude.{◌≡◌, ◌^◌, true, None, IfOk};
ghost use Rattle.ir_terminals.specs.Digits.{are_digits, below, decimal, IsWritten};

use crate::digits::{decimal_64, decimal_128, without_zeros};
use ir_base::Text;
use std::alloc::{AllocError, Global};
use std::marker::Model;

/// A number, or its digits where it is 2^64 or more.
#[derive(Drop)]
enum Magnitude {
    /// A number below 2^64.
    Small(u64),
    /// The digits of a greater one, as they are written.
    Large(Box<Text>),
}

/// A natural number that digits write, of any size, in 16 bytes: one that fits a word stands in it, a larger one behind
/// a box.
///
/// ```
/// let number = Number::of_digits(alloc, b"0042")?;
/// number.to_u64() // Some(42)
/// number.digits(alloc)? // `42`
/// Number::of_digits(alloc, b"18446744073709551616")?.to_u64() // None: it is 2^64
/// ```
#[derive(Drop)]
pub struct Number {
    magnitude: Magnitude,
}

impl Model for Number {
    ghost use Rattle.std.specs.Prelude.{ℕ};

    ghost Value = { ℕ };

    ghost use Rattle.ir_terminals.specs.Magnitude.{value_of, IsLarge};

    ghost view = { λ number. value_of number.magnitude };

    ghost invariant = { λ number. IsLarge number.magnitude };
}

/// The number that these digits write, which fits no word. It stands apart from the numbers that do, which nearly all are.
#[cold]
#[inline(never)]
fn of_many_digits(alloc: Global, digits: &[u8]) -> Result<Number, AllocError>
    requires digits { are_digits digits.now ≡ true }
    requires large { None ≡ below (2 ^ 64) (decimal digits.now) }
    ensures { IfOk result (λ number. number ≡ decimal digits.now) }
{
    let digits = Text::from_slice(alloc, digits)?;
    Ok(Number {
        magnitude: Magnitude::Large(Box::new(alloc, digits)?),
    })
}

impl Number {
    /// The number that these digits write.
    #[inline(always)]
    pub fn of_digits(alloc: Global, digits: &[u8]) -> Result<Number, AllocError>
        requires { are_digits digits.now ≡ true }
        ensures { IfOk result (λ number. number ≡ decimal digits.now) }
    {
        if let Some(value) = decimal_64(digits) {
            return Ok(Number {
                magnitude: Magnitude::Small(value),
            });
        }
        of_many_digits(alloc, digits)
    }

    /// The number as 64 bits, and None exactly where it is 2^64 or more.
    pub fn to_u64(&self) -> Option<u64>
        ensures { result ≡ below (2 ^ 64) self.now }
    {
        match &self.magnitude {
            Magnitude::Small(value) => Some(*value),
            Magnitude::Large(_) => None,
        }
    }

    /// The number as 128 bits, and None exactly where it is 2^128 or more.
    pub fn to_u128(&self) -> Option<u128>
        ensures { result ≡ below (2 ^ 128) self.now }
    {
        match &self.magnitude {
            Magnitude::Small(value) => Some(u128::from(*value)),
            Magnitude::Large(digits) => decimal_128(digits.bytes()),
        }
    }

    /// The digits that write the number, with no zero before them: `0` for zero.
    pub fn digits(&self, alloc: Global) -> Result<Text, AllocError>
        ensures { IfOk result (λ text. IsWritten self.now text) }
    {
        match &self.magnitude {
            Magnitude::Small(value) => digits_of(alloc, *value),
            Magnitude::Large(digits) => Text::from_slice(alloc, without_zeros(digits.bytes())),
        }
    }
}

/// The digits that write the number.
fn digits_of(alloc: Global, number: u64) -> Result<Text, AllocError>
    ensures { IfOk result (λ text. IsWritten number text) }
{
    let text = number.to_string(alloc)?;
    Text::from_slice(alloc, text.as_bytes())
}
