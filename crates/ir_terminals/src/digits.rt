//! Numbers that digits write, while they fit.
ghost use Rattle.std.specs.Prelude.{◌≡◌, ◌-◌, ◌<◌, ◌^◌, ◌&&◌, true, nat_le};
ghost use Rattle.std.specs.List.{list_all};
ghost use Rattle.ir_terminals.specs.Digits.{are_digits, below, decimal, IsWritten};

/// The number that the digits write, where it is below 2^128.
pub(crate) fn decimal_128(digits: &[u8]) -> Option<u128>
    ensures { result ≡ below (2 ^ 128) (decimal digits.now) }
{
    let mut number: u128 = 0;
    for digit in digits {
        let value = u128::from(digit.saturating_sub(b'0'));
        number = number.checked_mul(10)?.checked_add(value)?;
    }
    Some(number)
}

/// The number that the digits write, where it is below 2^64. It stands apart from those of few digits, which nearly all
/// numbers of a text are.
#[inline(never)]
fn decimal_of_many(digits: &[u8]) -> Option<u64>
    ensures { result ≡ below (2 ^ 64) (decimal digits.now) }
{
    u64::try_from(decimal_128(digits)?).ok()
}

/// What a digit stands for.
#[inline(always)]
fn value_of(digit: u8) -> u64
    ensures { result ≡ digit - 48 }
{
    u64::from(digit.saturating_sub(b'0'))
}

/// The number that the digits write, where it is below 2^64.
#[inline(always)]
pub(crate) fn decimal_64(digits: &[u8]) -> Option<u64>
    ensures { result ≡ below (2 ^ 64) (decimal digits.now) }
{
    match digits {
        [one] => Some(value_of(*one)),
        [tens, one] => Some(10 * value_of(*tens) + value_of(*one)),
        [hundreds, tens, one] => {
            Some(100 * value_of(*hundreds) + 10 * value_of(*tens) + value_of(*one))
        }
        _ => decimal_of_many(digits),
    }
}

/// The same digits, of which some other than zero, without the zeros before them.
pub(crate) fn without_zeros(digits: &[u8]) -> &[u8]
    requires digits { are_digits digits.now ≡ true }
    requires some { 0 < decimal digits.now }
    ensures { IsWritten (decimal digits.now) result.now }
{
    let mut i = 0;
    'zeros: while digits[i] == b'0' {
        i += 1;
    }
    &digits[i..]
}

fn each_is_digit(bytes: &[u8]) -> bool
    ensures { result ≡ list_all (λ byte. nat_le 48 byte && nat_le byte 57) bytes.now }
{
    bytes.iter().all(|byte| b'0' <= *byte && *byte <= b'9')
}

/// Whether there is a byte and each is a digit.
pub(crate) fn are_digits(bytes: &[u8]) -> bool
    ensures { result ≡ are_digits bytes.now }
{
    !bytes.is_empty() && each_is_digit(bytes)
}
