//! Numbers in words.
ghost use Rattle.std.specs.Prelude.{◌≡◌};
ghost use Rattle.command_line.specs.Numbers.{number_of, leads_with_zero};

/// The greatest number of steps that may be asked for: the STEP_LIMIT of `run_actions::loops`, on which this crate does not stand. `tool_cli` is
/// proved only where it is no more than that.
pub const LARGEST_NUMBER: u64 = 4_294_967_296;

fn leads_with_zero(digits: &[u8]) -> bool
    ensures { result ≡ leads_with_zero digits.now }
{
    digits.len() > 1 && digits[0] == b'0'
}

/// The number that the decimal digits spell, where they spell one and it is not too large.
pub(crate) fn number_of(digits: &[u8]) -> Option<u64>
    ensures { result ≡ number_of digits.now }
{
    if digits.is_empty() || leads_with_zero(digits) {
        return None;
    }
    let mut number = 0u64;
    for digit in digits {
        if !digit.is_ascii_digit() {
            return None;
        }
        number = 10 * number + u64::from(*digit - b'0');
        if number > LARGEST_NUMBER {
            return None;
        }
    }
    Some(number)
}
