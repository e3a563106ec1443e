//! The names of the intrinsics over integers.
ghost use Rattle.std.specs.Prelude.{◌≡◌, ◌↔◌, ◌++◌, ℕ, List, Some};
ghost use Rattle.std.specs.Option.{option_copied};
ghost use Rattle.ir_tables.specs.declared.intrinsic.Intrinsic.{Intrinsic};
ghost use Rattle.ir_tables.specs.IntrinsicName.{IsNamed, IsWidthText, has_width};
ghost use Rattle.ir_tables.specs.WidthText.{is_padded, width_of_digits};

use crate::intrinsic::VALUES;
use crate::{Intrinsic, WIDEST};

// What stands behind the front, and None exactly where the bytes do not begin with it.
fn behind<'a>(bytes: &'a [u8], front: &[u8]) -> Option<&'a [u8]>
    ensures { (rest : List ℕ) → (option_copied result ≡ Some rest) ↔ (bytes.now ≡ front.now ++ rest) }
{
    if bytes.len() < front.len() {
        return None;
    }
    let (start, rest) = bytes.split_at(front.len());
    if start == front { Some(rest) } else { None }
}

// The number of three digits, where it is a number of bits.
fn width_of_digits(hundreds: u8, tens: u8, ones: u8) -> Option<u8>
    ensures { result ≡ width_of_digits hundreds tens ones }
{
    let are_digits = hundreds.is_ascii_digit() && tens.is_ascii_digit() && ones.is_ascii_digit();
    if !are_digits {
        return None;
    }
    let width = u16::from(hundreds - b'0') * 100
        + u16::from(tens - b'0') * 10
        + u16::from(ones - b'0');
    if 1 <= width && width <= u16::from(WIDEST) {
        Some(width as u8)
    } else {
        None
    }
}

// Whether the first of several digits is zero.
fn is_padded(digits: &[u8]) -> bool
    ensures { result ≡ is_padded digits.now }
{
    digits.len() > 1 && digits[0] == b'0'
}

// The number of bits that is written so.
#[tactic(auto, using(crate::proofs::WidthTexts::read_padded, crate::proofs::WidthTexts::read_one, crate::proofs::WidthTexts::read_other))]
fn width_of(digits: &[u8]) -> Option<u8>
    ensures { (width : ℕ) → (result ≡ Some width) ↔ IsWidthText width digits.now }
{
    if is_padded(digits) {
        return None;
    }
    match digits {
        [ones] => width_of_digits(b'0', b'0', *ones),
        [tens, ones] => width_of_digits(b'0', *tens, *ones),
        [hundreds, tens, ones] => width_of_digits(*hundreds, *tens, *ones),
        _ => None,
    }
}

impl Intrinsic {
    /// The intrinsic and the width, in bits, that this is the name of, as `llvm.ctpop.i32`. It is None exactly where
    /// the name is not `llvm.`, the word of one, `.i` and a number from 1 to 128 in decimal, for `bswap` a multiple of
    /// 16.
    pub fn of_name(name: &[u8]) -> Option<(Intrinsic, u8)>
        ensures { (which : Intrinsic) (width : ℕ) → (result ≡ Some (which, width)) ↔ IsNamed which width name.now }
    {
        for which in &VALUES {
            if let Some(width) = which.width_in(name) {
                return Some((*which, width));
            }
        }
        None
    }

    // The width, where the name is one of this intrinsic.
    fn width_in(self, name: &[u8]) -> Option<u8>
        ensures { (width : ℕ) → (result ≡ Some width) ↔ IsNamed self width name.now }
    {
        let stem = behind(name, b"llvm.")?;
        let suffix = behind(stem, self.word().as_bytes())?;
        let width = width_of(behind(suffix, b".i")?)?;
        if self.has_width(width) {
            Some(width)
        } else {
            None
        }
    }

    // Whether it has this width.
    fn has_width(self, width: u8) -> bool
        ensures { result ≡ has_width self width }
    {
        match self {
            Intrinsic::Bswap => width % 16 == 0,
            _ => true,
        }
    }
}
