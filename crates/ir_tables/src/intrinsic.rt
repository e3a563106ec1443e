//! The intrinsics over integers.
ghost use Rattle.std.specs.Prelude.{◌≡◌, ◌↔◌, Some};
ghost use Rattle.ir_tables.specs.Intrinsic.{intrinsic_word, intrinsic_code, intrinsic_table, intrinsic_of_word, intrinsic_of_code};

use crate::table::{code_in, rows, values, word_in};
use crate::{Table, WordRow};

/// An intrinsic over integers (LangRef, "Standard C/C++ Library Intrinsics", "Bit Manipulation Intrinsics", "Arithmetic
/// with Overflow Intrinsics", "Saturation Arithmetic Intrinsics"). Its word is its name between `llvm.` and its width.
///
/// ```
/// Intrinsic::Ctpop.word() // "ctpop"
/// Intrinsic::of_name(b"llvm.ctpop.i32") // Some((Intrinsic::Ctpop, 32))
/// ```
#[derive(Clone, Copy, Debug, PartialEq, Eq)]
pub enum Intrinsic {
    /// How many bits are set.
    Ctpop,
    /// The bytes in reverse order.
    Bswap,
    /// The bits in reverse order.
    Bitreverse,
    /// How many zeros stand above the highest set bit: of 0 the width, or poison where the second operand is 1.
    Ctlz,
    /// How many zeros stand below the lowest set bit: of 0 the width, or poison where the second operand is 1.
    Cttz,
    /// The distance from 0, with sign: of the least number that number itself, or poison where the second operand is 1.
    Abs,
    /// The less of two numbers with sign.
    Smin,
    /// The greater of two numbers with sign.
    Smax,
    /// The less of two numbers without sign.
    Umin,
    /// The greater of two numbers without sign.
    Umax,
    /// The sum with sign, clamped to the width's least and greatest numbers.
    SaddSat,
    /// The sum without sign, clamped to the width's greatest number.
    UaddSat,
    /// The difference with sign, clamped to the width's least and greatest numbers.
    SsubSat,
    /// The difference without sign, and 0 where it would be negative.
    UsubSat,
    /// The sum modulo 2^width, and an `i1`: whether the sum with sign does not fit the width.
    SaddWithOverflow,
    /// The sum modulo 2^width, and an `i1`: whether the sum without sign does not fit the width.
    UaddWithOverflow,
    /// The difference modulo 2^width, and an `i1`: whether the difference with sign does not fit the width.
    SsubWithOverflow,
    /// The difference modulo 2^width, and an `i1`: whether the difference without sign is negative.
    UsubWithOverflow,
    /// The product modulo 2^width, and an `i1`: whether the product with sign does not fit the width.
    SmulWithOverflow,
    /// The product modulo 2^width, and an `i1`: whether the product without sign does not fit the width.
    UmulWithOverflow,
    /// The high half of the first operand above the second, both together shifted left by the third modulo the width.
    Fshl,
    /// The low half of the first operand above the second, both together shifted right by the third modulo the width.
    Fshr,
}

macro_rules! intrinsics {
    ($read:ident $($value:ident)?) => {
        $read!($($value)? Intrinsic:
            Ctpop "ctpop" 1,
            Bswap "bswap" 2,
            Bitreverse "bitreverse" 3,
            Ctlz "ctlz" 4,
            Cttz "cttz" 5,
            Abs "abs" 6,
            Smin "smin" 7,
            Smax "smax" 8,
            Umin "umin" 9,
            Umax "umax" 10,
            SaddSat "sadd.sat" 11,
            UaddSat "uadd.sat" 12,
            SsubSat "ssub.sat" 13,
            UsubSat "usub.sat" 14,
            SaddWithOverflow "sadd.with.overflow" 15,
            UaddWithOverflow "uadd.with.overflow" 16,
            SsubWithOverflow "ssub.with.overflow" 17,
            UsubWithOverflow "usub.with.overflow" 18,
            SmulWithOverflow "smul.with.overflow" 19,
            UmulWithOverflow "umul.with.overflow" 20,
            Fshl "fshl" 21,
            Fshr "fshr" 22,
        )
    };
}

const COUNT: usize = 22;

static ROWS: [WordRow; COUNT] = intrinsics!(rows);

pub(crate) static VALUES: [Intrinsic; COUNT] = intrinsics!(values);

fn table() -> Table<'static, COUNT>
    ensures { result ≡ intrinsic_table }
{
    Table::new(&ROWS)
}

impl Intrinsic {
    /// The word of the table.
    pub fn word(self) -> &'static str
        ensures { result.now ≡ intrinsic_word self }
    {
        intrinsics!(word_in self)
    }

    /// The value with this word, and None exactly where the table has no such word.
    pub fn of_word(word: &[u8]) -> Option<Self>
        ensures exact { (intrinsic : Intrinsic) → (result ≡ Some intrinsic) ↔ (intrinsic_word intrinsic ≡ word.now) }
        ensures value { result ≡ intrinsic_of_word word.now }
    {
        let place = table().word_of(word)?;
        Some(VALUES[place])
    }

    /// The code of the table.
    pub fn code(self) -> u16
        ensures { result ≡ intrinsic_code self }
    {
        intrinsics!(code_in self)
    }

    /// The value with this code, and None exactly where the table has no such code.
    pub fn of_code(code: u16) -> Option<Self>
        ensures exact { (intrinsic : Intrinsic) → (result ≡ Some intrinsic) ↔ (intrinsic_code intrinsic ≡ code) }
        ensures value { result ≡ intrinsic_of_code code }
    {
        let place = table().code_of(code)?;
        Some(VALUES[place])
    }
}
