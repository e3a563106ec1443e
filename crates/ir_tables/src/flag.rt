//! Flags of instructions, and sets of them.
ghost use Rattle.std.specs.Prelude.{◌≡◌, ◌↔◌, ◌⊎◌, ◌≤◌, ◌≢◌, Some, IsTrue};
ghost use Rattle.std.specs.Option.{SomeIff};
ghost use Rattle.ir_tables.specs.Flag.{flag_word, flag_code, flag_table, flag_of_word, flag_of_code};
ghost use Rattle.ir_tables.specs.Flags.{has_flag, flags_with};

use crate::table::{code_in, rows, values, word_in};
use crate::{Table, WordRow};
use std::marker::Model;

/// A flag of an instruction. Its code is a power of two, so that a set of flags is the sum of its codes.
///
/// ```
/// Flag::Nuw.code() // 1
/// Flags::empty().with(Flag::Nuw).with(Flag::Nsw).code() // 3
/// ```
#[derive(Clone, Copy, Debug, PartialEq, Eq)]
pub enum Flag {
    /// No unsigned wrap: what is computed, read without sign, fits its width.
    Nuw,
    /// No signed wrap: what is computed, read with sign, fits its width.
    Nsw,
    /// Nothing is lost: a division has no remainder, and a shift to the right drops no set bit.
    Exact,
    /// The operands of an `or` have no set bit in common.
    Disjoint,
    /// The operand of a `zext` is not negative, read with sign.
    Nneg,
    /// The operands of an `icmp` have the same sign.
    Samesign,
    /// The address of a `getelementptr` stays in the block that it is based on, or at that block's end.
    Inbounds,
    /// No unsigned-signed wrap: at a `getelementptr` no offset wraps, read with sign, and no address wraps, read without
    /// sign, to which an offset with sign is added.
    Nusw,
    /// How many such loads and stores run, and in which order among themselves, may not be changed.
    Volatile,
}

macro_rules! flags {
    ($read:ident $($value:ident)?) => {
        $read!($($value)? Flag:
            Nuw "nuw" 1,
            Nsw "nsw" 2,
            Exact "exact" 4,
            Disjoint "disjoint" 8,
            Nneg "nneg" 16,
            Samesign "samesign" 32,
            Inbounds "inbounds" 64,
            Nusw "nusw" 128,
            Volatile "volatile" 256,
        )
    };
}

const COUNT: usize = 9;

static ROWS: [WordRow; COUNT] = flags!(rows);

static VALUES: [Flag; COUNT] = flags!(values);

fn table() -> Table<'static, COUNT>
    ensures { result ≡ flag_table }
{
    Table::new(&ROWS)
}

impl Flag {
    /// The word of the table.
    pub fn word(self) -> &'static str
        ensures { result.now ≡ flag_word self }
    {
        flags!(word_in self)
    }

    /// The value with this word, and None exactly where the table has no such word.
    pub fn of_word(word: &[u8]) -> Option<Self>
        ensures exact { (flag : Flag) → (result ≡ Some flag) ↔ (flag_word flag ≡ word.now) }
        ensures value { result ≡ flag_of_word word.now }
    {
        let place = table().word_of(word)?;
        Some(VALUES[place])
    }

    /// The code of the table.
    pub fn code(self) -> u16
        ensures { result ≡ flag_code self }
    {
        flags!(code_in self)
    }

    /// The value with this code, and None exactly where the table has no such code.
    pub fn of_code(code: u16) -> Option<Self>
        ensures exact { (flag : Flag) → (result ≡ Some flag) ↔ (flag_code flag ≡ code) }
        ensures value { result ≡ flag_of_code code }
    {
        let place = table().code_of(code)?;
        Some(VALUES[place])
    }
}

/// A set of flags. Contracts see it as the sum of the codes of its flags.
///
/// ```
/// let flags = Flags::empty().with(Flag::Nuw).with(Flag::Nsw);
/// flags.has(Flag::Nsw) // true
/// flags.has(Flag::Exact) // false
/// flags.code() // 3
/// ```
#[derive(Clone, Copy, Debug, PartialEq, Eq)]
pub struct Flags {
    code: u16,
}

impl Model for Flags {
    ghost use Rattle.std.specs.Prelude.{ℕ, ◌≤◌};

    ghost Value = { ℕ };

    ghost view = { λ flags. flags.code };

    ghost invariant = { λ flags. flags.code ≤ 511 };

    ghost inverse = { λ sum. record { code = sum } };
}

impl Flags {
    /// No flags.
    pub fn empty() -> Flags
        ensures { result ≡ 0 }
    {
        Flags { code: 0 }
    }

    /// The set with this flag added, or the same set where it has the flag.
    pub fn with(self, flag: Flag) -> Flags
        ensures value { result ≡ flags_with self flag }
        ensures exact { (other : Flag) → IsTrue (has_flag result other) ↔ (IsTrue (has_flag self other) ⊎ (other ≡ flag)) }
    {
        Flags {
            code: self.code | flag.code(),
        }
    }

    /// Whether the set has this flag.
    pub fn has(self, flag: Flag) -> bool
        ensures { result ≡ has_flag self flag }
    {
        self.code & flag.code() != 0
    }

    /// The sum of the codes of its flags.
    pub fn code(self) -> u16
        ensures value { result ≡ self }
        ensures bound { self ≤ 511 }
    {
        self.code
    }

    /// The set with this code, and None exactly where the code passes 511, the sum of all codes.
    pub fn of_code(code: u16) -> Option<Flags>
        ensures { SomeIff result (code ≤ 511) code }
    {
        if code <= ALL {
            Some(Flags { code })
        } else {
            None
        }
    }
}

// The code of the set of all flags.
const ALL: u16 = 511;
