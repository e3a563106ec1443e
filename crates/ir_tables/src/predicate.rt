//! The comparisons of `icmp`.
ghost use Rattle.std.specs.Prelude.{◌≡◌, ◌↔◌, Some};
ghost use Rattle.ir_tables.specs.Predicate.{predicate_word, predicate_code, predicate_table, predicate_of_word, predicate_of_code};

use crate::table::{code_in, rows, values, word_in};
use crate::{Table, WordRow};

/// How `icmp` compares (LangRef, "icmp Instruction"): `u` reads without sign, `s` with sign.
///
/// ```
/// Predicate::Sgt.word() // "sgt"
/// Predicate::Sgt.code() // 7
/// ```
#[derive(Clone, Copy, Debug, PartialEq, Eq)]
pub enum Predicate {
    /// Equal.
    Eq,
    /// Not equal.
    Ne,
    /// Greater, without sign.
    Ugt,
    /// Greater or equal, without sign.
    Uge,
    /// Less, without sign.
    Ult,
    /// Less or equal, without sign.
    Ule,
    /// Greater, with sign.
    Sgt,
    /// Greater or equal, with sign.
    Sge,
    /// Less, with sign.
    Slt,
    /// Less or equal, with sign.
    Sle,
}

macro_rules! predicates {
    ($read:ident $($value:ident)?) => {
        $read!($($value)? Predicate:
            Eq "eq" 1,
            Ne "ne" 2,
            Ugt "ugt" 3,
            Uge "uge" 4,
            Ult "ult" 5,
            Ule "ule" 6,
            Sgt "sgt" 7,
            Sge "sge" 8,
            Slt "slt" 9,
            Sle "sle" 10,
        )
    };
}

const COUNT: usize = 10;

static ROWS: [WordRow; COUNT] = predicates!(rows);

static VALUES: [Predicate; COUNT] = predicates!(values);

fn table() -> Table<'static, COUNT>
    ensures { result ≡ predicate_table }
{
    Table::new(&ROWS)
}

impl Predicate {
    /// The word of the table.
    pub fn word(self) -> &'static str
        ensures { result.now ≡ predicate_word self }
    {
        predicates!(word_in self)
    }

    /// The value with this word, and None exactly where the table has no such word.
    pub fn of_word(word: &[u8]) -> Option<Self>
        ensures exact { (predicate : Predicate) → (result ≡ Some predicate) ↔ (predicate_word predicate ≡ word.now) }
        ensures value { result ≡ predicate_of_word word.now }
    {
        let place = table().word_of(word)?;
        Some(VALUES[place])
    }

    /// The code of the table.
    pub fn code(self) -> u16
        ensures { result ≡ predicate_code self }
    {
        predicates!(code_in self)
    }

    /// The value with this code, and None exactly where the table has no such code.
    pub fn of_code(code: u16) -> Option<Self>
        ensures exact { (predicate : Predicate) → (result ≡ Some predicate) ↔ (predicate_code predicate ≡ code) }
        ensures value { result ≡ predicate_of_code code }
    {
        let place = table().code_of(code)?;
        Some(VALUES[place])
    }
}
