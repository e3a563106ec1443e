//! Why a run is undefined.
ghost use Rattle.std.specs.Prelude.{◌≡◌, ◌↔◌, Some};
ghost use Rattle.ir_tables.specs.UndefinedKind.{undefined_word, undefined_code, undefined_table, undefined_of_word, undefined_of_code};

use crate::table::{code_in, rows, values, word_in};
use crate::{Table, WordRow};

/// A kind of undefined behaviour.
///
/// ```
/// UndefinedKind::DivisionByZero.word() // "division by zero"
/// UndefinedKind::DivisionByZero.code() // 1
/// ```
#[derive(Clone, Copy, Debug, PartialEq, Eq)]
pub enum UndefinedKind {
    /// A divisor is zero or poison.
    DivisionByZero,
    /// The least number is divided by -1.
    DivisionOverflow,
    /// `br` or `switch` on poison.
    BranchOnPoison,
    /// An access through poison, or a call of it.
    PoisonAddress,
    /// No block holds all the bytes of an access.
    OutsideBlock,
    /// An access to a block that has ended.
    EndedBlock,
    /// The address of an access is no multiple of its alignment.
    Misaligned,
    /// A write to a constant.
    WriteToConstant,
    /// A block is ended from elsewhere than its start, again, or by what may not end it.
    BadFree,
    /// The ranges of a copy overlap that may not.
    Overlap,
    /// A call of an address that no function has.
    NoFunction,
    /// A call with another function type than the function has.
    AnotherFunctionType,
    /// A host function or the count of an `alloca` is given poison.
    PoisonArgument,
    /// `unreachable` is reached.
    Unreachable,
    /// A pattern of `printf` that does not go with its arguments.
    BadFormat,
}

macro_rules! undefined_kinds {
    ($read:ident $($value:ident)?) => {
        $read!($($value)? UndefinedKind:
            DivisionByZero "division by zero" 1,
            DivisionOverflow "division overflow" 2,
            BranchOnPoison "branch on poison" 3,
            PoisonAddress "poison address" 4,
            OutsideBlock "outside a block" 5,
            EndedBlock "ended block" 6,
            Misaligned "misaligned" 7,
            WriteToConstant "write to constant" 8,
            BadFree "bad free" 9,
            Overlap "overlap" 10,
            NoFunction "no function" 11,
            AnotherFunctionType "another function type" 12,
            PoisonArgument "poison argument" 13,
            Unreachable "unreachable" 14,
            BadFormat "bad format" 15,
        )
    };
}

const COUNT: usize = 15;

static ROWS: [WordRow; COUNT] = undefined_kinds!(rows);

static VALUES: [UndefinedKind; COUNT] = undefined_kinds!(values);

fn table() -> Table<'static, COUNT>
    ensures { result ≡ undefined_table }
{
    Table::new(&ROWS)
}

impl UndefinedKind {
    /// The word of the table.
    pub fn word(self) -> &'static str
        ensures { result.now ≡ undefined_word self }
    {
        undefined_kinds!(word_in self)
    }

    /// The value with this word, and None exactly where the table has no such word.
    pub fn of_word(word: &[u8]) -> Option<Self>
        ensures exact { (kind : UndefinedKind) → (result ≡ Some kind) ↔ (undefined_word kind ≡ word.now) }
        ensures value { result ≡ undefined_of_word word.now }
    {
        let place = table().word_of(word)?;
        Some(VALUES[place])
    }

    /// The code of the table.
    pub fn code(self) -> u16
        ensures { result ≡ undefined_code self }
    {
        undefined_kinds!(code_in self)
    }

    /// The value with this code, and None exactly where the table has no such code.
    pub fn of_code(code: u16) -> Option<Self>
        ensures exact { (kind : UndefinedKind) → (result ≡ Some kind) ↔ (undefined_code kind ≡ code) }
        ensures value { result ≡ undefined_of_code code }
    {
        let place = table().code_of(code)?;
        Some(VALUES[place])
    }
}
