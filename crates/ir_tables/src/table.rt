//! A table of words and codes, and the macros that read its rows.
ghost use Rattle.std.specs.Prelude.{◌≡◌, ℕ, length, slice_get, Some, ◌↔◌};
ghost use Rattle.ir_tables.specs.Table.{IsDistinct, words, codes_of};

use std::marker::Model;

/// A word of the language and its code.
#[derive(Clone, Copy, Debug, PartialEq, Eq)]
pub struct WordRow {
    pub word: &'static str,
    pub code: u16,
}

/// Exactly `N` rows, no two of which have the same word or the same code.
///
/// ```
/// static ROWS: [WordRow; 2] = [WordRow { word: "eq", code: 1 }, WordRow { word: "ne", code: 2 }];
///
/// let table: Table<2> = Table::new(&ROWS);
/// table.word_of(b"ne") // Some(1)
/// table.code_of(3) // None
/// ```
#[derive(Drop)]
pub struct Table<'t, const N: usize> {
    rows: &'t [WordRow],
}

impl<'t, const N: usize> Model for Table<'t, N> {
    ghost use Rattle.std.specs.Prelude.{List};
    ghost use Rattle.ir_tables.specs.Table.{IsTable, WordEntry, entries};

    ghost Value = { List WordEntry };

    ghost view = { λ table. entries table.rows.now };

    ghost invariant = { λ table. IsTable N (entries table.rows.now) };
}

impl<'t, const N: usize> Table<'t, N> {
    ghost use Rattle.ir_tables.specs.Table.{IsTable, entries};

    /// The table of these rows.
    pub fn new(rows: &'t [WordRow]) -> Table<'t, N>
        requires { IsTable N (entries rows.now) }
        ensures { result ≡ entries rows.now }
    {
        Table { rows }
    }

    /// The place of the row with this word, counted from 0.
    pub fn word_of(&self, word: &[u8]) -> Option<usize>
        ensures { (place : ℕ) → (result ≡ Some place) ↔ (slice_get (words self.now) place ≡ Some word.now) }
    {
        for (place, row) in self.rows.iter().enumerate() {
            if row.word.as_bytes() == word {
                return Some(place);
            }
        }
        None
    }

    /// The place of the row with this code, counted from 0.
    pub fn code_of(&self, code: u16) -> Option<usize>
        ensures { (place : ℕ) → (result ≡ Some place) ↔ (slice_get (codes_of self.now) place ≡ Some code) }
    {
        for (place, row) in self.rows.iter().enumerate() {
            if row.code == code {
                return Some(place);
            }
        }
        None
    }
}

// The rows of an enum, as `Variant "word" code,`, stand in a macro that hands them to one of these.

macro_rules! rows {
    ($type:ident: $($variant:ident $word:literal $code:literal,)*) => {
        [$(WordRow { word: $word, code: $code },)*]
    };
}

macro_rules! values {
    ($type:ident: $($variant:ident $word:literal $code:literal,)*) => {
        [$($type::$variant,)*]
    };
}

macro_rules! word_in {
    ($value:ident $type:ident: $($variant:ident $word:literal $code:literal,)*) => {
        match $value {
            $($type::$variant => $word,)*
        }
    };
}

macro_rules! code_in {
    ($value:ident $type:ident: $($variant:ident $word:literal $code:literal,)*) => {
        match $value {
            $($type::$variant => $code,)*
        }
    };
}

pub(crate) use code_in;
pub(crate) use rows;
pub(crate) use values;
pub(crate) use word_in;
