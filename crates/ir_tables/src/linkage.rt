//! How names bind across modules.
ghost use Rattle.std.specs.Prelude.{◌≡◌, ◌↔◌, Some};
ghost use Rattle.ir_tables.specs.Linkage.{linkage_word, linkage_code, linkage_table, linkage_of_word, linkage_of_code};

use crate::table::{code_in, rows, values, word_in};
use crate::{Table, WordRow};

/// The linkage of a variable or a function (LangRef, "Linkage Types").
///
/// ```
/// Linkage::Internal.word() // "internal"
/// Linkage::Internal.code() // 2
/// ```
#[derive(Clone, Copy, Debug, PartialEq, Eq)]
pub enum Linkage {
    /// Visible outside its module, and resolves references of other modules.
    External,
    /// Seen in its module alone, and without an entry in the symbol table of an object file.
    Private,
    /// Seen in its module alone, with a local symbol in an object file.
    Internal,
    /// For inlining alone, and never emitted: for a linker it is a declaration of what is defined elsewhere.
    AvailableExternally,
    /// Merged with others of its name, of which one stays; it may be dropped where nothing refers to it.
    Linkonce,
    /// As `Linkonce`, where all definitions of the name are equivalent.
    LinkonceOdr,
    /// Merged as `Linkonce`, but it may not be dropped where nothing refers to it.
    Weak,
    /// As `Weak`, where all definitions of the name are equivalent.
    WeakOdr,
    /// A tentative definition of C: merged as `Weak`, zero at the start, no constant and no function.
    Common,
    /// An array that is joined with the other arrays of its name when modules are linked.
    Appending,
    /// A declaration that is null, and no undefined reference, where nothing defines the name.
    ExternWeak,
}

macro_rules! linkages {
    ($read:ident $($value:ident)?) => {
        $read!($($value)? Linkage:
            External "external" 0,
            Private "private" 1,
            Internal "internal" 2,
            AvailableExternally "available_externally" 3,
            Linkonce "linkonce" 4,
            LinkonceOdr "linkonce_odr" 5,
            Weak "weak" 6,
            WeakOdr "weak_odr" 7,
            Common "common" 8,
            Appending "appending" 9,
            ExternWeak "extern_weak" 10,
        )
    };
}

const COUNT: usize = 11;

static ROWS: [WordRow; COUNT] = linkages!(rows);

static VALUES: [Linkage; COUNT] = linkages!(values);

fn table() -> Table<'static, COUNT>
    ensures { result ≡ linkage_table }
{
    Table::new(&ROWS)
}

impl Linkage {
    /// The word of the table.
    pub fn word(self) -> &'static str
        ensures { result.now ≡ linkage_word self }
    {
        linkages!(word_in self)
    }

    /// The value with this word, and None exactly where the table has no such word.
    pub fn of_word(word: &[u8]) -> Option<Self>
        ensures exact { (linkage : Linkage) → (result ≡ Some linkage) ↔ (linkage_word linkage ≡ word.now) }
        ensures value { result ≡ linkage_of_word word.now }
    {
        let place = table().word_of(word)?;
        Some(VALUES[place])
    }

    /// The code of the table.
    pub fn code(self) -> u16
        ensures { result ≡ linkage_code self }
    {
        linkages!(code_in self)
    }

    /// The value with this code, and None exactly where the table has no such code.
    pub fn of_code(code: u16) -> Option<Self>
        ensures exact { (linkage : Linkage) → (result ≡ Some linkage) ↔ (linkage_code linkage ≡ code) }
        ensures value { result ≡ linkage_of_code code }
    {
        let place = table().code_of(code)?;
        Some(VALUES[place])
    }
}
