//! What stands in the block of a module.
ghost use Rattle.std.specs.Prelude.{◌≡◌, ◌<◌, ◌&&◌, ℕ, suc, nat_le, nat_lt, Option};
ghost use Rattle.record_table.specs.Records as records;
ghost use Rattle.record_table.specs.Walk.{told};
ghost use Rattle.record_read.specs.Faults.{Answers};
ghost use Rattle.record_read.specs.Order.Order.{IsBehindRecord, place_of};

use crate::{BitcodeFault, RecordReader};
use record_table::MODULE_BLOCK;

/// What stands in the block of a module, in its order. The first five stand there at most once.
///
/// ```
/// ModulePart::Types.may_follow(ModulePart::Version.place()) // true
/// ModulePart::Version.may_follow(ModulePart::Types.place()) // false
/// ```
#[derive(Clone, Copy)]
pub enum ModulePart {
    /// The version of the record table.
    Version,
    /// The name of the source.
    Source,
    /// The data layout.
    Layout,
    /// The target triple.
    Triple,
    /// The block of types.
    Types,
    /// The record of a variable.
    Variable,
    /// The record of a function.
    Function,
    /// The record of an alias.
    Alias,
    /// The block of a function's body.
    Body,
}

impl ModulePart {
    /// The part's place, counted from 1.
    pub fn place(self) -> u8
        ensures { result ≡ place_of self }
    {
        match self {
            ModulePart::Version => 1,
            ModulePart::Source => 2,
            ModulePart::Layout => 3,
            ModulePart::Triple => 4,
            ModulePart::Types => 5,
            ModulePart::Variable => 6,
            ModulePart::Function => 7,
            ModulePart::Alias => 8,
            ModulePart::Body => 9,
        }
    }

    /// Whether it may stand behind what stands at that place; 0 is the beginning of the block. The version comes first, and
    /// the types always.
    pub fn may_follow(self, last: u8) -> bool
        ensures { result ≡ records.may_follow last (place_of self) }
    {
        match self {
            ModulePart::Version => last == 0,
            ModulePart::Source => is_in_front(last, 2),
            ModulePart::Layout => is_in_front(last, 3),
            ModulePart::Triple => is_in_front(last, 4),
            ModulePart::Types => is_in_front(last, 5),
            ModulePart::Variable => is_behind(last, 6),
            ModulePart::Function => is_behind(last, 7),
            ModulePart::Alias => is_behind(last, 8),
            ModulePart::Body => is_behind(last, 9),
        }
    }
}

/// Whether what stands at that place may stand behind the place `last`: once, and not first.
fn is_in_front(last: u8, place: u8) -> bool
    ensures { result ≡ (nat_le 1 last && nat_lt last place) }
{
    1 <= last && last < place
}

/// Whether what stands at that place may: behind the types, and behind what stands at the same place too.
fn is_behind(last: u8, place: u8) -> bool
    ensures { result ≡ (nat_le 5 last && nat_le last place) }
{
    5 <= last && last <= place
}

/// Ends the record of a part, behind what stands at the place `last`. It is refused by the least rule that it breaks: rule 5
/// is that it may stand there.
pub(crate) fn end_part(
    reader: &mut RecordReader<'_>,
    last: u8,
    part: ModulePart,
) -> Result<(), BitcodeFault>
    requires { 0 < reader.old.at }
    ensures stays { IsBehindRecord reader.old reader.new }
    ensures answers { (s after : records.Sofar) (broken : Option ℕ) → s.last ≡ last → reader.old.at ≡ suc s.at → told reader.old.walk ≡ broken
        → Answers (λ done t. t ≡ record after { at = suc s.at; last = place_of part }) (records.record_at_place s (place_of part) broken after) result }
{
    reader.also(5, part.may_follow(last));
    reader.finish(MODULE_BLOCK)
}
