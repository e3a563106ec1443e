//! The record of the version.
ghost use Rattle.std.specs.Prelude.{◌≡◌, ◌<◌, ◌&&◌, ◌∷◌, [], ℕ, List, suc, nat_eq, not, None};
ghost use Rattle.record_table.specs.Records as records;
ghost use Rattle.record_table.specs.Walk.{going};
ghost use Rattle.record_read.specs.Faults.{Answers};
ghost use Rattle.record_read.specs.Fields.{texts_of};
ghost use Rattle.record_read.specs.Order.Order.{IsAlone, IsBehindRecord, IsNoNumber, IsOnly, StandsBehind};

use crate::order::part::{ModulePart, end_part};
use crate::{BitcodeFault, RecordReader, Texts};

/// The version of the record table in which texts stand so.
fn version_of(texts: &Texts) -> u64
    ensures { result ≡ (texts_of texts.now).version }
{
    match texts {
        Texts::Inline => 1,
        Texts::Table(_) => 2,
    }
}

/// Whether it is the version of the record table in which texts stand so.
fn is_version_of(texts: &Texts, number: u64) -> bool
    ensures { result ≡ nat_eq number (texts_of texts.now).version }
{
    number == version_of(texts)
}

/// Whether there is such a version of the record table.
fn is_version(number: u64) -> bool
    ensures { result ≡ records.is_version number }
{
    number == 1 || number == 2
}

/// Whether a version comes first that there is not.
fn is_foreign(last: u8, number: u64) -> bool
    ensures { result ≡ (nat_eq last 0 && not (records.is_version number)) }
{
    last == 0 && !is_version(number)
}

/// The number, where no operand is left behind it.
fn alone(reader: &mut RecordReader<'_>, number: u64) -> Option<u64>
    ensures is { (operands : List ℕ) → reader.old.walk ≡ going operands None → IsAlone number operands result reader.new.walk }
    ensures rest { reader.new ≡ record reader.old { walk = reader.new.walk } }
{
    match reader.take() {
        Some(_) => None,
        None => Some(number),
    }
}

/// The operand of a record that has one, and no other.
fn only_number(reader: &mut RecordReader<'_>) -> Option<u64>
    ensures is { (operands : List ℕ) → reader.old.walk ≡ going operands None → IsOnly operands result reader.new.walk }
    ensures rest { reader.new ≡ record reader.old { walk = reader.new.walk } }
{
    match reader.take() {
        Some(first) => alone(reader, first),
        None => None,
    }
}

/// Ends the record of the version, which has that number and no other operand.
fn end_number(
    reader: &mut RecordReader<'_>,
    texts: &Texts,
    last: u8,
    number: u64,
) -> Result<(), BitcodeFault>
    requires { 0 < reader.old.at }
    ensures stays { IsBehindRecord reader.old reader.new }
    ensures answers { (s : records.Sofar) → StandsBehind (texts_of texts.now) last reader.old s [] → Answers (λ done t. t ≡ record s { at = suc s.at; last = 1 }) (records.version_record s (number ∷ [])) result }
{
    if is_foreign(last, number) {
        return Err(BitcodeFault::BadVersion(number));
    }
    reader.also(5, is_version_of(texts, number));
    end_part(reader, last, ModulePart::Version)
}

/// Ends the record of the version, which has no operand, or more than one: rule 1.
fn end_without(reader: &mut RecordReader<'_>, last: u8) -> Result<(), BitcodeFault>
    requires { 0 < reader.old.at }
    ensures stays { IsBehindRecord reader.old reader.new }
    ensures answers { (s : records.Sofar) (operands left : List ℕ) → IsNoNumber operands → StandsBehind s.texts last reader.old s left → Answers (λ done t. t ≡ record s { at = suc s.at; last = 1 }) (records.version_record s operands) result }
{
    reader.also(1, false);
    end_part(reader, last, ModulePart::Version)
}

/// Reads the record of the version, behind what stands at the place `last`. A version that there is not, where it comes
/// first, is told as such; else the least rule that the record breaks.
pub fn read_version(
    reader: &mut RecordReader<'_>,
    texts: &Texts,
    last: u8,
) -> Result<(), BitcodeFault>
    requires { 0 < reader.old.at }
    ensures stays { IsBehindRecord reader.old reader.new }
    ensures answers { (s : records.Sofar) (operands : List ℕ) → StandsBehind (texts_of texts.now) last reader.old s operands → Answers (λ done t. t ≡ record s { at = suc s.at; last = 1 }) (records.version_record s operands) result }
{
    match only_number(reader) {
        Some(number) => end_number(reader, texts, last, number),
        None => end_without(reader, last),
    }
}
