//! Codes as they stand in records.
ghost use Rattle.std.specs.Prelude.{◌≡◌, ◌⊎◌, ◌||◌, not, true, SomeIff};
ghost use Rattle.record_table.specs.Fields as fields;
ghost use Rattle.record_read.specs.Reader.{Reads, IsBroken};
ghost use Rattle.std.specs.List.{list_all};
ghost use Rattle.ir_tables.specs.Flags.{has_flag};
ghost use Rattle.ir_tables.specs.Linkage.{linkage_of_code};
ghost use Rattle.ir_tables.specs.Predicate.{predicate_of_code};
ghost use Rattle.module_arena.specs.Forms.{are_flags_of, may_have};

use crate::RecordReader;
use ir_tables::{Flag, Flags, Linkage, Opcode, Predicate};

/// All flags.
const FLAGS: [Flag; 9] = [
    Flag::Nuw,
    Flag::Nsw,
    Flag::Exact,
    Flag::Disjoint,
    Flag::Nneg,
    Flag::Samesign,
    Flag::Inbounds,
    Flag::Nusw,
    Flag::Volatile,
];

/// How many alignments have a code.
const ALIGNMENT_COUNT: usize = 18;

/// The alignments by their codes: none, and the powers of two up to 65,536.
const ALIGNMENTS: [Option<u32>; ALIGNMENT_COUNT] = [
    None,
    Some(1),
    Some(2),
    Some(4),
    Some(8),
    Some(16),
    Some(32),
    Some(64),
    Some(128),
    Some(256),
    Some(512),
    Some(1024),
    Some(2048),
    Some(4096),
    Some(8192),
    Some(16384),
    Some(32768),
    Some(65536),
];

/// The linkage that has this code.
#[tactic(auto, using(crate::proofs::Coded::no_linkage))]
fn linkage_of(number: u64) -> Option<Linkage>
    ensures { result ≡ linkage_of_code number }
{
    match u16::try_from(number) {
        Ok(code) => Linkage::of_code(code),
        Err(_) => None,
    }
}

/// The predicate that has this code.
#[tactic(auto, using(crate::proofs::Coded::no_predicate))]
fn predicate_of(number: u64) -> Option<Predicate>
    ensures { result ≡ predicate_of_code number }
{
    match u16::try_from(number) {
        Ok(code) => Predicate::of_code(code),
        Err(_) => None,
    }
}

/// A linkage. Another code breaks rule 3.
pub fn read_linkage(reader: &mut RecordReader<'_>) -> Linkage
    ensures { Reads fields.linkage reader.old reader.new result }
{
    let number = reader.number();
    match linkage_of(number) {
        Some(linkage) => linkage,
        None => {
            reader.refuse(3);
            Linkage::External
        }
    }
}

/// A predicate. Another code breaks rule 3.
pub fn read_predicate(reader: &mut RecordReader<'_>) -> Predicate
    ensures { Reads fields.predicate reader.old reader.new result }
{
    let number = reader.number();
    match predicate_of(number) {
        Some(predicate) => predicate,
        None => {
            reader.refuse(3);
            Predicate::Eq
        }
    }
}

/// Whether the opcode may have each of these flags that the set has.
fn may_have_all(opcode: Opcode, set: Flags, flags: &[Flag]) -> bool
    ensures { result ≡ list_all (λ f. not (has_flag set f) || may_have opcode f) flags.now }
{
    'flags: for flag in flags {
        if set.has(*flag) && !opcode.may_have(*flag) {
            return false;
        }
    }
    true
}

/// The set of flags with this code, where the opcode may have each of them.
fn flags_of(opcode: Opcode, number: u64) -> Option<Flags>
    ensures { SomeIff result (are_flags_of opcode number ≡ true) number }
{
    let code = u16::try_from(number).ok()?;
    let set = Flags::of_code(code)?;
    if may_have_all(opcode, set, &FLAGS) {
        Some(set)
    } else {
        None
    }
}

/// A set of flags that the opcode may have. Another breaks rule 3; which flags stand for it is not told.
pub fn read_flags(reader: &mut RecordReader<'_>, opcode: Opcode) -> Flags
    ensures kept { IsBroken reader.new.walk ⊎ (result ≡ ((fields.flags opcode).read reader.old.walk).0) }
    ensures reader { reader.new ≡ record reader.old { walk = ((fields.flags opcode).read reader.old.walk).1 } }
{
    let number = reader.number();
    match flags_of(opcode, number) {
        Some(flags) => flags,
        None => {
            reader.refuse(3);
            reader.stops_where_broken();
            Flags::empty()
        }
    }
}

/// An alignment in bytes: 0 for none, or one more than its binary logarithm. Another breaks rule 7.
#[tactic(auto, using(crate::proofs::Coded::aligned))]
pub fn read_alignment(reader: &mut RecordReader<'_>) -> Option<u32>
    ensures { Reads fields.alignment reader.old reader.new result }
{
    let number = reader.number();
    reader.ask(7, number < ALIGNMENT_COUNT as u64);
    if number < ALIGNMENT_COUNT as u64 {
        ALIGNMENTS[number as usize]
    } else {
        None
    }
}
