//! An abbreviation that was read, and which of its operands a record by it spells with bits.
ghost use Rattle.std.specs.Prelude.{◌≡◌, ◌++◌, filter, IfOk, OnOk};
ghost use Rattle.bit_dump.specs.Walk.Starts.{no_abbreviation};
ghost use Rattle.bit_dump.specs.Walk.Spelling.{has_bits, spelled_out};

use bit_stream::{AdmittedAbbreviation, Tail, ValueSpelling};
use std::alloc::{AllocError, Global};
use std::marker::Model;

/// An abbreviation, and the spellings of its operands but for the literals behind the first: a record goes on by no bit
/// where these stand, so nothing of them has to be read where only the first operand is wanted.
#[derive(Drop)]
pub struct WalkedSpelling {
    abbreviation: AdmittedAbbreviation,
    read: Vec<ValueSpelling>,
}

impl Model for WalkedSpelling {
    ghost use Rattle.std.specs.Prelude.{◌≡◌};
    ghost use Rattle.bit_stream.specs.Abbreviation.{AdmittedAbbreviation};
    ghost use Rattle.bit_dump.specs.Walk.Spelling.{spelled_out};

    ghost Value = { AdmittedAbbreviation };

    ghost view = { λ s. s.abbreviation };

    ghost invariant = { λ s. s.read.items ≡ spelled_out s.abbreviation.operands };
}

impl WalkedSpelling {
    /// That of an abbreviation.
    pub fn new(alloc: Global, abbreviation: AdmittedAbbreviation) -> Result<Self, AllocError>
        ensures { IfOk result (λ spelling. spelling ≡ abbreviation) }
    {
        let read = spelled_out(alloc, &abbreviation.operands)?;
        Ok(WalkedSpelling { abbreviation, read })
    }

    /// The abbreviation of no operands.
    pub fn nothing(alloc: Global) -> Self
        ensures { result ≡ no_abbreviation }
    {
        WalkedSpelling {
            abbreviation: no_abbreviation(alloc),
            read: Vec::new(alloc),
        }
    }

    /// The abbreviation.
    pub fn admitted(&self) -> &AdmittedAbbreviation
        ensures { result.now ≡ self.now }
    {
        &self.abbreviation
    }

    /// The spellings of its operands, but for the literals behind the first.
    pub fn read(&self) -> &[ValueSpelling]
        ensures { result.now ≡ spelled_out self.now.operands }
    {
        self.read.as_slice()
    }
}

/// The abbreviation of no operands.
pub fn no_abbreviation(alloc: Global) -> AdmittedAbbreviation
    ensures { result ≡ no_abbreviation }
{
    AdmittedAbbreviation {
        code: ValueSpelling::Known(0),
        operands: Vec::new(alloc),
        tail: Tail::NoTail,
    }
}

/// The first of some spellings, and the others that are no literals.
fn spelled_out(alloc: Global, scalars: &[ValueSpelling]) -> Result<Vec<ValueSpelling>, AllocError>
    ensures { IfOk result (λ read. read.items ≡ spelled_out scalars.now) }
{
    let mut read = Vec::new(alloc);
    if let [first, others @ ..] = scalars {
        read.push(*first)?;
        add_read(&mut read, others)?;
    }
    Ok(read)
}

/// Adds those that are no literals.
fn add_read(read: &mut Vec<ValueSpelling>, scalars: &[ValueSpelling]) -> Result<(), AllocError>
    ensures { OnOk result (read.new.items ≡ read.old.items ++ filter has_bits scalars.now) }
{
    for scalar in scalars {
        if has_bits(*scalar) {
            read.push(*scalar)?;
        }
    }
    Ok(())
}

/// Whether a value of this spelling is read, and is no literal.
fn has_bits(scalar: ValueSpelling) -> bool
    ensures { result ≡ has_bits scalar }
{
    match scalar {
        ValueSpelling::Known(_) => false,
        ValueSpelling::Field(_) | ValueSpelling::Chunks(_) | ValueSpelling::Letter => true,
    }
}
