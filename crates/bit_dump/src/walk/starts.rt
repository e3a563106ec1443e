//! Abbreviations by the bits where their definitions start, a few bytes each.
ghost use Rattle.std.specs.Prelude.{◌≡◌, ◌≤◌, ◌<◌, ◌*◌, [], ◌++◌, ◌∷◌, Bool, List, Some, length, OnOk, IfOk, slice_get};
ghost use Rattle.bit_stream.specs.Bits.Bits.{stream_bits};
ghost use Rattle.bit_stream.specs.declared.reader.TheConstants.{LARGEST_STREAM};
ghost use Rattle.bit_tree.specs.declared.starts.given.TheConstants.{MOST_DEFINITIONS};
ghost use Rattle.bit_dump.specs.Walk.Starts.{no_abbreviation, abbreviation_at, IsKept};

use crate::walk::spelling::{WalkedSpelling, no_abbreviation};
use bit_stream::bits::BitCursor;
use bit_stream::{AdmittedAbbreviation, StreamFault, defined_abbreviation};
use bit_tree::starts::MOST_DEFINITIONS;
use std::alloc::{AllocError, Global};
use std::marker::Model;

/// The bits where some definitions start, in order.
#[derive(Drop)]
pub struct StartList {
    bits: Vec<u32>,
}

impl Model for StartList {
    ghost use Rattle.std.specs.Prelude.{List, ℕ, ◌≤◌, length};
    ghost use Rattle.bit_tree.specs.declared.starts.given.TheConstants.{MOST_DEFINITIONS};

    ghost Value = { List ℕ };

    ghost view = { λ list. list.bits.items };

    ghost invariant = { λ list. length list.bits.items ≤ MOST_DEFINITIONS };
}

impl StartList {
    /// No definitions.
    pub fn new(alloc: Global) -> Self
        ensures { result ≡ [] }
    {
        StartList {
            bits: Vec::new(alloc),
        }
    }

    /// How many there are.
    pub fn len(&self) -> usize
        ensures value { result ≡ length self.now }
        ensures few { result ≤ MOST_DEFINITIONS }
    {
        self.bits.len()
    }

    /// The one with this index.
    pub fn get(&self, index: usize) -> Option<u32>
        ensures { result ≡ slice_get self.now index }
    {
        self.bits.as_slice().get(index).copied()
    }

    /// Adds one at the end. Where the list is full there is no memory for it.
    pub fn push(&mut self, bit: u32) -> Result<(), AllocError>
        ensures { OnOk result (self.new ≡ self.old ++ bit ∷ []) }
    {
        if self.bits.len() >= MOST_DEFINITIONS {
            return Err(AllocError);
        }
        self.bits.push(bit)?;
        Ok(())
    }
}

/// The abbreviation whose definition starts at a bit, or that of no operands where none does.
#[tactic(auto, using(crate::proofs::OnWalk::Definitions::beyond))]
fn abbreviation_at(
    alloc: Global,
    bytes: &[u8],
    bit: u32,
) -> Result<AdmittedAbbreviation, AllocError>
    requires { length bytes.now ≤ LARGEST_STREAM }
    ensures { IfOk result (λ abbreviation. abbreviation ≡ abbreviation_at (stream_bits bytes.now) bit) }
{
    let bit = u64::from(bit);
    if bit > 8 * bytes.len() as u64 {
        return Ok(no_abbreviation(alloc));
    }
    let mut cursor = BitCursor::at_bit(bytes, bit);
    match defined_abbreviation(&mut cursor, alloc) {
        Ok(abbreviation) => Ok(abbreviation),
        Err(StreamFault::Bit(_)) => Ok(no_abbreviation(alloc)),
        Err(StreamFault::Memory) => Err(AllocError),
    }
}

/// The abbreviation that was read last, and the bit where its definition starts, if it was read by that.
#[derive(Drop)]
pub struct Kept {
    pub start: Option<u32>,
    pub abbreviation: WalkedSpelling,
}

impl Kept {
    /// None was read.
    pub fn nothing(alloc: Global) -> Self
        ensures { (bits : List Bool) → IsKept bits result.start result.abbreviation }
    {
        Kept {
            start: None,
            abbreviation: WalkedSpelling::nothing(alloc),
        }
    }

    /// Keeps the abbreviation whose definition starts at a bit.
    pub fn fetch(&mut self, alloc: Global, bytes: &[u8], bit: u32) -> Result<(), AllocError>
        requires short { length bytes.now ≤ LARGEST_STREAM }
        requires kept { IsKept (stream_bits bytes.now) self.old.start self.old.abbreviation }
        ensures kept { OnOk result (IsKept (stream_bits bytes.now) self.new.start self.new.abbreviation) }
        ensures fetched { OnOk result (self.new.abbreviation ≡ abbreviation_at (stream_bits bytes.now) bit) }
    {
        if let Some(start) = self.start {
            if start == bit {
                return Ok(());
            }
        }
        let abbreviation = abbreviation_at(alloc, bytes, bit)?;
        self.keep(alloc, bit, abbreviation)
    }

    /// Keeps an abbreviation whose definition starts at this bit.
    pub fn keep(
        &mut self,
        alloc: Global,
        bit: u32,
        abbreviation: AdmittedAbbreviation,
    ) -> Result<(), AllocError>
        ensures start { OnOk result (self.new.start ≡ Some bit) }
        ensures abbreviation { OnOk result (self.new.abbreviation ≡ abbreviation) }
    {
        *self = Kept {
            start: Some(bit),
            abbreviation: WalkedSpelling::new(alloc, abbreviation)?,
        };
        Ok(())
    }
}
