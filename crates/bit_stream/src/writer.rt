//! The writer of a stream.
ghost use Rattle.std.specs.Prelude.{◌≡◌, ℕ, ◌+◌, ◌-◌, ◌<◌, ◌≤◌, ◌^◌, ◌++◌, ◌≢◌, true, false, length, [], IfOk, OnOk, IsSome, Some, List};
ghost use Rattle.bit_stream.specs.Bits.Bits.{bits_of, stream_bits};
ghost use Rattle.bit_stream.specs.Bits.Writing.{vbr_bits, byte_pad};
ghost use Rattle.bit_stream.specs.declared.abbreviation.TheConstants.{WIDEST_CHUNK, WIDEST_FIELD};
ghost use Rattle.bit_stream.specs.declared.item.TheConstants.{ID_LIMIT};
ghost use Rattle.bit_stream.specs.Scope.{abbreviation_of};
ghost use Rattle.bit_stream.specs.Spelling.{abbreviation_for, record_fits};
ghost use Rattle.bit_stream.specs.Writer.{begun, write, enter, end_block, define, in_force, with_abbreviation, after_record, abbreviated as with_abbreviated, put_record, Writes};

use crate::Abbreviation;
use crate::abbreviation::{AdmittedAbbreviation, ChunkWidth};
use crate::bits::{BitSink, WholeWords};
use crate::reader::MAGIC;
use crate::scope::Scope;
use crate::spelling::{abbreviation_for, put_abbreviated, put_definition, put_record};
use ir_base::Text;
use std::alloc::{AllocError, Global};
use std::marker::Model;
use std::mem;

// The abbreviation ids that every block has.
const END_BLOCK: u64 = 0;

const ENTER_SUBBLOCK: u64 = 1;

const DEFINE_ABBREV: u64 = 2;

const UNABBREV_RECORD: u64 = 3;

/// A writer of the entries of a stream, in order. After want of memory it is spent: every later call answers that.
///
/// The bits of each open block are kept apart until it ends, when its count of words is known.
#[derive(Drop)]
pub struct BitWriter {
    bits: BitSink,
    around: Vec<WholeWords>,
    scope: Scope,
    spent: bool,
    alloc: Global,
}

impl Model for BitWriter {
    ghost use Rattle.bit_stream.specs.Writer.{Writer};

    ghost Value = { Writer };

    ghost view = { λ w. record { bits = w.bits; around = w.around.items; scope = w.scope; spent = w.spent } };
}

impl BitWriter {
    /// A writer of the bytes 42 43 C0 DE.
    pub fn new(alloc: Global) -> Result<BitWriter, AllocError>
        ensures { IfOk result (λ writer. writer ≡ begun) }
    {
        let mut bits = BitSink::new(alloc)?;
        bits.fixed(MAGIC, 32)?;
        Ok(BitWriter {
            bits,
            around: Vec::new(alloc),
            scope: Scope::new(alloc),
            spent: false,
            alloc,
        })
    }

    /// Adds the number in `W` bits.
    pub fn fixed<const W: u32>(&mut self, value: u64) -> Result<(), AllocError>
        requires low { 1 ≤ W }
        requires high { W ≤ WIDEST_FIELD }
        requires fits { value < 2 ^ W }
        ensures { Writes self.old.spent self.old (write self.old (bits_of W value)) result self.new }
    {
        if self.spent {
            return Err(AllocError);
        }
        self.spent = true;
        self.bits.fixed(value, W)?;
        self.spent = false;
        Ok(())
    }

    /// Adds the number in chunks of `W` bits, as few as it has.
    pub fn vbr<const W: u32>(&mut self, value: u64) -> Result<(), AllocError>
        requires low { 2 ≤ W }
        requires high { W ≤ WIDEST_CHUNK }
        ensures { Writes self.old.spent self.old (write self.old (vbr_bits 64 W value)) result self.new }
    {
        if self.spent {
            return Err(AllocError);
        }
        self.spent = true;
        self.bits.vbr(value, W)?;
        self.spent = false;
        Ok(())
    }

    /// Begins a block, whose abbreviation ids have `width` bits.
    pub fn enter(&mut self, block: u32, width: u32) -> Result<(), AllocError>
        requires low { 2 ≤ width }
        requires high { width ≤ WIDEST_CHUNK }
        ensures { Writes self.old.spent self.old (enter self.old block width) result self.new }
    {
        if self.spent {
            return Err(AllocError);
        }
        self.spent = true;
        put_id(&mut self.bits, self.scope.width(), ENTER_SUBBLOCK)?;
        self.bits.vbr(u64::from(block), 8)?;
        self.bits.vbr(u64::from(width), 4)?;
        self.bits.align()?;
        let inside = BitSink::new(self.alloc)?;
        let around = mem::replace(&mut self.bits, inside);
        self.around.push(WholeWords::new(around))?;
        self.scope.enter(block, ChunkWidth::new(width), 0, 0)?;
        self.spent = false;
        Ok(())
    }

    /// Ends the innermost open block. Its count of words is written modulo 2^32.
    pub fn end_block(&mut self) -> Result<(), AllocError>
        requires { self.old.spent ≡ false → 0 < length self.old.around }
        ensures { Writes self.old.spent self.old (end_block self.old) result self.new }
    {
        if self.spent {
            return Err(AllocError);
        }
        self.spent = true;
        put_id(&mut self.bits, self.scope.width(), END_BLOCK)?;
        self.bits.align()?;
        let Some(around) = self.around.pop() else {
            unreachable!()
        };
        self.bits = around.with_counted(&self.bits)?;
        self.scope.leave();
        self.spent = false;
        Ok(())
    }

    /// Defines an abbreviation that the format admits, and answers its id. It is the block's own or, in BLOCKINFO, for
    /// the block that the last record of code 1 named.
    pub fn define_abbreviation(&mut self, abbreviation: &Abbreviation) -> Result<u32, AllocError>
        requires open { self.old.spent ≡ false → 0 < length self.old.around }
        requires admitted { IsSome (abbreviation_for abbreviation.now) }
        requires room { self.old.spent ≡ false → in_force self.old.scope + 4 < ID_LIMIT }
        ensures id { IfOk result (λ id. id ≡ in_force self.old.scope + 4) }
        ensures written { Writes self.old.spent self.old (define self.old abbreviation.now) result self.new }
    {
        if self.spent {
            return Err(AllocError);
        }
        self.spent = true;
        let operands = abbreviation.as_slice();
        let Some(admitted) = abbreviation_for(self.alloc, operands)? else {
            unreachable!()
        };
        put_id(&mut self.bits, self.scope.width(), DEFINE_ABBREV)?;
        put_definition(&mut self.bits, operands)?;
        let id = self.scope.in_force() as u32 + 4;
        add_definition(&mut self.scope, admitted)?;
        self.spent = false;
        Ok(id)
    }

    /// Adds a record by the abbreviation of an id, which its code and operands fit. What is beyond the operands that the
    /// abbreviation spells one by one are the elements of its array or the bytes of its blob.
    #[tactic(auto, unfolding(crate::specs::Spelling::record_fits))]
    pub fn abbreviated(&mut self, id: u32, code: u32, operands: &[u64]) -> Result<(), AllocError>
        requires open { self.old.spent ≡ false → 0 < length self.old.around }
        requires low { 4 ≤ id }
        requires narrow { self.old.spent ≡ false → id < 2 ^ self.old.scope.block.width }
        requires fits { self.old.spent ≡ false → record_fits (abbreviation_of self.old.scope id) code operands.now ≡ true }
        ensures { Writes self.old.spent self.old (with_abbreviated self.old id code operands.now) result self.new }
    {
        if self.spent {
            return Err(AllocError);
        }
        self.spent = true;
        self.bits.fixed(u64::from(id), self.scope.width().bits())?;
        let Some(abbreviation) = self.scope.abbreviation(u64::from(id)) else {
            unreachable!()
        };
        put_abbreviated(&mut self.bits, abbreviation, code, operands)?;
        after_record(&mut self.scope, code, operands);
        self.spent = false;
        Ok(())
    }

    /// Adds a record without an abbreviation.
    pub fn put_record(&mut self, code: u32, operands: &[u64]) -> Result<(), AllocError>
        requires { self.old.spent ≡ false → 0 < length self.old.around }
        ensures { Writes self.old.spent self.old (put_record self.old code operands.now) result self.new }
    {
        if self.spent {
            return Err(AllocError);
        }
        self.spent = true;
        put_id(&mut self.bits, self.scope.width(), UNABBREV_RECORD)?;
        put_record(&mut self.bits, code, operands)?;
        after_record(&mut self.scope, code, operands);
        self.spent = false;
        Ok(())
    }

    /// The bytes. Where the bits end inside a byte, that byte is filled with zero bits.
    pub fn finish(self) -> Text
        requires none_open { self.around ≡ [] }
        requires unspent { self.spent ≡ false }
        ensures { stream_bits result ≡ self.bits ++ byte_pad (length self.bits) }
    {
        self.bits.finish()
    }
}

/// In BLOCKINFO a record of code 1 names the block that definitions are for.
fn after_record(scope: &mut Scope, code: u32, operands: &[u64])
    ensures { scope.new ≡ after_record scope.old code operands.now }
{
    if scope.is_blockinfo() && code == 1 {
        if let [id, ..] = operands {
            scope.set_target(*id);
        }
    }
}

/// A definition of the block's own or, in BLOCKINFO, for the block that it names.
fn add_definition(scope: &mut Scope, abbreviation: AdmittedAbbreviation) -> Result<(), AllocError>
    ensures { OnOk result (scope.new ≡ with_abbreviation scope.old (Some abbreviation)) }
{
    if !scope.is_blockinfo() {
        return scope.define(abbreviation);
    }
    match scope.target() {
        Some(id) => scope.give(id, abbreviation),
        None => Ok(()),
    }
}

/// One of the ids that every block has.
fn put_id(sink: &mut BitSink, width: ChunkWidth, id: u64) -> Result<(), AllocError>
    requires { id < 4 }
    ensures { OnOk result (sink.new ≡ sink.old ++ bits_of width id) }
{
    sink.fixed(id, width.bits())
}
