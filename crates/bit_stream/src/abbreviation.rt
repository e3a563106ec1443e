//! Abbreviations: how the values of a record are spelled (LLVM Bitcode File Format, "Abbreviations").
ghost use Rattle.std.specs.Prelude.{◌≡◌, ℕ, ◌≤◌, ◌++◌, map, IfOk, OnOk};
ghost use Rattle.bit_stream.specs.Abbreviation.{op_of, tail_ops, ops_of, is_blob};

use ir_base::ItemList;
use std::alloc::{AllocError, Global};
use std::marker::Model;

/// The widest field of a value, in bits.
pub const WIDEST_FIELD: u32 = 64;

/// The widest chunk of a number, and the widest abbreviation id of a block, in bits.
pub const WIDEST_CHUNK: u32 = 32;

/// The most operands of an abbreviation, that of the code among them.
pub const MOST_OPERANDS: usize = 64;

/// An operand of an abbreviation, as it is defined. Widths are in bits.
///
/// ```
/// // of records of bytes, whose code takes 6 bits or more: the code, a count, and 8 bits a byte
/// [AbbrevOp::Vbr(6), AbbrevOp::Array, AbbrevOp::Fixed(8)]
/// ```
#[derive(Clone, Copy)]
pub enum AbbrevOp {
    /// The value itself; a record spells nothing.
    Literal(u64),
    /// A field of this width, at most 64. A width of 0 stands for the literal 0.
    Fixed(u32),
    /// A number in chunks of this width, from 2 to 32. A width of 0 stands for the literal 0.
    Vbr(u32),
    /// A count and so many values, each spelled by the operand that follows, the last.
    Array,
    /// One of the 64 characters that names are made of, in 6 bits.
    Char6,
    /// A count and so many bytes. It stands last.
    Blob,
}

/// The operands of an abbreviation, in order.
pub type Abbreviation = ItemList<AbbrevOp>;

/// Some abbreviations, in order.
pub type AbbreviationList = ItemList<Abbreviation>;

/// The width of a field, in bits: at most 64.
#[derive(Clone, Copy)]
pub struct FieldWidth {
    bits: u32,
}

impl Model for FieldWidth {
    ghost use Rattle.std.specs.Prelude.{ℕ, ◌≤◌};
    ghost use Rattle.bit_stream.specs.declared.abbreviation.TheConstants.{WIDEST_FIELD};

    ghost Value = { ℕ };

    ghost view = { λ width. width.bits };

    ghost invariant = { λ width. width.bits ≤ WIDEST_FIELD };

    ghost inverse = { λ bits. record { bits = bits } };
}

impl FieldWidth {
    /// The width of so many bits.
    pub fn new(bits: u32) -> Self
        requires { bits ≤ WIDEST_FIELD }
        ensures { result ≡ bits }
    {
        FieldWidth { bits }
    }

    /// The bits, at most 64.
    pub fn bits(self) -> u32
        ensures value { result ≡ self }
        ensures high { result ≤ WIDEST_FIELD }
    {
        self.bits
    }
}

/// The width of the chunks of a number or of the abbreviation ids of a block, in bits: from 2 to 32.
#[derive(Clone, Copy)]
pub struct ChunkWidth {
    bits: u32,
}

impl Model for ChunkWidth {
    ghost use Rattle.std.specs.Prelude.{ℕ, ◌≤◌};
    ghost use Rattle.bit_stream.specs.declared.abbreviation.TheConstants.{WIDEST_CHUNK};

    ghost Value = { ℕ };

    ghost view = { λ width. width.bits };

    ghost invariant = { λ width. (2 ≤ width.bits) × (width.bits ≤ WIDEST_CHUNK) };

    ghost inverse = { λ bits. record { bits = bits } };
}

impl ChunkWidth {
    /// The width of so many bits.
    pub fn new(bits: u32) -> Self
        requires low { 2 ≤ bits }
        requires high { bits ≤ WIDEST_CHUNK }
        ensures { result ≡ bits }
    {
        ChunkWidth { bits }
    }

    /// The bits, from 2 to 32.
    pub fn bits(self) -> u32
        ensures value { result ≡ self }
        ensures low { 2 ≤ result }
        ensures high { result ≤ WIDEST_CHUNK }
    {
        self.bits
    }
}

/// How one value is spelled.
///
/// ```
/// ValueSpelling::Field(FieldWidth::new(1)) // in one bit
/// ValueSpelling::Chunks(ChunkWidth::new(6)) // in chunks of 6 bits
/// ```
#[derive(Clone, Copy)]
pub enum ValueSpelling {
    /// Not at all: it is this value.
    Known(u64),
    /// As a field.
    Field(FieldWidth),
    /// In chunks.
    Chunks(ChunkWidth),
    /// As one of the 64 characters.
    Letter,
}

impl ValueSpelling {
    /// The operand that defines it.
    fn op(self) -> AbbrevOp
        ensures { result ≡ op_of self }
    {
        match self {
            ValueSpelling::Known(number) => AbbrevOp::Literal(number),
            ValueSpelling::Field(width) => AbbrevOp::Fixed(width.bits()),
            ValueSpelling::Chunks(width) => AbbrevOp::Vbr(width.bits()),
            ValueSpelling::Letter => AbbrevOp::Char6,
        }
    }
}

/// What follows the values of a record that are spelled one by one.
///
/// ```
/// Tail::Elements(ValueSpelling::Letter) // a count, and so many characters, 6 bits each
/// ```
#[derive(Clone, Copy)]
pub enum Tail {
    /// Nothing.
    NoTail,
    /// A count, and so many values that are spelled so.
    Elements(ValueSpelling),
    /// A count, and so many bytes.
    Bytes,
}

impl Tail {
    /// Whether it is a blob.
    pub fn is_blob(self) -> bool
        ensures { result ≡ is_blob self }
    {
        match self {
            Tail::Bytes => true,
            Tail::NoTail | Tail::Elements(_) => false,
        }
    }
}

/// An abbreviation that the format admits: the spelling of the code, of each operand, and of what follows.
///
/// ```
/// // that of AbbrevOp::Vbr(6), AbbrevOp::Fixed(8) and AbbrevOp::Blob
/// AdmittedAbbreviation {
///     code: ValueSpelling::Chunks(ChunkWidth::new(6)),
///     operands, // ValueSpelling::Field of 8 bits
///     tail: Tail::Bytes,
/// }
/// ```
#[derive(Drop)]
pub struct AdmittedAbbreviation {
    pub code: ValueSpelling,
    pub operands: Vec<ValueSpelling>,
    pub tail: Tail,
}

impl Model for AdmittedAbbreviation {
    ghost use Rattle.bit_stream.specs.Abbreviation.{AdmittedAbbreviation};

    ghost Value = { AdmittedAbbreviation };

    ghost view = { λ t. record { code = t.code; operands = t.operands.items; tail = t.tail } };
}

impl AdmittedAbbreviation {
    /// The operands that define it.
    pub fn abbreviation(&self, alloc: Global) -> Result<Abbreviation, AllocError>
        ensures { IfOk result (λ list. list ≡ ops_of self.now) }
    {
        let mut ops = Abbreviation::new(alloc);
        ops.push(self.code.op())?;
        add_ops(&mut ops, &self.operands)?;
        add_tail_ops(&mut ops, self.tail)?;
        Ok(ops)
    }
}

/// The operands that define some values.
fn add_ops(ops: &mut Abbreviation, scalars: &[ValueSpelling]) -> Result<(), AllocError>
    ensures { OnOk result (ops.new ≡ ops.old ++ map op_of scalars.now) }
{
    for scalar in scalars {
        ops.push(scalar.op())?;
    }
    Ok(())
}

/// The operands that define what follows the values.
fn add_tail_ops(ops: &mut Abbreviation, tail: Tail) -> Result<(), AllocError>
    ensures { OnOk result (ops.new ≡ ops.old ++ tail_ops tail) }
{
    match tail {
        Tail::NoTail => Ok(()),
        Tail::Elements(scalar) => {
            ops.push(AbbrevOp::Array)?;
            ops.push(scalar.op())
        }
        Tail::Bytes => ops.push(AbbrevOp::Blob),
    }
}
