//! What a reader tells.
ghost use Rattle.std.specs.Prelude.{◌≤◌, length};
ghost use Rattle.bit_stream.specs.declared.reader.TheConstants.{LARGEST_STREAM};

use bit_stream::{AbbrevOp, BitFault, BitFaultKind, BitReader, Entry, StreamFault};
use std::alloc::{AllocError, Global};

/// The most entries that are told of one stream.
const MOST: u32 = 10_000;

/// The word of a kind of fault.
pub fn kind_word(kind: BitFaultKind) -> &'static str {
    match kind {
        BitFaultKind::BadMagic => "BadMagic",
        BitFaultKind::Truncated => "Truncated",
        BitFaultKind::BadAbbreviation => "BadAbbreviation",
        BitFaultKind::VbrTooLong => "VbrTooLong",
        BitFaultKind::BadBlockLength => "BadBlockLength",
        BitFaultKind::NestedTooDeep => "NestedTooDeep",
    }
}

/// The word of a fault, and its bit.
pub fn put_fault(out: &mut String, fault: BitFault) -> Result<(), AllocError> {
    let (word, bit) = (kind_word(fault.kind), fault.bit);
    write!(out, "{word} {bit}")
}

/// The word of what stopped the reading, and its bit where it is a fault.
pub fn put_stop(out: &mut String, fault: StreamFault) -> Result<(), AllocError> {
    match fault {
        StreamFault::Bit(fault) => put_fault(out, fault),
        StreamFault::Memory => out.push_str("out of memory"),
    }
}

/// Numbers, each behind a space.
pub fn put_numbers(out: &mut String, numbers: &[u64]) -> Result<(), AllocError> {
    for number in numbers {
        write!(out, " {number}")?;
    }
    Ok(())
}

/// Bytes, each behind a space.
pub fn put_bytes(out: &mut String, bytes: &[u8]) -> Result<(), AllocError> {
    for byte in bytes {
        write!(out, " {byte}")?;
    }
    Ok(())
}

fn put_operand(out: &mut String, operand: AbbrevOp) -> Result<(), AllocError> {
    match operand {
        AbbrevOp::Literal(number) => write!(out, " literal {number}"),
        AbbrevOp::Fixed(width) => write!(out, " fixed {width}"),
        AbbrevOp::Vbr(width) => write!(out, " vbr {width}"),
        AbbrevOp::Array => out.push_str(" array"),
        AbbrevOp::Char6 => out.push_str(" char6"),
        AbbrevOp::Blob => out.push_str(" blob"),
    }
}

/// The definitions in front of an entry, the first for this id.
fn put_definitions(out: &mut String, first: u64, reader: &BitReader) -> Result<(), AllocError> {
    for (index, definition) in reader.definitions().as_slice().iter().enumerate() {
        let id = first.saturating_add(index as u64);
        write!(out, "define {id}:")?;
        for operand in definition.as_slice() {
            put_operand(out, *operand)?;
        }
        out.push_str("; ")?;
    }
    Ok(())
}

fn put_record(out: &mut String, code: u32, reader: &BitReader) -> Result<(), AllocError> {
    let id = reader.entry_abbreviation();
    write!(out, "record {code} by {id}:")?;
    put_numbers(out, reader.operands())?;
    if reader.has_blob() {
        out.push_str(" blob")?;
        put_bytes(out, reader.blob())?;
    }
    out.push_str("; ")
}

fn put_block(out: &mut String, id: u32, reader: &BitReader) -> Result<(), AllocError> {
    let width = reader.entry_width();
    let words = reader.entry_words();
    write!(out, "block {id} width {width} words {words}; ")
}

/// The next entry and the definitions in front of it, or the fault. Tells whether more may follow.
fn put_next(out: &mut String, reader: &mut BitReader) -> Result<bool, AllocError> {
    let first = reader.next_abbreviation();
    let entry = match reader.next_entry() {
        Ok(entry) => entry,
        Err(fault) => {
            put_stop(out, fault)?;
            return Ok(false);
        }
    };
    put_definitions(out, first, reader)?;
    match entry {
        Entry::Block(id) => put_block(out, id, reader)?,
        Entry::EndBlock => out.push_str("end; ")?,
        Entry::Record(code) => put_record(out, code, reader)?,
        Entry::End => out.push_str("whole")?,
    }
    Ok(!matches!(entry, Entry::End))
}

/// All entries and definitions, up to the end of the stream or its first fault.
pub fn all(alloc: Global, bytes: &[u8]) -> Result<String, AllocError>
    requires { length bytes.now ≤ LARGEST_STREAM }
{
    let mut out = String::new(alloc);
    let mut reader = match BitReader::new(alloc, bytes) {
        Ok(reader) => reader,
        Err(fault) => {
            put_fault(&mut out, fault)?;
            return Ok(out);
        }
    };
    for _ in 0..MOST {
        if !put_next(&mut out, &mut reader)? {
            break;
        }
    }
    Ok(out)
}

/// The sum of each number times its place from 1.
fn sum_by_place(numbers: &[u64]) -> u64 {
    let mut sum: u64 = 0;
    for (index, number) in numbers.iter().enumerate() {
        sum = sum.wrapping_add(number.wrapping_mul((index as u64).wrapping_add(1)));
    }
    sum
}

/// A record by its code, its count of operands, the sum of each operand times its place, and the length of its blob.
fn put_sums(out: &mut String, code: u32, reader: &BitReader) -> Result<(), AllocError> {
    let count = reader.operands().len();
    let sum = sum_by_place(reader.operands());
    let size = reader.blob().len();
    write!(out, "{code} {count} {sum} {size}; ")
}

/// The next entry, shortly where it is not in BLOCKINFO, or the fault. Tells whether more may follow.
fn put_shortly(
    out: &mut String,
    reader: &mut BitReader,
    hidden: &mut bool,
) -> Result<bool, AllocError> {
    match reader.next_entry() {
        Ok(Entry::Block(0)) => *hidden = true,
        Ok(Entry::EndBlock) if *hidden => *hidden = false,
        Ok(_) if *hidden => {}
        Ok(Entry::Block(id)) => write!(out, "block {id}; ")?,
        Ok(Entry::EndBlock) => out.push_str("end; ")?,
        Ok(Entry::Record(code)) => put_sums(out, code, reader)?,
        Ok(Entry::End) => return Ok(false),
        Err(fault) => {
            put_stop(out, fault)?;
            return Ok(false);
        }
    }
    Ok(true)
}

/// The entries that are not in BLOCKINFO, shortly.
pub fn sums(alloc: Global, bytes: &[u8]) -> Result<String, AllocError>
    requires { length bytes.now ≤ LARGEST_STREAM }
{
    let mut out = String::new(alloc);
    let Ok(mut reader) = BitReader::new(alloc, bytes) else {
        return Ok(out);
    };
    let mut hidden = false;
    for _ in 0..MOST {
        if !put_shortly(&mut out, &mut reader, &mut hidden)? {
            break;
        }
    }
    Ok(out)
}

/// A number in chunks of 6 bits and one of 4 bits.
pub fn fields(alloc: Global, bytes: &[u8]) -> Result<String, AllocError>
    requires { length bytes.now ≤ LARGEST_STREAM }
{
    let mut out = String::new(alloc);
    let Ok(mut reader) = BitReader::new(alloc, bytes) else {
        return Ok(out);
    };
    if let Ok(number) = reader.vbr::<6>() {
        if let Ok(rest) = reader.fixed::<4>() {
            write!(&mut out, "{number} {rest}")?;
        }
    }
    Ok(out)
}
