//! Blocks of one record of bytes.
ghost use Rattle.std.specs.Prelude.{◌≡◌, ◌≢◌, ◌<◌, All, OnOk, IfOk};
ghost use Rattle.bit_tree.specs.Written.{no_more};
ghost use Rattle.record_table.specs.Spelling.{of_bytes, put_bytes};
ghost use Rattle.bitcode_write.specs.Put.{IsOutside, PutsOutside};

use crate::records::RecordSink;
use bit_stream::{AbbrevOp, Abbreviation};
use record_table::TEXT;
use std::alloc::{AllocError, Global};

/// How many bits the chunks of a record's code have.
const CODE_CHUNK: u32 = 6;

/// How many bits a byte has.
const BYTE_WIDTH: u32 = 8;

/// An abbreviation for bytes behind a code.
fn bytes_shape(alloc: Global) -> Result<Abbreviation, AllocError>
    ensures { IfOk result (λ shape. shape ≡ of_bytes) }
{
    let mut shape = Abbreviation::new(alloc);
    shape.push(AbbrevOp::Vbr(CODE_CHUNK))?;
    shape.push(AbbrevOp::Array)?;
    shape.push(AbbrevOp::Fixed(BYTE_WIDTH))?;
    Ok(shape)
}

/// Writes a block of that id, which is not that of BLOCKINFO, with one record of bytes.
pub(crate) fn put_byte_block(
    out: &mut RecordSink,
    alloc: Global,
    id: u32,
    bytes: &[u64],
) -> Result<(), AllocError>
    requires outside { IsOutside out.old.writer }
    requires ordinary { id ≢ 0 }
    requires bytes { All (λ byte. byte < 256) bytes.now }
    ensures put { OnOk result (PutsOutside out.old.writer (put_bytes id bytes.now no_more) out.new.writer) }
    ensures kept { OnOk result (out.new.operands.items ≡ out.old.operands.items) }
{
    let shape = bytes_shape(alloc)?;
    out.enter(id)?;
    let abbreviation = out.writer.define_abbreviation(&shape)?;
    out.writer.abbreviated(abbreviation, TEXT, bytes)?;
    out.leave()?;
    Ok(())
}
