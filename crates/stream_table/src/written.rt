//! What a writer writes.
ghost use Rattle.std.specs.Prelude.{◌≡◌, [], ◌∷◌, IfOk};

use bit_stream::{AbbrevOp, Abbreviation, BitWriter};
use ir_base::Text;
use std::alloc::{AllocError, Global};

/// What this name stands for, written.
pub fn answer(alloc: Global, name: &str) -> Result<String, AllocError> {
    let text = match name {
        "forty" => forty(alloc)?,
        "first block" => first_block(alloc)?,
        "two blocks" => two_blocks(alloc)?,
        _ => Text::new(alloc),
    };
    let mut out = String::new(alloc);
    for byte in text.bytes() {
        write!(&mut out, "{byte:02x}")?;
    }
    Ok(out)
}

/// The number 40 in chunks of 6 bits.
fn forty(alloc: Global) -> Result<Text, AllocError> {
    let mut writer = BitWriter::new(alloc)?;
    writer.vbr::<6>(40)?;
    Ok(writer.finish())
}

/// A code and the bytes behind it.
fn text_abbreviation(alloc: Global) -> Result<Abbreviation, AllocError>
    ensures { IfOk result (λ abbreviation. abbreviation ≡ AbbrevOp.Vbr 6 ∷ AbbrevOp.Array ∷ AbbrevOp.Fixed 8 ∷ []) }
{
    let mut abbreviation = Abbreviation::new(alloc);
    abbreviation.push(AbbrevOp::Vbr(6))?;
    abbreviation.push(AbbrevOp::Array)?;
    abbreviation.push(AbbrevOp::Fixed(8))?;
    Ok(abbreviation)
}

/// The first block of a module: one record, by an abbreviation that the block defines.
#[tactic(auto, unfolding(bit_stream::specs::Spelling::abbreviation_for, bit_stream::specs::Spelling::rest_of, bit_stream::specs::Spelling::record_fits, bit_stream::specs::Spelling::each_fit, bit_stream::specs::Spelling::tail_fits))]
fn first_block(alloc: Global) -> Result<Text, AllocError> {
    let abbreviation = text_abbreviation(alloc)?;
    let mut writer = BitWriter::new(alloc)?;
    writer.enter(13, 3)?;
    let id = writer.define_abbreviation(&abbreviation)?;
    let profile = [
        105, 110, 116, 101, 103, 101, 114, 32, 112, 114, 111, 102, 105, 108, 101, 32, 49,
    ];
    writer.abbreviated(id, 1, &profile)?;
    writer.end_block()?;
    Ok(writer.finish())
}

/// A block with a record and a block inside it, and a field of 4 bits behind it.
fn two_blocks(alloc: Global) -> Result<Text, AllocError> {
    let mut writer = BitWriter::new(alloc)?;
    writer.enter(8, 3)?;
    writer.put_record(1, &[1, 40])?;
    writer.enter(17, 4)?;
    writer.end_block()?;
    writer.end_block()?;
    writer.fixed::<4>(9)?;
    Ok(writer.finish())
}
