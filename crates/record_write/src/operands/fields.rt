//! Texts, names, codes and numbers as operands.
ghost use Rattle.std.specs.Prelude.{◌≡◌, ◌++◌, ◌∷◌, [], OnOk};
ghost use Rattle.ir_tables.specs.Linkage.{linkage_code};
ghost use Rattle.module_arena.specs.View.{local_view};
ghost use Rattle.record_table.specs.Fields.{alignment, bool_code, index, label, linkage};
ghost use Rattle.record_table.specs.Layout.{counted};
ghost use Rattle.record_table.specs.Standing.{HasCode};
ghost use Rattle.record_write.specs.Operands.Numbered.{texts};

use crate::operands::Numbering;
use ir_tables::Linkage;
use module_arena::LocalName;
use std::alloc::AllocError;

/// Appends a number.
pub fn put_number(operands: &mut Vec<u64>, number: u64) -> Result<(), AllocError>
    ensures { OnOk result (operands.new.items ≡ operands.old.items ++ number ∷ []) }
{
    operands.push(number)?;
    Ok(())
}

/// Appends a text of the module by its offset and its size in bytes.
pub fn put_text(
    operands: &mut Vec<u64>,
    numbering: &Numbering<'_>,
    text: &[u8],
) -> Result<(), AllocError>
    ensures { OnOk result (operands.new.items ≡ operands.old.items ++ (texts numbering.now).middle.spell text.now) }
{
    put_number(operands, numbering.offset(text))?;
    put_count(operands, text.len())?;
    Ok(())
}

/// Appends what a parameter, block or result is called: 0 where it has a number, else one more than the size of its name
/// and the name's offset.
pub fn put_label(
    operands: &mut Vec<u64>,
    numbering: &Numbering<'_>,
    name: &LocalName,
) -> Result<(), AllocError>
    ensures { OnOk result (operands.new.items ≡ operands.old.items ++ (label (texts numbering.now) 0).spell (local_view name.now)) }
{
    match name {
        LocalName::Numbered(_) => put_number(operands, 0),
        LocalName::Named(name) => {
            let text = name.text().bytes();
            put_number(operands, text.len() as u64 + 1)?;
            put_number(operands, numbering.offset(text))
        }
    }
}

/// 0, or one more than the binary logarithm of an alignment in bytes, which is a power of two.
fn alignment_code(align: Option<u32>) -> u64
    ensures { HasCode align → alignment.spell align ≡ result ∷ [] }
{
    match align {
        Some(bytes) => u64::from(bytes.trailing_zeros()) + 1,
        None => 0,
    }
}

/// Appends 0, or one more than the binary logarithm of an alignment in bytes, which is a power of two of at most 65,536.
pub fn put_alignment(operands: &mut Vec<u64>, align: Option<u32>) -> Result<(), AllocError>
    ensures { HasCode align → OnOk result (operands.new.items ≡ operands.old.items ++ alignment.spell align) }
{
    put_number(operands, alignment_code(align))
}

/// Appends 1 or 0.
pub fn put_flag(operands: &mut Vec<u64>, flag: bool) -> Result<(), AllocError>
    ensures { OnOk result (operands.new.items ≡ operands.old.items ++ bool_code flag ∷ []) }
{
    put_number(operands, u64::from(flag))?;
    Ok(())
}

/// Appends the code of a linkage.
pub fn put_linkage(operands: &mut Vec<u64>, of: Linkage) -> Result<(), AllocError>
    ensures { OnOk result (operands.new.items ≡ operands.old.items ++ linkage.spell of) }
{
    put_number(operands, u64::from(of.code()))?;
    Ok(())
}

/// Appends how many there are of something.
pub fn put_count(operands: &mut Vec<u64>, count: usize) -> Result<(), AllocError>
    ensures { OnOk result (operands.new.items ≡ operands.old.items ++ count ∷ []) }
{
    put_number(operands, count as u64)?;
    Ok(())
}

/// Appends an index.
pub(crate) fn put_index(operands: &mut Vec<u64>, number: u32) -> Result<(), AllocError>
    ensures { OnOk result (operands.new.items ≡ operands.old.items ++ number ∷ []) }
{
    put_number(operands, u64::from(number))
}

/// Appends a count, and so many indices.
pub fn put_indices(operands: &mut Vec<u64>, indices: &[u32]) -> Result<(), AllocError>
    ensures { OnOk result (operands.new.items ≡ operands.old.items ++ (counted index).spell indices.now) }
{
    put_count(operands, indices.len())?;
    'parts: for part in indices {
        put_index(operands, *part)?;
    }
    Ok(())
}
