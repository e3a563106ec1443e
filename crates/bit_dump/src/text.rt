//! The lines that tell a stream.
ghost use Rattle.std.specs.Prelude.{◌≡◌, ◌++◌, OnOk, string_bytes, codes};
ghost use Rattle.std.specs.List.{flat_map};
ghost use Rattle.bit_dump.specs.Text.{indent, op_text, later_op, ops_text, operand_text, block_line, end_line, definition_head, definition_line, counts_line, row_line};
ghost use Rattle.bit_dump.specs.Outline.{record_head, record_end};

use crate::counts::StreamCounts;
use bit_stream::AbbrevOp;
use std::alloc::AllocError;

/// Two spaces for each block that is open.
#[tactic(auto, unfolding(crate::specs::Text::indent))]
fn put_indent(out: &mut String, depth: usize) -> Result<(), AllocError>
    ensures { OnOk result (string_bytes out.new ≡ string_bytes out.old ++ indent depth) }
{
    for _level in 0..depth {
        out.push_str("  ")?;
    }
    Ok(())
}

/// `block ID width W words C`, behind the indentation.
#[tactic(auto, unfolding(crate::specs::Text::block_line))]
pub fn put_block(
    out: &mut String,
    depth: usize,
    id: u32,
    width: u32,
    words: u32,
) -> Result<(), AllocError>
    ensures { OnOk result (string_bytes out.new ≡ string_bytes out.old ++ block_line depth id width words) }
{
    put_indent(out, depth)?;
    writeln!(out, "block {id} width {width} words {words}")
}

/// `end ID`, behind the indentation.
#[tactic(auto, unfolding(crate::specs::Text::end_line))]
pub fn put_end(out: &mut String, depth: usize, id: u32) -> Result<(), AllocError>
    ensures { OnOk result (string_bytes out.new ≡ string_bytes out.old ++ end_line depth id) }
{
    put_indent(out, depth)?;
    writeln!(out, "end {id}")
}

/// An operand of a definition.
fn put_op(out: &mut String, op: AbbrevOp) -> Result<(), AllocError>
    ensures { OnOk result (string_bytes out.new ≡ string_bytes out.old ++ op_text op) }
{
    match op {
        AbbrevOp::Literal(number) => write!(out, "literal {number}"),
        AbbrevOp::Fixed(width) => write!(out, "fixed {width}"),
        AbbrevOp::Vbr(width) => write!(out, "vbr {width}"),
        AbbrevOp::Array => out.push_str("array"),
        AbbrevOp::Char6 => out.push_str("char6"),
        AbbrevOp::Blob => out.push_str("blob"),
    }
}

/// Operands of a definition behind others.
fn put_later_ops(out: &mut String, ops: &[AbbrevOp]) -> Result<(), AllocError>
    ensures { OnOk result (string_bytes out.new ≡ string_bytes out.old ++ flat_map later_op ops.now) }
{
    for op in ops {
        out.push_str(", ")?;
        put_op(out, *op)?;
    }
    Ok(())
}

/// The operands of a definition.
#[tactic(auto, unfolding(crate::specs::Text::ops_text))]
fn put_ops(out: &mut String, ops: &[AbbrevOp]) -> Result<(), AllocError>
    ensures { OnOk result (string_bytes out.new ≡ string_bytes out.old ++ ops_text ops.now) }
{
    match ops {
        [first, others @ ..] => {
            put_op(out, *first)?;
            put_later_ops(out, others)
        }
        [] => Ok(()),
    }
}

/// `abbreviation ID: `, behind the indentation.
#[tactic(auto, unfolding(crate::specs::Text::definition_head))]
fn put_definition_head(out: &mut String, depth: usize, id: u64) -> Result<(), AllocError>
    ensures { OnOk result (string_bytes out.new ≡ string_bytes out.old ++ definition_head depth id) }
{
    put_indent(out, depth)?;
    write!(out, "abbreviation {id}: ")?;
    Ok(())
}

/// `abbreviation ID: OPS`, behind the indentation.
#[tactic(auto, unfolding(crate::specs::Text::definition_line))]
pub fn put_definition(
    out: &mut String,
    depth: usize,
    id: u64,
    ops: &[AbbrevOp],
) -> Result<(), AllocError>
    ensures { OnOk result (string_bytes out.new ≡ string_bytes out.old ++ definition_line depth id ops.now) }
{
    put_definition_head(out, depth, id)?;
    put_ops(out, ops)?;
    out.push_str("\n")
}

/// `record CODE by ID:`, behind the indentation.
#[tactic(auto, unfolding(crate::specs::Outline::record_head))]
pub fn put_record_head(out: &mut String, depth: usize, id: u32, code: u32) -> Result<(), AllocError>
    ensures { OnOk result (string_bytes out.new ≡ string_bytes out.old ++ record_head depth id code) }
{
    put_indent(out, depth)?;
    write!(out, "record {code} by {id}:")
}

/// An operand of a record.
pub fn put_operand(out: &mut String, operand: u64) -> Result<(), AllocError>
    ensures { OnOk result (string_bytes out.new ≡ string_bytes out.old ++ operand_text operand) }
{
    write!(out, " {operand}")
}

/// The end of a record: the count of the blob's bytes, where there is one.
#[tactic(auto, unfolding(crate::specs::Outline::record_end))]
pub fn put_record_end(out: &mut String, has_blob: bool, size: usize) -> Result<(), AllocError>
    ensures { OnOk result (string_bytes out.new ≡ string_bytes out.old ++ record_end has_blob size) }
{
    if has_blob {
        write!(out, " blob {size}")?;
    }
    out.push_str("\n")
}

/// `B blocks, R records, A abbreviations`.
#[tactic(auto, unfolding(crate::specs::Text::counts_line))]
fn put_counts(out: &mut String, counts: StreamCounts) -> Result<(), AllocError>
    ensures { OnOk result (string_bytes out.new ≡ string_bytes out.old ++ counts_line counts) }
{
    let blocks = counts.blocks;
    let records = counts.records;
    let abbreviations = counts.abbreviations;
    writeln!(
        out,
        "{blocks} blocks, {records} records, {abbreviations} abbreviations"
    )
}

/// The counts of a block id.
#[tactic(auto, unfolding(crate::specs::Text::row_line))]
pub fn put_row(out: &mut String, id: u32, counts: StreamCounts) -> Result<(), AllocError>
    ensures { OnOk result (string_bytes out.new ≡ string_bytes out.old ++ row_line (id, counts)) }
{
    write!(out, "block {id}: ")?;
    put_counts(out, counts)
}

/// The counts of all.
pub fn put_total(out: &mut String, counts: StreamCounts) -> Result<(), AllocError>
    ensures { OnOk result (string_bytes out.new ≡ string_bytes out.old ++ codes "total: " ++ counts_line counts) }
{
    out.push_str("total: ")?;
    put_counts(out, counts)
}
