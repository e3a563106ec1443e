//! What is called so.
ghost use Rattle.std.specs.Prelude.{◌≡◌, None, IfOk};
ghost use Rattle.record_table.specs.StringTable.{beyond, text_at};
ghost use Rattle.record_read.specs.Fields.{IsBeyond, IsTextAt};
ghost use Rattle.body_read.specs.Names.Called.{ReadsCalled, beyond_table};
ghost use Rattle.record_read.specs.declared.texts.Texts.TheVariants as the_texts;

use ir_base::Text;
use module_arena::LocalName;
use record_read::{RecordReader, Texts, read_label, read_local_name};
use std::alloc::{AllocError, Global};

/// A text of that size that passes the end of the table, which breaks rule 8: only an empty one is there.
fn read_beyond(reader: &mut RecordReader<'_>, alloc: Global, size: u64) -> Option<Text>
    ensures is { IsBeyond size reader.old reader.new result }
    ensures none { result ≡ None → beyond size ≡ beyond_table }
{
    reader.refuse(8);
    reader.stops_where_broken();
    if size == 0 {
        Some(Text::new(alloc))
    } else {
        None
    }
}

/// The bytes of that size at that offset of the table. Where they pass its end, rule 8 is broken, and only an empty text is
/// there.
fn read_at(
    reader: &mut RecordReader<'_>,
    alloc: Global,
    table: &Text,
    offset: u64,
    size: u64,
) -> Result<Option<Text>, AllocError>
    ensures is { IfOk result (IsTextAt table.now offset size reader.old reader.new) }
    ensures none { IfOk result (λ text. text ≡ None → text_at table.now offset size ≡ beyond_table) }
{
    let bytes = table.bytes();
    match offset.checked_add(size) {
        Some(end) if end <= bytes.len() as u64 => {
            let text = Text::from_slice(alloc, &bytes[offset as usize..end as usize])?;
            Ok(Some(text))
        }
        _ => Ok(read_beyond(reader, alloc, size)),
    }
}

/// A name in the table.
fn read_in_table(
    reader: &mut RecordReader<'_>,
    alloc: Global,
    table: &Text,
    own: u32,
) -> Result<Option<LocalName>, AllocError>
    ensures { IfOk result (ReadsCalled (the_texts.Table table.now) own reader.old reader.new) }
{
    let number = reader.number();
    if number == 0 {
        return Ok(Some(LocalName::Numbered(own)));
    }
    let offset = reader.number();
    let text = read_at(reader, alloc, table, offset, number - 1)?;
    Ok(read_local_name(reader, text))
}

/// What a parameter, block or result is called: 0 where it has that number, else one more than the size of its name and the
/// name. None only where a rule up to 4 is broken, or where the name passes the end of the string table.
pub fn read_called(
    reader: &mut RecordReader<'_>,
    alloc: Global,
    texts: &Texts,
    own: u32,
) -> Result<Option<LocalName>, AllocError>
    ensures { IfOk result (ReadsCalled texts.now own reader.old reader.new) }
{
    match texts {
        Texts::Inline => read_label(reader, alloc, texts, own),
        Texts::Table(table) => read_in_table(reader, alloc, table, own),
    }
}
