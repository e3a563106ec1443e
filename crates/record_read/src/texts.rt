//! Texts and names as they stand in records.
ghost use Rattle.std.specs.Prelude.{◌≡◌, IfOk, if◌then◌else◌};
ghost use Rattle.record_table.specs.Layout.{times, to_end};
ghost use Rattle.record_table.specs.Fields as fields;
ghost use Rattle.record_table.specs.StringTable.{read_only};
ghost use Rattle.record_read.specs.Reader.{ReadsAs};
ghost use Rattle.record_read.specs.Fields.{texts_of, IsBeyond, IsLocal, IsLocalNamed, IsNamed, IsTextAt, PushesByte, ReadsBytes, ReadsText};

use crate::RecordReader;
use ir_base::{Name, Text};
use module_arena::LocalName;
use std::alloc::{AllocError, Global};

/// How texts stand in the records of a version.
///
/// ```
/// Texts::Table(text) // of `ab`, in which an offset of 1 and a size of 1 are `b`
/// ```
#[derive(Drop)]
pub enum Texts {
    /// Version 1: byte by byte, in the records themselves.
    Inline,
    /// Version 2: in one table, of which a record gives an offset and a size.
    Table(Text),
}

/// One more byte of a text, if the number is one. Another breaks rule 3.
fn push_byte(
    reader: &mut RecordReader<'_>,
    text: &mut Text,
    number: u64,
) -> Result<bool, AllocError>
    ensures { IfOk result (λ is_byte. PushesByte reader.old text.old number is_byte reader.new text.new) }
{
    match u8::try_from(number) {
        Ok(byte) => {
            text.push(byte)?;
            Ok(true)
        }
        Err(_) => {
            reader.refuse(3);
            Ok(false)
        }
    }
}

/// The text, where all that was to be in it are bytes.
fn whole_text(text: Text, are_bytes: bool) -> Option<Text>
    ensures { result ≡ (if are_bytes then Some text else None) }
{
    if are_bytes { Some(text) } else { None }
}

/// So many bytes. None only where one of them is no byte.
fn read_bytes(
    reader: &mut RecordReader<'_>,
    alloc: Global,
    count: u64,
) -> Result<Option<Text>, AllocError>
    ensures { IfOk result (ReadsBytes (times count fields.byte) reader.old reader.new) }
{
    let mut text = Text::new(alloc);
    let mut are_bytes = true;
    let mut place = 0;
    'bytes: while reader.has_more(place, count) {
        let number = reader.number();
        place += 1;
        if !push_byte(reader, &mut text, number)? {
            are_bytes = false;
        }
    }
    Ok(whole_text(text, are_bytes))
}

/// A count, and so many bytes. None only where one of them is no byte.
pub fn read_byte_string(
    reader: &mut RecordReader<'_>,
    alloc: Global,
) -> Result<Option<Text>, AllocError>
    ensures { IfOk result (ReadsBytes fields.text reader.old reader.new) }
{
    let count = reader.number();
    read_bytes(reader, alloc, count)
}

/// All bytes that are left. None only where one of them is no byte.
pub fn read_rest(reader: &mut RecordReader<'_>, alloc: Global) -> Result<Option<Text>, AllocError>
    ensures { IfOk result (ReadsBytes (to_end fields.byte) reader.old reader.new) }
{
    let mut text = Text::new(alloc);
    let mut are_bytes = true;
    'bytes: loop {
        match reader.take() {
            Some(number) => {
                if !push_byte(reader, &mut text, number)? {
                    are_bytes = false;
                }
            }
            None => return Ok(whole_text(text, are_bytes)),
        }
    }
}

/// A text of that size that passes the end of the table, which breaks rule 8: only an empty one is there.
fn read_beyond(reader: &mut RecordReader<'_>, alloc: Global, size: u64) -> Option<Text>
    ensures { IsBeyond size reader.old reader.new result }
{
    reader.refuse(8);
    reader.stops_where_broken();
    if size == 0 {
        Some(Text::new(alloc))
    } else {
        None
    }
}

/// The bytes of that size at that offset of the table. Where they pass its end, rule 8 is broken, and only an empty text is
/// there.
fn read_at(
    reader: &mut RecordReader<'_>,
    alloc: Global,
    table: &Text,
    offset: u64,
    size: u64,
) -> Result<Option<Text>, AllocError>
    ensures { IfOk result (IsTextAt table.now offset size reader.old reader.new) }
{
    let bytes = table.bytes();
    match offset.checked_add(size) {
        Some(end) if end <= bytes.len() as u64 => {
            let text = Text::from_slice(alloc, &bytes[offset as usize..end as usize])?;
            Ok(Some(text))
        }
        _ => Ok(read_beyond(reader, alloc, size)),
    }
}

/// An offset and a size, and the text that stands there.
#[tactic(auto, using(crate::proofs::Sized::sized_is))]
fn read_sized(
    reader: &mut RecordReader<'_>,
    alloc: Global,
    table: &Text,
) -> Result<Option<Text>, AllocError>
    ensures { IfOk result (ReadsText (read_only table.now).middle reader.old reader.new) }
{
    let offset = reader.number();
    let size = reader.number();
    read_at(reader, alloc, table, offset, size)
}

/// A text that others may follow. None only where a rule is broken.
#[tactic(auto, using(crate::proofs::Sized::bytes_text))]
pub fn read_text(
    reader: &mut RecordReader<'_>,
    alloc: Global,
    texts: &Texts,
) -> Result<Option<Text>, AllocError>
    ensures { IfOk result (ReadsText (texts_of texts.now).middle reader.old reader.new) }
{
    match texts {
        Texts::Inline => read_byte_string(reader, alloc),
        Texts::Table(table) => read_sized(reader, alloc, table),
    }
}

/// A text that ends its record. None only where a rule is broken.
#[tactic(auto, using(crate::proofs::Sized::bytes_text))]
pub fn read_last(
    reader: &mut RecordReader<'_>,
    alloc: Global,
    texts: &Texts,
) -> Result<Option<Text>, AllocError>
    ensures { IfOk result (ReadsText (texts_of texts.now).last reader.old reader.new) }
{
    match texts {
        Texts::Inline => read_rest(reader, alloc),
        Texts::Table(table) => read_sized(reader, alloc, table),
    }
}

/// The text as a name. One that is empty or has a zero byte breaks rule 4.
pub fn read_name(reader: &mut RecordReader<'_>, text: Option<Text>) -> Option<Name>
    ensures { IsNamed text reader.old result reader.new }
{
    match Name::from_text(text?) {
        Ok(name) => Some(name),
        Err(_) => {
            reader.refuse(4);
            reader.stops_where_broken();
            None
        }
    }
}

/// The text as the name of a local. One that is empty or has a zero byte breaks rule 4.
pub fn read_local_name(reader: &mut RecordReader<'_>, text: Option<Text>) -> Option<LocalName>
    ensures { IsLocalNamed text reader.old result reader.new }
{
    match read_name(reader, text) {
        Some(name) => Some(LocalName::Named(name)),
        None => None,
    }
}

/// A label byte by byte.
fn read_inline_label(
    reader: &mut RecordReader<'_>,
    alloc: Global,
    own: u32,
) -> Result<Option<LocalName>, AllocError>
    ensures { IfOk result (ReadsAs IsLocal (fields.label fields.version_1 own) reader.old reader.new) }
{
    let number = reader.number();
    if number == 0 {
        return Ok(Some(LocalName::Numbered(own)));
    }
    let text = read_bytes(reader, alloc, number - 1)?;
    Ok(read_local_name(reader, text))
}

/// A label in the table.
fn read_table_label(
    reader: &mut RecordReader<'_>,
    alloc: Global,
    table: &Text,
    own: u32,
) -> Result<Option<LocalName>, AllocError>
    ensures { IfOk result (ReadsAs IsLocal (fields.label (read_only table.now) own) reader.old reader.new) }
{
    let number = reader.number();
    if number == 0 {
        return Ok(Some(LocalName::Numbered(own)));
    }
    let offset = reader.number();
    let text = read_at(reader, alloc, table, offset, number - 1)?;
    Ok(read_local_name(reader, text))
}

/// What a parameter, block or result is called: 0 where it has that number, else one more than the size of its name and the
/// name. None only where a rule is broken.
pub fn read_label(
    reader: &mut RecordReader<'_>,
    alloc: Global,
    texts: &Texts,
    own: u32,
) -> Result<Option<LocalName>, AllocError>
    ensures { IfOk result (ReadsAs IsLocal (fields.label (texts_of texts.now) own) reader.old reader.new) }
{
    match texts {
        Texts::Inline => read_inline_label(reader, alloc, own),
        Texts::Table(table) => read_table_label(reader, alloc, table, own),
    }
}
