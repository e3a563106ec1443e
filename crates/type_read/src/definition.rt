//! The record of a struct.
ghost use Rattle.std.specs.Prelude.{◌≡◌, ◌||◌, ◌==◌, nat_lt, IfOk, OnOk};
ghost use Rattle.record_table.specs.TypeRecords as types;
ghost use Rattle.record_read.specs.Reader.{ReadsAs};
ghost use Rattle.record_read.specs.Fields.{texts_of};
ghost use Rattle.type_read.specs.Fields.{IsBodyOf, IsDefinition, ReadsName};

use crate::records::read_fields;
use ir_base::Name;
use record_read::{RecordReader, Texts, is_of_bytes, read_below, read_last, read_name};
use std::alloc::{AllocError, Global};
use type_table::{StructBody, TypeList};

/// What a struct is, and what it is called. The body is None only where a rule is broken, the name only where the text is no
/// name.
#[derive(Drop)]
pub(crate) struct StructDefinition {
    pub body: Option<StructBody>,
    pub name: Option<Name>,
}

/// The body of that code: 0 plain, 1 packed, else opaque.
fn body_of(code: u64, fields: TypeList) -> StructBody
    ensures { result ≡ types.body_by code fields }
{
    match code {
        0 => StructBody::Plain(fields),
        1 => StructBody::Packed(fields),
        _ => StructBody::Opaque,
    }
}

/// Whether a struct of that code may have so many fields: an opaque one has none.
fn may_have(code: u64, size: u64) -> bool
    ensures { result ≡ (nat_lt code 2 || (size == 0)) }
{
    code < 2 || size == 0
}

/// What a struct is: 0 plain, 1 packed or 2 opaque, and a count and its fields, of which there are none where it is opaque.
fn read_body(
    reader: &mut RecordReader<'_>,
    alloc: Global,
    count: u64,
) -> Result<Option<StructBody>, AllocError>
    ensures { IfOk result (ReadsAs (IsBodyOf count) (types.struct_body count) reader.old reader.new) }
{
    let code = read_below(reader, 3);
    let size = reader.number();
    let fields = read_fields(reader, alloc, size, count)?;
    reader.ask(3, may_have(code, size));
    match fields {
        Some(fields) => Ok(Some(body_of(code, fields))),
        None => Ok(None),
    }
}

/// The name at the end of the record. A text that is none breaks rule 4.
fn read_struct_name(
    reader: &mut RecordReader<'_>,
    alloc: Global,
    texts: &Texts,
) -> Result<Option<Name>, AllocError>
    ensures { IfOk result (ReadsName (texts_of texts.now) reader.old reader.new) }
{
    let text = read_last(reader, alloc, texts)?;
    match read_name(reader, text) {
        Some(name) => {
            is_of_bytes(&name);
            Ok(Some(name))
        }
        None => Ok(None),
    }
}

/// A struct, behind so many types: what it is, and at the end of the record its name.
pub(crate) fn read_definition(
    reader: &mut RecordReader<'_>,
    alloc: Global,
    texts: &Texts,
    count: u64,
) -> Result<StructDefinition, AllocError>
    ensures reader { OnOk result (reader.new ≡ record reader.old { walk = ((types.definition (texts_of texts.now) count).read reader.old.walk).1 }) }
    ensures definition { IfOk result (λ made. IsDefinition (texts_of texts.now) count reader.old.walk made) }
{
    let body = read_body(reader, alloc, count)?;
    let name = read_struct_name(reader, alloc, texts)?;
    Ok(StructDefinition { body, name })
}
