//! The records of types.
ghost use Rattle.std.specs.Prelude.{◌≡◌, ◌&&◌, nat_le, nat_lt, Some, None, IfOk, if◌then◌else◌};
ghost use Rattle.record_table.specs.Layout.{times, to_end};
ghost use Rattle.record_table.specs.TypeRecords as types;
ghost use Rattle.record_table.specs.Codes.{kind_view};
ghost use Rattle.record_read.specs.Reader.{ReadsAs};
ghost use Rattle.record_read.specs.Fields.{IsBelow};
ghost use Rattle.type_read.specs.Fields.{AreBelow, IsTypeOf};

use ir_tables::WIDEST;
use record_read::{RecordReader, push_known, read_flag, read_place, unbroken};
use record_table::TypeKind;
use std::alloc::{AllocError, Global};
use type_table::{IrType, StructId, TypeId, TypeList};

/// A type before so many types.
fn read_earlier(reader: &mut RecordReader<'_>, count: u64) -> Option<TypeId>
    ensures { ReadsAs (IsBelow count) (types.earlier count) reader.old reader.new result }
{
    match read_place(reader, count) {
        Some(place) => Some(TypeId::new(place)),
        None => None,
    }
}

/// So many types before so many types. None only where a rule is broken.
pub(crate) fn read_fields(
    reader: &mut RecordReader<'_>,
    alloc: Global,
    size: u64,
    count: u64,
) -> Result<Option<TypeList>, AllocError>
    ensures { IfOk result (ReadsAs (AreBelow count) (times size (types.earlier count)) reader.old reader.new) }
{
    let mut fields = Vec::new(alloc);
    let mut place = 0;
    'fields: while reader.has_more(place, size) {
        let field = read_earlier(reader, count);
        push_known(&mut fields, field)?;
        place += 1;
    }
    Ok(unbroken(reader, fields))
}

/// The type of that number, where it is one of so many.
fn earlier_of(number: u64, count: u64) -> Option<TypeId>
    ensures { result ≡ (if nat_lt number count then Some number else None) }
{
    if number < count {
        Some(TypeId::new(number))
    } else {
        None
    }
}

/// The types that are left in a record, each before so many types. None only where a rule is broken.
fn read_parts(
    reader: &mut RecordReader<'_>,
    alloc: Global,
    count: u64,
) -> Result<Option<TypeList>, AllocError>
    ensures { IfOk result (ReadsAs (AreBelow count) (to_end (types.earlier count)) reader.old reader.new) }
{
    let mut parts = Vec::new(alloc);
    'parts: loop {
        match reader.take() {
            Some(number) => {
                reader.ask(2, number < count);
                push_known(&mut parts, earlier_of(number, count))?;
            }
            None => return Ok(unbroken(reader, parts)),
        }
    }
}

/// Whether an integer may have so many bits.
fn is_width(bits: u64) -> bool
    ensures { result ≡ (nat_le 1 bits && nat_le bits WIDEST) }
{
    1 <= bits && bits <= WIDEST as u64
}

/// An integer type, of 1 to 128 bits. Another width breaks rule 3.
fn read_integer(reader: &mut RecordReader<'_>, count: u64, structs: u32) -> Option<IrType>
    ensures { ReadsAs (IsTypeOf count structs) (types.ir_type count structs types.OfInt) reader.old reader.new result }
{
    let number = reader.number();
    let fits = is_width(number);
    reader.ask(3, fits);
    reader.stops_where_broken();
    if fits {
        Some(IrType::Int(number as u8))
    } else {
        None
    }
}

/// An array: its length and the type of its elements.
fn read_array(reader: &mut RecordReader<'_>, count: u64, structs: u32) -> Option<IrType>
    ensures { ReadsAs (IsTypeOf count structs) (types.ir_type count structs types.OfArray) reader.old reader.new result }
{
    let length = reader.number();
    match read_earlier(reader, count) {
        Some(element) => Some(IrType::Array(length, element)),
        None => None,
    }
}

/// A struct without a name: whether it is packed, and the types of its fields.
fn read_structure(
    reader: &mut RecordReader<'_>,
    alloc: Global,
    count: u64,
    structs: u32,
) -> Result<Option<IrType>, AllocError>
    ensures { IfOk result (ReadsAs (IsTypeOf count structs) (types.ir_type count structs types.OfStruct) reader.old reader.new) }
{
    let packed = read_flag(reader);
    let parts = read_parts(reader, alloc, count)?;
    match parts {
        Some(parts) => Ok(Some(IrType::Struct(packed, parts))),
        None => Ok(None),
    }
}

/// A struct by its number, which is one of so many.
fn read_named(reader: &mut RecordReader<'_>, count: u64, structs: u32) -> Option<IrType>
    ensures { ReadsAs (IsTypeOf count structs) (types.ir_type count structs types.OfName) reader.old reader.new result }
{
    match read_place(reader, u64::from(structs)) {
        Some(place) => Some(IrType::Named(StructId::new(place as u32))),
        None => None,
    }
}

/// A type of that kind, behind so many types and where there are so many structs. None only where a rule is broken.
pub(crate) fn read_type(
    reader: &mut RecordReader<'_>,
    alloc: Global,
    kind: TypeKind,
    count: u64,
    structs: u32,
) -> Result<Option<IrType>, AllocError>
    ensures { IfOk result (ReadsAs (IsTypeOf count structs) (types.ir_type count structs (kind_view kind)) reader.old reader.new) }
{
    match kind {
        TypeKind::Int => Ok(read_integer(reader, count, structs)),
        TypeKind::Ptr => Ok(Some(IrType::Ptr)),
        TypeKind::Void => Ok(Some(IrType::Void)),
        TypeKind::Array => Ok(read_array(reader, count, structs)),
        TypeKind::Struct => read_structure(reader, alloc, count, structs),
        TypeKind::Named => Ok(read_named(reader, count, structs)),
    }
}
