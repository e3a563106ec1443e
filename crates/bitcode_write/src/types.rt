//! The block of types.
ghost use Rattle.std.specs.Prelude.{◌≡◌, ◌<◌, ◌++◌, ◌∷◌, [], map, flat_map, length, All, OnOk, Some};
ghost use Rattle.std.specs.Option.{option_copied};
ghost use Rattle.type_table.specs.Types.{tree, IsGood, IsKnown, IsKnownBody, KnowsBody};
ghost use Rattle.module_arena.specs.View.{module_of};
ghost use Rattle.record_table.specs.Codes.{kind_view};
ghost use Rattle.record_table.specs.Fields.{bool_code, ty};
ghost use Rattle.record_table.specs.Layout.{counted};
ghost use Rattle.record_table.specs.Mentions.{mentioned};
ghost use Rattle.record_table.specs.Spelling.{texts_in, type_line, type_lines};
ghost use Rattle.record_table.specs.TypeRecords.{kind_of as the_kind};
ghost use Rattle.record_write.specs.Operands.Numbered.{indices};
ghost use Rattle.bitcode_write.specs.Put.{IsOpen, PutsLines};
ghost use Rattle.bitcode_write.specs.Entries.{type_in, type_operands, body_operands, struct_in};

use crate::records::RecordSink;
use record_table::{DEFINE, TypeKind};
use record_write::operands::{Numbering, put_flag, put_number, put_text};
use std::alloc::AllocError;
use type_table::{IrType, StructBody, StructId, TypeId};

/// Appends the indices of some types.
fn put_indices(
    operands: &mut Vec<u64>,
    numbering: &Numbering<'_>,
    ids: &[TypeId],
) -> Result<(), AllocError>
    requires { All (λ id. id < length numbering.now.table.types) ids.now }
    ensures { OnOk result (operands.new.items ≡ operands.old.items ++ flat_map (ty (indices numbering.now)).spell (map (tree numbering.now.table) ids.now)) }
{
    'parts: for place in 0..ids.len() {
        numbering.put_type(operands, ids[place])?;
    }
    Ok(())
}

/// How the type stands in the block of types.
fn kind_of(ty: &IrType) -> TypeKind
    ensures { kind_view result ≡ the_kind ty.now }
{
    match ty {
        IrType::Int(_) => TypeKind::Int,
        IrType::Ptr => TypeKind::Ptr,
        IrType::Void => TypeKind::Void,
        IrType::Array(_, _) => TypeKind::Array,
        IrType::Struct(_, _) => TypeKind::Struct,
        IrType::Named(_) => TypeKind::Named,
    }
}

/// Appends the length of an array and the index of its elements' type.
fn put_array(
    operands: &mut Vec<u64>,
    numbering: &Numbering<'_>,
    count: u64,
    element: TypeId,
) -> Result<(), AllocError>
    requires { element < length numbering.now.table.types }
    ensures { OnOk result (operands.new.items ≡ operands.old.items ++ count ∷ (ty (indices numbering.now)).spell (tree numbering.now.table element)) }
{
    put_number(operands, count)?;
    numbering.put_type(operands, element)
}

/// Appends whether a struct without a name is packed, and the indices of its fields' types.
fn put_plain_struct(
    operands: &mut Vec<u64>,
    numbering: &Numbering<'_>,
    packed: bool,
    fields: &[TypeId],
) -> Result<(), AllocError>
    requires { All (λ id. id < length numbering.now.table.types) fields.now }
    ensures { OnOk result (operands.new.items ≡ operands.old.items ++ bool_code packed ∷ flat_map (ty (indices numbering.now)).spell (map (tree numbering.now.table) fields.now)) }
{
    put_flag(operands, packed)?;
    put_indices(operands, numbering, fields)
}

/// Appends what a type is made of.
fn put_parts(
    operands: &mut Vec<u64>,
    numbering: &Numbering<'_>,
    ty: &IrType,
) -> Result<(), AllocError>
    requires good { IsGood numbering.now.table }
    requires known { IsKnown numbering.now.table ty.now }
    ensures { OnOk result (operands.new.items ≡ operands.old.items ++ type_operands numbering.now ty.now) }
{
    match ty {
        IrType::Int(width) => {
            let bits = u64::from(*width);
            put_number(operands, bits)
        }
        IrType::Ptr => Ok(()),
        IrType::Void => Ok(()),
        IrType::Array(count, element) => put_array(operands, numbering, *count, *element),
        IrType::Struct(packed, fields) => {
            put_plain_struct(operands, numbering, *packed, fields.as_slice())
        }
        IrType::Named(id) => {
            let place = u64::from(id.number());
            put_number(operands, place)
        }
    }
}

/// Writes the record of a type, whose parts have records before it.
fn put_type(out: &mut RecordSink, numbering: &Numbering<'_>, id: TypeId) -> Result<(), AllocError>
    requires ready { IsOpen out.old.writer }
    requires empty { out.old.operands.items ≡ [] }
    requires known { id < length numbering.now.table.types }
    ensures put { OnOk result (PutsLines out.old.writer (type_line (type_in numbering.now (tree numbering.now.table id)) ∷ []) out.new.writer) }
    ensures none { OnOk result (out.new.operands.items ≡ []) }
{
    let types = numbering.arena().types();
    // What holds of the types of each table.
    let _count = types.type_count();
    let ty = types.get(id);
    put_parts(&mut out.operands, numbering, ty)?;
    let kind = kind_of(ty);
    out.put(kind.code())
}

/// Writes the records of the types that the module mentions.
fn put_listed(out: &mut RecordSink, numbering: &Numbering<'_>) -> Result<(), AllocError>
    requires ready { IsOpen out.old.writer }
    requires empty { out.old.operands.items ≡ [] }
    ensures put { OnOk result (PutsLines out.old.writer (map (λ t. type_line (type_in numbering.now t)) (mentioned (module_of numbering.now))) out.new.writer) }
    ensures none { OnOk result (out.new.operands.items ≡ []) }
{
    let ids = numbering.types();
    'parts: for place in 0..ids.len() {
        put_type(out, numbering, ids[place])?;
    }
    Ok(())
}

/// Appends a code of what a struct is, and its fields behind their count.
fn put_fields(
    operands: &mut Vec<u64>,
    numbering: &Numbering<'_>,
    code: u64,
    fields: &[TypeId],
) -> Result<(), AllocError>
    requires { All (λ id. id < length numbering.now.table.types) fields.now }
    ensures { OnOk result (operands.new.items ≡ operands.old.items ++ code ∷ (counted (ty (indices numbering.now))).spell (map (tree numbering.now.table) fields.now)) }
{
    put_number(operands, code)?;
    numbering.put_types(operands, fields)
}

/// Appends what a struct with a body is, 0 plain, 1 packed or 2 opaque, and its fields behind their count.
fn put_known_body(
    operands: &mut Vec<u64>,
    numbering: &Numbering<'_>,
    body: &StructBody,
) -> Result<(), AllocError>
    requires { IsKnownBody numbering.now.table body.now }
    ensures { OnOk result (operands.new.items ≡ operands.old.items ++ body_operands numbering.now (Some body.now)) }
{
    match body {
        StructBody::Plain(fields) => put_fields(operands, numbering, 0, fields.as_slice()),
        StructBody::Packed(fields) => put_fields(operands, numbering, 1, fields.as_slice()),
        StructBody::Opaque => put_fields(operands, numbering, 2, &[]),
    }
}

/// Appends what a struct is: without a body it is opaque.
fn put_body(
    operands: &mut Vec<u64>,
    numbering: &Numbering<'_>,
    body: Option<&StructBody>,
) -> Result<(), AllocError>
    requires { KnowsBody (length numbering.now.table.types) (option_copied body) }
    ensures { OnOk result (operands.new.items ≡ operands.old.items ++ body_operands numbering.now (option_copied body.entry)) }
{
    match body {
        Some(body) => put_known_body(operands, numbering, body),
        None => put_fields(operands, numbering, 2, &[]),
    }
}

/// Writes the record of a struct.
fn put_struct(
    out: &mut RecordSink,
    numbering: &Numbering<'_>,
    id: StructId,
) -> Result<(), AllocError>
    requires ready { IsOpen out.old.writer }
    requires empty { out.old.operands.items ≡ [] }
    requires known { id < length numbering.now.table.structs }
    ensures put { OnOk result (PutsLines out.old.writer (struct_in numbering.now id ∷ []) out.new.writer) }
    ensures none { OnOk result (out.new.operands.items ≡ []) }
{
    let types = numbering.arena().types();
    // What holds of the structs of each table.
    let _count = types.type_count();
    put_body(&mut out.operands, numbering, types.struct_body(id))?;
    let name = types.struct_name(id).text().bytes();
    put_text(&mut out.operands, numbering, name)?;
    out.put(DEFINE)
}

/// Writes the records of the types, and then those of the structs.
pub(crate) fn put_types(out: &mut RecordSink, numbering: &Numbering<'_>) -> Result<(), AllocError>
    requires ready { IsOpen out.old.writer }
    requires empty { out.old.operands.items ≡ [] }
    ensures put { OnOk result (PutsLines out.old.writer (type_lines (texts_in (module_of numbering.now)) (mentioned (module_of numbering.now)) (module_of numbering.now)) out.new.writer) }
    ensures none { OnOk result (out.new.operands.items ≡ []) }
{
    put_listed(out, numbering)?;
    let count = numbering.arena().types().struct_count();
    'structs: for place in 0..count {
        put_struct(out, numbering, StructId::new(place))?;
    }
    Ok(())
}
