//! What is asked of types.
ghost use Rattle.std.specs.Prelude.{◌≡◌, ◌<◌, map, length, slice_get, slice_index_or, IfOk, IfSome};
ghost use Rattle.std.specs.List.{list_all};
ghost use Rattle.std.specs.Option.{option_map, option_and_then, option_copied};
ghost use Rattle.type_table.specs.Types.{trees, tree, names, tree_of, structs, IsGood};
ghost use Rattle.module_arena.specs.TypeTests.{is_integer, is_integer_of, width_of, is_pointer, is_void, is_free_of_void, is_free_of_names, lies_in_memory, is_passable, opened};
ghost use Rattle.module_arena.specs.Constants.{indexed};
ghost use Rattle.module_arena.specs.Same.{same_type};
ghost use Rattle.entry_verify.specs.Types.Classes.{AreClasses};
ghost use Rattle.entry_verify.specs.Types.Opened.{IsOpened, opened_ids, opened_body};
ghost use Rattle.entry_verify.specs.Types.TypeFlags.{is_free, flag_of};

use crate::types::classes::{class_at, classes_of};
use module_arena::LEAF_LIMIT;
use std::alloc::{AllocError, Global};
use std::marker::Model;
use type_table::{IrType, StructBody, TypeId, TypeTable};

/// The flag of a type, where there is one.
fn flag_at(flags: &[bool], ty: TypeId, otherwise: bool) -> bool
    ensures { result ≡ slice_index_or flags.now ty otherwise }
{
    flags
        .get(ty.number() as usize)
        .copied()
        .unwrap_or(otherwise)
}

/// Whether all these types are flagged.
fn are_flagged(flags: &[bool], parts: &[TypeId], otherwise: bool) -> bool
    ensures { result ≡ list_all (λ part. slice_index_or flags.now part otherwise) parts.now }
{
    parts.iter().all(|part| flag_at(flags, *part, otherwise))
}

/// Whether all in a type passes, from the flags of the types before it.
fn flag_of(ty: &IrType, flags: &[bool], void_passes: bool, name_passes: bool) -> bool
    ensures { result ≡ flag_of void_passes name_passes flags.now ty.now }
{
    match ty {
        IrType::Int(_) | IrType::Ptr => true,
        IrType::Void => void_passes,
        IrType::Array(_, element) => flag_at(flags, *element, void_passes),
        IrType::Struct(_, fields) => are_flagged(flags, fields.as_slice(), void_passes),
        IrType::Named(_) => name_passes,
    }
}

/// For each type, whether all in it passes, where `void` and the names of structs pass or not.
fn flags_of(
    alloc: Global,
    types: &TypeTable,
    void_passes: bool,
    name_passes: bool,
) -> Result<Vec<bool>, AllocError>
    ensures { IfOk result (λ flags. flags.items ≡ map (is_free void_passes name_passes) (trees types.now)) }
{
    let mut flags = Vec::new(alloc);
    for number in 0..types.type_count() {
        let ty = types.get(TypeId::new(number));
        let flag = flag_of(ty, &flags, void_passes, name_passes);
        flags.push(flag)?;
    }
    Ok(flags)
}

/// The types of a module, ready to be asked about in a step each.
#[derive(Drop)]
pub struct TypeJudge<'a> {
    table: &'a TypeTable,
    /// For each type, whether `void` is not written in it.
    without_void: Vec<bool>,
    /// For each type, whether no struct is named in it.
    without_names: Vec<bool>,
    /// For each type, the class of those that are written alike.
    classes: Vec<TypeId>,
}

impl<'a> Model for TypeJudge<'a> {
    ghost use Rattle.type_table.specs.Types.{Types};
    ghost use Rattle.module_arena.specs.Constants.{indexed};
    ghost use Rattle.module_arena.specs.Same.{same_type};
    ghost use Rattle.module_arena.specs.TypeTests.{width_of};
    ghost use Rattle.entry_verify.specs.Types.Opened.{IsOpened, opened_ids, opened_body};
    ghost use Rattle.entry_verify.specs.Types.TypeFlags.{IsTypeJudge};

    ghost Value = { Types };

    ghost view = { λ j. j.table.now };

    ghost invariant = { λ j. IsTypeJudge j.table.now j.without_void.items j.without_names.items j.classes.items };
}

impl<'a> TypeJudge<'a> {
    /// A judge of the types of the table.
    pub fn new(alloc: Global, table: &'a TypeTable) -> Result<TypeJudge<'a>, AllocError>
        ensures { IfOk result (λ judge. judge ≡ table.now) }
    {
        // What holds of the types of each table.
        let _count = table.type_count();
        let without_void = flags_of(alloc, table, false, true)?;
        let without_names = flags_of(alloc, table, true, false)?;
        let classes = classes_of(alloc, table)?;
        Ok(TypeJudge {
            table,
            without_void,
            without_names,
            classes,
        })
    }

    /// The type, by its parts.
    pub fn get(&self, ty: TypeId) -> &IrType
        requires { ty < length self.now.types }
        ensures { tree self.now ty ≡ tree_of (names self.now) (trees self.now) result.now }
    {
        self.table.get(ty)
    }

    /// Whether the type is an integer.
    pub fn is_integer(&self, ty: TypeId) -> bool
        requires { ty < length self.now.types }
        ensures { result ≡ is_integer (tree self.now ty) }
    {
        matches!(self.get(ty), IrType::Int(_))
    }

    /// Whether the type is the integer of that width in bits.
    pub fn is_integer_of(&self, ty: TypeId, width: u8) -> bool
        requires { ty < length self.now.types }
        ensures { result ≡ is_integer_of width (tree self.now ty) }
    {
        matches!(self.get(ty), IrType::Int(found) if *found == width)
    }

    /// The width of the type in bits, where it is an integer.
    pub fn width(&self, ty: TypeId) -> Option<u8>
        requires { ty < length self.now.types }
        ensures { result ≡ width_of (tree self.now ty) }
    {
        match self.get(ty) {
            IrType::Int(width) => Some(*width),
            _ => None,
        }
    }

    /// Whether the type is `ptr`.
    pub fn is_pointer(&self, ty: TypeId) -> bool
        requires { ty < length self.now.types }
        ensures { result ≡ is_pointer (tree self.now ty) }
    {
        matches!(self.get(ty), IrType::Ptr)
    }

    /// Whether the type is `void`.
    pub fn is_void(&self, ty: TypeId) -> bool
        requires { ty < length self.now.types }
        ensures { result ≡ is_void (tree self.now ty) }
    {
        matches!(self.get(ty), IrType::Void)
    }

    /// Whether `void` is not written in the type.
    pub fn is_free_of_void(&self, ty: TypeId) -> bool
        requires { ty < length self.now.types }
        ensures { result ≡ is_free_of_void (tree self.now ty) }
    {
        flag_at(&self.without_void, ty, false)
    }

    /// Whether no struct is named in the type.
    pub fn is_free_of_names(&self, ty: TypeId) -> bool
        requires { ty < length self.now.types }
        ensures { result ≡ is_free_of_names (tree self.now ty) }
    {
        flag_at(&self.without_names, ty, true)
    }

    /// Whether the type has a layout.
    pub fn lies_in_memory(&self, ty: TypeId) -> bool
        requires { ty < length self.now.types }
        ensures { result ≡ lies_in_memory (structs self.now) (tree self.now ty) }
    {
        self.table.layout(ty).is_some()
    }

    /// Whether values of the type are handed on: it has a layout, of at most 65,536 leaves.
    pub fn is_passable(&self, ty: TypeId) -> bool
        requires { ty < length self.now.types }
        ensures { result ≡ is_passable (structs self.now) (tree self.now ty) }
    {
        match self.table.layout(ty) {
            Some(layout) => layout.leaves <= LEAF_LIMIT,
            None => false,
        }
    }

    /// Whether two types are written alike.
    pub fn same_type(&self, ty: TypeId, other: TypeId) -> bool
        requires own { ty < length self.now.types }
        requires others { other < length self.now.types }
        ensures { result ≡ same_type (tree self.now ty) (tree self.now other) }
    {
        class_at(&self.classes, ty).number() == class_at(&self.classes, other).number()
    }

    /// A number for each type, by its id: two have one number exactly where they are written alike.
    pub fn classes(&self) -> &[TypeId]
        ensures { AreClasses self.now result.now }
    {
        &self.classes
    }

    /// The type by its parts, where a struct's name stands for its body.
    pub fn opened(&self, ty: TypeId) -> OpenedType<'_>
        requires { ty < length self.now.types }
        ensures { IsOpened self.now (opened_ids result) (opened (structs self.now) (tree self.now ty)) }
    {
        match self.table.get(ty) {
            IrType::Int(_) => OpenedType::Other,
            IrType::Ptr => OpenedType::Other,
            IrType::Void => OpenedType::Other,
            IrType::Array(length, element) => OpenedType::Array(*length, *element),
            IrType::Struct(packed, fields) => OpenedType::Struct(*packed, fields.as_slice()),
            IrType::Named(id) => opened_body(self.table.struct_body(*id)),
        }
    }

    /// The part of the type that an index leads to, where it leads to one. The index is told by its type, and by its number where that is
    /// written.
    pub fn indexed(&self, ty: TypeId, index: TypeId, number: Option<u128>) -> Option<TypeId>
        requires own { ty < length self.now.types }
        requires others { index < length self.now.types }
        ensures part { option_map (tree self.now) result ≡ indexed (opened (structs self.now) (tree self.now ty)) (record { ty = tree self.now index; number = number }) }
        ensures known { IfSome result (λ part. part < length self.now.types) }
    {
        match self.opened(ty) {
            OpenedType::Array(_, element) => Some(element),
            OpenedType::Struct(_, fields) => {
                if self.is_integer_of(index, 32) {
                    field_at(fields, number)
                } else {
                    None
                }
            }
            OpenedType::Other => None,
        }
    }
}

/// What a type is by its parts, where a struct's name stands for its body.
#[derive(Clone, Copy)]
pub enum OpenedType<'t> {
    /// An array, by its length and the type of its elements.
    Array(u64, TypeId),
    /// A struct, packed where the flag is true, with the types of its fields.
    Struct(bool, &'t [TypeId]),
    /// Neither.
    Other,
}

/// What a struct with that body is.
fn opened_body(body: Option<&StructBody>) -> OpenedType<'_>
    ensures { opened_ids result ≡ opened_body (option_copied body.entry) }
{
    match body {
        None | Some(StructBody::Opaque) => OpenedType::Other,
        Some(StructBody::Plain(fields)) => OpenedType::Struct(false, fields.as_slice()),
        Some(StructBody::Packed(fields)) => OpenedType::Struct(true, fields.as_slice()),
    }
}

/// The field with that number, where both are there.
fn field_at(fields: &[TypeId], number: Option<u128>) -> Option<TypeId>
    ensures { result ≡ option_and_then (slice_get fields.now) number }
{
    let number = number?;
    if number < fields.len() as u128 {
        Some(fields[number as usize])
    } else {
        None
    }
}
