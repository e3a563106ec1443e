//! The numbers of the shapes of one part's types and structs.
ghost use Rattle.std.specs.Prelude.{◌≡◌, ◌<◌, List, map, length, slice_get, slice_set, Some, All, IfNone, IfOk, IfSome};
ghost use Rattle.type_table.specs.Shape.{Shape};
ghost use Rattle.type_table.specs.Tree.{fields, opaque_body};
ghost use Rattle.type_table.specs.Types.{trees, trees_at};
ghost use Rattle.link_names.specs.Shapes.Shapes.{IsKnownHead, labelled, shapes_of};
ghost use Rattle.link_names.specs.Structs.Shapes.{fields_shape, struct_shape, struct_tree, type_shape};
ghost use Rattle.link_names.specs.Structs.Walked.{Finds, FindsAll, Keeps, Remembers};

use crate::shapes::{Labelled, ShapeSet};
use ir_base::Name;
use std::alloc::{AllocError, Global};
use type_table::{IrType, StructBody, StructId, TypeId, TypeList, TypeTable};

/// What is known of one part: the numbers of the shapes of its types and structs, where they were looked at.
#[derive(Drop)]
pub struct ShapeWalk {
    types: Vec<Option<u64>>,
    structs: Vec<Option<u64>>,
}

/// An equal name, as a label.
fn label_of(alloc: Global, name: &Name) -> Result<Option<Name>, AllocError>
    ensures { IfOk result (λ label. label ≡ Some name.now) }
{
    Ok(Some(name.copy(alloc)?))
}

/// The number of the shape that is written so: its own where it is there, else the next.
fn kept_number(shapes: &mut ShapeSet, label: Option<Name>, head: IrType) -> Result<u64, AllocError>
    requires { IsKnownHead (length (shapes_of shapes.old)) label head }
    ensures { IfOk result (λ number. Keeps (shapes_of shapes.old) (shapes_of shapes.new) number (labelled (shapes_of shapes.old) label head)) }
{
    shapes.keep(Labelled { label, head })
}

/// Whether a struct is packed, and the types of its fields, where it has a body that is not opaque.
fn fields_of(from: &TypeTable, id: StructId) -> Option<(bool, &TypeList)>
    requires { id < length from.now.structs }
    ensures none { IfNone result (struct_tree from.now id ≡ opaque_body) }
    ensures some { IfSome result (λ f. struct_tree from.now id ≡ fields f.0 (trees_at (trees from.now) f.1.now)) }
    ensures known { IfSome result (λ f. All (λ ty. ty < length from.now.types) f.1.now) }
{
    // What holds of the types of each table.
    let _count = from.type_count();
    match from.struct_body(id)? {
        StructBody::Opaque => None,
        StructBody::Plain(fields) => Some((false, fields)),
        StructBody::Packed(fields) => Some((true, fields)),
    }
}

impl ShapeWalk {
    /// Nothing was looked at yet. Only memory may be wanting.
    pub fn new(alloc: Global, from: &TypeTable) -> Result<ShapeWalk, AllocError>
        ensures { IfOk result (λ walk. (shapes : List Shape) → Remembers from.now walk shapes) }
    {
        Ok(ShapeWalk {
            types: vec![in alloc; None; from.type_count() as usize]?,
            structs: vec![in alloc; None; from.struct_count() as usize]?,
        })
    }

    /// The number of a type's shape, where the type was looked at.
    fn type_at(&self, ty: TypeId) -> Option<u64>
        requires { ty < length self.now.types.items }
        ensures { slice_get self.now.types.items ty ≡ Some result }
    {
        self.types[ty.number() as usize]
    }

    /// The number of a struct's shape, where the struct was looked at.
    fn struct_at(&self, id: StructId) -> Option<u64>
        requires { id < length self.now.structs.items }
        ensures { slice_get self.now.structs.items id ≡ Some result }
    {
        self.structs[id.number() as usize]
    }

    /// Remembers the number of a type's shape.
    fn note_type(&mut self, ty: TypeId, number: u64)
        requires { ty < length self.old.types.items }
        ensures types { self.new.types.items ≡ slice_set self.old.types.items ty (Some number) }
        ensures structs { self.new.structs.items ≡ self.old.structs.items }
    {
        self.types[ty.number() as usize] = Some(number);
    }

    /// Remembers the number of a struct's shape.
    fn note_struct(&mut self, id: StructId, number: u64)
        requires { id < length self.old.structs.items }
        ensures structs { self.new.structs.items ≡ slice_set self.old.structs.items id (Some number) }
        ensures types { self.new.types.items ≡ self.old.types.items }
    {
        self.structs[id.number() as usize] = Some(number);
    }

    /// The numbers of the shapes of these types, in their order, as a list of parts.
    #[cycle(walk)]
    fn part_numbers(
        &mut self,
        alloc: Global,
        from: &TypeTable,
        shapes: &mut ShapeSet,
        parts: &[TypeId],
    ) -> Result<TypeList, AllocError>
        requires known { All (λ id. id < length from.now.types) parts.now }
        requires remembers { Remembers from.now self.old (shapes_of shapes.old) }
        ensures { IfOk result (λ numbers. FindsAll from.now (shapes_of shapes.old) self.new (shapes_of shapes.new) numbers (map (type_shape from.now) parts.now)) }
    {
        let mut numbers = Vec::new(alloc);
        'parts: for part in parts {
            let number = self.type_number(alloc, from, shapes, *part)?;
            numbers.push(TypeId::new(number))?;
        }
        Ok(TypeList::from_vec(numbers))
    }

    /// The number of the shape of a struct with these fields and that name, if it has one.
    #[cycle(walk)]
    fn fields_number(
        &mut self,
        alloc: Global,
        from: &TypeTable,
        shapes: &mut ShapeSet,
        label: Option<Name>,
        packed: bool,
        fields: &TypeList,
    ) -> Result<u64, AllocError>
        requires known { All (λ id. id < length from.now.types) fields.now }
        requires remembers { Remembers from.now self.old (shapes_of shapes.old) }
        ensures { IfOk result (λ number. Finds from.now (shapes_of shapes.old) self.new (shapes_of shapes.new) number (fields_shape from.now label packed fields.now)) }
    {
        let numbers = self.part_numbers(alloc, from, shapes, fields.as_slice())?;
        kept_number(shapes, label, IrType::Struct(packed, numbers))
    }

    /// The number of the shape of a type that was not looked at.
    #[cycle(walk)]
    fn written_number(
        &mut self,
        alloc: Global,
        from: &TypeTable,
        shapes: &mut ShapeSet,
        ty: TypeId,
    ) -> Result<u64, AllocError>
        requires known { ty < length from.now.types }
        requires remembers { Remembers from.now self.old (shapes_of shapes.old) }
        ensures { IfOk result (λ number. Finds from.now (shapes_of shapes.old) self.new (shapes_of shapes.new) number (type_shape from.now ty)) }
    {
        match from.get(ty) {
            IrType::Int(width) => kept_number(shapes, None, IrType::Int(*width)),
            IrType::Ptr => kept_number(shapes, None, IrType::Ptr),
            IrType::Void => kept_number(shapes, None, IrType::Void),
            IrType::Array(length, element) => {
                let number = self.type_number(alloc, from, shapes, *element)?;
                kept_number(shapes, None, IrType::Array(*length, TypeId::new(number)))
            }
            IrType::Struct(packed, fields) => self.fields_number(
                alloc, from, shapes, None, *packed, fields,
            ),
            IrType::Named(id) => self.struct_number(alloc, from, shapes, *id),
        }
    }

    /// The number of the shape of a type.
    #[cycle(walk)]
    fn type_number(
        &mut self,
        alloc: Global,
        from: &TypeTable,
        shapes: &mut ShapeSet,
        ty: TypeId,
    ) -> Result<u64, AllocError>
        requires known { ty < length from.now.types }
        requires remembers { Remembers from.now self.old (shapes_of shapes.old) }
        ensures { IfOk result (λ number. Finds from.now (shapes_of shapes.old) self.new (shapes_of shapes.new) number (type_shape from.now ty)) }
    {
        if let Some(number) = self.type_at(ty) {
            return Ok(number);
        }
        let number = self.written_number(alloc, from, shapes, ty)?;
        self.note_type(ty, number);
        Ok(number)
    }

    /// The number of the shape of a struct that was not looked at.
    #[cycle(walk)]
    fn body_number(
        &mut self,
        alloc: Global,
        from: &TypeTable,
        shapes: &mut ShapeSet,
        id: StructId,
    ) -> Result<u64, AllocError>
        requires known { id < length from.now.structs }
        requires remembers { Remembers from.now self.old (shapes_of shapes.old) }
        ensures { IfOk result (λ number. Finds from.now (shapes_of shapes.old) self.new (shapes_of shapes.new) number (struct_shape from.now id)) }
    {
        let label = label_of(alloc, from.struct_name(id))?;
        match fields_of(from, id) {
            None => kept_number(shapes, label, IrType::Void),
            Some((packed, fields)) => self.fields_number(
                alloc, from, shapes, label, packed, fields,
            ),
        }
    }

    /// The number of the shape of a struct, with its name and those of the structs in it. It goes down to what the struct
    /// holds, 64 deep at most, and looks at nothing twice. Only memory may be wanting.
    #[cycle(walk)]
    pub fn struct_number(
        &mut self,
        alloc: Global,
        from: &TypeTable,
        shapes: &mut ShapeSet,
        id: StructId,
    ) -> Result<u64, AllocError>
        requires known { id < length from.now.structs }
        requires remembers { Remembers from.now self.old (shapes_of shapes.old) }
        ensures { IfOk result (λ number. Finds from.now (shapes_of shapes.old) self.new (shapes_of shapes.new) number (struct_shape from.now id)) }
    {
        if let Some(number) = self.struct_at(id) {
            return Ok(number);
        }
        let number = self.body_number(alloc, from, shapes, id)?;
        self.note_struct(id, number);
        Ok(number)
    }
}
