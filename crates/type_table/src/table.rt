//! The table of types.
ghost use Rattle.std.specs.Prelude.{◌≡◌, ℕ, IsTrue, true, All, ◌+◌, ◌<◌, ◌≤◌, ◌↔◌, ◌⊎◌, ◌^◌, ◌-◌, [], ◌∷◌, ◌++◌, length, slice_get, Some, None, Ok, Err, Contains, IfOk, IsSome, IfErr, IfSome, OnOk, OnErr, vec_len, vec_capacity};
ghost use Rattle.std.specs.Option.{option_copied, option_and_then};
ghost use Rattle.type_table.specs.Tree.{body_of};
ghost use Rattle.type_table.specs.Types.{Types, no_types, names, bodies, with_type, with_struct, with_body, IsKnown, IsKnownBody, IsGood, trees, tree_of, structs, shape};
ghost use Rattle.type_table.specs.Kept.{IsLarge, type_length, flagged_by};
ghost use Rattle.type_table.specs.Limits.{IsWithin, HasFault};
ghost use Rattle.type_table.specs.Batch.{StaysWithin, with_bodies};
ghost use Rattle.type_table.specs.Layout.{layout, offset};
ghost use Rattle.type_table.specs.Outline.{head_of, parts_of};

use crate::measure::{Measure, NESTING_LIMIT, SIZE_LIMIT};
use crate::outline::{TypeOutline, parts_of_body};
use crate::settle::{
    Measures, at_rest, field_offset, measure_at, measure_body, measure_type, remeasured,
};
use crate::structs::{
    StructMap, add_struct, copy_structs, has_name, name_at, place_of, set_bodies, set_body,
};
use crate::{IrType, Layout, StructBody, StructId, TypeFault, TypeId};
use indexmap::IndexMap;
use ir_base::Name;
use std::alloc::{AllocError, Global};
use std::marker::Model;
use std::{mem, slice};

/// The types of a module and its named structs, under their ids.
#[derive(Drop)]
pub struct TypeTable {
    types: Vec<IrType>,
    structs: StructMap,
    measures: Measures,
    /// For each struct, whether its name was added as a type. Until then no type holds the struct.
    flags: Vec<bool>,
}

impl Model for TypeTable {
    ghost use Rattle.type_table.specs.Types.{Types};
    ghost use Rattle.type_table.specs.Kept.{IsTable};

    ghost Value = { Types };

    ghost view = { λ t. record { types = t.types.items; structs = t.structs.entries } };

    ghost invariant = { λ t.
        IsTable (record { types = t.types.items; structs = t.structs.entries })
        t.measures.structs.items t.measures.types.items t.flags.items };
}

impl TypeTable {
    /// A table without types.
    pub fn new(alloc: Global) -> TypeTable
        ensures { result ≡ no_types }
    {
        TypeTable {
            types: Vec::new(alloc),
            structs: IndexMap::new(alloc),
            measures: Measures {
                structs: Vec::new(alloc),
                types: Vec::new(alloc),
            },
            flags: Vec::new(alloc),
        }
    }

    /// An equal table.
    pub fn copy(&self, alloc: Global) -> Result<TypeTable, AllocError>
        ensures { IfOk result (λ t. t ≡ self.now) }
    {
        Ok(TypeTable {
            types: copy_types(alloc, &self.types)?,
            structs: copy_structs(alloc, &self.structs)?,
            measures: self.measures.copy(alloc)?,
            flags: Vec::from_slice(alloc, &self.flags)?,
        })
    }

    /// How many types there are.
    pub fn type_count(&self) -> u64
        ensures count { result ≡ length self.now.types }
        ensures good { IsGood self.now }
        ensures within { IsWithin self.now }
    {
        // The limits are kept by the measures, so these are looked at.
        let _measures = &self.measures;
        self.types.len() as u64
    }

    /// How many structs have a name.
    pub fn struct_count(&self) -> u32
        ensures { result ≡ length self.now.structs }
    {
        self.structs.len() as u32
    }

    /// Adds a type, under an id of its own even where an equal type is there.
    pub fn add(&mut self, ty: IrType) -> Result<TypeId, TypeFault>
        requires { IsKnown self.old ty }
        ensures id { IfOk result (λ id. id ≡ length self.old.types) }
        ensures ok { OnOk result (self.new ≡ with_type self.old ty) }
        ensures within { OnOk result (IsWithin self.new) }
        ensures trees { OnOk result (trees self.new
            ≡ trees self.old ++ tree_of (names self.old) (trees self.old) ty ∷ []) }
        ensures kept { OnOk result (structs self.new ≡ structs self.old) }
        ensures fault { IfErr result (HasFault (with_type self.old ty)) }
        ensures never { ¬ (result ≡ Err TypeFault.SelfContaining) }
        ensures err { OnErr result (self.new ≡ self.old) }
    {
        let measure = measure_type(&self.measures.structs, &self.measures.types, &ty);
        if measure.nesting > NESTING_LIMIT {
            return Err(TypeFault::TooDeep);
        }
        if is_too_large(&measure, &ty) {
            return Err(TypeFault::TooLarge);
        }
        self.measures.types.reserve(1)?;
        let number = self.types.len() as u64;
        set_flag(&mut self.flags, &ty);
        self.types.push(ty)?;
        push_into_room(&mut self.measures.types, measure);
        Ok(TypeId::new(number))
    }

    /// Adds a struct without a body.
    pub fn name_struct(&mut self, name: Name) -> Result<StructId, TypeFault>
        requires { length self.old.structs < 2 ^ 32 - 1 }
        ensures id { IfOk result (λ id. id ≡ length self.old.structs) }
        ensures ok { OnOk result (self.new ≡ with_struct self.old name) }
        ensures trees { trees self.new ≡ trees self.old }
        ensures bodies { OnOk result (body_of (structs self.new) ≡ body_of (structs self.old)) }
        ensures duplicate { (result ≡ Err TypeFault.Duplicate) ↔ Contains (names self.old) name }
        ensures fault { IfErr result (λ fault. (fault ≡ TypeFault.Duplicate) ⊎ (fault ≡ TypeFault.Memory)) }
        ensures err { OnErr result (self.new ≡ self.old) }
    {
        if has_name(&self.structs, &name) {
            return Err(TypeFault::Duplicate);
        }
        self.measures.structs.reserve(1)?;
        self.flags.reserve(1)?;
        let number = self.structs.len() as u32;
        add_struct(&mut self.structs, name, None)?;
        push_into_room(&mut self.measures.structs, Measure::opaque());
        push_into_room(&mut self.flags, false);
        Ok(StructId::new(number))
    }

    /// Gives a struct its body. Where a type is the struct's name, the measures of all types that hold the struct
    /// follow, in passes over the whole table: one for each level to which its structs nest, 64 at most. Where none
    /// is, that is no more than one look at each field.
    pub fn define_struct(&mut self, id: StructId, body: StructBody) -> Result<(), TypeFault>
        requires known { id < length self.old.structs }
        requires fields { IsKnownBody self.old body }
        requires undefined { slice_get (bodies self.old) id ≡ Some None }
        ensures ok { OnOk result (self.new ≡ with_body self.old id body) }
        ensures trees { trees self.new ≡ trees self.old }
        ensures within { OnOk result (IsWithin self.new) }
        ensures fault { IfErr result (HasFault (with_body self.old id body)) }
        ensures err { OnErr result (self.new ≡ self.old) }
    {
        let index = id.number() as usize;
        let measure = measure_body(&self.measures.types, Measure::opaque(), &body);
        if !self.flags[index] {
            measure.check()?;
            set_body(&mut self.structs, index, body);
            self.measures.structs[index] = measure;
            return Ok(());
        }
        let alloc = *self.types.allocator();
        let kept = &self.measures.structs;
        let measures = remeasured(alloc, kept, &self.types, &self.structs, index, measure)?;
        let again = measure_body(&measures.types, Measure::opaque(), &body);
        if again.nesting != measure.nesting {
            return Err(TypeFault::SelfContaining);
        }
        measures.check()?;
        set_body(&mut self.structs, index, body);
        self.measures = measures;
        Ok(())
    }

    /// Gives structs without bodies these, the first of them that with this id, where the table is within its limits
    /// behind each of them, and takes the bodies then: in time linear in the table. `false` where that was not seen:
    /// nothing changes then, and `define_struct` tells of each what is wrong.
    pub fn define_structs(
        &mut self,
        first: StructId,
        given: &mut Vec<StructBody>,
    ) -> Result<bool, AllocError>
        requires known { first + length given.old.items ≤ length self.old.structs }
        requires fields { All (IsKnownBody self.old) given.old.items }
        requires undefined { (k : ℕ) → first ≤ k → k < first + length given.old.items
            → slice_get (bodies self.old) k ≡ Some None }
        ensures ok { result ≡ Ok true → self.new ≡ with_bodies self.old first given.old.items }
        ensures trees { trees self.new ≡ trees self.old }
        ensures within { result ≡ Ok true → StaysWithin self.old first given.old.items }
        ensures kept { ¬ (result ≡ Ok true) → (self.new ≡ self.old) × (given.new ≡ given.old) }
    {
        let alloc = *self.types.allocator();
        let index = first.number() as usize;
        let kept = &self.measures.structs;
        let found = at_rest(alloc, kept, &self.types, &self.structs, index, given)?;
        let Some(measures) = found else {
            return Ok(false);
        };
        match measures.check() {
            Ok(()) => {
                set_bodies(
                    &mut self.structs,
                    index,
                    mem::replace(given, Vec::new(alloc)),
                );
                self.measures = measures;
                Ok(true)
            }
            Err(_) => Ok(false),
        }
    }

    /// The type with that id.
    pub fn get(&self, ty: TypeId) -> &IrType
        requires { ty < length self.now.types }
        ensures { slice_get self.now.types ty ≡ Some result.now }
    {
        &self.types[ty.number() as usize]
    }

    /// How the type lies in memory, by a look-up. There is no layout exactly where the type is or
    /// contains `void`, or is or contains a struct that is opaque or not defined.
    pub fn layout(&self, ty: TypeId) -> Option<Layout>
        requires { ty < length self.now.types }
        ensures { result ≡ option_and_then layout (shape self.now ty) }
    {
        measure_at(&self.measures.types, ty.number() as usize).layout
    }

    /// What the type is but for its parts.
    fn head(&self, ty: TypeId) -> TypeOutline
        requires { ty < length self.now.types }
        ensures { result ≡ head_of self.now ty }
    {
        match &self.types[ty.number() as usize] {
            IrType::Int(width) => TypeOutline::Int(*width),
            IrType::Ptr => TypeOutline::Ptr,
            IrType::Void => TypeOutline::Void,
            IrType::Array(length, _) => TypeOutline::Array(*length),
            IrType::Struct(packed, _) => TypeOutline::Struct(*packed),
            IrType::Named(id) => TypeOutline::of_body(&self.structs[id.number() as usize]),
        }
    }

    /// The parts of the type: the elements' type, or the fields' types.
    fn parts(&self, ty: TypeId) -> &[TypeId]
        requires { ty < length self.now.types }
        ensures { result.now ≡ parts_of self.now ty }
    {
        match &self.types[ty.number() as usize] {
            IrType::Int(_) | IrType::Ptr | IrType::Void => &[],
            IrType::Array(_, element) => slice::from_ref(element),
            IrType::Struct(_, fields) => fields.as_slice(),
            IrType::Named(id) => parts_of_body(&self.structs[id.number() as usize]),
        }
    }

    /// Where the field with that index begins, in bytes. There is no offset exactly where the type is no
    /// struct with a layout or has no such field.
    pub fn offset(&self, ty: TypeId, field: u32) -> Option<u64>
        requires { ty < length self.now.types }
        ensures { result ≡ option_and_then (λ s. offset s field) (shape self.now ty) }
    {
        let types = &self.measures.types;
        self.layout(ty)?;
        let TypeOutline::Struct(packed) = self.head(ty) else {
            return None;
        };
        let parts = self.parts(ty);
        field_offset(packed, types, parts, field as usize)
    }

    /// Whether two types have one shape: whether they are equal once every struct's name is replaced by
    /// its body. Types with unlike numbers of parts are told apart by a look-up. Else both are walked
    /// together: over no more than the 2^20 parts of a type, shared or not, up to the first difference.
    pub fn shape_eq(&self, ty: TypeId, other: &TypeTable, other_ty: TypeId) -> bool
        requires own { ty < length self.now.types }
        requires others { other_ty < length other.now.types }
        ensures { IsTrue result ↔ (shape self.now ty ≡ shape other.now other_ty) }
    {
        let measure = measure_at(&self.measures.types, ty.number() as usize);
        let other_measure = measure_at(&other.measures.types, other_ty.number() as usize);
        if measure.parts != other_measure.parts {
            return false;
        }
        if !self.head(ty).is_same(other.head(other_ty)) {
            return false;
        }
        let parts = self.parts(ty);
        let other_parts = other.parts(other_ty);
        if parts.len() != other_parts.len() {
            return false;
        }
        for i in 0..parts.len() {
            if !self.shape_eq(parts[i], other, other_parts[i]) {
                return false;
            }
        }
        true
    }

    /// The name of a struct.
    pub fn struct_name(&self, id: StructId) -> &Name
        requires { id < length self.now.structs }
        ensures { slice_get (names self.now) id ≡ Some result.now }
    {
        name_at(&self.structs, id.number() as usize)
    }

    /// The struct with that name. There is none exactly where no struct has it.
    pub fn struct_of(&self, name: &Name) -> Option<StructId>
        ensures found { IfSome result (λ id. slice_get (names self.now) id ≡ Some name.now) }
        ensures present { IsSome result ↔ Contains (names self.now) name.now }
    {
        let index = place_of(&self.structs, name)?;
        Some(StructId::new(index as u32))
    }

    /// What a struct holds. There is nothing exactly where the struct has no body yet.
    pub fn struct_body(&self, id: StructId) -> Option<&StructBody>
        requires { id < length self.now.structs }
        ensures { slice_get (bodies self.now) id ≡ Some (option_copied result) }
    {
        self.structs[id.number() as usize].as_ref()
    }
}

/// Whether a type with that measure is too large, by its parts, its size or, for an array, its length.
fn is_too_large(measure: &Measure, ty: &IrType) -> bool
    ensures { IsTrue result ↔ (IsLarge measure.now ⊎ (SIZE_LIMIT < type_length ty.now)) }
{
    measure.is_too_large() || matches!(ty, IrType::Array(length, _) if *length > SIZE_LIMIT)
}

/// Adds an item for which there is room, so that nothing is allocated.
fn push_into_room<T: Copy>(items: &mut Vec<T>, item: T)
    requires { vec_len items.old < vec_capacity items.old }
    ensures { items.new.items ≡ items.old.items ++ item ∷ [] }
{
    items.push(item).unwrap();
}

/// Sets the flag of the struct whose name the type is, if it is one.
fn set_flag(flags: &mut Vec<bool>, ty: &IrType)
    ensures { flags.new.items ≡ flagged_by flags.old.items ty.now }
{
    if let IrType::Named(id) = ty {
        let index = id.number() as usize;
        if index < flags.len() {
            flags[index] = true;
        }
    }
}

/// Equal types.
fn copy_types(alloc: Global, types: &[IrType]) -> Result<Vec<IrType>, AllocError>
    ensures { IfOk result (λ copy. copy.items ≡ types.now) }
{
    let mut copy = Vec::with_capacity(alloc, types.len())?;
    for ty in types {
        copy.push(ty.copy(alloc)?)?;
    }
    Ok(copy)
}
