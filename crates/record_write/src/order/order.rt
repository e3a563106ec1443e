//! Types in the order in which they are listed.
ghost use Rattle.std.specs.Prelude.{◌≡◌, ℕ, ◌<◌, ◌∷◌, ◌++◌, [], false, true, None, map, length, All, OnOk, IfOk, slice_index_or, slice_set};
ghost use Rattle.type_table.specs.Types.{tree};
ghost use Rattle.entry_verify.specs.Types.Classes.{AreClasses};
ghost use Rattle.record_write.specs.Order.Order.{Adds, Notes, place_of, listed_trees, has_tree, HasParts, IsClosed};

use entry_verify::types::TypeJudge;
use std::alloc::{AllocError, Global};
use std::marker::Model;
use type_table::{IrType, TypeId, TypeTable};

/// The types that are listed so far, and where each stands among them.
#[derive(Drop)]
pub struct TypeOrder<'a> {
    table: &'a TypeTable,
    /// For each type, the class of those that are written alike.
    classes: Vec<TypeId>,
    /// For each class, its place.
    places: Vec<Option<u64>>,
    listed: Vec<TypeId>,
    /// For each constant, whether the types in it are listed.
    gone: Vec<bool>,
}

impl<'a> Model for TypeOrder<'a> {
    ghost use Rattle.record_write.specs.Order.Order.{Order};
    ghost use Rattle.record_write.specs.Order.Kept.{IsOrder};

    ghost Value = { Order };

    ghost view = { λ o. record { types = o.table.now; listed = o.listed.items; gone = o.gone.items } };

    ghost invariant = { λ o. IsOrder o.table.now o.classes.items o.places.items o.listed.items };
}

/// The class of a type.
fn class_at(classes: &[TypeId], ty: TypeId) -> usize
    ensures { result ≡ slice_index_or classes.now ty 0 }
{
    match classes.get(ty.number() as usize) {
        Some(class) => class.number() as usize,
        None => 0,
    }
}

/// The place of a class, where it has one.
fn place_at(places: &[Option<u64>], class: usize) -> Option<u64>
    ensures { result ≡ slice_index_or places.now class None }
{
    match places.get(class) {
        Some(place) => *place,
        None => None,
    }
}

/// Makes room for the place of a class. No class gets a place by that.
fn make_room(places: &mut Vec<Option<u64>>, class: usize) -> Result<(), AllocError>
    ensures room { OnOk result (class < length places.new.items) }
    ensures same { (other : ℕ) → slice_index_or places.new.items other None ≡ slice_index_or places.old.items other None }
{
    while places.len() <= class {
        places.push(None)?;
    }
    Ok(())
}

/// The classes of the types of a table.
fn classes_of(alloc: Global, table: &TypeTable) -> Result<Vec<TypeId>, AllocError>
    ensures { IfOk result (λ classes. AreClasses table.now classes.items) }
{
    let judge = TypeJudge::new(alloc, table)?;
    judge.classes().iter().copied().collect(alloc)
}

/// That none of so many constants was gone through.
fn none_gone(alloc: Global, constants: u64) -> Result<Vec<bool>, AllocError>
    ensures len { IfOk result (λ gone. length gone.items ≡ constants) }
    ensures none { IfOk result (λ gone. (number : ℕ) → slice_index_or gone.items number false ≡ false) }
{
    let mut gone = Vec::new(alloc);
    for _constant in 0..constants {
        gone.push(false)?;
    }
    Ok(gone)
}

impl<'a> TypeOrder<'a> {
    /// No types are listed, and none of so many constants was gone through.
    pub fn new(
        alloc: Global,
        table: &'a TypeTable,
        constants: u64,
    ) -> Result<TypeOrder<'a>, AllocError>
        ensures types { IfOk result (λ order. order.types ≡ table.now) }
        ensures none { IfOk result (λ order. order.listed ≡ []) }
        ensures room { IfOk result (λ order. length order.gone ≡ constants) }
        ensures gone { IfOk result (λ order. (number : ℕ) → slice_index_or order.gone number false ≡ false) }
    {
        let classes = classes_of(alloc, table)?;
        let gone = none_gone(alloc, constants)?;
        Ok(TypeOrder {
            table,
            classes,
            places: Vec::new(alloc),
            listed: Vec::new(alloc),
            gone,
        })
    }

    /// The table of the types.
    fn table(&self) -> &'a TypeTable
        ensures { result.now ≡ self.now.types }
    {
        self.table
    }

    /// Where the type stands among those that are listed, if it does, counted from 0.
    pub fn place(&self, ty: TypeId) -> Option<u64>
        requires { ty < length self.now.types.types }
        ensures { result ≡ place_of self.now ty }
    {
        place_at(&self.places, class_at(&self.classes, ty))
    }

    /// The types that are listed, in their order.
    pub fn listed(&self) -> &[TypeId]
        ensures same { result.now ≡ self.now.listed }
        ensures known { All (λ ty. ty < length self.now.types.types) self.now.listed }
    {
        &self.listed
    }

    /// Whether the type is listed.
    pub(crate) fn has(&self, ty: TypeId) -> bool
        requires { ty < length self.now.types.types }
        ensures has { result ≡ has_tree (listed_trees self.now) (tree self.now.types ty) }
        ensures closed { IsClosed (listed_trees self.now) }
    {
        place_at(&self.places, class_at(&self.classes, ty)).is_some()
    }

    /// Lists the type, behind its parts from left to right, each where it is new.
    #[cycle(noting)]
    pub fn note(&mut self, ty: TypeId) -> Result<(), AllocError>
        requires { ty < length self.old.types.types }
        ensures { OnOk result (Notes self.old self.new (tree self.old.types ty ∷ [])) }
    {
        if self.has(ty) {
            return Ok(());
        }
        let types = self.table();
        // What holds of the types of each table.
        let _count = types.type_count();
        match types.get(ty) {
            IrType::Array(_, element) => {
                self.note(*element)?;
                self.list(ty)
            }
            IrType::Struct(_, fields) => {
                self.note_all(fields.as_slice())?;
                self.list(ty)
            }
            IrType::Int(_) => self.list(ty),
            IrType::Ptr => self.list(ty),
            IrType::Void => self.list(ty),
            IrType::Named(_) => self.list(ty),
        }
    }

    /// Lists some types, one behind the other.
    #[cycle(noting)]
    pub fn note_all(&mut self, types: &[TypeId]) -> Result<(), AllocError>
        requires { All (λ ty. ty < length self.old.types.types) types.now }
        ensures { OnOk result (Notes self.old self.new (map (tree self.old.types) types.now)) }
    {
        for ty in types {
            self.note(*ty)?;
        }
        Ok(())
    }

    /// Lists a type whose parts are listed, where it is new.
    fn list(&mut self, ty: TypeId) -> Result<(), AllocError>
        requires ty { ty < length self.old.types.types }
        requires parts { HasParts (listed_trees self.old) (tree self.old.types ty) }
        ensures { OnOk result (Adds self.old self.new (tree self.old.types ty)) }
    {
        if self.has(ty) {
            return Ok(());
        }
        self.put(ty)?;
        Ok(())
    }

    /// Lists a type that is new, whose parts are listed.
    fn put(&mut self, ty: TypeId) -> Result<(), AllocError>
        requires ty { ty < length self.old.types.types }
        requires parts { HasParts (listed_trees self.old) (tree self.old.types ty) }
        requires new { has_tree (listed_trees self.old) (tree self.old.types ty) ≡ false }
        ensures { OnOk result (self.new ≡ record self.old { listed = self.old.listed ++ ty ∷ [] }) }
    {
        let class = class_at(&self.classes, ty);
        make_room(&mut self.places, class)?;
        let place = self.listed.len() as u64;
        self.listed.push(ty)?;
        self.places[class] = Some(place);
        Ok(())
    }

    /// Whether the constant of that number was gone through.
    pub(crate) fn is_gone(&self, number: u64) -> bool
        ensures gone { result ≡ slice_index_or self.now.gone number false }
        ensures closed { IsClosed (listed_trees self.now) }
    {
        match self.gone.get(number as usize) {
            Some(gone) => *gone,
            None => false,
        }
    }

    /// From now on the constant of that number was gone through.
    pub(crate) fn mark(&mut self, number: u64)
        ensures { self.new ≡ record self.old { gone = slice_set self.old.gone number true } }
    {
        let place = number as usize;
        if place < self.gone.len() {
            self.gone[place] = true;
        }
    }
}
