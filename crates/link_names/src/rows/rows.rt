//! The structs of a linked module, and which of them each struct of each part is.
ghost use Rattle.std.specs.Prelude.{◌≡◌, ◌<◌, [], length, true, false, nat_eq, Some, slice_get, All, IfOk, OnOk};
ghost use Rattle.indexmap.specs.IndexSet.{insert_key};
ghost use Rattle.linkage_rules.specs.Ids.{modules};
ghost use Rattle.linkage_rules.specs.Lists.{has};
ghost use Rattle.module_arena.specs.Sound.{IsSound};
ghost use Rattle.link_names.specs.Shapes.Shapes.{AreApart, shapes_of};
ghost use Rattle.link_names.specs.Rows.Numbers.{AreNewStructs, new_struct_names, so_far};
ghost use Rattle.link_names.specs.Rows.Rows.{AddsPart, AreRows, HasName, IsNamedAs};

use crate::Naming;
use crate::rows::avoided::avoid_all;
use crate::shapes::ShapeSet;
use crate::structs::ShapeWalk;
use indexmap::IndexSet;
use ir_base::{ItemList, Name, NameList, NumberList};
use linkage_rules::arena_of;
use module_arena::Checked;
use std::alloc::{AllocError, Global};
use type_table::StructId;

/// The named structs of the module that is made of some parts.
#[derive(Drop)]
pub struct StructRows {
    /// What they are called, in their order.
    pub names: NameList,
    /// Part by part, of each struct of the part which of them it is, counted from 0.
    pub numbers: ItemList<NumberList>,
}

/// The rows in the making.
#[derive(Drop)]
struct GrowingRows {
    shapes: ShapeSet,
    /// The number of the shape of each row.
    found: IndexSet<u64>,
    naming: Naming,
    names: NameList,
}

impl GrowingRows {
    /// No rows.
    fn new(alloc: Global, naming: Naming) -> GrowingRows
        ensures shapes { shapes_of result.shapes ≡ [] }
        ensures found { result.found.keys ≡ [] }
        ensures naming { result.naming ≡ naming }
        ensures names { result.names ≡ [] }
    {
        GrowingRows {
            shapes: ShapeSet::new(alloc),
            found: IndexSet::new(alloc),
            naming,
            names: NameList::new(alloc),
        }
    }

    /// Names a new row.
    fn name_row(&mut self, alloc: Global, name: &Name) -> Result<(), AllocError>
        ensures named { OnOk result (HasName self.old name.now self.new) }
        ensures shapes { self.new.shapes ≡ self.old.shapes }
        ensures found { self.new.found.keys ≡ self.old.found.keys }
    {
        let new = self.naming.name_for(alloc, name, name)?;
        self.names.push(new)?;
        Ok(())
    }

    /// The row of a struct of this name and of the shape of this number. Where no struct before it had that shape it is the
    /// next, and gets a name.
    fn row_of(&mut self, alloc: Global, shape: u64, name: &Name) -> Result<u64, AllocError>
        ensures apart { AreApart (shapes_of self.old.shapes) }
        ensures shapes { self.new.shapes ≡ self.old.shapes }
        ensures found { OnOk result (self.new.found.keys ≡ insert_key nat_eq self.old.found.keys shape) }
        ensures here { IfOk result (λ row. slice_get self.new.found.keys row ≡ Some shape) }
        ensures new { OnOk result (has nat_eq self.old.found.keys shape ≡ false → HasName self.old name.now self.new) }
        ensures old { OnOk result (has nat_eq self.old.found.keys shape ≡ true → IsNamedAs self.old self.new) }
    {
        // No shape has two numbers.
        let _count = self.shapes.count();
        let (row, is_new) = self.found.insert_full(shape)?;
        if !is_new {
            return Ok(row as u64);
        }
        self.name_row(alloc, name)?;
        Ok(row as u64)
    }

    /// The names of the rows, in their order.
    fn into_names(self) -> NameList
        ensures { result ≡ self.names }
    {
        let GrowingRows {
            shapes: _,
            found: _,
            naming: _,
            names,
        } = self;
        names
    }

    /// The rows of the structs of the next part, in their order. The part is told by its number, counted from 0.
    fn add_part(
        &mut self,
        alloc: Global,
        parts: &[Checked],
        part: u64,
    ) -> Result<NumberList, AllocError>
        requires part { part < length parts.now }
        requires rows { AreRows (modules parts.now) (so_far (modules parts.now) part) self.old }
        ensures { IfOk result (λ numbers. AddsPart (modules parts.now) part self.new numbers) }
    {
        let from = arena_of(parts, part).types();
        let mut walk = ShapeWalk::new(alloc, from)?;
        let mut numbers = NumberList::new(alloc);
        'structs: for number in 0..from.struct_count() {
            let id = StructId::new(number);
            let shape = walk.struct_number(alloc, from, &mut self.shapes, id)?;
            let row = self.row_of(alloc, shape, from.struct_name(id))?;
            numbers.push(row)?;
        }
        Ok(numbers)
    }
}

/// No rows yet: the names that no struct with a new name is to have are known.
fn no_rows(alloc: Global, parts: &[Checked]) -> Result<GrowingRows, AllocError>
    ensures { IfOk result (λ rows. AreRows (modules parts.now) [] rows) }
{
    let mut naming = Naming::new(alloc);
    avoid_all(alloc, parts, &mut naming)?;
    Ok(GrowingRows::new(alloc, naming))
}

/// The rows of the structs of all parts, part by part.
fn add_parts(
    rows: &mut GrowingRows,
    alloc: Global,
    parts: &[Checked],
) -> Result<ItemList<NumberList>, AllocError>
    requires { AreRows (modules parts.now) [] rows.old }
    ensures names { OnOk result (rows.new.names ≡ new_struct_names (modules parts.now)) }
    ensures numbers { IfOk result (λ numbers. AreNewStructs (modules parts.now) numbers) }
    ensures sound { OnOk result (All IsSound parts.now) }
{
    let mut numbers = ItemList::new(alloc);
    'parts: for part in 0..parts.len() {
        // What holds of each part.
        let _arena = arena_of(parts, part as u64);
        let list = rows.add_part(alloc, parts, part as u64)?;
        numbers.push(list)?;
    }
    Ok(numbers)
}

/// The named structs of the module that is made of some parts: structs of one name and one shape are one, whatever their
/// part (LangRef, "Structure Type"). A struct keeps its name where no earlier one has it; else it gets a dot and the least
/// number from 1 on that makes it the name of no struct. Only memory may be wanting.
pub fn struct_rows(alloc: Global, parts: &[Checked]) -> Result<StructRows, AllocError>
    ensures names { IfOk result (λ rows. rows.names ≡ new_struct_names (modules parts.now)) }
    ensures numbers { IfOk result (λ rows. AreNewStructs (modules parts.now) rows.numbers) }
    // Each part was looked at, and is well formed and valid, as each `Checked` is.
    ensures sound { OnOk result (All IsSound parts.now) }
{
    let mut rows = no_rows(alloc, parts)?;
    let numbers = add_parts(&mut rows, alloc, parts)?;
    Ok(StructRows {
        names: rows.into_names(),
        numbers,
    })
}
