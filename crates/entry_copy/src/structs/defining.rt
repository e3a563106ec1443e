//! Gives the structs their bodies.
ghost use Rattle.std.specs.Prelude.{◌≡◌, ◌<◌, ℕ, [], length, slice_get, Some, None, OnOk};
ghost use Rattle.type_table.specs.Types.{structs, bodies, KnowsBody, no_types};
ghost use Rattle.module_arena.specs.View.{module_of};
ghost use Rattle.module_arena.specs.Renamed.{own};
ghost use Rattle.item_build.specs.Types.Holding.{entries};
ghost use Rattle.item_build.specs.Partly.{IsPartly, IsDone, with_structs};
ghost use Rattle.entry_copy.specs.Copies.{CopiesTypes};
ghost use Rattle.entry_copy.specs.Tables.{tables_of, with_types};

use crate::Copier;
use crate::structs::behind::behind_body;
use crate::structs::naming::name_structs;
use item_build::types::{Builder, type_out_of_memory};
use module_arena::Arena;
use std::alloc::{AllocError, Global};
use type_table::{IrType, StructBody, StructId, TypeId};

/// Gives the struct with that id, which has none, this body.
fn give_body(
    copier: &mut Copier,
    alloc: Global,
    from: &Arena,
    into: &mut Builder,
    id: StructId,
    body: &StructBody,
) -> Result<(), AllocError>
    requires here { slice_get (bodies from.now.table) id ≡ Some (Some body.now) }
    requires fields { KnowsBody (length from.now.table.types) (Some body.now) }
    requires undefined { slice_get (bodies into.old.arena.table) id ≡ Some None }
    requires partly { IsPartly (structs from.now.table) into.old.arena }
    requires copies { CopiesTypes own from.now into.old.arena copier.old }
    ensures module { OnOk result (module_of into.new.arena ≡ with_structs (module_of into.old.arena) (structs into.new.arena.table)) }
    ensures entries { OnOk result (entries into.new.arena ≡ entries into.old.arena) }
    ensures others { OnOk result (copier.new ≡ with_types copier.old copier.new.types) }
    ensures partly { OnOk result (IsPartly (structs from.now.table) into.new.arena) }
    ensures copies { OnOk result (CopiesTypes own from.now into.new.arena copier.new) }
    ensures done { OnOk result (IsDone (structs from.now.table) into.new.arena id) }
    ensures kept { (other : ℕ) → other < length from.now.table.structs → IsDone (structs from.now.table) into.old.arena other → OnOk result (IsDone (structs from.now.table) into.new.arena other) }
{
    let count = from.types().type_count();
    copier.copy_types(alloc, from, into, behind_body(count, body))?;
    let copy = copier.copy_struct_body(alloc, body)?;
    match into.arena.define_struct(id, copy) {
        Ok(()) => Ok(()),
        Err(fault) => Err(type_out_of_memory(fault)),
    }
}

/// Gives the struct with that id its body, unless it has it.
fn define_struct(
    copier: &mut Copier,
    alloc: Global,
    from: &Arena,
    into: &mut Builder,
    id: StructId,
) -> Result<(), AllocError>
    requires known { id < length from.now.table.structs }
    requires partly { IsPartly (structs from.now.table) into.old.arena }
    requires copies { CopiesTypes own from.now into.old.arena copier.old }
    ensures module { OnOk result (module_of into.new.arena ≡ with_structs (module_of into.old.arena) (structs into.new.arena.table)) }
    ensures entries { OnOk result (entries into.new.arena ≡ entries into.old.arena) }
    ensures others { OnOk result (copier.new ≡ with_types copier.old copier.new.types) }
    ensures partly { OnOk result (IsPartly (structs from.now.table) into.new.arena) }
    ensures copies { OnOk result (CopiesTypes own from.now into.new.arena copier.new) }
    ensures done { OnOk result (IsDone (structs from.now.table) into.new.arena id) }
    ensures kept { (other : ℕ) → other < length from.now.table.structs → IsDone (structs from.now.table) into.old.arena other → OnOk result (IsDone (structs from.now.table) into.new.arena other) }
{
    let _good = from.types().type_count();
    match into.arena.types().struct_body(id) {
        Some(_) => Ok(()),
        None => match from.types().struct_body(id) {
            Some(body) => give_body(copier, alloc, from, into, id, body),
            None => Ok(()),
        },
    }
}

/// Before a type is copied that is the name of a struct, gives the struct its body, unless it has it.
fn before_type(
    copier: &mut Copier,
    alloc: Global,
    from: &Arena,
    into: &mut Builder,
    ty: TypeId,
) -> Result<(), AllocError>
    requires known { ty < length from.now.table.types }
    requires partly { IsPartly (structs from.now.table) into.old.arena }
    requires copies { CopiesTypes own from.now into.old.arena copier.old }
    ensures module { OnOk result (module_of into.new.arena ≡ with_structs (module_of into.old.arena) (structs into.new.arena.table)) }
    ensures entries { OnOk result (entries into.new.arena ≡ entries into.old.arena) }
    ensures others { OnOk result (copier.new ≡ with_types copier.old copier.new.types) }
    ensures partly { OnOk result (IsPartly (structs from.now.table) into.new.arena) }
    ensures copies { OnOk result (CopiesTypes own from.now into.new.arena copier.new) }
{
    // Each type of a table has its parts in the table.
    let _good = from.types().type_count();
    match from.types().get(ty) {
        IrType::Named(id) => define_struct(copier, alloc, from, into, *id),
        _ => Ok(()),
    }
}

/// Copies the types up to that one. A struct has its body before a type is its name, so that no measure is taken twice where
/// the name of a struct stands behind the types of its fields.
fn copy_type(
    copier: &mut Copier,
    alloc: Global,
    from: &Arena,
    into: &mut Builder,
    ty: TypeId,
) -> Result<(), AllocError>
    requires known { ty < length from.now.table.types }
    requires partly { IsPartly (structs from.now.table) into.old.arena }
    requires copies { CopiesTypes own from.now into.old.arena copier.old }
    ensures module { OnOk result (module_of into.new.arena ≡ with_structs (module_of into.old.arena) (structs into.new.arena.table)) }
    ensures entries { OnOk result (entries into.new.arena ≡ entries into.old.arena) }
    ensures others { OnOk result (copier.new ≡ with_types copier.old copier.new.types) }
    ensures partly { OnOk result (IsPartly (structs from.now.table) into.new.arena) }
    ensures copies { OnOk result (CopiesTypes own from.now into.new.arena copier.new) }
{
    // There is a number behind that of each type, and the types are within the limits.
    let _count = from.types().type_count();
    before_type(copier, alloc, from, into, ty)?;
    copier.copy_types(alloc, from, into, ty.number() + 1)?;
    Ok(())
}

/// Copies all types, and gives each struct whose name is one of them its body before. The structs are named.
fn copy_types(
    copier: &mut Copier,
    alloc: Global,
    from: &Arena,
    into: &mut Builder,
) -> Result<(), AllocError>
    requires partly { IsPartly (structs from.now.table) into.old.arena }
    requires copies { CopiesTypes own from.now into.old.arena copier.old }
    ensures module { OnOk result (module_of into.new.arena ≡ with_structs (module_of into.old.arena) (structs into.new.arena.table)) }
    ensures entries { OnOk result (entries into.new.arena ≡ entries into.old.arena) }
    ensures others { OnOk result (copier.new ≡ with_types copier.old copier.new.types) }
    ensures partly { OnOk result (IsPartly (structs from.now.table) into.new.arena) }
    ensures copies { OnOk result (CopiesTypes own from.now into.new.arena copier.new) }
{
    'copied: for number in 0..from.types().type_count() {
        copy_type(copier, alloc, from, into, TypeId::new(number))?;
    }
    Ok(())
}

/// Gives the structs, which are named, their bodies.
fn define_structs(
    copier: &mut Copier,
    alloc: Global,
    from: &Arena,
    into: &mut Builder,
) -> Result<(), AllocError>
    requires partly { IsPartly (structs from.now.table) into.old.arena }
    requires copies { CopiesTypes own from.now into.old.arena copier.old }
    ensures module { OnOk result (module_of into.new.arena ≡ with_structs (module_of into.old.arena) (structs from.now.table)) }
    ensures structs { OnOk result (structs into.new.arena.table ≡ structs from.now.table) }
    ensures entries { OnOk result (entries into.new.arena ≡ entries into.old.arena) }
    ensures others { OnOk result (copier.new ≡ with_types copier.old copier.new.types) }
    ensures copies { OnOk result (CopiesTypes own from.now into.new.arena copier.new) }
{
    'structs: for number in 0..from.types().struct_count() {
        define_struct(copier, alloc, from, into, StructId::new(number))?;
    }
    Ok(())
}

/// Copies the structs into an arena without types: each has its id, its name and its body there. The types are copied with
/// them, by a copier that has copied nothing and keeps the ids of structs. Where the name of each struct stands behind the
/// types of its fields, as in what is built of a text, the time is linear in the table. Only memory may be wanting.
pub fn copy_structs(
    copier: &mut Copier,
    alloc: Global,
    from: &Arena,
    into: &mut Builder,
) -> Result<(), AllocError>
    requires empty { into.old.arena.table ≡ no_types }
    requires new { copier.old ≡ tables_of [] }
    ensures module { OnOk result (module_of into.new.arena ≡ with_structs (module_of into.old.arena) (structs from.now.table)) }
    ensures structs { OnOk result (structs into.new.arena.table ≡ structs from.now.table) }
    ensures entries { OnOk result (entries into.new.arena ≡ entries into.old.arena) }
    ensures others { OnOk result (copier.new ≡ with_types copier.old copier.new.types) }
    ensures copies { OnOk result (CopiesTypes own from.now into.new.arena copier.new) }
{
    name_structs(alloc, from, into)?;
    copy_types(copier, alloc, from, into)?;
    define_structs(copier, alloc, from, into)
}
