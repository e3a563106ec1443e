//! The types of one part, and the structs that it is the first to have.
ghost use Rattle.std.specs.Prelude.{◌≡◌, ◌+◌, ◌<◌, ◌≤◌, ℕ, List, length, slice_get, Some, None, OnOk};
ghost use Rattle.type_table.specs.Types.{structs, bodies, KnowsBody};
ghost use Rattle.module_arena.specs.Lists.{Lists};
ghost use Rattle.module_arena.specs.Module.{Bytes, Module};
ghost use Rattle.module_arena.specs.View.{module_of};
ghost use Rattle.link_rules.specs.Linked.{link_result};
ghost use Rattle.item_build.specs.Types.Holding.{entries};
ghost use Rattle.item_build.specs.Partly.{IsDone, with_structs};
ghost use Rattle.entry_copy.specs.Copies.{CopiesTypes};
ghost use Rattle.entry_copy.specs.Tables as tables;
ghost use Rattle.entry_copy.specs.Tables.{Tables, with_types};
ghost use Rattle.module_linker.specs.Parts.Bodies.{GivesBody, IsMaking};
ghost use Rattle.module_linker.specs.Parts.Named.{AreDone, KeepsDone};

use entry_copy::Copier;
use entry_copy::structs::behind_body;
use item_build::types::{Builder, type_out_of_memory};
use link_rules::bodies::structs_keep_bodies;
use module_arena::Arena;
use std::alloc::{AllocError, Global};
use type_table::{IrType, StructBody, StructId, TypeId};

/// Gives the struct with that new id, which has none, this body of a struct of the part. The types that it names are copied
/// with it.
fn give_body(
    copier: &mut Copier,
    alloc: Global,
    from: &Arena,
    into: &mut Builder,
    new: StructId,
    body: &StructBody,
) -> Result<(), AllocError>
    requires fields { KnowsBody (length from.now.table.types) (Some body.now) }
    requires undefined { slice_get (bodies into.old.arena.table) new ≡ Some None }
    requires making { (ms : List Module) × (i : ℕ) × IsMaking ms i from.now into.old.arena copier.old × GivesBody ms i from.now new body.now }
    ensures making { (ms : List Module) (i : ℕ) → IsMaking ms i from.now into.old.arena copier.old → GivesBody ms i from.now new body.now → OnOk result (IsMaking ms i from.now into.new.arena copier.new) }
    ensures module { OnOk result (module_of into.new.arena ≡ with_structs (module_of into.old.arena) (structs into.new.arena.table)) }
    ensures entries { OnOk result (entries into.new.arena ≡ entries into.old.arena) }
    ensures others { OnOk result (copier.new ≡ with_types copier.old copier.new.types) }
    ensures more { OnOk result (length copier.old.types ≤ length copier.new.types) }
    ensures still { (naming : Bytes → Bytes) (a : Lists) (t : Tables) → CopiesTypes naming a into.old.arena t → OnOk result (CopiesTypes naming a into.new.arena t) }
    ensures done { (ms : List Module) (i : ℕ) → IsMaking ms i from.now into.old.arena copier.old → GivesBody ms i from.now new body.now → OnOk result (IsDone (link_result ms).structs into.new.arena new) }
    ensures kept { (ms : List Module) (i : ℕ) → IsMaking ms i from.now into.old.arena copier.old → GivesBody ms i from.now new body.now → OnOk result (KeepsDone ms into.old.arena into.new.arena) }
{
    let count = from.types().type_count();
    copier.copy_types(alloc, from, into, behind_body(count, body))?;
    let copy = copier.copy_struct_body(alloc, body)?;
    match into.arena.define_struct(new, copy) {
        Ok(()) => Ok(()),
        Err(fault) => Err(type_out_of_memory(fault)),
    }
}

/// Gives what the struct of the part with that id is in the new arena its body, unless it has it.
fn define_struct(
    copier: &mut Copier,
    alloc: Global,
    from: &Arena,
    into: &mut Builder,
    id: StructId,
) -> Result<(), AllocError>
    requires known { id < length from.now.table.structs }
    requires making { (ms : List Module) × (i : ℕ) × IsMaking ms i from.now into.old.arena copier.old }
    ensures making { (ms : List Module) (i : ℕ) → IsMaking ms i from.now into.old.arena copier.old → OnOk result (IsMaking ms i from.now into.new.arena copier.new) }
    ensures module { OnOk result (module_of into.new.arena ≡ with_structs (module_of into.old.arena) (structs into.new.arena.table)) }
    ensures entries { OnOk result (entries into.new.arena ≡ entries into.old.arena) }
    ensures others { OnOk result (copier.new ≡ with_types copier.old copier.new.types) }
    ensures more { OnOk result (length copier.old.types ≤ length copier.new.types) }
    ensures still { (naming : Bytes → Bytes) (a : Lists) (t : Tables) → CopiesTypes naming a into.old.arena t → OnOk result (CopiesTypes naming a into.new.arena t) }
    ensures done { (ms : List Module) (i : ℕ) → IsMaking ms i from.now into.old.arena copier.old → OnOk result (IsDone (link_result ms).structs into.new.arena (tables.new_struct copier.old id)) }
    ensures kept { (ms : List Module) (i : ℕ) → IsMaking ms i from.now into.old.arena copier.old → OnOk result (KeepsDone ms into.old.arena into.new.arena) }
{
    // The names of the structs are apart.
    let _good = from.types().type_count();
    // A struct of a part has the body of what it is in the linked module.
    structs_keep_bodies();
    let new = copier.new_struct(id);
    match into.arena.types().struct_body(new) {
        Some(_) => Ok(()),
        None => match from.types().struct_body(id) {
            Some(body) => give_body(copier, alloc, from, into, new, body),
            None => Ok(()),
        },
    }
}

/// Before a type is copied that is the name of a struct, gives the struct its body, unless it has it.
fn before_type(
    copier: &mut Copier,
    alloc: Global,
    from: &Arena,
    into: &mut Builder,
    ty: TypeId,
) -> Result<(), AllocError>
    requires known { ty < length from.now.table.types }
    requires making { (ms : List Module) × (i : ℕ) × IsMaking ms i from.now into.old.arena copier.old }
    ensures making { (ms : List Module) (i : ℕ) → IsMaking ms i from.now into.old.arena copier.old → OnOk result (IsMaking ms i from.now into.new.arena copier.new) }
    ensures module { OnOk result (module_of into.new.arena ≡ with_structs (module_of into.old.arena) (structs into.new.arena.table)) }
    ensures entries { OnOk result (entries into.new.arena ≡ entries into.old.arena) }
    ensures others { OnOk result (copier.new ≡ with_types copier.old copier.new.types) }
    ensures still { (naming : Bytes → Bytes) (a : Lists) (t : Tables) → CopiesTypes naming a into.old.arena t → OnOk result (CopiesTypes naming a into.new.arena t) }
    ensures kept { (ms : List Module) (i : ℕ) → IsMaking ms i from.now into.old.arena copier.old → OnOk result (KeepsDone ms into.old.arena into.new.arena) }
{
    // Each type of a table has its parts in the table.
    let _good = from.types().type_count();
    match from.types().get(ty) {
        IrType::Named(id) => define_struct(copier, alloc, from, into, *id),
        _ => Ok(()),
    }
}

/// Copies the types up to that one. A struct has its body before a type is its name, so that no measure is taken twice where
/// each struct of the part stands behind those that it holds.
fn copy_type(
    copier: &mut Copier,
    alloc: Global,
    from: &Arena,
    into: &mut Builder,
    ty: TypeId,
) -> Result<(), AllocError>
    requires known { ty < length from.now.table.types }
    requires making { (ms : List Module) × (i : ℕ) × IsMaking ms i from.now into.old.arena copier.old }
    ensures making { (ms : List Module) (i : ℕ) → IsMaking ms i from.now into.old.arena copier.old → OnOk result (IsMaking ms i from.now into.new.arena copier.new) }
    ensures module { OnOk result (module_of into.new.arena ≡ with_structs (module_of into.old.arena) (structs into.new.arena.table)) }
    ensures entries { OnOk result (entries into.new.arena ≡ entries into.old.arena) }
    ensures others { OnOk result (copier.new ≡ with_types copier.old copier.new.types) }
    ensures still { (naming : Bytes → Bytes) (a : Lists) (t : Tables) → CopiesTypes naming a into.old.arena t → OnOk result (CopiesTypes naming a into.new.arena t) }
    ensures copied { OnOk result (ty + 1 ≤ length copier.new.types) }
    ensures kept { (ms : List Module) (i : ℕ) → IsMaking ms i from.now into.old.arena copier.old → OnOk result (KeepsDone ms into.old.arena into.new.arena) }
{
    // There is a number behind that of each type.
    let _count = from.types().type_count();
    before_type(copier, alloc, from, into, ty)?;
    copier.copy_types(alloc, from, into, ty.number() + 1)?;
    Ok(())
}

/// Copies all types of a part, and gives the structs that it is the first to have their bodies. The structs of the new arena
/// are named, and the copier knows the new ids of those of the part. Only memory may be wanting.
pub fn copy_part(
    copier: &mut Copier,
    alloc: Global,
    from: &Arena,
    into: &mut Builder,
) -> Result<(), AllocError>
    requires making { (ms : List Module) × (i : ℕ) × IsMaking ms i from.now into.old.arena copier.old }
    ensures making { (ms : List Module) (i : ℕ) → IsMaking ms i from.now into.old.arena copier.old → OnOk result (IsMaking ms i from.now into.new.arena copier.new) }
    ensures module { OnOk result (module_of into.new.arena ≡ with_structs (module_of into.old.arena) (structs into.new.arena.table)) }
    ensures entries { OnOk result (entries into.new.arena ≡ entries into.old.arena) }
    ensures others { OnOk result (copier.new ≡ with_types copier.old copier.new.types) }
    ensures still { (naming : Bytes → Bytes) (a : Lists) (t : Tables) → CopiesTypes naming a into.old.arena t → OnOk result (CopiesTypes naming a into.new.arena t) }
    ensures all { OnOk result (length copier.new.types ≡ length from.now.table.types) }
    ensures done { (ms : List Module) (i : ℕ) → IsMaking ms i from.now into.old.arena copier.old → OnOk result (AreDone ms from.now into.new.arena copier.new) }
    ensures kept { (ms : List Module) (i : ℕ) → IsMaking ms i from.now into.old.arena copier.old → OnOk result (KeepsDone ms into.old.arena into.new.arena) }
{
    'copied: for number in 0..from.types().type_count() {
        copy_type(copier, alloc, from, into, TypeId::new(number))?;
    }
    'defined: for number in 0..from.types().struct_count() {
        define_struct(copier, alloc, from, into, StructId::new(number))?;
    }
    Ok(())
}
