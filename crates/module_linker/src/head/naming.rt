//! Names the structs of a linked module.
ghost use Rattle.std.specs.Prelude.{◌≡◌, ◌≤◌, length, Contains, bytes_eq, true, OnOk};
ghost use Rattle.ir_tables.specs.Table.{is_distinct};
ghost use Rattle.type_table.specs.Types.{structs, no_types, names, with_struct};
ghost use Rattle.module_arena.specs.declared.arena.TheConstants.{COUNT_LIMIT};
ghost use Rattle.module_arena.specs.View.{module_of};
ghost use Rattle.item_build.specs.Types.Holding.{entries};
ghost use Rattle.item_build.specs.Partly.{with_structs};
ghost use Rattle.module_linker.specs.Head.Head.{only_named};

use ir_base::{Name, NameList};
use item_build::types::{Builder, type_out_of_memory};
use std::alloc::{AllocError, Global};

/// Names the next struct, where no struct has the name.
fn name_struct(alloc: Global, into: &mut Builder, name: &Name) -> Result<(), AllocError>
    requires few { length into.old.arena.table.structs ≤ COUNT_LIMIT }
    requires free { Contains (names into.old.arena.table) name.now → ⊥ }
    ensures table { OnOk result (into.new.arena.table ≡ with_struct into.old.arena.table name.now) }
    ensures module { OnOk result (module_of into.new.arena ≡ with_structs (module_of into.old.arena) (structs into.new.arena.table)) }
    ensures entries { OnOk result (entries into.new.arena ≡ entries into.old.arena) }
{
    let name = name.copy(alloc)?;
    match into.arena.name_struct(name) {
        Ok(_) => Ok(()),
        Err(fault) => Err(type_out_of_memory(fault)),
    }
}

/// Names structs, in order, where the new arena has no types and no two of the names are one.
pub(crate) fn name_structs(
    alloc: Global,
    into: &mut Builder,
    names: &NameList,
) -> Result<(), AllocError>
    requires empty { into.old.arena.table ≡ no_types }
    requires few { length names.now ≤ COUNT_LIMIT }
    requires apart { is_distinct bytes_eq names.now ≡ true }
    ensures table { OnOk result (into.new.arena.table ≡ only_named names.now) }
    ensures module { OnOk result (module_of into.new.arena ≡ with_structs (module_of into.old.arena) (structs into.new.arena.table)) }
    ensures entries { OnOk result (entries into.new.arena ≡ entries into.old.arena) }
{
    'names: for name in names.as_slice() {
        name_struct(alloc, into, name)?;
    }
    Ok(())
}
