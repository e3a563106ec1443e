//! Names the structs of an arena in another.
ghost use Rattle.std.specs.Prelude.{◌≡◌, ◌+◌, ◌<◌, take, length, OnOk};
ghost use Rattle.type_table.specs.Types.{structs, no_types};
ghost use Rattle.module_arena.specs.View.{module_of};
ghost use Rattle.item_build.specs.Types.Holding.{entries};
ghost use Rattle.item_build.specs.Named.{named_table};
ghost use Rattle.item_build.specs.Partly.{with_structs};

use item_build::types::{Builder, type_out_of_memory};
use module_arena::Arena;
use std::alloc::{AllocError, Global};
use type_table::StructId;

/// Names the struct with that id, where those before it are named.
fn name_struct(
    alloc: Global,
    from: &Arena,
    into: &mut Builder,
    id: StructId,
) -> Result<(), AllocError>
    requires known { id < length from.now.table.structs }
    requires next { into.old.arena.table ≡ named_table (take id (structs from.now.table)) }
    ensures table { OnOk result (into.new.arena.table ≡ named_table (take (id + 1) (structs from.now.table))) }
    ensures module { OnOk result (module_of into.new.arena ≡ with_structs (module_of into.old.arena) (structs into.new.arena.table)) }
    ensures entries { OnOk result (entries into.new.arena ≡ entries into.old.arena) }
{
    let _good = from.types().type_count();
    let name = from.types().struct_name(id).copy(alloc)?;
    match into.arena.name_struct(name) {
        Ok(_) => Ok(()),
        Err(fault) => Err(type_out_of_memory(fault)),
    }
}

/// Names the structs, in order, where the new arena has no types.
pub(crate) fn name_structs(
    alloc: Global,
    from: &Arena,
    into: &mut Builder,
) -> Result<(), AllocError>
    requires { into.old.arena.table ≡ no_types }
    ensures table { OnOk result (into.new.arena.table ≡ named_table (structs from.now.table)) }
    ensures module { OnOk result (module_of into.new.arena ≡ with_structs (module_of into.old.arena) (structs into.new.arena.table)) }
    ensures entries { OnOk result (entries into.new.arena ≡ entries into.old.arena) }
{
    'structs: for number in 0..from.types().struct_count() {
        name_struct(alloc, from, into, StructId::new(number))?;
    }
    Ok(())
}
