//! The texts and the names of structs.
ghost use Rattle.std.specs.Prelude.{◌≡◌, ◌≤◌, map, length, OnOk};
ghost use Rattle.type_table.specs.Types.{structs};
ghost use Rattle.module_arena.specs.declared.arena.TheConstants.{COUNT_LIMIT};
ghost use Rattle.module_arena.specs.Lists.{no_lists};
ghost use Rattle.module_arena.specs.View.{module_of};
ghost use Rattle.linkage_rules.specs.Ids.{modules};
ghost use Rattle.link_rules.specs.Structs.{struct_map};
ghost use Rattle.item_build.specs.Types.Holding.{entries};
ghost use Rattle.item_build.specs.Partly.{with_structs};
ghost use Rattle.module_linker.specs.Head.Head.{only_named, texts_of};

use crate::head::naming::name_structs;
use crate::head::texts::set_texts;
use ir_base::NameList;
use item_build::types::Builder;
use link_rules::names_stay_apart;
use module_arena::Checked;
use std::alloc::{AllocError, Global};

/// Sets the texts of the module that is made of some parts, and names its structs, in an arena in which nothing is. Of each
/// kind of text it is that of the first part that has one. The structs have no bodies yet. Only memory may be wanting.
pub fn set_head(
    alloc: Global,
    parts: &[Checked],
    names: &NameList,
    into: &mut Builder,
) -> Result<(), AllocError>
    requires empty { into.old.arena ≡ no_lists }
    requires names { names.now ≡ map (λ row. row.1) (struct_map (modules parts.now)) }
    requires few { length names.now ≤ COUNT_LIMIT }
    ensures table { OnOk result (into.new.arena.table ≡ only_named names.now) }
    ensures module { OnOk result (module_of into.new.arena ≡ with_structs (texts_of (modules parts.now)) (structs into.new.arena.table)) }
    ensures entries { OnOk result (entries into.new.arena ≡ no_lists) }
{
    // No two structs of a linked module have one name.
    names_stay_apart();
    set_texts(alloc, parts, into)?;
    name_structs(alloc, into, names)
}
