//! The new arena before any entry is declared in it: its texts, its structs, and the types of all parts.
ghost use Rattle.std.specs.Prelude.{◌≡◌, ◌+◌, ◌<◌, ◌^◌, map, length, All, IfOk, OnOk};
ghost use Rattle.type_table.specs.Types.{structs};
ghost use Rattle.module_arena.specs.Lists.{no_lists};
ghost use Rattle.module_arena.specs.View.{module_of};
ghost use Rattle.linkage_rules.specs.Ids.{modules};
ghost use Rattle.link_rules.specs.Structs.{struct_map};
ghost use Rattle.item_build.specs.Types.Holding.{entries};
ghost use Rattle.item_build.specs.Partly.{with_structs};
ghost use Rattle.entry_copy.specs.Tables.{with_types, tables_of};
ghost use Rattle.link_names.specs.Rows.Numbers.{AreNewStructs};
ghost use Rattle.module_linker.specs.Stages.Ground.{HaveTypes, ground};
ghost use Rattle.module_linker.specs.Stages.Parts.{CanLink};
ghost use Rattle.module_linker.specs.Ground.Making.{IsMade, StructsAre};

use crate::head::set_head;
use crate::parts::copy_part;
use entry_copy::Copier;
use ir_base::NumberList;
use item_build::types::Builder;
use link_names::rows::StructRows;
use linkage_rules::arena_of;
use module_arena::Checked;
use std::alloc::{AllocError, Global};
use type_table::StructId;

/// The ids of structs with these numbers.
fn struct_ids(alloc: Global, numbers: &[u64]) -> Result<Vec<StructId>, AllocError>
    requires { All (λ number. number < 2 ^ 32) numbers.now }
    ensures { IfOk result (λ ids. ids.items ≡ numbers.now) }
{
    let mut ids = Vec::new(alloc);
    'numbers: for number in numbers {
        ids.push(StructId::new(*number as u32))?;
    }
    Ok(ids)
}

/// Copies the next part, of which the structs have these numbers, and adds its copier.
fn add_part(
    copiers: &mut Vec<Copier>,
    alloc: Global,
    parts: &[Checked],
    into: &mut Builder,
    part: u64,
    numbers: &NumberList,
) -> Result<(), AllocError>
    requires next { part ≡ length copiers.old.items }
    requires known { part < length parts.now }
    requires made { IsMade parts.now into.old.arena copiers.old.items }
    requires numbers { StructsAre parts.now part numbers.now }
    ensures made { OnOk result (IsMade parts.now into.new.arena copiers.new.items) }
    ensures one { OnOk result (length copiers.new.items ≡ part + 1) }
    ensures module { OnOk result (module_of into.new.arena ≡ with_structs (module_of into.old.arena) (structs into.new.arena.table)) }
    ensures entries { OnOk result (entries into.new.arena ≡ entries into.old.arena) }
{
    let from = arena_of(parts, part);
    // The types of the part are within the limits.
    let _good = from.types().type_count();
    let ids = struct_ids(alloc, numbers.as_slice())?;
    let mut copier = Copier::new(alloc, ids);
    copy_part(&mut copier, alloc, from, into)?;
    copiers.push(copier)?;
    Ok(())
}

/// Makes what stands before the entries of the module that is made of some parts, in an arena in which nothing is: the texts
/// of the first parts that have them, the named structs, and the types of all parts. It gives a copier a part, by which its
/// types are known. Only memory may be wanting.
pub fn copy_ground(
    alloc: Global,
    parts: &[Checked],
    rows: &StructRows,
    into: &mut Builder,
) -> Result<Vec<Copier>, AllocError>
    requires empty { into.old.arena ≡ no_lists }
    requires can { CanLink (modules parts.now) }
    requires names { rows.now.names ≡ map (λ row. row.1) (struct_map (modules parts.now)) }
    requires numbers { AreNewStructs (modules parts.now) rows.now.numbers }
    ensures module { OnOk result (module_of into.new.arena ≡ ground (modules parts.now)) }
    ensures entries { OnOk result (entries into.new.arena ≡ no_lists) }
    ensures types { IfOk result (λ copiers. HaveTypes parts.now into.new.arena copiers.items) }
    ensures nothing_else { IfOk result (λ copiers. All (λ t. t ≡ with_types (tables_of t.structs) t.types) copiers.items) }
{
    set_head(alloc, parts, &rows.names, into)?;
    let mut copiers = Vec::new(alloc);
    'parts: for part in 0..parts.len() {
        add_part(
            &mut copiers,
            alloc,
            parts,
            into,
            part as u64,
            rows.numbers.at(part),
        )?;
    }
    Ok(copiers)
}
