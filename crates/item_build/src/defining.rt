//! Gives a struct its body.
ghost use Rattle.std.specs.Prelude.{◌≡◌, ℕ, Some, IfOk, OnOk};
ghost use Rattle.ir_syntax.specs.View.{body_view};
ghost use Rattle.type_table.specs.Tree.{Structs};
ghost use Rattle.type_table.specs.Types.{structs, trees, tree_body, IsKnownBody};
ghost use Rattle.module_arena.specs.View.{module_of};
ghost use Rattle.name_rules.specs.Written.{body_in};
ghost use Rattle.item_build.specs.Types.Fitting.{AreWithin};
ghost use Rattle.item_build.specs.Types.Holding.{entries};
ghost use Rattle.item_build.specs.Types.Stands.{Grows};
ghost use Rattle.item_build.specs.Buildable.Entries.{CanStruct};
ghost use Rattle.item_build.specs.Partly.{IsPartly, IsDone, CanDefine, with_structs};

use crate::types::{Builder, type_out_of_memory};
use ir_syntax::WrittenBody;
use std::alloc::{AllocError, Global};
use type_table::StructId;

/// What the text writes of a struct, its fields added.
fn add_body(
    builder: &mut Builder,
    alloc: Global,
    written: &WrittenBody,
) -> Result<type_table::StructBody, AllocError>
    requires { CanStruct (structs builder.old.arena.table) (body_view written.now) }
    ensures grows { OnOk result (Grows builder.old.arena builder.new.arena) }
    ensures known { IfOk result (λ body. IsKnownBody builder.new.arena.table body) }
    ensures is { IfOk result (λ body. tree_body (trees builder.new.arena.table) (Some body) ≡ body_in (body_view written.now)) }
    ensures within { (whole : Structs) → CanStruct whole (body_view written.now) → AreWithin whole builder.old.arena → OnOk result (AreWithin whole builder.new.arena) }
{
    match written {
        WrittenBody::Opaque => Ok(type_table::StructBody::Opaque),
        WrittenBody::Plain(fields) => {
            let fields = builder.add_types(alloc, fields)?;
            Ok(type_table::StructBody::Plain(fields))
        }
        WrittenBody::Packed(fields) => {
            let fields = builder.add_types(alloc, fields)?;
            Ok(type_table::StructBody::Packed(fields))
        }
    }
}

/// Gives the struct with that number the body that the text writes, unless it has its body.
pub(crate) fn define_struct(
    builder: &mut Builder,
    alloc: Global,
    number: u32,
    written: &WrittenBody,
) -> Result<(), AllocError>
    requires { (whole : Structs) × CanDefine whole builder.old.arena number (body_view written.now) }
    ensures module { OnOk result (module_of builder.new.arena ≡ with_structs (module_of builder.old.arena) (structs builder.new.arena.table)) }
    ensures entries { OnOk result (entries builder.new.arena ≡ entries builder.old.arena) }
    ensures partly { (whole : Structs) → CanDefine whole builder.old.arena number (body_view written.now) → OnOk result (IsPartly whole builder.new.arena) }
    ensures done { (whole : Structs) → CanDefine whole builder.old.arena number (body_view written.now) → OnOk result (IsDone whole builder.new.arena number) }
    ensures kept { (whole : Structs) (other : ℕ) → CanDefine whole builder.old.arena number (body_view written.now) → IsDone whole builder.old.arena other → OnOk result (IsDone whole builder.new.arena other) }
{
    let id = StructId::new(number);
    if builder.arena.types().struct_body(id).is_some() {
        return Ok(());
    }
    let body = add_body(builder, alloc, written)?;
    match builder.arena.define_struct(id, body) {
        Ok(()) => Ok(()),
        Err(fault) => Err(type_out_of_memory(fault)),
    }
}
