//! The texts of a linked module: of each kind that of the first part that has one.
ghost use Rattle.std.specs.Prelude.{◌≡◌, IfOk, OnOk};
ghost use Rattle.std.specs.Option.{option_copied};
ghost use Rattle.type_table.specs.Types.{no_types};
ghost use Rattle.module_arena.specs.Lists.{no_lists};
ghost use Rattle.module_arena.specs.Module.{Module};
ghost use Rattle.module_arena.specs.View.{module_of};
ghost use Rattle.linkage_rules.specs.Ids.{modules};
ghost use Rattle.link_rules.specs.Linked.{first_of};
ghost use Rattle.item_build.specs.Types.Holding.{entries};
ghost use Rattle.module_linker.specs.Head.Head.{texts_of};

use ir_base::Text;
use item_build::types::Builder;
use module_arena::Checked;
use std::alloc::{AllocError, Global};

/// What the part says of its source, where it does.
fn source_of(part: &Checked) -> Option<&Text>
    ensures { option_copied result ≡ (module_of part.now).source }
{
    part.arena().source()
}

/// What the part says of its layout, where it does.
fn layout_of(part: &Checked) -> Option<&Text>
    ensures { option_copied result ≡ (module_of part.now).layout }
{
    part.arena().data_layout()
}

/// What the part says of its triple, where it does.
fn triple_of(part: &Checked) -> Option<&Text>
    ensures { option_copied result ≡ (module_of part.now).triple }
{
    part.arena().triple()
}

/// The first `source_filename`.
fn first_source(alloc: Global, parts: &[Checked]) -> Result<Option<Text>, AllocError>
    ensures { IfOk result (λ text. text ≡ first_of (λ (m : Module). m.source) (modules parts.now)) }
{
    'parts: for part in parts {
        if let Some(text) = source_of(part) {
            return Ok(Some(text.copy(alloc)?));
        }
    }
    Ok(None)
}

/// The first `target datalayout`.
fn first_layout(alloc: Global, parts: &[Checked]) -> Result<Option<Text>, AllocError>
    ensures { IfOk result (λ text. text ≡ first_of (λ (m : Module). m.layout) (modules parts.now)) }
{
    'parts: for part in parts {
        if let Some(text) = layout_of(part) {
            return Ok(Some(text.copy(alloc)?));
        }
    }
    Ok(None)
}

/// The first `target triple`.
fn first_triple(alloc: Global, parts: &[Checked]) -> Result<Option<Text>, AllocError>
    ensures { IfOk result (λ text. text ≡ first_of (λ (m : Module). m.triple) (modules parts.now)) }
{
    'parts: for part in parts {
        if let Some(text) = triple_of(part) {
            return Ok(Some(text.copy(alloc)?));
        }
    }
    Ok(None)
}

/// Sets the texts of the linked module, in an arena in which nothing is.
pub(crate) fn set_texts(
    alloc: Global,
    parts: &[Checked],
    into: &mut Builder,
) -> Result<(), AllocError>
    requires { into.old.arena ≡ no_lists }
    ensures table { OnOk result (into.new.arena.table ≡ no_types) }
    ensures entries { OnOk result (entries into.new.arena ≡ no_lists) }
    ensures module { OnOk result (module_of into.new.arena ≡ texts_of (modules parts.now)) }
{
    let source = first_source(alloc, parts)?;
    let layout = first_layout(alloc, parts)?;
    let triple = first_triple(alloc, parts)?;
    into.arena.set_texts(source, layout, triple);
    Ok(())
}
