//! Gives the module the texts that stand before its entries.
ghost use Rattle.std.specs.Prelude.{◌≡◌, IfOk, OnOk};
ghost use Rattle.std.specs.Option.{option_copied};
ghost use Rattle.ir_syntax.specs.View.{item_view, items_view};
ghost use Rattle.module_arena.specs.View.{module_of};
ghost use Rattle.name_rules.specs.ModuleOf.{source_in, layout_in, triple_in, text_in};
ghost use Rattle.item_build.specs.Types.Holding.{entries};
ghost use Rattle.item_build.specs.Texts.{with_texts};

use crate::types::Builder;
use ir_base::Text;
use ir_syntax::Item;
use ir_terminals::PlacedText;
use std::alloc::{AllocError, Global};

/// What the item says of the source, where it does.
fn source_of(item: &Item) -> Option<&PlacedText>
    ensures { option_copied result ≡ source_in (item_view item.now) }
{
    match item {
        Item::SourceFilename { text, .. } => Some(text),
        _ => None,
    }
}

/// What the item says of the layout, where it does.
fn layout_of(item: &Item) -> Option<&PlacedText>
    ensures { option_copied result ≡ layout_in (item_view item.now) }
{
    match item {
        Item::DataLayout { text, .. } => Some(text),
        _ => None,
    }
}

/// What the item says of the triple, where it does.
fn triple_of(item: &Item) -> Option<&PlacedText>
    ensures { option_copied result ≡ triple_in (item_view item.now) }
{
    match item {
        Item::TargetTriple { text, .. } => Some(text),
        _ => None,
    }
}

/// The `source_filename` of the items: the first.
fn source_text(alloc: Global, items: &[Item]) -> Result<Option<Text>, AllocError>
    ensures { IfOk result (λ text. text ≡ text_in source_in (items_view items.now)) }
{
    'items: for item in items {
        if let Some(written) = source_of(item) {
            return Ok(Some(written.text.to_text(alloc)?));
        }
    }
    Ok(None)
}

/// The `target datalayout` of the items: the first.
fn layout_text(alloc: Global, items: &[Item]) -> Result<Option<Text>, AllocError>
    ensures { IfOk result (λ text. text ≡ text_in layout_in (items_view items.now)) }
{
    'items: for item in items {
        if let Some(written) = layout_of(item) {
            return Ok(Some(written.text.to_text(alloc)?));
        }
    }
    Ok(None)
}

/// The `target triple` of the items: the first.
fn triple_text(alloc: Global, items: &[Item]) -> Result<Option<Text>, AllocError>
    ensures { IfOk result (λ text. text ≡ text_in triple_in (items_view items.now)) }
{
    'items: for item in items {
        if let Some(written) = triple_of(item) {
            return Ok(Some(written.text.to_text(alloc)?));
        }
    }
    Ok(None)
}

/// Gives the module the three texts of the items. Only memory may be wanting.
pub fn set_texts(builder: &mut Builder, alloc: Global, items: &[Item]) -> Result<(), AllocError>
    ensures module { OnOk result (module_of builder.new.arena
        ≡ with_texts (module_of builder.old.arena) (text_in source_in (items_view items.now)) (text_in layout_in (items_view items.now)) (text_in triple_in (items_view items.now))) }
    ensures table { OnOk result (builder.new.arena.table ≡ builder.old.arena.table) }
    ensures entries { OnOk result (entries builder.new.arena ≡ entries builder.old.arena) }
{
    let source = source_text(alloc, items)?;
    let layout = layout_text(alloc, items)?;
    let triple = triple_text(alloc, items)?;
    builder.arena.set_texts(source, layout, triple);
    Ok(())
}
