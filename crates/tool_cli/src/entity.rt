//! What of a module is at fault, in words.
ghost use Rattle.std.specs.Prelude.{◌≡◌, ◌++◌, codes, IfOk, OnOk};
ghost use Rattle.std.specs.Fmt.{decimal};
ghost use Rattle.module_arena.specs.EntityView.{entity_view};
ghost use Rattle.module_arena.specs.View.{local_view};
ghost use Rattle.name_rules.specs.Spelled.{spelled_global};
ghost use Rattle.tool_cli.specs.Judged.{block_words, entity_words};

use ir_base::{Name, Text};
use module_arena::{Entity, LocalName};
use name_rules::{spell_global, spell_struct};
use std::alloc::{AllocError, Global};
use tool_output::ends::Digits;

// Adds the digits of a number.
fn put_number(text: &mut Text, number: u64) -> Result<(), AllocError>
    ensures { OnOk result (text.new ≡ text.old ++ decimal number) }
{
    let digits = Digits::of(number);
    text.extend(digits.bytes())
}

// Adds the function that something is of.
fn put_function(alloc: Global, text: &mut Text, function: &Name) -> Result<(), AllocError>
    ensures { OnOk result (text.new ≡ text.old ++ (codes " of " ++ spelled_global function.now)) }
{
    let spelled = spell_global(alloc, function.text().bytes())?;
    text.extend(b" of ")?;
    text.extend(spelled.bytes())
}

// The name or the number of a block, with `%` before it.
fn spell_block(alloc: Global, block: &LocalName) -> Result<Text, AllocError>
    ensures { IfOk result (λ text. text ≡ block_words (local_view block.now)) }
{
    match block {
        LocalName::Named(name) => spell_struct(alloc, name.text().bytes()),
        LocalName::Numbered(number) => {
            let mut text = Text::from_slice(alloc, b"%")?;
            put_number(&mut text, u64::from(*number))?;
            Ok(text)
        }
    }
}

/// What of a module is at fault, in words: `module`, `@x`, `%b of @f`, or `instruction 2 of @f`. It is refused for want of memory
/// alone.
pub fn entity_words(alloc: Global, entity: &Entity) -> Result<Text, AllocError>
    ensures { IfOk result (λ text. text ≡ entity_words (entity_view entity.now)) }
{
    match entity {
        Entity::Module => Text::from_slice(alloc, b"module"),
        Entity::Global(name) => spell_global(alloc, name.text().bytes()),
        Entity::Block(block, function) => {
            let mut text = spell_block(alloc, block)?;
            put_function(alloc, &mut text, function)?;
            Ok(text)
        }
        Entity::Instruction(number, function) => {
            let mut text = Text::from_slice(alloc, b"instruction ")?;
            put_number(&mut text, *number)?;
            put_function(alloc, &mut text, function)?;
            Ok(text)
        }
    }
}
