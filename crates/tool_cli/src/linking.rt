//! Inputs linked, and what they make written.
ghost use Rattle.std.specs.Prelude.{◌≡◌, ◌⊎◌, List, length, IfOk, IfErr, OnOk};
ghost use Rattle.command_line.specs.declared.command.Command.TheVariants as commands;
ghost use Rattle.linkage_rules.specs.Conflicts.{first_conflict};
ghost use Rattle.module_arena.specs.Module.{Module};
ghost use Rattle.module_arena.specs.View.{module_of};
ghost use Rattle.module_linker.specs.Faults.{HasFault};
ghost use Rattle.link_rules.specs.Counts.{too_many};
ghost use Rattle.tool_cli.specs.Done.{IsDone};
ghost use Rattle.tool_cli.specs.Judged.{AreShort};
ghost use Rattle.tool_cli.specs.Made.{LinksTo, format_of};
ghost use Rattle.tool_cli.specs.Told.{clash_told, link_end, part_named, IsLinking, IsOfTexts};
ghost use Rattle.tool_cli.specs.World.{sinks};

use crate::delivery::deliver;
use crate::parts::accepted_parts;
use command_line::OutputName;
use ir_base::{Files, Name, Sink, Text, TextList};
use linkage_rules::ConflictKind;
use module_arena::Checked;
use module_linker::LinkFault;
use name_rules::spell_global;
use std::alloc::{AllocError, Global};
use std::mem::forget;
use tool_output::OutputFormat;
use tool_output::ends::{Clash, Ended, PartName};

// An input by its number among those of these names.
fn part_named(alloc: Global, names: &[Text], number: u64) -> Result<PartName, AllocError>
    ensures { IfOk result (λ part. part ≡ part_named names.now number) }
{
    let name = match names.get(number as usize) {
        Some(name) => name.copy(alloc)?,
        None => Text::new(alloc),
    };
    Ok(PartName { number, name })
}

// The conflict of two inputs of these names, told.
fn clash_told(
    alloc: Global,
    names: &[Text],
    kind: ConflictKind,
    symbol: &Name,
    one: u64,
    other: u64,
) -> Result<Clash, AllocError>
    ensures { IfOk result (λ clash. clash ≡ clash_told names.now (record { kind = kind; name = symbol.now; one = one; other = other })) }
{
    Ok(Clash {
        kind,
        symbol: spell_global(alloc, symbol.text().bytes())?,
        one: part_named(alloc, names, one)?,
        other: part_named(alloc, names, other)?,
    })
}

// Why the parts that inputs of these names stand for are not linked, told.
fn link_refusal(alloc: Global, names: &[Text], fault: LinkFault) -> Ended
    ensures told { (parts : List Module) → HasFault parts fault → (result ≡ link_end names.now (first_conflict parts) (too_many parts)) ⊎ (result ≡ Ended.Memory) }
    ensures of_texts { IsOfTexts result }
{
    match fault {
        LinkFault::Conflict {
            kind,
            name: symbol,
            one,
            other,
        } => {
            match clash_told(alloc, names, kind, &symbol, one, other) {
                Ok(clash) => Ended::Conflict(clash),
                Err(_) => Ended::Memory,
            }
        }
        LinkFault::TooMany { kind, count } => Ended::TooMany {
            input: None,
            kind,
            count,
        },
        LinkFault::Memory => Ended::Memory,
    }
}

// The module that the inputs of these names are linked to. They are let go one by one.
fn linked(alloc: Global, names: &[Text], texts: TextList) -> Result<Checked, Ended>
    requires same { length names.now ≡ length texts }
    requires short { AreShort texts }
    ensures made { IfOk result (λ whole. LinksTo texts (module_of whole)) }
    ensures linking { OnOk result (IsLinking names.now texts Ended.Ok) }
    ensures refused { IfErr result (λ ended. IsLinking names.now texts ended ⊎ (ended ≡ Ended.Memory)) }
    ensures of_texts { IfErr result IsOfTexts }
{
    let parts = accepted_parts(alloc, names, texts)?;
    match module_linker::link(alloc, parts) {
        Ok(whole) => {
            // It is well formed and valid, as each module is that was checked.
            let _arena = whole.arena();
            Ok(whole)
        }
        Err(fault) => Err(link_refusal(alloc, names, fault)),
    }
}

/// What a module is written as that was linked or extracted: with `-S` its canonical text, else bitcode.
pub(crate) fn format_of(text: bool) -> OutputFormat
    ensures { result ≡ format_of text }
{
    if text {
        OutputFormat::CanonicalText
    } else {
        OutputFormat::Bitcode
    }
}

/// Links the inputs of these names, in their order, and writes the bitcode of what they make to this place, or with
/// `text` its canonical text. A conflict of two of them is told, or else a count that is past its limit. Each input is let
/// go as soon as its module is there.
pub(crate) fn link<F: Files, O: Sink>(
    alloc: Global,
    names: &[Text],
    texts: TextList,
    place: &OutputName,
    text: bool,
    files: &mut F,
    output: &mut O,
) -> Ended
    requires same { length names.now ≡ length texts }
    requires short { AreShort texts }
    ensures { IsDone (commands.Link names.now place.now text) texts
        (sinks O.Sink F.Files output.old files.old) (sinks O.Sink F.Files output.new files.new) result }
{
    let whole = match linked(alloc, names, texts) {
        Ok(whole) => whole,
        Err(ended) => return ended,
    };
    let ended = deliver(alloc, format_of(text), place, &whole, files, output);
    // The program ends soon, which gives all memory back at once.
    forget(whole);
    ended
}
