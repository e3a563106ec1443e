//! A part of an input, and what it makes written.
ghost use Rattle.std.specs.Prelude.{◌≡◌, ◌⊎◌, [], ◌∷◌, None, IfOk, IfErr, OnOk};
ghost use Rattle.command_line.specs.declared.command.Command.TheVariants as commands;
ghost use Rattle.extract_rules.specs.Extracted.{Extracted};
ghost use Rattle.extract_rules.specs.Selected.{no_such_symbol};
ghost use Rattle.module_arena.specs.View.{module_of};
ghost use Rattle.name_rules.specs.Spelled.{spelled_global};
ghost use Rattle.tool_cli.specs.Done.{IsDone};
ghost use Rattle.tool_cli.specs.Judged.{IsShort};
ghost use Rattle.tool_cli.specs.Made.{ExtractsTo, selection_of};
ghost use Rattle.tool_cli.specs.Told.{part_end, IsExtraction, IsOfTexts};
ghost use Rattle.tool_cli.specs.World.{sinks};

use crate::delivery::deliver;
use crate::linking::format_of;
use crate::parts::{GivenBack, accepted_part};
use command_line::{OutputName, SelectionWords};
use extract_core::extract;
use extract_rules::ExtractFault;
use ir_base::{Files, Name, NameList, Sink, Text};
use module_arena::Checked;
use name_rules::spell_global;
use std::alloc::{AllocError, Global};
use std::mem::forget;
use tool_output::ends::Ended;

// The same names in texts of their own.
fn copied_names(alloc: Global, names: &[Name]) -> Result<NameList, AllocError>
    ensures { IfOk result (λ copy. copy ≡ names.now) }
{
    let mut copy = NameList::new(alloc);
    for name in names {
        copy.push(name.copy(alloc)?)?;
    }
    Ok(copy)
}

// What the words select, as it is taken of a module.
fn selection_of(
    alloc: Global,
    selection: &SelectionWords,
) -> Result<extract_rules::Selection, AllocError>
    ensures { IfOk result (λ copy. copy ≡ selection_of selection.now) }
{
    Ok(extract_rules::Selection {
        functions: copied_names(alloc, selection.functions.as_slice())?,
        variables: copied_names(alloc, selection.variables.as_slice())?,
        aliases: copied_names(alloc, selection.aliases.as_slice())?,
        delete: selection.delete,
        recursive: selection.recursive,
    })
}

// The selected name that is not there, told.
fn symbol_told(alloc: Global, name: &Name) -> Ended
    ensures told { (result ≡ Ended.NoSuchSymbol (spelled_global name.now)) ⊎ (result ≡ Ended.Memory) }
    ensures of_texts { IsOfTexts result }
{
    match spell_global(alloc, name.text().bytes()) {
        Ok(symbol) => Ended::NoSuchSymbol(symbol),
        Err(_) => Ended::Memory,
    }
}

// The part that the words select of a module.
fn part_of(alloc: Global, checked: &Checked, selection: &SelectionWords) -> Result<Checked, Ended>
    ensures there { OnOk result (no_such_symbol (module_of checked.now) (selection_of selection.now) ≡ None) }
    ensures part { IfOk result (λ part. module_of part ≡ Extracted (module_of checked.now) (selection_of selection.now)) }
    ensures missing { IfErr result (λ ended. (ended ≡ part_end (no_such_symbol (module_of checked.now) (selection_of selection.now))) ⊎ (ended ≡ Ended.Memory)) }
    ensures of_texts { IfErr result IsOfTexts }
{
    let Ok(selection) = selection_of(alloc, selection) else {
        return Err(Ended::Memory);
    };
    match extract(alloc, checked, &selection) {
        Ok(part) => Ok(part),
        Err(ExtractFault::NoSuchSymbol(missing)) => Err(symbol_told(alloc, &missing)),
        Err(ExtractFault::Memory) => Err(Ended::Memory),
    }
}

// When the items of a text are given back, of which the words select a part: at the end, but where nearly all of it may be
// kept, so that they never stand beside the whole and a part as large. It decides time and memory alone, so it has no
// contract: the module is the same either way, as `module_alone` tells.
fn items_back(selection: &SelectionWords) -> GivenBack {
    if selection.delete || selection.recursive {
        GivenBack::AtOnce
    } else {
        GivenBack::AtTheEnd
    }
}

// The part that the words select of the input of this name.
fn extracted(
    alloc: Global,
    name: &Text,
    bytes: Text,
    selection: &SelectionWords,
) -> Result<Checked, Ended>
    requires { IsShort bytes }
    ensures made { IfOk result (λ part. ExtractsTo bytes selection.now (module_of part)) }
    ensures work { IfErr result (λ ended. IsExtraction name.now selection.now bytes ended ⊎ (ended ≡ Ended.Memory)) }
    ensures of_texts { IfErr result IsOfTexts }
{
    let whole = accepted_part(alloc, name, bytes, items_back(selection))?;
    let part = part_of(alloc, &whole, selection);
    // The program ends soon, which gives all memory back at once.
    forget(whole);
    part
}

/// Extracts the part that the words select of the input of this name, and writes its bitcode to this place, or with `text` its canonical text.
/// A selected name that no definition of its kind has is told.
pub(crate) fn extract_part<F: Files, O: Sink>(
    alloc: Global,
    name: &Text,
    bytes: Text,
    selection: &SelectionWords,
    place: &OutputName,
    text: bool,
    files: &mut F,
    output: &mut O,
) -> Ended
    requires { IsShort bytes }
    ensures { IsDone (commands.Extract name.now place.now text selection.now) (bytes ∷ [])
        (sinks O.Sink F.Files output.old files.old) (sinks O.Sink F.Files output.new files.new) result }
{
    let part = match extracted(alloc, name, bytes, selection) {
        Ok(part) => part,
        Err(ended) => return ended,
    };
    let ended = deliver(alloc, format_of(text), place, &part, files, output);
    forget(part);
    ended
}
