//! The records of a module's texts and entries.
ghost use Rattle.std.specs.Prelude.{◌≡◌, [], map, OnOk, is_some};
ghost use Rattle.std.specs.Option.{option_copied};
ghost use Rattle.module_arena.specs.View.{module_of};
ghost use Rattle.record_table.specs.Records as records;
ghost use Rattle.record_table.specs.Spelling.{head_lines, global_lines, text_line, texts_in};
ghost use Rattle.record_write.specs.Operands.Numbered.{indices, texts};
ghost use Rattle.bitcode_write.specs.Put.{IsOpen, PutsLines};
ghost use Rattle.bitcode_write.specs.Entries.{variable_of, function_of, alias_of, AreEntries};

use crate::entries::{put_alias, put_function, put_variable};
use crate::records::RecordSink;
use ir_base::Text;
use module_arena::{AliasId, FunctionId, VariableId};
use record_table::{LAYOUT, SOURCE, TRIPLE, VERSION};
use record_write::operands::{Numbering, put_number, put_text};
use std::alloc::AllocError;

/// The version of the record table that is written.
const WRITTEN_VERSION: u64 = 2;

/// Writes the record of a text, where it is there.
fn put_text_line(
    out: &mut RecordSink,
    numbering: &Numbering<'_>,
    code: u32,
    text: Option<&Text>,
) -> Result<(), AllocError>
    requires ready { IsOpen out.old.writer }
    requires empty { out.old.operands.items ≡ [] }
    ensures put { OnOk result (PutsLines out.old.writer (text_line (texts numbering.now) code (option_copied text.entry)) out.new.writer) }
    ensures none { OnOk result (out.new.operands.items ≡ []) }
{
    match text {
        Some(text) => {
            put_text(&mut out.operands, numbering, text.bytes())?;
            out.put(code)
        }
        None => Ok(()),
    }
}

/// Writes the version and the texts of a module.
pub(crate) fn put_head(out: &mut RecordSink, numbering: &Numbering<'_>) -> Result<(), AllocError>
    requires ready { IsOpen out.old.writer }
    requires empty { out.old.operands.items ≡ [] }
    ensures put { OnOk result (PutsLines out.old.writer (head_lines (texts_in (module_of numbering.now)) (module_of numbering.now)) out.new.writer) }
    ensures none { OnOk result (out.new.operands.items ≡ []) }
{
    let arena = numbering.arena();
    put_number(&mut out.operands, WRITTEN_VERSION)?;
    out.put(VERSION)?;
    put_text_line(out, numbering, SOURCE, arena.source())?;
    put_text_line(out, numbering, LAYOUT, arena.data_layout())?;
    put_text_line(out, numbering, TRIPLE, arena.triple())
}

/// Writes the records of the variables.
fn put_variables(out: &mut RecordSink, numbering: &Numbering<'_>) -> Result<(), AllocError>
    requires ready { IsOpen out.old.writer }
    requires empty { out.old.operands.items ≡ [] }
    requires entries { AreEntries numbering.now }
    ensures put { OnOk result (PutsLines out.old.writer (map (λ v. (5, (records.variable (texts numbering.now) (indices numbering.now)).spell v)) (map (variable_of numbering.now) numbering.now.variables)) out.new.writer) }
    ensures none { OnOk result (out.new.operands.items ≡ []) }
{
    let arena = numbering.arena();
    'parts: for place in 0..arena.variable_count() {
        let variable = arena.variable(VariableId::new(place));
        put_variable(out, numbering, variable)?;
    }
    Ok(())
}

/// Writes the records of the functions.
fn put_functions(out: &mut RecordSink, numbering: &Numbering<'_>) -> Result<(), AllocError>
    requires ready { IsOpen out.old.writer }
    requires empty { out.old.operands.items ≡ [] }
    ensures put { OnOk result (PutsLines out.old.writer (map (λ f. (6, (records.function (texts numbering.now) (indices numbering.now)).spell (is_some f.body, f))) (map (function_of numbering.now) numbering.now.functions)) out.new.writer) }
    ensures none { OnOk result (out.new.operands.items ≡ []) }
{
    let arena = numbering.arena();
    // What holds of the entries of each arena.
    let _count = arena.variable_count();
    'parts: for place in 0..arena.function_count() {
        let function = arena.function(FunctionId::new(place));
        put_function(out, numbering, function)?;
    }
    Ok(())
}

/// Writes the records of the aliases.
fn put_aliases(out: &mut RecordSink, numbering: &Numbering<'_>) -> Result<(), AllocError>
    requires ready { IsOpen out.old.writer }
    requires empty { out.old.operands.items ≡ [] }
    requires entries { AreEntries numbering.now }
    ensures put { OnOk result (PutsLines out.old.writer (map (λ a. (7, (records.alias (texts numbering.now) (indices numbering.now)).spell a)) (map (alias_of numbering.now) numbering.now.aliases)) out.new.writer) }
    ensures none { OnOk result (out.new.operands.items ≡ []) }
{
    let arena = numbering.arena();
    // What holds of the entries of each arena.
    let _count = arena.variable_count();
    'parts: for place in 0..arena.alias_count() {
        let alias = arena.alias(AliasId::new(place));
        put_alias(out, numbering, alias)?;
    }
    Ok(())
}

/// Writes the records of the variables, functions and aliases.
pub(crate) fn put_globals(out: &mut RecordSink, numbering: &Numbering<'_>) -> Result<(), AllocError>
    requires ready { IsOpen out.old.writer }
    requires empty { out.old.operands.items ≡ [] }
    requires entries { AreEntries numbering.now }
    ensures put { OnOk result (PutsLines out.old.writer (global_lines (texts_in (module_of numbering.now)) (module_of numbering.now)) out.new.writer) }
    ensures none { OnOk result (out.new.operands.items ≡ []) }
{
    put_variables(out, numbering)?;
    put_functions(out, numbering)?;
    put_aliases(out, numbering)
}
