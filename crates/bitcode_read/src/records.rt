//! The records of a module's block.
ghost use Rattle.std.specs.Prelude.{◌≡◌, ◌<◌, ◌≤◌, length, max, OnOk};
ghost use Rattle.module_arena.specs.declared.arena.TheConstants.{COUNT_LIMIT};
ghost use Rattle.record_read.specs.Fields.{texts_of};
ghost use Rattle.bitcode_read.specs.Sofar.{HasRoom, ReadsPart, with_number};

use crate::entry::{read_alias, read_function, read_variable};
use crate::sofar::Sofar;
use record_read::order::{ModulePart, read_module_text, read_version};
use record_read::{BitcodeFault, Texts};
use record_table::{ALIAS, FUNCTION, LAYOUT, MODULE_BLOCK, SOURCE, TRIPLE, VARIABLE, VERSION};
use std::alloc::AllocError;
use type_read::arena::ModuleReader;

/// Reads the version.
fn read_version_part(
    m: &mut ModuleReader<'_>,
    texts: &Texts,
    sofar: &mut Sofar,
) -> Result<(), BitcodeFault>
    requires given { 0 < m.old.reader.at }
    requires room { HasRoom sofar.old }
    ensures room { OnOk result (HasRoom sofar.new) }
    ensures reads { ReadsPart (texts_of texts.now) m.old sofar.old 1 result m.new sofar.new }
{
    read_version(&mut m.reader, texts, sofar.last)?;
    sofar.last = ModulePart::Version.place();
    Ok(())
}

/// Reads what the module's source is called.
fn read_source(
    m: &mut ModuleReader<'_>,
    texts: &Texts,
    sofar: &mut Sofar,
) -> Result<(), BitcodeFault>
    requires given { 0 < m.old.reader.at }
    requires room { HasRoom sofar.old }
    ensures room { OnOk result (HasRoom sofar.new) }
    ensures reads { ReadsPart (texts_of texts.now) m.old sofar.old 2 result m.new sofar.new }
{
    sofar.source = read_module_text(
        &mut m.reader,
        m.alloc,
        texts,
        sofar.last,
        ModulePart::Source,
    )?;
    sofar.last = ModulePart::Source.place();
    Ok(())
}

/// Reads the module's `target datalayout`.
fn read_layout(
    m: &mut ModuleReader<'_>,
    texts: &Texts,
    sofar: &mut Sofar,
) -> Result<(), BitcodeFault>
    requires given { 0 < m.old.reader.at }
    requires room { HasRoom sofar.old }
    ensures room { OnOk result (HasRoom sofar.new) }
    ensures reads { ReadsPart (texts_of texts.now) m.old sofar.old 3 result m.new sofar.new }
{
    sofar.layout = read_module_text(
        &mut m.reader,
        m.alloc,
        texts,
        sofar.last,
        ModulePart::Layout,
    )?;
    sofar.last = ModulePart::Layout.place();
    Ok(())
}

/// Reads the module's `target triple`.
fn read_triple(
    m: &mut ModuleReader<'_>,
    texts: &Texts,
    sofar: &mut Sofar,
) -> Result<(), BitcodeFault>
    requires given { 0 < m.old.reader.at }
    requires room { HasRoom sofar.old }
    ensures room { OnOk result (HasRoom sofar.new) }
    ensures reads { ReadsPart (texts_of texts.now) m.old sofar.old 4 result m.new sofar.new }
{
    sofar.triple = read_module_text(
        &mut m.reader,
        m.alloc,
        texts,
        sofar.last,
        ModulePart::Triple,
    )?;
    sofar.last = ModulePart::Triple.place();
    Ok(())
}

/// A count of what was read. There are at most 262,144 of each.
fn count_of<T>(items: &Vec<T>) -> u32
    requires { length items.now.items ≤ COUNT_LIMIT }
    ensures { result ≡ length items.now.items }
{
    items.len() as u32
}

/// The greater of two counts.
fn greater(one: u32, other: u32) -> u32
    ensures { result ≡ max one other }
{
    if one < other { other } else { one }
}

/// Reads a variable.
fn read_variable_part(
    m: &mut ModuleReader<'_>,
    texts: &Texts,
    sofar: &mut Sofar,
) -> Result<(), BitcodeFault>
    requires given { 0 < m.old.reader.at }
    requires room { HasRoom sofar.old }
    ensures room { OnOk result (HasRoom sofar.new) }
    ensures reads { ReadsPart (texts_of texts.now) m.old sofar.old 5 result m.new sofar.new }
{
    let in_order = ModulePart::Variable.may_follow(sofar.last);
    let number = count_of(&sofar.initialisers);
    let initialiser = read_variable(m, texts, number, in_order)?;
    sofar.initialisers.push(initialiser)?;
    sofar.last = ModulePart::Variable.place();
    Ok(())
}

/// The number of one function more, where it is defined.
fn add_defined(numbers: &mut Vec<u32>, number: u32, is_defined: bool) -> Result<(), AllocError>
    ensures { OnOk result (numbers.new.items ≡ with_number is_defined number numbers.old.items) }
{
    if is_defined {
        numbers.push(number)?;
        return Ok(());
    }
    Ok(())
}

/// Reads a function.
fn read_function_part(
    m: &mut ModuleReader<'_>,
    texts: &Texts,
    sofar: &mut Sofar,
) -> Result<(), BitcodeFault>
    requires given { 0 < m.old.reader.at }
    requires room { HasRoom sofar.old }
    ensures room { OnOk result (HasRoom sofar.new) }
    ensures reads { ReadsPart (texts_of texts.now) m.old sofar.old 6 result m.new sofar.new }
{
    let in_order = ModulePart::Function.may_follow(sofar.last);
    let number = count_of(&sofar.defined);
    let is_defined = read_function(m, texts, number, in_order)?;
    add_defined(&mut sofar.numbers, number, is_defined)?;
    sofar.defined.push(is_defined)?;
    sofar.last = ModulePart::Function.place();
    Ok(())
}

/// Reads an alias.
fn read_alias_part(
    m: &mut ModuleReader<'_>,
    texts: &Texts,
    sofar: &mut Sofar,
) -> Result<(), BitcodeFault>
    requires given { 0 < m.old.reader.at }
    requires room { HasRoom sofar.old }
    ensures room { OnOk result (HasRoom sofar.new) }
    ensures reads { ReadsPart (texts_of texts.now) m.old sofar.old 7 result m.new sofar.new }
{
    let in_order = ModulePart::Alias.may_follow(sofar.last);
    let number = count_of(&sofar.targets);
    let variables = count_of(&sofar.initialisers);
    let functions = count_of(&sofar.defined);
    let others = greater(variables, functions);
    let target = read_alias(m, texts, number, others, in_order)?;
    sofar.targets.push(target)?;
    sofar.last = ModulePart::Alias.place();
    Ok(())
}

/// Reads a record of that code, which is the next of the block.
pub(crate) fn read_record(
    m: &mut ModuleReader<'_>,
    texts: &Texts,
    sofar: &mut Sofar,
    code: u32,
) -> Result<(), BitcodeFault>
    requires given { 0 < m.old.reader.at }
    requires room { HasRoom sofar.old }
    ensures room { OnOk result (HasRoom sofar.new) }
    ensures reads { ReadsPart (texts_of texts.now) m.old sofar.old code result m.new sofar.new }
{
    if code == VERSION {
        return read_version_part(m, texts, sofar);
    }
    if code == SOURCE {
        return read_source(m, texts, sofar);
    }
    if code == LAYOUT {
        return read_layout(m, texts, sofar);
    }
    if code == TRIPLE {
        return read_triple(m, texts, sofar);
    }
    if code == VARIABLE {
        return read_variable_part(m, texts, sofar);
    }
    if code == FUNCTION {
        return read_function_part(m, texts, sofar);
    }
    if code == ALIAS {
        return read_alias_part(m, texts, sofar);
    }
    Err(BitcodeFault::UnknownRecord {
        block: MODULE_BLOCK,
        code,
    })
}
