//! The records of variables, functions and aliases.
ghost use Rattle.std.specs.Prelude.{◌≡◌, ◌<◌, ◌+◌, suc, nat_le, OnOk, None};
ghost use Rattle.std.specs.Option.{option_map_or};
ghost use Rattle.record_read.specs.Fields.{texts_of};
ghost use Rattle.bitcode_read.specs.Entry.Entries.{AnswersAlias, AnswersFunction, AnswersVariable};

use crate::entry::ending::end_record;
use crate::entry::holding::read_fields;
use crate::head::{read_alias_front, read_function_front};
use module_arena::{AliasId, COUNT_LIMIT, ConstId, FunctionId, GlobalId, VariableId};
use record_read::{BitcodeFault, Texts};
use type_read::arena::{ModuleReader, read_target};

/// What is written, where it is known.
fn known(initialiser: Option<Option<ConstId>>) -> Option<ConstId>
    ensures { result ≡ option_map_or (λ o. o) initialiser None }
{
    initialiser?
}

/// Reads the record of the variable of that number, counted from 0, and gives what it is set to, where it is defined. It is
/// refused by the least rule that it breaks.
pub fn read_variable(
    m: &mut ModuleReader<'_>,
    texts: &Texts,
    number: u32,
    in_order: bool,
) -> Result<Option<ConstId>, BitcodeFault>
    requires { 0 < m.old.reader.at }
    ensures few { OnOk result (number < COUNT_LIMIT) }
    ensures reads { AnswersVariable (texts_of texts.now) m.old number in_order result m.new }
{
    let fields = read_fields(m, texts)?;
    let own = GlobalId::Variable(VariableId::new(number));
    end_record(m, &fields.name, own, number < COUNT_LIMIT, in_order)?;
    Ok(known(fields.initialiser))
}

/// Reads the record of the function of that number, counted from 0, and tells whether it is defined. It is refused by the
/// least rule that it breaks.
pub fn read_function(
    m: &mut ModuleReader<'_>,
    texts: &Texts,
    number: u32,
    in_order: bool,
) -> Result<bool, BitcodeFault>
    requires { 0 < m.old.reader.at }
    ensures few { OnOk result (number < COUNT_LIMIT) }
    ensures reads { AnswersFunction (texts_of texts.now) m.old number in_order result m.new }
{
    let types = m.growing.type_count();
    let front = read_function_front(&mut m.reader, m.alloc, texts, types)?;
    let own = GlobalId::Function(FunctionId::new(number));
    end_record(m, &front.name, own, number < COUNT_LIMIT, in_order)?;
    Ok(front.defined)
}

/// Whether there may be so many aliases and one more, behind so many others.
fn are_few(number: u32, others: u32) -> bool
    ensures { result ≡ nat_le (suc number + others) COUNT_LIMIT }
{
    (number as u64) + (others as u64) < COUNT_LIMIT as u64
}

/// Reads the record of the alias of that number, counted from 0, behind so many variables or functions, of which `others` is
/// the greater count, and gives its target, which may be None where not all entries are declared. It is refused by the least
/// rule that it breaks.
pub fn read_alias(
    m: &mut ModuleReader<'_>,
    texts: &Texts,
    number: u32,
    others: u32,
    in_order: bool,
) -> Result<Option<GlobalId>, BitcodeFault>
    requires { 0 < m.old.reader.at }
    ensures few { OnOk result (number < COUNT_LIMIT) }
    ensures reads { AnswersAlias (texts_of texts.now) m.old number others in_order result m.new }
{
    let types = m.growing.type_count();
    let front = read_alias_front(&mut m.reader, m.alloc, texts, types)?;
    let target = read_target(m);
    let own = GlobalId::Alias(AliasId::new(number));
    end_record(m, &front.name, own, are_few(number, others), in_order)?;
    Ok(target)
}
