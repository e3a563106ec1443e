//! The records of a body. What they say is added before they are refused: where one is, the body is not used any more.
ghost use Rattle.std.specs.Prelude.{◌≡◌, ◌<◌, ℕ, true, false, IfOk, OnOk};
ghost use Rattle.record_table.specs.Fields.{Numbering};
ghost use Rattle.record_table.specs.Lines as lines;
ghost use Rattle.body_read.specs.Blocks.Begun.{CallsKept, Passes, ReadsBlock, ReadsEnd, ReadsInstruction, ReadsParameters};

use crate::blocks::begun::{Begun, BodyDue};
use crate::calls::{ReadLine, read_instruction};
use crate::endings::read_ending;
use crate::names::{BodyNames, read_called, read_names};
use ir_tables::Opcode;
use module_arena::{LocalName, ValueId};
use record_read::{BitcodeFault, Texts};
use record_table::BODY_BLOCK;
use std::alloc::{AllocError, Global};
use type_read::arena::ModuleReader;

/// Reads what so many parameters are called, which is in the first record.
pub fn read_parameters(
    m: &mut ModuleReader<'_>,
    texts: &Texts,
    body: &mut Begun,
    count: u32,
) -> Result<(), BitcodeFault>
    requires { 0 < m.old.reader.at }
    ensures passes { OnOk result (Passes m.old m.new) }
    ensures reads { (k : Numbering) → ReadsParameters texts.now k count m.old body.old result m.new body.new }
{
    let all_new = read_names(&mut m.reader, m.alloc, texts, &mut body.names, count as u64)?;
    m.reader.also(4, all_new);
    m.reader.also(5, body.due.is_parameters());
    body.next = count;
    body.due = BodyDue::FirstBlock;
    m.reader.finish(BODY_BLOCK)
}

/// Reads what a block is called, with which it begins.
pub fn read_block(
    m: &mut ModuleReader<'_>,
    texts: &Texts,
    body: &mut Begun,
) -> Result<(), BitcodeFault>
    requires { 0 < m.old.reader.at }
    ensures passes { OnOk result (Passes m.old m.new) }
    ensures reads { (k : Numbering) (count : ℕ) → ReadsBlock texts.now k count m.old body.old result m.new body.new }
{
    let name = read_called(&mut m.reader, m.alloc, texts, body.names.own)?;
    let is_new = body.names.call(m.alloc, name.as_ref())?;
    m.reader.also(4, is_new);
    m.reader.also(5, body.due.is_block());
    match name {
        Some(name) => {
            body.begin(m.alloc, name);
            m.reader.finish(BODY_BLOCK)
        }
        None => m.reader.finish(BODY_BLOCK),
    }
}

/// Reads the end of a block.
pub fn read_end(
    m: &mut ModuleReader<'_>,
    body: &mut Begun,
    opcode: Opcode,
) -> Result<(), BitcodeFault>
    requires given { 0 < m.old.reader.at }
    requires end { lines.is_end opcode ≡ true }
    ensures passes { OnOk result (Passes m.old m.new) }
    ensures reads { (k : Numbering) (count : ℕ) → ReadsEnd k count opcode m.old body.old result m.new body.new }
{
    let ending = read_ending(m, opcode)?;
    m.reader.also(5, body.due.is_line());
    match ending {
        Some(ending) => {
            body.end(m.alloc, ending)?;
            m.reader.finish(BODY_BLOCK)
        }
        None => m.reader.finish(BODY_BLOCK),
    }
}

/// What is known to be called so is called so from now on. Tells whether the name is new, where there is one.
fn call_kept(
    alloc: Global,
    names: &mut BodyNames,
    name: &Option<LocalName>,
) -> Result<bool, AllocError>
    ensures { IfOk result (λ is_new. CallsKept names.old name.now is_new names.new) }
{
    match name {
        Some(name) => names.call(alloc, Some(name)),
        None => Ok(true),
    }
}

/// Reads an instruction, whose result is the next value.
pub fn read_line(
    m: &mut ModuleReader<'_>,
    texts: &Texts,
    body: &mut Begun,
    opcode: Opcode,
) -> Result<(), BitcodeFault>
    requires given { 0 < m.old.reader.at }
    requires line { lines.is_end opcode ≡ false }
    ensures passes { OnOk result (Passes m.old m.new) }
    ensures reads { (k : Numbering) (count : ℕ) → ReadsInstruction texts.now k count opcode m.old body.old result m.new body.new }
{
    let defined = ValueId::new(body.next);
    let line = read_instruction(m, texts, opcode, defined, body.names.own)?;
    let ReadLine { name, instruction } = line;
    let is_new = call_kept(m.alloc, &mut body.names, &name)?;
    m.reader.also(4, is_new);
    m.reader.also(5, body.due.is_line());
    body.add(instruction, name)?;
    m.reader.finish(BODY_BLOCK)
}
