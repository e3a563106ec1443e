//! An instruction, by its opcode.
ghost use Rattle.std.specs.Prelude.{◌≡◌, ℕ, false, true, None, IfOk, if◌then◌else◌};
ghost use Rattle.ir_tables.specs.declared.opcode.Opcode.TheVariants as op;
ghost use Rattle.record_table.specs.Fields as fields;
ghost use Rattle.body_read.specs.Lines.Operations.{is_giving};
ghost use Rattle.record_table.specs.Lines.{is_end};
ghost use Rattle.record_read.specs.Fields.{texts_of};
ghost use Rattle.record_read.specs.Reader.{is_broken};
ghost use Rattle.body_read.specs.Calls.Calls.{ReadsLine};

use crate::calls::call::read_call;
use crate::lines::{read_operation, read_store};
use ir_tables::Opcode;
use module_arena::{Inst, LocalName, ValueId};
use record_read::{RecordReader, Texts, read_label};
use std::alloc::AllocError;
use type_read::arena::ModuleReader;

/// An instruction that was read, and what its result is called. The instruction is None exactly where a rule is broken; the
/// name is None only there, or where there is no result.
#[derive(Drop)]
pub struct ReadLine {
    pub name: Option<LocalName>,
    pub instruction: Option<Inst>,
}

/// The instruction, where the record breaks no rule so far.
pub(crate) fn unless_broken(reader: &RecordReader<'_>, instruction: Option<Inst>) -> Option<Inst>
    ensures { result ≡ (if is_broken reader.now.walk then None else instruction) }
{
    if reader.is_broken() {
        None
    } else {
        instruction
    }
}

/// A store, which has no result.
fn read_store_line(m: &mut ModuleReader<'_>) -> Result<ReadLine, AllocError>
    ensures { (texts : fields.Texts) (defined own : ℕ) → IfOk result (ReadsLine texts defined own op.Store m.old m.new) }
{
    let instruction = read_store(m)?;
    Ok(ReadLine {
        name: None,
        instruction: unless_broken(&m.reader, instruction),
    })
}

/// What the result of an instruction of that opcode is called, and the instruction.
fn read_named(
    m: &mut ModuleReader<'_>,
    texts: &Texts,
    opcode: Opcode,
    defined: ValueId,
    own: u32,
) -> Result<ReadLine, AllocError>
    requires { is_giving opcode ≡ true }
    ensures { IfOk result (ReadsLine (texts_of texts.now) defined own opcode m.old m.new) }
{
    let name = read_label(&mut m.reader, m.alloc, texts, own)?;
    let instruction = read_operation(m, opcode, defined)?;
    Ok(ReadLine {
        name,
        instruction: unless_broken(&m.reader, instruction),
    })
}

/// An instruction of that opcode, which ends no block. Its result is the value of that id, and has that number where it has
/// no name. It is refused for want of memory alone.
pub fn read_instruction(
    m: &mut ModuleReader<'_>,
    texts: &Texts,
    opcode: Opcode,
    defined: ValueId,
    own: u32,
) -> Result<ReadLine, AllocError>
    requires { is_end opcode ≡ false }
    ensures { IfOk result (ReadsLine (texts_of texts.now) defined own opcode m.old m.new) }
{
    match opcode {
        Opcode::Call => read_call(m, texts, defined, own),
        Opcode::Store => read_store_line(m),
        _ => read_named(m, texts, opcode, defined, own),
    }
}
