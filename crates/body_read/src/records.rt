//! A record of a body, by its code.
ghost use Rattle.std.specs.Prelude.{◌≡◌, ◌<◌, ℕ, true, false, OnOk};
ghost use Rattle.record_table.specs.Fields.{Numbering};
ghost use Rattle.body_read.specs.Blocks.Begun.{Passes};
ghost use Rattle.body_read.specs.Whole.{ReadsOpcode, ReadsRecord};

use crate::ahead::opcode_of;
use crate::blocks::{Begun, read_block, read_end, read_line, read_parameters};
use crate::endings::is_end;
use ir_tables::Opcode;
use record_read::{BitcodeFault, Texts};
use record_table::{BLOCK, BODY_BLOCK, PARAMETERS};
use type_read::arena::ModuleReader;

/// Reads a line of that opcode.
fn read_opcode(
    m: &mut ModuleReader<'_>,
    texts: &Texts,
    body: &mut Begun,
    opcode: Opcode,
) -> Result<(), BitcodeFault>
    requires { 0 < m.old.reader.at }
    ensures passes { OnOk result (Passes m.old m.new) }
    ensures reads { (k : Numbering) (count : ℕ) → ReadsOpcode texts.now k count opcode m.old body.old result m.new body.new }
{
    if is_end(opcode) {
        read_end(m, body, opcode)
    } else {
        read_line(m, texts, body, opcode)
    }
}

/// Reads a record of that code, in the body of a function of so many parameters.
pub(crate) fn read_record(
    m: &mut ModuleReader<'_>,
    texts: &Texts,
    body: &mut Begun,
    parameters: u32,
    code: u32,
) -> Result<(), BitcodeFault>
    requires { 0 < m.old.reader.at }
    ensures passes { OnOk result (Passes m.old m.new) }
    ensures reads { (k : Numbering) → ReadsRecord texts.now k parameters code m.old body.old result m.new body.new }
{
    if code == PARAMETERS {
        return read_parameters(m, texts, body, parameters);
    }
    if code == BLOCK {
        return read_block(m, texts, body);
    }
    let found = opcode_of(code);
    match found {
        Some(opcode) => read_opcode(m, texts, body, opcode),
        None => Err(BitcodeFault::UnknownRecord {
            block: BODY_BLOCK,
            code,
        }),
    }
}
