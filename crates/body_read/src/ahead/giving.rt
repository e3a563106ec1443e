//! Which records of a body declare a value.
ghost use Rattle.std.specs.Prelude.{◌≡◌, ◌-◌, ℕ, List, None};
ghost use Rattle.ir_tables.specs.Opcode.{opcode_of_code};
ghost use Rattle.record_table.specs.Walk.{going};
ghost use Rattle.body_read.specs.Ahead.Ahead.{gives_by, gives_of, gives_value, gives_where};

use ir_tables::Opcode;
use record_read::RecordReader;
use record_table::FIRST_LINE;

/// The opcode of the line of that record code, where it has one.
pub fn opcode_of(code: u32) -> Option<Opcode>
    ensures { result ≡ opcode_of_code (code - 10) }
{
    if code < FIRST_LINE {
        return None;
    }
    let number = code - FIRST_LINE;
    if number > 0xffff {
        return None;
    }
    Opcode::of_code(number as u16)
}

/// Whether the type of that index is there and is not `void`.
fn is_given(voids: &[bool], index: u64) -> bool
    ensures { result ≡ gives_where voids.now index }
{
    match voids.get(index as usize) {
        Some(is_void) => !*is_void,
        None => false,
    }
}

/// Whether a call has a result: where the type that it names, which is its first operand, is there and is not `void`.
fn call_gives(reader: &mut RecordReader<'_>, voids: &[bool]) -> bool
    ensures spent { reader.new.spent ≡ reader.old.spent }
    ensures left { reader.new.left ≡ reader.old.left }
    ensures gives { (operands : List ℕ) → reader.old.walk ≡ going operands None → result ≡ gives_value voids.now operands }
{
    match reader.take() {
        Some(index) => is_given(voids, index),
        None => false,
    }
}

/// Whether a line of that opcode has a result.
fn line_gives(reader: &mut RecordReader<'_>, opcode: Opcode, voids: &[bool]) -> bool
    ensures spent { reader.new.spent ≡ reader.old.spent }
    ensures left { reader.new.left ≡ reader.old.left }
    ensures gives { (operands : List ℕ) → reader.old.walk ≡ going operands None → result ≡ gives_by voids.now operands opcode }
{
    match opcode {
        Opcode::Store | Opcode::Ret | Opcode::Br | Opcode::Switch | Opcode::Unreachable => false,
        Opcode::Call => call_gives(reader, voids),
        _ => true,
    }
}

/// Whether the line of that record code has a result.
pub(crate) fn gives(reader: &mut RecordReader<'_>, code: u32, voids: &[bool]) -> bool
    ensures spent { reader.new.spent ≡ reader.old.spent }
    ensures left { reader.new.left ≡ reader.old.left }
    ensures gives { (operands : List ℕ) → reader.old.walk ≡ going operands None → result ≡ gives_of voids.now operands (opcode_of_code (code - 10)) }
{
    match opcode_of(code) {
        Some(opcode) => line_gives(reader, opcode, voids),
        None => false,
    }
}
