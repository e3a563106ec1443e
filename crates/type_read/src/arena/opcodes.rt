//! The opcodes that constants may have.
ghost use Rattle.std.specs.Prelude.{◌≡◌, [], ◌∷◌, find, nat_eq};
ghost use Rattle.ir_tables.specs.Opcode.{opcode_code};
ghost use Rattle.ir_tables.specs.declared.opcode.Opcode.TheVariants as op;
ghost use Rattle.record_table.specs.Constants.{binary_opcode, cast_opcode};
ghost use Rattle.record_read.specs.Reader.{Reads};

use ir_tables::Opcode;
use record_read::RecordReader;

/// The opcode with that code, if a cast constant may have it.
fn cast_of(code: u64) -> Option<Opcode>
    ensures { result ≡ find (λ o. nat_eq (opcode_code o) code) (op.Trunc ∷ op.PtrToInt ∷ op.IntToPtr ∷ []) }
{
    if u64::from(Opcode::Trunc.code()) == code {
        Some(Opcode::Trunc)
    } else if u64::from(Opcode::PtrToInt.code()) == code {
        Some(Opcode::PtrToInt)
    } else if u64::from(Opcode::IntToPtr.code()) == code {
        Some(Opcode::IntToPtr)
    } else {
        None
    }
}

/// The opcode with that code, if a binary constant may have it.
fn binary_of(code: u64) -> Option<Opcode>
    ensures { result ≡ find (λ o. nat_eq (opcode_code o) code) (op.Add ∷ op.Sub ∷ op.Xor ∷ []) }
{
    if u64::from(Opcode::Add.code()) == code {
        Some(Opcode::Add)
    } else if u64::from(Opcode::Sub.code()) == code {
        Some(Opcode::Sub)
    } else if u64::from(Opcode::Xor.code()) == code {
        Some(Opcode::Xor)
    } else {
        None
    }
}

/// The opcode of a cast constant. Another number breaks rule 3.
pub fn read_cast_opcode(reader: &mut RecordReader<'_>) -> Opcode
    ensures { Reads cast_opcode reader.old reader.new result }
{
    let number = reader.number();
    match cast_of(number) {
        Some(opcode) => opcode,
        None => {
            reader.refuse(3);
            Opcode::Trunc
        }
    }
}

/// The opcode of a binary constant. Another number breaks rule 3.
pub fn read_binary_opcode(reader: &mut RecordReader<'_>) -> Opcode
    ensures { Reads binary_opcode reader.old reader.new result }
{
    let number = reader.number();
    match binary_of(number) {
        Some(opcode) => opcode,
        None => {
            reader.refuse(3);
            Opcode::Xor
        }
    }
}
