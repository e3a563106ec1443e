//! Constants that hold no others.
ghost use Rattle.std.specs.Prelude.{◌≡◌, ◌≤◌, nat_lt, ◌^◌, None, Some, IfOk};
ghost use Rattle.type_table.specs.Tree.{int};
ghost use Rattle.module_arena.specs.Module as modules;
ghost use Rattle.record_table.specs.Fields.{Numbering};
ghost use Rattle.record_table.specs.Constants as constants;
ghost use Rattle.type_read.specs.Arena.Growing.{IsConstant};
ghost use Rattle.type_read.specs.Arena.Numbered.{Numbers};
ghost use Rattle.type_read.specs.Arena.Kept.{HasConstant, IsKnownType, IsRead, Keeps, tree_at};

use crate::arena::ModuleReader;
use crate::arena::globals::read_global;
use crate::arena::type_tests::{holds_bytes, is_pointer, width_of};
use ir_tables::WIDEST;
use module_arena::{Const, ConstId};
use record_read::{RecordReader, read_byte_string};
use std::alloc::AllocError;
use type_table::TypeId;

/// One more than the greatest number that an operand holds.
pub(crate) const HALF: u128 = 1 << 64;

/// Whether the number has at most so many bits.
fn fits(number: u128, width: u8) -> bool
    requires { width ≤ WIDEST }
    ensures { result ≡ nat_lt number (2 ^ width) }
{
    if width == WIDEST {
        return true;
    }
    let limit = 1u128 << width;
    number < limit
}

/// An integer of that width: its low half, and above 64 bits its high half. One that is longer breaks rule 3.
fn read_number(reader: &mut RecordReader<'_>, width: u8) -> u128
    requires low { 1 ≤ width }
    requires high { width ≤ WIDEST }
    ensures value { modules.Integer result ≡ (constants.integer (int width) reader.old.walk).0 }
    ensures reader { reader.new ≡ record reader.old { walk = (constants.integer (int width) reader.old.walk).1 } }
{
    let low = u128::from(reader.number());
    if width <= 64 {
        let fits_low = fits(low, width);
        reader.ask(3, fits_low);
        return low;
    }
    let high = u128::from(reader.number());
    let number = low + HALF * high;
    let fits_both = fits(number, width);
    reader.ask(3, fits_both);
    number
}

/// An integer at that type. It stands at no other type than one of integers, which rule 6 says. None only where a rule is
/// broken. It is refused for want of memory alone.
pub fn read_integer(
    m: &mut ModuleReader<'_>,
    ty: Option<TypeId>,
) -> Result<Option<ConstId>, AllocError>
    requires { IsKnownType m.old ty }
    ensures keeps { IfOk result (Keeps HasConstant m.old m.new) }
    ensures reads { (k : Numbering) → IfOk result (IsRead k IsConstant (constants.integer (tree_at m.old.growing.arena.table ty) m.old.reader.walk) m.old m.new) }
{
    match width_of(m.growing.table(), ty) {
        Some(width) => {
            let number = read_number(&mut m.reader, width);
            m.keep_unbroken(Const::Integer(number))
        }
        None => {
            m.reader.stop(6);
            m.reader.stops_where_broken();
            Ok(None)
        }
    }
}

/// `null`, which stands at `ptr` alone, as rule 6 says. None only where a rule is broken. It is refused for want of memory
/// alone.
pub fn read_null(
    m: &mut ModuleReader<'_>,
    ty: Option<TypeId>,
) -> Result<Option<ConstId>, AllocError>
    requires { IsKnownType m.old ty }
    ensures keeps { IfOk result (Keeps HasConstant m.old m.new) }
    ensures reads { (k : Numbering) → IfOk result (IsRead k IsConstant (constants.of_form k None (Some constants.NullPointer) (tree_at m.old.growing.arena.table ty) m.old.reader.walk) m.old m.new) }
{
    let fits = is_pointer(m.growing.table(), ty);
    m.reader.ask(6, fits);
    m.keep_unbroken(Const::Null)
}

/// The address of a variable, function or alias, which stands at `ptr` alone, as rule 6 says. None only where a rule is
/// broken. It is refused for want of memory alone.
pub fn read_address(
    m: &mut ModuleReader<'_>,
    ty: Option<TypeId>,
) -> Result<Option<ConstId>, AllocError>
    requires { IsKnownType m.old ty }
    ensures keeps { IfOk result (Keeps HasConstant m.old m.new) }
    ensures reads { (k : Numbering) → Numbers m.old k → IfOk result (IsRead k IsConstant (constants.of_form k None (Some constants.Global) (tree_at m.old.growing.arena.table ty) m.old.reader.walk) m.old m.new) }
{
    let fits = is_pointer(m.growing.table(), ty);
    m.reader.ask(6, fits);
    match read_global(m) {
        Some(id) => m.keep_unbroken(Const::Address(id)),
        None => m.keep_unbroken(Const::Null),
    }
}

/// A byte string, which stands at an array of as many of i8, as rule 6 says. None only where a rule is broken. It is refused
/// for want of memory alone.
pub fn read_string(
    m: &mut ModuleReader<'_>,
    ty: Option<TypeId>,
) -> Result<Option<ConstId>, AllocError>
    requires { IsKnownType m.old ty }
    ensures keeps { IfOk result (Keeps HasConstant m.old m.new) }
    ensures reads { (k : Numbering) → IfOk result (IsRead k IsConstant (constants.of_form k None (Some constants.Bytewise) (tree_at m.old.growing.arena.table ty) m.old.reader.walk) m.old m.new) }
{
    let read = read_byte_string(&mut m.reader, m.alloc)?;
    match read {
        Some(text) => {
            let fits = holds_bytes(m.growing.table(), ty, text.bytes().len());
            m.reader.ask(6, fits);
            m.keep_unbroken(Const::ByteString(text))
        }
        None => Ok(None),
    }
}
