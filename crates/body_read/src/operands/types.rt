//! Lists of types.
ghost use Rattle.std.specs.Prelude.{IfOk};
ghost use Rattle.record_table.specs.Layout.{counted};
ghost use Rattle.record_table.specs.Fields as fields;
ghost use Rattle.body_read.specs.Operands.Found.{Finds, HasTypes, types_in};

use record_read::{push_known, unbroken};
use std::alloc::AllocError;
use type_read::arena::{ModuleReader, read_type};
use type_table::TypeList;

/// A count, and so many types. None only where a rule is broken. It is refused for want of memory alone.
pub fn read_types(m: &mut ModuleReader<'_>) -> Result<Option<TypeList>, AllocError>
    ensures { IfOk result (Finds HasTypes types_in (λ k. (counted (fields.ty k)).read) m.old m.new) }
{
    let count = m.reader.number();
    let mut types = Vec::new(m.alloc);
    let mut place = 0;
    'types: while m.reader.has_more(place, count) {
        let ty = read_type(m);
        push_known(&mut types, ty)?;
        place += 1;
    }
    Ok(unbroken(&m.reader, types))
}
