//! Types by their indices, among so many.
ghost use Rattle.std.specs.Prelude.{IfOk};
ghost use Rattle.record_table.specs.Layout.{counted, times};
ghost use Rattle.record_table.specs.TypeRecords.{earlier};
ghost use Rattle.record_read.specs.Reader.{ReadsAs};
ghost use Rattle.record_read.specs.Fields.{IsBelow};
ghost use Rattle.type_read.specs.Fields.{AreBelow};

use record_read::{RecordReader, push_known, read_place, unbroken};
use std::alloc::{AllocError, Global};
use type_table::{TypeId, TypeList};

/// One of so many types. Another index breaks rule 2; then there is none.
pub(crate) fn read_type(reader: &mut RecordReader<'_>, types: u64) -> Option<TypeId>
    ensures { ReadsAs (IsBelow types) (earlier types) reader.old reader.new result }
{
    match read_place(reader, types) {
        Some(place) => Some(TypeId::new(place)),
        None => None,
    }
}

/// So many of these types. None only where a rule is broken.
fn read_so_many(
    reader: &mut RecordReader<'_>,
    alloc: Global,
    count: u64,
    types: u64,
) -> Result<Option<TypeList>, AllocError>
    ensures { IfOk result (ReadsAs (AreBelow types) (times count (earlier types)) reader.old reader.new) }
{
    let mut list = Vec::new(alloc);
    let mut place = 0;
    'places: while reader.has_more(place, count) {
        let ty = read_type(reader, types);
        push_known(&mut list, ty)?;
        place += 1;
    }
    Ok(unbroken(reader, list))
}

/// A count, and so many of these types. None only where a rule is broken.
pub(crate) fn read_types(
    reader: &mut RecordReader<'_>,
    alloc: Global,
    types: u64,
) -> Result<Option<TypeList>, AllocError>
    ensures { IfOk result (ReadsAs (AreBelow types) (counted (earlier types)) reader.old reader.new) }
{
    let count = reader.number();
    let list = read_so_many(reader, alloc, count, types)?;
    Ok(list)
}
