//! Names one behind the other.
ghost use Rattle.std.specs.Prelude.{◌≡◌, ◌&&◌, IfOk};
ghost use Rattle.body_read.specs.Names.Called.{ReadsNames};

use crate::names::called::BodyNames;
use crate::names::label::read_called;
use record_read::{RecordReader, Texts};
use std::alloc::{AllocError, Global};

/// Whether both hold.
fn both(one: bool, other: bool) -> bool
    ensures { result ≡ (one && other) }
{
    one && other
}

/// The names of so many parameters, the first without a name having number 0. Each is called so from now on. Tells whether
/// all of them are new.
pub fn read_names(
    reader: &mut RecordReader<'_>,
    alloc: Global,
    texts: &Texts,
    names: &mut BodyNames,
    count: u64,
) -> Result<bool, AllocError>
    ensures { IfOk result (λ all_new. ReadsNames texts.now count reader.old names.old all_new reader.new names.new) }
{
    let mut all_new = true;
    let mut place = 0;
    names.own = 0;
    'names: while reader.has_more(place, count) {
        let name = read_called(reader, alloc, texts, names.own)?;
        let is_new = names.call(alloc, name.as_ref())?;
        all_new = both(all_new, is_new);
        place += 1;
    }
    Ok(all_new)
}
