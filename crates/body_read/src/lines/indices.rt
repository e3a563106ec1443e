//! The indices of `extractvalue` and `insertvalue`.
ghost use Rattle.std.specs.Prelude.{IfOk};
ghost use Rattle.record_table.specs.Layout.{counted_some};
ghost use Rattle.record_table.specs.Fields.{index};
ghost use Rattle.body_read.specs.Operands.Found.{Finds};
ghost use Rattle.body_read.specs.Lines.Kept.{HasIndices, indices_in};

use module_arena::IndexList;
use record_read::{read_index, unbroken};
use std::alloc::AllocError;
use type_read::arena::ModuleReader;

/// A count, which is not 0, and so many indices. None only where a rule is broken.
pub(crate) fn read_indices(m: &mut ModuleReader<'_>) -> Result<Option<IndexList>, AllocError>
    ensures { IfOk result (Finds HasIndices indices_in (λ k. (counted_some index).read) m.old m.new) }
{
    let count = m.reader.number();
    m.reader.ask(1, count != 0);
    let mut indices = Vec::new(m.alloc);
    let mut place = 0;
    'indices: while m.reader.has_more(place, count) {
        let index = read_index(&mut m.reader);
        indices.push(index)?;
        place += 1;
    }
    Ok(unbroken(&m.reader, indices))
}
