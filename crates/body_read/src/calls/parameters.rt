//! The types of the parameters of a call.
ghost use Rattle.std.specs.Prelude.{IfOk};
ghost use Rattle.body_read.specs.Calls.Calls.{ReadsBoth};

use crate::constants::same;
use ir_base::ItemList;
use record_read::push_known;
use std::alloc::AllocError;
use type_read::arena::{ModuleReader, read_type};
use type_table::{TypeId, TypeList};

/// The types of the parameters of a call, as they were read, and those that are known.
#[derive(Drop)]
pub(crate) struct Parameters {
    /// No type stands for one that is not known.
    pub types: Vec<Option<TypeId>>,
    pub known: TypeList,
}

/// A count, and so many types. One that is not known breaks rule 2, and what follows is read all the same.
pub(crate) fn read_parameters(m: &mut ModuleReader<'_>) -> Result<Parameters, AllocError>
    ensures { IfOk result (λ found. ReadsBoth m.old m.new found.types.items found.known) }
{
    let count = m.reader.number();
    let mut types = Vec::new(m.alloc);
    let mut known = Vec::new(m.alloc);
    let mut place = 0;
    'types: while m.reader.has_more(place, count) {
        let ty = read_type(m);
        types.push(same(&ty))?;
        push_known(&mut known, ty)?;
        place += 1;
    }
    Ok(Parameters {
        types,
        known: ItemList::from_vec(known),
    })
}
