//! A number for each constant.
ghost use Rattle.std.specs.Prelude.{◌≡◌, IfOk, length};
ghost use Rattle.module_arena.specs.View.{constants_of, module_of};
ghost use Rattle.module_arena.specs.WellFormed.{IsWellFormed};
ghost use Rattle.entry_verify.specs.Types.Classes.{AreClasses as AreTypeClasses};
ghost use Rattle.instruction_verify.specs.Uses.Classes.{AreClasses};

use crate::uses::keys::key_of;
use entry_verify::constants::Judge;
use indexmap::IndexSet;
use module_arena::{Arena, ConstId};
use std::alloc::{AllocError, Global};
use type_table::TypeId;

/// A number for each constant of the arena, from the numbers of its types.
fn classes_of(alloc: Global, arena: &Arena, types: &[TypeId]) -> Result<Vec<u64>, AllocError>
    requires { AreTypeClasses arena.now.table types.now }
    ensures many { IfOk result (λ classes. length classes.items ≡ length arena.now.constants) }
    ensures classes { IfOk result (λ classes. AreClasses (constants_of arena.now) classes.items) }
{
    // The parts of each constant of an arena are earlier constants, and no two entries have one name.
    let _count = arena.variable_count();
    let count = arena.const_count();
    let mut keys = IndexSet::with_capacity(alloc, count as usize)?;
    let mut classes = Vec::with_capacity(alloc, count as usize)?;
    for number in 0..count {
        let key = key_of(alloc, types, &classes, arena.constant(ConstId::new(number)))?;
        let (class, _is_new) = keys.insert_full(key)?;
        classes.push(class as u64)?;
    }
    Ok(classes)
}

/// A number for each constant of the module, by its id: two have one number exactly where they are the same, as they are written.
/// It is refused for want of memory alone.
pub fn constant_classes(alloc: Global, judge: &Judge<'_>) -> Result<Vec<u64>, AllocError>
    requires { IsWellFormed (module_of judge.now) }
    ensures many { IfOk result (λ classes. length classes.items ≡ length judge.now.constants) }
    ensures classes { IfOk result (λ classes. AreClasses (constants_of judge.now) classes.items) }
{
    classes_of(alloc, judge.arena(), judge.types().classes())
}
