//! Which names are there.
ghost use Rattle.std.specs.Prelude.{◌≡◌, [], false, true, Some, IfOk};
ghost use Rattle.std.specs.Option.{option_copied};
ghost use Rattle.body_read.specs.Names.Called.{AddsName, Calls};

use indexmap::IndexSet;
use ir_base::Name;
use module_arena::LocalName;
use record_read::{is_of_bytes, one_more};
use std::alloc::{AllocError, Global};

/// What parameters, blocks and results of a body are called so far.
#[derive(Drop)]
pub struct BodyNames {
    /// The number that the next has if it has no name.
    pub own: u32,
    taken: IndexSet<Name>,
    /// Whether one is called by a text that passes the end of the string table.
    strange: bool,
}

/// One more name, where it is not there. Tells whether it is new.
fn add_name(alloc: Global, taken: &mut IndexSet<Name>, name: &Name) -> Result<bool, AllocError>
    ensures { IfOk result (λ is_new. AddsName taken.old.keys name.now is_new taken.new.keys) }
{
    if taken.contains(name) {
        return Ok(false);
    }
    taken.insert(name.copy(alloc)?)?;
    Ok(true)
}

impl BodyNames {
    /// Nothing is called by a name yet.
    pub fn new(alloc: Global) -> BodyNames
        ensures own { result.own ≡ 0 }
        ensures taken { result.taken.keys ≡ [] }
        ensures strange { result.strange ≡ false }
    {
        BodyNames {
            own: 0,
            taken: IndexSet::new(alloc),
            strange: false,
        }
    }

    /// Something is called so from now on. Tells whether the name is new.
    fn call_known(&mut self, alloc: Global, name: &LocalName) -> Result<bool, AllocError>
        ensures { IfOk result (λ is_new. Calls self.old (Some name.now) is_new self.new) }
    {
        match name {
            LocalName::Named(name) => {
                is_of_bytes(name);
                add_name(alloc, &mut self.taken, name)
            }
            LocalName::Numbered(_) => {
                self.own = one_more(self.own)?;
                Ok(true)
            }
        }
    }

    /// Something is called so from now on, or by a text that passes the end of the string table where it is None. Tells
    /// whether the name is new.
    pub fn call(&mut self, alloc: Global, name: Option<&LocalName>) -> Result<bool, AllocError>
        ensures { IfOk result (λ is_new. Calls self.old (option_copied name.entry) is_new self.new) }
    {
        match name {
            Some(name) => self.call_known(alloc, name),
            None => {
                let is_new = !self.strange;
                self.strange = true;
                Ok(is_new)
            }
        }
    }
}
