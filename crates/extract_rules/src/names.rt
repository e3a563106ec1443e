//! Names, each once, in the order in which they come.
ghost use Rattle.std.specs.Prelude.{[], ◌∷◌, OnOk};
ghost use Rattle.extract_rules.specs.Calls.{Adds};

use indexmap::IndexSet;
use ir_base::Name;
use std::alloc::{AllocError, Global};

/// Names, each once, in the order in which they were added.
pub type NameSet = IndexSet<Name>;

/// Adds a name where it is not there yet. It is refused for want of memory alone.
pub fn add_name(alloc: Global, names: &mut NameSet, name: &Name) -> Result<(), AllocError>
    ensures { OnOk result (Adds names.old.keys (name.now ∷ []) names.new.keys) }
{
    if !names.contains(name) {
        names.insert(name.copy(alloc)?)?;
    }
    Ok(())
}

/// Adds names where they are not there yet.
pub(crate) fn add_names(alloc: Global, names: &mut NameSet, more: &[Name]) -> Result<(), AllocError>
    ensures { OnOk result (Adds names.old.keys more.now names.new.keys) }
{
    for name in more {
        add_name(alloc, names, name)?;
    }
    Ok(())
}
