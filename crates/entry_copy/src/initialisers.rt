//! Initialisers of variables, by their new ids.
ghost use Rattle.std.specs.Prelude.{◌≡◌};
ghost use Rattle.std.specs.Option.{option_map};
ghost use Rattle.entry_copy.specs.Tables.{new_constant};

use crate::Copier;
use module_arena::{ConstId, Variable};

/// The new id of the initialiser of a variable, where it has one.
pub fn copied_initialiser(copier: &Copier, variable: &Variable) -> Option<ConstId>
    ensures { result ≡ option_map (new_constant copier.now) variable.now.initialiser }
{
    match variable.initialiser {
        Some(id) => Some(copier.new_constant(id)),
        None => None,
    }
}
