//! What names mean, as it is told.
ghost use Rattle.std.specs.Prelude.{◌≡◌, is_some, true};
ghost use Rattle.linkage_rules.specs.Ids.{modules};
ghost use Rattle.linkage_rules.specs.Resolved.{AreBindings};
ghost use Rattle.linkage_rules.specs.Resolving.Meanings.{bound_view};

use crate::symbols::{add_name, add_part, kind_word};
use crate::telling::add;
use ir_base::Name;
use linkage_rules::resolving::{Bound, bind_names};
use linkage_rules::{Bindings, EntryId, name};
use module_arena::Checked;
use std::alloc::{AllocError, Global};

/// Adds what a name means.
fn add_bound(
    told: &mut Vec<u8>,
    alloc: Global,
    parts: &[Checked],
    bound: &Bound,
) -> Result<(), AllocError>
    requires { is_some (bound_view (modules parts.now) bound.now) ≡ true }
{
    match bound {
        Bound::Definition(part, id) => {
            let id = EntryId::of(*part, *id);
            add(told, kind_word(id.kind))?;
            add_name(told, name(parts, id))?;
            add_part(told, alloc, *part)
        }
        Bound::Appended(symbol) => {
            add(told, "appended")?;
            add_name(told, symbol.name())
        }
        Bound::Host(name) => {
            add(told, "host")?;
            add_name(told, name)
        }
        Bound::Null => add(told, "null"),
        Bound::Unresolved => add(told, "unresolved"),
    }
}

/// Adds what a name means in a part.
pub(crate) fn add_meaning(
    told: &mut Vec<u8>,
    alloc: Global,
    parts: &[Checked],
    bindings: &Bindings,
    part: u64,
    name: &Name,
) -> Result<(), AllocError>
    requires { AreBindings parts.now bindings.now }
{
    let meanings = bind_names(alloc, parts, bindings)?;
    match meanings.bind(part, name) {
        Some(bound) => add_bound(told, alloc, parts, bound)?,
        None => add(told, "no entry")?,
    }
    add(told, "\n")
}
