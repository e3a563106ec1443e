//! The names of variables, aliases and functions, as a map to their ids.
ghost use Rattle.std.specs.Prelude.{◌≡◌, ◌<◌, [], ◌∷◌, ◌++◌, Some, None, bytes_eq, IfOk, IfErr, OnOk, OnErr, vec_len, vec_capacity};
ghost use Rattle.indexmap.specs.IndexMap.{get, Updates};

use crate::{ArenaFault, GlobalId};
use indexmap::IndexMap;
use ir_base::Name;
use std::alloc::{AllocError, Global};

/// The entries under their names, in the order of making.
pub(crate) type NameMap = IndexMap<Name, GlobalId>;

/// The entry with that name.
pub(crate) fn find(names: &NameMap, name: &Name) -> Option<GlobalId>
    ensures { result ≡ get bytes_eq names.now name.now }
{
    names.get(name).copied()
}

/// Puts an entry under a name that no entry has.
pub(crate) fn add_name(names: &mut NameMap, name: Name, id: GlobalId) -> Result<(), ArenaFault>
    ensures ok { OnOk result (Updates bytes_eq names.old names.new name (Some id)) }
    ensures memory { IfErr result (λ fault. fault ≡ ArenaFault.Memory) }
    ensures err { OnErr result (names.new.entries ≡ names.old.entries) }
{
    names.insert(name, id)?;
    Ok(())
}

/// Adds an item for which there is room, so that nothing is allocated.
pub(crate) fn push_into_room<T: Drop>(items: &mut Vec<T>, item: T)
    requires { vec_len items.old < vec_capacity items.old }
    ensures { items.new.items ≡ items.old.items ++ item ∷ [] }
{
    items.push(item).unwrap();
}

/// An equal map of its own.
pub(crate) fn copied_names(alloc: Global, names: &NameMap) -> Result<NameMap, AllocError>
    ensures { IfOk result (λ copy. copy.entries ≡ names.now.entries) }
{
    let mut copy = IndexMap::new(alloc);
    for index in 0..names.len() {
        let (name, id) = names.get_index(index).unwrap();
        let own = name.copy(alloc)?;
        copy.insert(own, *id)?;
    }
    Ok(copy)
}
