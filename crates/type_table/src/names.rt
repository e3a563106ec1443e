//! What the names of a text stand for: a table from names, which are borrowed from the items, to values.
//!
//! It stands on `indexmap`. It promises that a name has the value that it was given last, and that other names keep
//! theirs. It copies no name. Definitions: `specs/Names/Entries`.
//!
//! ```
//! let mut table = NameTable::new(alloc);
//! table.put(b"a", 1)?;
//! table.put(b"a", 2)?;
//! table.get(b"a") // Some(2)
//! table.get(b"b") // None
//! ```
ghost use Rattle.std.specs.Prelude.{◌≡◌, ℕ, [], List, Some, OnOk, OnErr, bytes_eq, cond};
ghost use Rattle.type_table.specs.Names.Entries.{value_of};

use indexmap::IndexMap;
use std::alloc::{AllocError, Global};
use std::marker::Model;

/// Names, each with the value that it stands for.
#[derive(Drop)]
pub struct NameTable<'a, V> {
    values: IndexMap<&'a [u8], V>,
}

impl<'a, V> Model for NameTable<'a, V> {
    ghost use Rattle.std.specs.Prelude.{ℕ, List};
    ghost use Rattle.type_table.specs.Names.Entries.{entries_in};

    ghost Value = { List (List ℕ × V) };

    ghost view = { λ table. entries_in table.values.entries };
}

impl<'a, V: Copy> NameTable<'a, V> {
    /// A table without names.
    pub fn new(alloc: Global) -> Self
        ensures { result ≡ [] }
    {
        NameTable {
            values: IndexMap::new(alloc),
        }
    }

    /// What the name stands for, if it is in the table.
    pub fn get(&self, name: &[u8]) -> Option<V>
        ensures { result ≡ value_of self.now name.now }
    {
        self.values.get(&name).copied()
    }

    /// Gives the name that value. Where memory runs out, the table is unchanged.
    pub fn put(&mut self, name: &'a [u8], value: V) -> Result<(), AllocError>
        ensures put { OnOk result ((other : List ℕ) → value_of self.new other ≡ cond (bytes_eq other name.now) (Some value) (value_of self.old other)) }
        ensures err { OnErr result (self.new ≡ self.old) }
    {
        self.values.insert(name, value)?;
        Ok(())
    }

    /// Takes all names out, and keeps the memory.
    pub fn clear(&mut self)
        ensures { self.new ≡ [] }
    {
        self.values.clear();
    }
}
