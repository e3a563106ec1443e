//! The definitions that were given to block ids.
ghost use Rattle.std.specs.Prelude.{◌≡◌, ◌≤◌, [], length, OnOk, OnErr, slice_get};
ghost use Rattle.bit_tree.specs.declared.starts.given.TheConstants.{MOST_DEFINITIONS};
ghost use Rattle.bit_tree.specs.Starts.Given.{starts_of, with_start};

use crate::starts::merging::merge;
use crate::starts::row::GivenDefinition;
use crate::starts::search::{count_through, rows_of, start_at};
use std::alloc::{AllocError, Global};
use std::marker::Model;

/// How many definitions a table holds at most: more than a stream of 2^30 bytes has.
pub const MOST_DEFINITIONS: usize = 1 << 30;

/// How many rows wait at most until they are merged into the others, so that each is moved only so often.
const MOST_RECENT: usize = 2048;

/// The ids of blocks, ascending, each with the bits where the definitions start that were given to it, in order.
#[derive(Drop)]
pub struct Given {
    sorted: Vec<GivenDefinition>,
    /// The rows that came last, sorted among themselves: a new one finds its place by moving few others.
    recent: Vec<GivenDefinition>,
}

impl Model for Given {
    ghost use Rattle.std.specs.Prelude.{List, ℕ, ◌+◌, ◌≤◌, ◌++◌, length};
    ghost use Rattle.bit_tree.specs.declared.starts.given.TheConstants.{MOST_DEFINITIONS};
    ghost use Rattle.bit_tree.specs.Starts.Rows.{IsAscending, table_of};

    ghost Value = { List (ℕ × List ℕ) };

    ghost view = { λ g. table_of (g.sorted.items ++ g.recent.items) };

    ghost invariant = { λ g. IsAscending g.sorted.items × IsAscending g.recent.items × (length g.sorted.items + length g.recent.items ≤ MOST_DEFINITIONS) };
}

impl Given {
    /// No definitions.
    pub fn new(alloc: Global) -> Self
        ensures { result ≡ [] }
    {
        Given {
            sorted: Vec::new(alloc),
            recent: Vec::new(alloc),
        }
    }

    /// How many definitions were given to an id.
    pub fn count(&self, id: u64) -> usize
        ensures value { result ≡ length (starts_of self.now id) }
        ensures few { result ≤ MOST_DEFINITIONS }
    {
        rows_of(self.sorted.as_slice(), id).len() + rows_of(self.recent.as_slice(), id).len()
    }

    /// Where the definition with this index starts, among those that were given to an id.
    pub fn get(&self, id: u64, index: usize) -> Option<u32>
        ensures { result ≡ slice_get (starts_of self.now id) index }
    {
        let first = rows_of(self.sorted.as_slice(), id);
        if index < first.len() {
            start_at(first, index)
        } else {
            start_at(rows_of(self.recent.as_slice(), id), index - first.len())
        }
    }

    /// Gives one more definition, which starts at this bit, to an id. Where memory runs out, or the table is full, it is
    /// unchanged.
    pub fn give(&mut self, id: u64, start: u32) -> Result<(), AllocError>
        ensures given { OnOk result (self.new ≡ with_start self.old id start) }
        ensures err { OnErr result (self.new ≡ self.old) }
    {
        self.settle()?;
        if self.sorted.len() + self.recent.len() >= MOST_DEFINITIONS {
            return Err(AllocError);
        }
        let place = count_through(self.recent.as_slice(), id);
        self.recent.insert(place, GivenDefinition::new(id, start))?;
        Ok(())
    }

    /// Merges the rows that came last into the others, where they are many.
    fn settle(&mut self) -> Result<(), AllocError>
        ensures { self.new ≡ self.old }
    {
        if self.recent.len() < MOST_RECENT {
            return Ok(());
        }
        let count = self.sorted.len();
        self.sorted.extend_from_slice(self.recent.as_slice())?;
        merge(self.sorted.as_mut_slice(), count, self.recent.as_slice());
        self.recent.clear();
        Ok(())
    }
}
