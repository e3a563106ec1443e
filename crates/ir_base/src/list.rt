//! Lists that contracts see as plain lists.
ghost use Rattle.std.specs.Prelude.{◌≡◌, ℕ, ◌<◌, List, [], ◌∷◌, ◌++◌, length, slice_get, Some, OnOk, OnErr, ◌==◌};

use crate::{Name, Text};
use std::alloc::{AllocError, Global};
use std::marker::Model;

/// Some items, in order. A type whose name ends in `List` is one of these.
///
/// ```
/// let mut list = ItemList::new(alloc);
/// list.push(7)?;
/// list.push(8)?;
/// list.at(1) // 8
/// list.len() // 2
/// ```
#[derive(Debug, Drop)]
pub struct ItemList<T> {
    items: Vec<T>,
}

/// Some texts, in order.
pub type TextList = ItemList<Text>;

/// Some names, in order.
pub type NameList = ItemList<Name>;

/// Some numbers, in order.
pub type NumberList = ItemList<u64>;

impl<T> Model for ItemList<T> {
    ghost Value = { List T };

    ghost view = { λ list. list.items.items };
}

impl<T> ItemList<T> {
    /// No items.
    pub fn new(alloc: Global) -> Self
        ensures { result ≡ [] }
    {
        ItemList {
            items: Vec::new(alloc),
        }
    }

    /// These items, with no copy of them.
    pub fn from_vec(items: Vec<T>) -> Self
        ensures { result ≡ items.items }
    {
        ItemList { items }
    }

    /// The items as a `Vec`, with no copy of them.
    pub fn into_vec(self) -> Vec<T>
        ensures { result.items ≡ self }
    {
        let ItemList { items } = self;
        items
    }

    /// Adds an item at the end. Where memory runs out the list is unchanged, and the item is dropped.
    pub fn push(&mut self, item: T) -> Result<(), AllocError>
    where
        T: Drop,
        ensures ok { OnOk result (self.new ≡ self.old ++ item ∷ []) }
        ensures err { OnErr result (self.new ≡ self.old) }
    {
        self.items.push(item)?;
        Ok(())
    }

    /// How many items there are.
    pub fn len(&self) -> usize
        ensures { result ≡ length self.now }
    {
        self.items.len()
    }

    /// Whether there is no item.
    pub fn is_empty(&self) -> bool
        ensures { result ≡ (length self.now == 0) }
    {
        self.items.is_empty()
    }

    /// The item with this index, counted from 0.
    pub fn at(&self, index: usize) -> &T
        requires { index < length self.now }
        ensures { slice_get self.now index ≡ Some result.now }
    {
        &self.items[index]
    }

    /// The items as a slice.
    pub fn as_slice(&self) -> &[T]
        ensures { result.now ≡ self.now }
    {
        self.items.as_slice()
    }
}
