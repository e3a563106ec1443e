//! Lists that only grow, and into which others point.
ghost use Rattle.std.specs.Prelude.{◌≡◌, ◌+◌, ◌<◌, ◌≤◌, ◌++◌, ◌∷◌, [], IfOk, OnErr, OnOk, Some, length, slice_get};
ghost use Rattle.run_decode.specs.Flat.Spans.{IsBetween, IsLonger, IsSpanIn, spanned};

use crate::flat::leaf::Span;
use std::alloc::{AllocError, Global};
use std::marker::Model;

/// A place or a count as 32 bits have it. A pool that has no such place for an item has no room for it.
pub fn numbered(count: usize) -> Result<u32, AllocError>
    ensures { IfOk result (λ number. number ≡ count) }
{
    match u32::try_from(count) {
        Ok(number) => Ok(number),
        Err(_) => Err(AllocError),
    }
}

/// A list that only grows. Contracts see it as the list.
#[derive(Drop)]
pub struct Pool<T> {
    items: Vec<T>,
}

impl<T> Model for Pool<T> {
    ghost use Rattle.std.specs.Prelude.{List};

    ghost Value = { List T };

    ghost view = { λ pool. pool.items.items };
}

impl<T: Copy> Pool<T> {
    /// No items.
    pub fn new(alloc: Global) -> Self
        ensures { result ≡ [] }
    {
        Pool {
            items: Vec::new(alloc),
        }
    }

    /// How many items there are.
    pub fn len(&self) -> usize
        ensures { result ≡ length self.now }
    {
        self.items.len()
    }

    /// All items.
    pub fn items(&self) -> &[T]
        ensures { result.now ≡ self.now }
    {
        &self.items
    }

    /// Adds an item at the end, and gives its place. Where it is refused, the pool is as it was.
    pub fn push(&mut self, item: T) -> Result<u32, AllocError>
        ensures place { IfOk result (λ place. place ≡ length self.old) }
        ensures items { OnOk result (self.new ≡ self.old ++ item ∷ []) }
        ensures err { OnErr result (self.new ≡ self.old) }
    {
        let place = numbered(self.items.len())?;
        self.items.push(item)?;
        Ok(place)
    }

    /// The items from that place up to the end.
    pub fn since(&self, first: usize) -> Result<Span, AllocError>
        requires { first ≤ length self.now }
        ensures { IfOk result (IsBetween first (length self.now)) }
    {
        let end = numbered(self.items.len())?;
        let first = numbered(first)?;
        Ok(Span {
            first,
            count: end - first,
        })
    }

    /// Adds items at the end, in order, and gives where they stand. Where it is refused, the pool may have gained them.
    pub fn append(&mut self, items: &[T]) -> Result<Span, AllocError>
        ensures span { IfOk result (IsBetween (length self.old) (length self.new)) }
        ensures items { OnOk result (self.new ≡ self.old ++ items.now) }
        ensures kept { IsLonger self.old self.new }
    {
        let first = self.items.len();
        self.items.extend_from_slice(items)?;
        self.since(first)
    }

    /// The item at a place.
    #[inline]
    pub fn at(&self, place: u32) -> &T
        requires { place < length self.now }
        ensures { slice_get self.now place ≡ Some result.now }
    {
        &self.items[place as usize]
    }

    /// The items at the places of a span.
    #[inline]
    pub fn in_span(&self, span: Span) -> &[T]
        requires { IsSpanIn self.now span }
        ensures { result.now ≡ spanned self.now span }
    {
        let first = span.first as usize;
        &self.items[first..first + span.count as usize]
    }
}
