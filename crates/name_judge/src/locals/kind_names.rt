//! The names of the values, or of the blocks, of a function, and the numbers that came out of turn.
#![tactic(auto)]

ghost use Rattle.std.specs.Prelude.{◌≡◌, ◌^◌, Bool, true, cond, nat_eq, List, slice_index_or, None, IfOk, OnOk};
ghost use Rattle.indexmap.specs.IndexSet.{contains};
ghost use Rattle.ir_terminals.specs.Digits.{below};
ghost use Rattle.module_arena.specs.Module.{Named, Numbered};
ghost use Rattle.name_rules.specs.Locals.{Locals, local_in, is_alike, is_there};
ghost use Rattle.name_judge.specs.Locals.Names.{is_marked, AreNone, HoldsKind, KindBrings};

use indexmap::IndexSet;
use ir_base::{Place, Text};
use ir_terminals::{Local, Number, PlacedName};
use std::alloc::{AllocError, Global};
use type_table::names::NameTable;

/// Whether both are blocks, or both are values.
fn is_alike(mark: bool, block: bool) -> bool
    ensures { result ≡ is_alike mark block }
{
    if mark { block } else { !block }
}

/// The mark at a place; behind the marks the other.
fn mark_at(marks: &[bool], place: usize, other: bool) -> bool
    ensures { result ≡ slice_index_or marks.now place other }
{
    match marks.get(place) {
        Some(is) => *is,
        None => other,
    }
}

/// Whether a number came in turn, as that of a block or of a value.
pub(crate) fn is_marked(marks: &[bool], block: bool, place: usize) -> bool
    ensures { result ≡ is_marked marks.now block place }
{
    is_alike(mark_at(marks, place, !block), block)
}

/// Names and numbers of the values of a function, or of its blocks, but for the numbers that came in turn.
#[derive(Drop)]
pub(crate) struct KindNames<'a> {
    named: NameTable<'a, Place>,
    /// The numbers below 2^64.
    small: IndexSet<u64>,
    /// The digits of the others.
    large: IndexSet<Text>,
}

impl<'a> KindNames<'a> {
    /// None yet.
    pub(crate) fn new(alloc: Global) -> Self
        ensures { AreNone result }
    {
        KindNames {
            named: NameTable::new(alloc),
            small: IndexSet::new(alloc),
            large: IndexSet::new(alloc),
        }
    }

    /// Takes all out. The memory is kept.
    #[inline(always)]
    pub(crate) fn clear(&mut self)
        ensures { AreNone self.new }
    {
        self.named.clear();
        self.small.clear();
        self.large.clear();
    }

    /// Adds a name.
    pub(crate) fn put_name(&mut self, name: &'a PlacedName) -> Result<(), AllocError>
        ensures { OnOk result (KindBrings self.old self.new (Named name.now.name)) }
    {
        self.named.put(name.name.bytes(), name.place)
    }

    /// Adds a number below 2^64.
    fn put_small(&mut self, number: u64) -> Result<(), AllocError>
        ensures { OnOk result (KindBrings self.old self.new (Numbered number)) }
    {
        self.small.insert(number)?;
        Ok(())
    }

    /// Adds a number of any size.
    pub(crate) fn put_number(&mut self, alloc: Global, number: &Number) -> Result<(), AllocError>
        ensures { OnOk result (KindBrings self.old self.new (Numbered number.now)) }
    {
        if let Some(small) = number.to_u64() {
            return self.put_small(small);
        }
        let digits = number.digits(alloc)?;
        self.large.insert(digits)?;
        Ok(())
    }

    /// Whether a number below 2^64 is among these, or came in turn.
    fn has_small(&self, marks: &[bool], block: bool, number: u64) -> bool
        ensures { result ≡ cond (is_marked marks.now block number) true (contains nat_eq self.now.small number) }
    {
        if is_marked(marks, block, number as usize) {
            return true;
        }
        self.small.contains(&number)
    }

    /// Whether a number of 2^64 or more is among these. It stands apart from the numbers of 64 bits, which nearly all are.
    #[cold]
    #[inline(never)]
    fn has_large(&self, alloc: Global, number: &Number) -> Result<bool, AllocError>
        requires large { None ≡ below (2 ^ 64) number.now }
        ensures { IfOk result (λ has. (marks : List Bool) (block : Bool) (all : Locals) → HoldsKind marks self.now block all → has ≡ is_there all block (Numbered number.now)) }
    {
        let digits = number.digits(alloc)?;
        Ok(self.large.contains(&digits))
    }

    /// Whether the name or the number is among these, or came in turn.
    pub(crate) fn has(
        &self,
        alloc: Global,
        marks: &[bool],
        block: bool,
        written: &Local,
    ) -> Result<bool, AllocError>
        ensures { IfOk result (λ has. (all : Locals) → HoldsKind marks.now self.now block all → has ≡ is_there all block (local_in written.now)) }
    {
        match written {
            Local::Named(name) => Ok(self.named.get(name.name.bytes()).is_some()),
            Local::Numbered(number, _) => {
                if let Some(small) = number.to_u64() {
                    return Ok(self.has_small(marks, block, small));
                }
                self.has_large(alloc, number)
            }
        }
    }
}
