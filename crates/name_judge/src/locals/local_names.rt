//! What the values and the blocks of a function are called.
#![tactic(auto)]

ghost use Rattle.std.specs.Prelude.{◌≡◌, ◌==◌, ◌+◌, true, [], ◌∷◌, IfOk, OnOk};
ghost use Rattle.module_arena.specs.Module.{Named, Numbered};
ghost use Rattle.name_rules.specs.Locals.{Locals, local_in, is_there};
ghost use Rattle.name_judge.specs.Locals.Names.{next_of, HoldsNames, Brings, Announces};

use crate::locals::kind_names::{KindNames, is_marked};
use ir_terminals::{Local, Number, PlacedName};
use std::alloc::{AllocError, Global};

/// Whether a number that is written is this one.
fn is_same_number(written: &Number, number: u64) -> bool
    ensures { result ≡ (written.now == number) }
{
    match written.to_u64() {
        Some(small) => small == number,
        None => false,
    }
}

/// The names and numbers of the values and of the blocks of a function. Numbers that come in turn are places in a list, so
/// that none of them is hashed.
#[derive(Drop)]
pub(crate) struct LocalNames<'a> {
    /// Of each number that came in turn, whether it is that of a block.
    marks: Vec<bool>,
    values: KindNames<'a>,
    labels: KindNames<'a>,
}

impl<'a> LocalNames<'a> {
    /// None yet.
    pub(crate) fn new(alloc: Global) -> Self
        ensures { HoldsNames result [] }
    {
        LocalNames {
            marks: Vec::new(alloc),
            values: KindNames::new(alloc),
            labels: KindNames::new(alloc),
        }
    }

    /// Takes all out, for those of another function. The memory is kept.
    pub(crate) fn clear(&mut self)
        ensures names { HoldsNames self.new [] }
        ensures next { next_of self.new ≡ 0 }
    {
        self.marks.clear();
        self.values.clear();
        self.labels.clear();
    }

    /// Adds a name that is written.
    #[inline(never)]
    fn put_name(&mut self, block: bool, name: &'a PlacedName) -> Result<(), AllocError>
        ensures names { OnOk result (Brings self.old self.new ((Named name.now.name, block) ∷ [])) }
        ensures next { next_of self.new ≡ next_of self.old }
    {
        if block {
            self.labels.put_name(name)
        } else {
            self.values.put_name(name)
        }
    }

    /// Adds the next number.
    #[inline(always)]
    fn put_next(&mut self, block: bool) -> Result<(), AllocError>
        ensures names { OnOk result (Brings self.old self.new ((Numbered (next_of self.old), block) ∷ [])) }
        ensures next { OnOk result (next_of self.new ≡ next_of self.old + 1) }
    {
        self.marks.push(block)?;
        Ok(())
    }

    /// Adds a number out of turn, which hardly a text has.
    #[cold]
    #[inline(never)]
    fn put_number(&mut self, alloc: Global, block: bool, number: &Number) -> Result<(), AllocError>
        ensures names { OnOk result (Brings self.old self.new ((Numbered number.now, block) ∷ [])) }
        ensures next { next_of self.new ≡ next_of self.old }
    {
        if block {
            self.labels.put_number(alloc, number)
        } else {
            self.values.put_number(alloc, number)
        }
    }

    /// Adds the next number, and the one that is written where that is another.
    #[inline(always)]
    fn put_numbers(&mut self, alloc: Global, block: bool, number: &Number) -> Result<(), AllocError>
        ensures names { OnOk result (Brings self.old self.new ((Numbered (next_of self.old), block) ∷ (Numbered number.now, block) ∷ [])) }
        ensures next { OnOk result (next_of self.new ≡ next_of self.old + 1) }
    {
        let next = self.marks.len();
        self.put_next(block)?;
        if is_same_number(number, next as u64) {
            return Ok(());
        }
        self.put_number(alloc, block, number)
    }

    /// Adds what is called so, or by the next number where no name is written.
    #[inline(always)]
    pub(crate) fn put(
        &mut self,
        alloc: Global,
        block: bool,
        written: &'a Option<Local>,
    ) -> Result<(), AllocError>
        ensures { OnOk result (Announces self.old self.new ((block, written.now) ∷ [])) }
    {
        match written {
            None => self.put_next(block),
            Some(Local::Named(name)) => self.put_name(block, name),
            Some(Local::Numbered(number, _)) => self.put_numbers(alloc, block, number),
        }
    }

    /// Whether a look at the marks tells that the number is among these.
    fn is_marked(&self, block: bool, number: &Number) -> bool
        ensures { (all : Locals) → HoldsNames self.now all → result ≡ true → is_there all block (Numbered number.now) ≡ true }
    {
        match number.to_u64() {
            Some(small) => is_marked(self.marks.as_slice(), block, small as usize),
            None => false,
        }
    }

    /// Whether a look at the marks tells that what is written is among these.
    pub(crate) fn is_in_turn(&self, block: bool, written: &Local) -> bool
        ensures { (all : Locals) → HoldsNames self.now all → result ≡ true → is_there all block (local_in written.now) ≡ true }
    {
        match written {
            Local::Named(_) => false,
            Local::Numbered(number, _) => self.is_marked(block, number),
        }
    }

    /// Whether the name or the number is among these.
    pub(crate) fn has(
        &self,
        alloc: Global,
        block: bool,
        written: &Local,
    ) -> Result<bool, AllocError>
        ensures { IfOk result (λ has. (all : Locals) → HoldsNames self.now all → has ≡ is_there all block (local_in written.now)) }
    {
        let marks = self.marks.as_slice();
        if block {
            self.labels.has(alloc, marks, block, written)
        } else {
            self.values.has(alloc, marks, block, written)
        }
    }
}
