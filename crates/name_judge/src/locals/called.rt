//! What a function has called so far: the next number, and the names with the places of the first of each.
#![tactic(auto, using(crate::proofs::OnLocals::Steps::goes_memory))]

ghost use Rattle.std.specs.Prelude.{◌≡◌, ◌==◌, [], ◌∷◌, Some, None, Ok, true, false};
ghost use Rattle.ir_terminals.specs.declared.values.Local.TheVariants as locals;
ghost use Rattle.name_rules.specs.declared.fault.ResolveFault.TheVariants as faults;
ghost use Rattle.name_rules.specs.Demand.{ask as asked, is_new};
ghost use Rattle.name_rules.specs.FunctionDemands.{call_demands, called_with};
ghost use Rattle.name_rules.specs.Spelled.{decimal};
ghost use Rattle.type_judge.specs.Judging.{IsJudged};
ghost use Rattle.name_judge.specs.Locals.Calling.{is_in_turn, Goes};

use ir_base::Place;
use ir_terminals::{Local, Number, PlacedName};
use name_rules::{ResolveFault, spell_number};
use std::alloc::{AllocError, Global};
use type_table::names::NameTable;

/// How many locals of a function leave its tables worth keeping. To empty a table takes time by its room, and many small
/// functions may stand behind a large one.
const MOST_KEPT: u64 = 1024;

/// What was called so far.
#[derive(Drop)]
pub(crate) struct CalledNames<'a> {
    next: u64,
    /// How many of them have written names.
    named: u64,
    names: NameTable<'a, Place>,
}

impl<'a> CalledNames<'a> {
    /// Before the first.
    pub(crate) fn new(alloc: Global) -> Self
        ensures next { result.next ≡ 0 }
        ensures names { result.names ≡ [] }
    {
        CalledNames {
            next: 0,
            named: 0,
            names: NameTable::new(alloc),
        }
    }

    /// Before the first of another function. The memory is kept.
    pub(crate) fn clear(&mut self)
        ensures next { self.new.next ≡ 0 }
        ensures names { self.new.names ≡ [] }
    {
        self.next = 0;
        self.named = 0;
        self.names.clear();
    }

    /// Whether more were called than an emptied table is to have room for.
    pub(crate) fn are_many(&self) -> bool {
        self.next > MOST_KEPT || self.named > MOST_KEPT
    }

    /// Calls what has no name by the next number. More than 64 bits count are more than memory holds.
    fn call_next(&mut self) -> Result<(), ResolveFault>
        ensures { Goes self.old self.new (λ before. []) (λ before. called_with before (false, None)) result }
    {
        self.next = self.next.checked_add(1).ok_or(AllocError)?;
        Ok(())
    }

    /// A written name is new.
    fn call_name(&mut self, name: &'a PlacedName) -> Result<(), ResolveFault>
        ensures { Goes self.old self.new (λ before. is_new before.names name.now) (λ before. called_with before (false, Some (locals.Named name.now))) result }
    {
        if let Some(earlier) = self.names.get(name.name.bytes()) {
            return Err(ResolveFault::Duplicate {
                place: name.place,
                first: earlier,
            });
        }
        self.names.put(name.name.bytes(), name.place)?;
        self.named = self.named.saturating_add(1);
        Ok(())
    }

    /// Whether the number is the next one.
    fn is_next(&self, number: &Number) -> bool
        ensures { result ≡ (number.now == self.now.next) }
    {
        let next = self.next;
        match number.to_u64() {
            Some(number) => number == next,
            None => false,
        }
    }

    /// A written number is the next one.
    fn check_number(&self, alloc: Global, number: &Number, place: Place) -> Result<(), ResolveFault>
        ensures { IsJudged (asked (number.now == self.now.next) (faults.WrongNumber place self.now.next (decimal number.now)) ∷ []) result }
    {
        if self.is_next(number) {
            return Ok(());
        }
        let digits = spell_number(alloc, number)?;
        Err(ResolveFault::WrongNumber {
            place,
            next: self.next,
            found: digits,
        })
    }

    /// Whether no name is written, or the next number.
    fn is_in_turn(&self, written: &Option<Local>) -> bool
        ensures { result ≡ is_in_turn self.now.next written.now }
    {
        match written {
            None => true,
            Some(Local::Named(_)) => false,
            Some(Local::Numbered(number, _)) => self.is_next(number),
        }
    }

    /// What `call` does, whatever is written.
    #[inline(never)]
    fn call_so(&mut self, alloc: Global, written: &'a Option<Local>) -> Result<(), ResolveFault>
        ensures { Goes self.old self.new (λ before. call_demands before written.now) (λ before. called_with before (false, written.now)) result }
    {
        match written {
            None => self.call_next(),
            Some(Local::Named(name)) => self.call_name(name),
            Some(Local::Numbered(number, place)) => {
                self.check_number(alloc, number, *place)?;
                self.call_next()
            }
        }
    }

    /// Calls a parameter, a block or a result by the next number, where no name is written, or that number, and tells whether it
    /// did: one answer, with no room for a refusal.
    #[inline(always)]
    pub(crate) fn call_in_turn(&mut self, written: &Option<Local>) -> bool
        ensures called { result ≡ true → Goes self.old self.new (λ before. call_demands before written.now) (λ before. called_with before (false, written.now)) (Ok tt) }
        ensures same { result ≡ false → self.new ≡ self.old }
    {
        if !self.is_in_turn(written) {
            return false;
        }
        if self.next == u64::MAX {
            return false;
        }
        self.next += 1;
        true
    }

    /// Calls a parameter, a block or a result so, or by the next number where no name is written. Most come in turn: for
    /// these the next number alone is raised.
    #[inline(always)]
    pub(crate) fn call(
        &mut self,
        alloc: Global,
        written: &'a Option<Local>,
    ) -> Result<(), ResolveFault>
        ensures { Goes self.old self.new (λ before. call_demands before written.now) (λ before. called_with before (false, written.now)) result }
    {
        if self.call_in_turn(written) {
            return Ok(());
        }
        self.call_so(alloc, written)
    }
}
