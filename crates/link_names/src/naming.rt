//! Names that are given one after another, so that no two are one.
ghost use Rattle.std.specs.Prelude.{◌≡◌, ◌+◌, ◌≤◌, [], length, bytes_eq, false, IfOk, OnOk, OnErr};
ghost use Rattle.linkage_rules.specs.Lists.{has};
ghost use Rattle.link_rules.specs.Rename.{dotted, fresh, new_name};
ghost use Rattle.link_names.specs.Naming.{AllTaken, HasOneMore, taken};

use crate::numbered::dotted;
use indexmap::{IndexMap, IndexSet};
use ir_base::Name;
use std::alloc::{AllocError, Global};
use std::marker::Model;

/// Names, each once.
type NameSet = IndexSet<Name>;

/// Names that are given one after another, so that no two are one. A name that was given before gets a number behind it:
/// the least from 1 on of which no name comes that was given or is to be avoided.
#[derive(Drop)]
pub struct Naming {
    given: NameSet,
    avoided: NameSet,
    /// Of each name that got a number, the number to look at next: those before it are taken, and stay so.
    next: IndexMap<Name, u64>,
}

impl Model for Naming {
    ghost use Rattle.std.specs.Prelude.{◌++◌};
    ghost use Rattle.link_names.specs.Naming.{TakenNames, AreHints};

    ghost Value = { TakenNames };

    ghost view = { λ n. record { given = n.given.keys; avoided = n.avoided.keys } };

    ghost invariant = { λ n. AreHints n.next.entries (n.given.keys ++ n.avoided.keys) };
}

/// Adds a name where it is not there yet. Where memory runs out nothing is added.
fn add(alloc: Global, names: &mut NameSet, name: &Name) -> Result<(), AllocError>
    ensures ok { OnOk result (HasOneMore names.old.keys name.now names.new.keys) }
    ensures err { OnErr result (names.new.keys ≡ names.old.keys) }
{
    if !names.contains(name) {
        names.insert(name.copy(alloc)?)?;
    }
    Ok(())
}

/// A name with the least number that is free.
#[derive(Drop)]
struct Free {
    number: u64,
    name: Name,
}

impl Naming {
    /// No name is given, and none is to be avoided.
    pub fn new(alloc: Global) -> Naming
        ensures { result ≡ record { given = []; avoided = [] } }
    {
        Naming {
            given: IndexSet::new(alloc),
            avoided: IndexSet::new(alloc),
            next: IndexMap::new(alloc),
        }
    }

    /// No name with a number is to be this one. Where memory runs out nothing changes.
    pub fn avoid(&mut self, alloc: Global, name: &Name) -> Result<(), AllocError>
        ensures avoided { OnOk result (HasOneMore self.old.avoided name.now self.new.avoided) }
        ensures given { self.new.given ≡ self.old.given }
        ensures err { OnErr result (self.new ≡ self.old) }
    {
        add(alloc, &mut self.avoided, name)
    }

    /// The name is given. Where memory runs out nothing changes.
    pub fn give(&mut self, alloc: Global, name: &Name) -> Result<(), AllocError>
        ensures given { OnOk result (HasOneMore self.old.given name.now self.new.given) }
        ensures avoided { self.new.avoided ≡ self.old.avoided }
        ensures err { OnErr result (self.new ≡ self.old) }
    {
        add(alloc, &mut self.given, name)
    }

    /// Whether a name was given or is to be avoided.
    fn is_taken(&self, name: &Name) -> bool
        ensures { result ≡ has bytes_eq (taken self.now) name.now }
    {
        self.given.contains(name) || self.avoided.contains(name)
    }

    /// The number to look at first behind this name: of all before it the names are taken.
    fn first_number(&self, base: &Name) -> u64
        ensures first { 1 ≤ result }
        ensures before { AllTaken (taken self.now) base.now result }
    {
        self.next.get(base).copied().unwrap_or(1)
    }

    /// The least number whose name is free, with that name.
    fn first_free(&self, alloc: Global, base: &Name) -> Result<Free, AllocError>
        ensures first { IfOk result (λ free. 1 ≤ free.number) }
        ensures before { IfOk result (λ free. AllTaken (taken self.now) base.now free.number) }
        ensures name { IfOk result (λ free. free.name ≡ dotted base.now free.number) }
        ensures free { IfOk result (λ free. has bytes_eq (taken self.now) free.name ≡ false) }
    {
        // Of one number more than there are names taken, one is free.
        let last = self.given.len() as u64 + self.avoided.len() as u64 + 1;
        'numbers: for number in self.first_number(base)..last {
            let name = dotted(alloc, base, number)?;
            if !self.is_taken(&name) {
                return Ok(Free { number, name });
            }
        }
        Ok(Free {
            number: last,
            name: dotted(alloc, base, last)?,
        })
    }

    /// Numbers before this one are not to be looked at again behind this name.
    fn keep_hint(&mut self, alloc: Global, base: &Name, number: u64) -> Result<(), AllocError>
        requires first { 1 ≤ number }
        requires before { AllTaken (taken self.old) base.now number }
        ensures { self.new ≡ self.old }
    {
        self.next.insert(base.copy(alloc)?, number)?;
        Ok(())
    }

    /// The name with the least number that is free.
    fn fresh(&mut self, alloc: Global, base: &Name) -> Result<Name, AllocError>
        ensures name { IfOk result (λ name. name ≡ fresh (taken self.old) base.now) }
        ensures kept { self.new ≡ self.old }
    {
        let Free { number, name } = self.first_free(alloc, base)?;
        self.keep_hint(alloc, base, number)?;
        Ok(name)
    }

    /// The name itself where it was not given before, else the base with the least number that is free.
    fn unused(&mut self, alloc: Global, name: &Name, base: &Name) -> Result<Name, AllocError>
        ensures name { IfOk result (λ new. new ≡ new_name (λ _. base.now) self.old.avoided self.old.given name.now) }
        ensures kept { self.new ≡ self.old }
    {
        if self.given.contains(name) {
            self.fresh(alloc, base)
        } else {
            name.copy(alloc)
        }
    }

    /// Gives a name for this one: the name itself where it was not given before, else the base with the least number that
    /// is free. Where memory runs out nothing changes.
    pub fn name_for(&mut self, alloc: Global, name: &Name, base: &Name) -> Result<Name, AllocError>
        ensures name { IfOk result (λ new. new ≡ new_name (λ _. base.now) self.old.avoided self.old.given name.now) }
        ensures given { IfOk result (λ new. HasOneMore self.old.given new self.new.given) }
        ensures avoided { self.new.avoided ≡ self.old.avoided }
        ensures err { OnErr result (self.new ≡ self.old) }
    {
        let new = self.unused(alloc, name, base)?;
        self.give(alloc, &new)?;
        Ok(new)
    }
}
