//! Ids by name.
ghost use Rattle.std.specs.Prelude.{◌≡◌, ◌<◌, ◌-◌, ◌^◌, ◌++◌, ◌∷◌, [], map, length, slice_get, Some, Contains, OnOk, IfOk, IfSome};
ghost use Rattle.module_arena.specs.Module.{Named, Numbered};
ghost use Rattle.module_arena.specs.View.{local_view};
ghost use Rattle.name_rules.specs.Locals.{local_in, called};

use crate::instruction_build::called::is_written;
use ir_terminals::{Local, PlacedName};
use module_arena::LocalName;
use std::alloc::{AllocError, Global};
use type_table::names::NameTable;

/// How many names of a function leave its tables worth keeping. To empty a table takes time by its room, and many small
/// functions may stand behind a large one.
const MOST_KEPT: usize = 1024;

/// What the values, or the blocks, of a function are called, in the order of their ids. The tables say where a name may
/// be: each answer of theirs is compared with the list, and where it is another the list is searched.
#[derive(Drop)]
pub struct LocalIds<'a> {
    /// The names, the one of an id at that place.
    pub names: Vec<LocalName>,
    named: NameTable<'a, u32>,
    /// The id of each number, at that place.
    numbered: Vec<u32>,
}

impl<'a> LocalIds<'a> {
    /// No name yet.
    pub fn new(alloc: Global) -> LocalIds<'a>
        ensures { result.names.items ≡ [] }
    {
        LocalIds {
            names: Vec::new(alloc),
            named: NameTable::new(alloc),
            numbered: Vec::new(alloc),
        }
    }

    /// Takes all names out. The memory is kept for the next function, unless there were many names.
    pub fn clear(&mut self, alloc: Global)
        ensures { self.new.names.items ≡ [] }
    {
        if self.names.len() > MOST_KEPT {
            self.forget(alloc);
        } else {
            self.names.clear();
            self.named.clear();
            self.numbered.clear();
        }
    }

    /// Takes all names out, and lets the memory go.
    #[cold]
    #[inline(never)]
    fn forget(&mut self, alloc: Global)
        ensures { self.new.names.items ≡ [] }
    {
        *self = LocalIds::new(alloc);
    }

    /// Goes on with that number. Those that are left out are those of the others: of the blocks, or of the values.
    #[inline(never)]
    fn leave_out(&mut self, next: u32) -> Result<(), AllocError>
        ensures { self.new.names ≡ self.old.names }
    {
        self.numbered.resize(next as usize, 0)?;
        Ok(())
    }

    /// Gives the next id to the next number.
    fn add_number(&mut self, next: u32) -> Result<u32, AllocError>
        requires { length self.old.names.items < 2 ^ 32 - 1 }
        ensures id { IfOk result (λ id. id ≡ length self.old.names.items) }
        ensures names { OnOk result (map local_view self.new.names.items ≡ map local_view self.old.names.items ++ Numbered next ∷ []) }
    {
        let id = self.names.len() as u32;
        if self.numbered.len() != next as usize {
            self.leave_out(next)?;
        }
        self.numbered.push(id)?;
        self.names.push(LocalName::Numbered(next))?;
        Ok(id)
    }

    /// Gives the next id to the name.
    #[inline(never)]
    fn add_name(&mut self, alloc: Global, written: &'a PlacedName) -> Result<u32, AllocError>
        requires { length self.old.names.items < 2 ^ 32 - 1 }
        ensures id { IfOk result (λ id. id ≡ length self.old.names.items) }
        ensures names { OnOk result (map local_view self.new.names.items ≡ map local_view self.old.names.items ++ Named written.now.name ∷ []) }
    {
        let id = self.names.len() as u32;
        let name = written.name.to_name(alloc)?;
        self.named.put(written.name.bytes(), id)?;
        self.names.push(LocalName::Named(name))?;
        Ok(id)
    }

    /// Gives the next id to what is called so where the next number is this one. Only memory may be wanting.
    #[inline(always)]
    pub fn add(
        &mut self,
        alloc: Global,
        next: u32,
        written: &'a Option<Local>,
    ) -> Result<u32, AllocError>
        requires { length self.old.names.items < 2 ^ 32 - 1 }
        ensures id { IfOk result (λ id. id ≡ length self.old.names.items) }
        ensures names { OnOk result (map local_view self.new.names.items ≡ map local_view self.old.names.items ++ called next written.now ∷ []) }
    {
        match written {
            Some(Local::Named(placed)) => self.add_name(alloc, placed),
            Some(Local::Numbered(_, _)) | None => self.add_number(next),
        }
    }

    /// The id, where it is one that is called so.
    #[inline(always)]
    fn confirmed(&self, hint: Option<u32>, written: &Local) -> Option<u32>
        ensures { IfSome result (λ id. slice_get (map local_view self.now.names.items) id ≡ Some (local_in written.now)) }
    {
        let id = hint?;
        if (id as usize) < self.names.len() && is_written(&self.names[id as usize], written) {
            Some(id)
        } else {
            None
        }
    }

    /// Where the local may be, if it is a number.
    fn hint_of_number(&self, written: &Local) -> Option<u32> {
        match written {
            Local::Named(_) => None,
            Local::Numbered(number, _) => {
                let number = number.to_u64()?;
                self.numbered.get(number as usize).copied()
            }
        }
    }

    /// Where the local may be, if it is a name.
    fn hint_of_name(&self, written: &Local) -> Option<u32> {
        match written {
            Local::Named(placed) => self.named.get(placed.name.bytes()),
            Local::Numbered(_, _) => None,
        }
    }

    /// The first id that is called so.
    #[cold]
    #[inline(never)]
    fn search(&self, written: &Local) -> u32
        requires few { length self.now.names.items < 2 ^ 32 }
        requires there { Contains (map local_view self.now.names.items) (local_in written.now) }
        ensures { slice_get (map local_view self.now.names.items) result ≡ Some (local_in written.now) }
    {
        'names: for id in 0..self.names.len() {
            if is_written(&self.names[id], written) {
                return id as u32;
            }
        }
        unreachable!()
    }

    /// An id that is called so: where the table of names has it, else the first.
    #[inline(never)]
    fn find_name(&self, written: &Local) -> u32
        requires few { length self.now.names.items < 2 ^ 32 }
        requires there { Contains (map local_view self.now.names.items) (local_in written.now) }
        ensures { slice_get (map local_view self.now.names.items) result ≡ Some (local_in written.now) }
    {
        let hint = self.hint_of_name(written);
        if let Some(id) = self.confirmed(hint, written) {
            return id;
        }
        self.search(written)
    }

    /// The id, where it is a number that is where its hint is.
    #[inline(always)]
    pub(crate) fn find_number(&self, written: &Local) -> Option<u32>
        ensures { IfSome result (λ id. slice_get (map local_view self.now.names.items) id ≡ Some (local_in written.now)) }
    {
        let hint = self.hint_of_number(written);
        self.confirmed(hint, written)
    }

    /// An id that is called so. A number, which is nearly always where its hint is, pays for none of the room of names.
    pub fn find(&self, written: &Local) -> u32
        requires few { length self.now.names.items < 2 ^ 32 }
        requires there { Contains (map local_view self.now.names.items) (local_in written.now) }
        ensures { slice_get (map local_view self.now.names.items) result ≡ Some (local_in written.now) }
    {
        if let Some(id) = self.find_number(written) {
            return id;
        }
        self.find_name(written)
    }
}
