//! Where constants may be in an arena in the making.
use crate::types::id_pages::IdPages;
use indexmap::IndexMap;
use module_arena::{Const, ConstId, GlobalId};
use std::alloc::{AllocError, Global};

/// Integers below it are found by pages, which take no more room than so many ids.
const SMALL: u128 = 65_536;

/// Where each constant was put that it was told of: small integers and the addresses of entries under their numbers, others
/// in maps. Its answers are hints: who asks looks them up.
#[derive(Drop)]
pub(crate) struct ConstantPlaces {
    /// Of each integer below `SMALL`.
    small: IdPages,
    integers: IndexMap<u128, ConstId>,
    variables: IdPages,
    functions: IdPages,
    aliases: IdPages,
    others: IndexMap<Const, ConstId>,
}

impl ConstantPlaces {
    /// It was told of no constant.
    pub(crate) fn new(alloc: Global) -> ConstantPlaces {
        ConstantPlaces {
            small: IdPages::new(alloc),
            integers: IndexMap::new(alloc),
            variables: IdPages::new(alloc),
            functions: IdPages::new(alloc),
            aliases: IdPages::new(alloc),
            others: IndexMap::new(alloc),
        }
    }

    /// Where the integer may be.
    #[inline(always)]
    pub(crate) fn integer(&self, number: u128) -> Option<ConstId> {
        if number < SMALL {
            self.small.get(number as u32)
        } else {
            self.large_integer(number)
        }
    }

    /// Where the integer, which is not small, may be.
    #[inline(never)]
    fn large_integer(&self, number: u128) -> Option<ConstId> {
        self.integers.get(&number).copied()
    }

    /// Where the address of the entry may be.
    pub(crate) fn address(&self, entry: &GlobalId) -> Option<ConstId> {
        match entry {
            GlobalId::Variable(id) => self.variables.get(id.number()),
            GlobalId::Function(id) => self.functions.get(id.number()),
            GlobalId::Alias(id) => self.aliases.get(id.number()),
        }
    }

    /// Where the constant, which is no integer and no address, may be.
    pub(crate) fn get(&self, constant: &Const) -> Option<ConstId> {
        self.others.get(constant).copied()
    }

    /// Tells where the integer is.
    pub(crate) fn insert_integer(
        &mut self,
        alloc: Global,
        number: u128,
        id: ConstId,
    ) -> Result<(), AllocError> {
        if number < SMALL {
            return self.small.insert(alloc, number as u32, id);
        }
        self.insert_large_integer(number, id)?;
        Ok(())
    }

    /// Tells where the integer, which is not small, is.
    #[inline(never)]
    fn insert_large_integer(&mut self, number: u128, id: ConstId) -> Result<(), AllocError> {
        self.integers.insert(number, id)?;
        Ok(())
    }

    /// Tells where the address of the entry is.
    pub(crate) fn insert_address(
        &mut self,
        alloc: Global,
        entry: &GlobalId,
        id: ConstId,
    ) -> Result<(), AllocError> {
        match entry {
            GlobalId::Variable(entry) => self.variables.insert(alloc, entry.number(), id),
            GlobalId::Function(entry) => self.functions.insert(alloc, entry.number(), id),
            GlobalId::Alias(entry) => self.aliases.insert(alloc, entry.number(), id),
        }
    }

    /// Tells where the constant, which is no integer and no address, is.
    pub(crate) fn insert(&mut self, constant: Const, id: ConstId) -> Result<(), AllocError> {
        self.others.insert(constant, id)?;
        Ok(())
    }
}
