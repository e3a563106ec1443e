//! Constants that may be used again.
ghost use Rattle.std.specs.Prelude.{◌≡◌, ◌<◌, IfSome, vec_len};
ghost use Rattle.type_read.specs.declared.arena.recent.TheConstants.{SLOT_COUNT};

use crate::arena::leaves::HALF;
use module_arena::{Const, ConstId, GlobalId};
use std::alloc::{AllocError, Global};

/// How many constants are remembered.
const SLOT_COUNT: usize = 16_384;

/// For some short constants, the id of one that was added lately. Whether it is the wanted one is asked of the arena.
#[derive(Drop)]
pub(crate) struct Recent {
    slots: Vec<Option<ConstId>>,
    ghost all: { vec_len slots ≡ SLOT_COUNT },
}

/// A number that entries differ in where they can.
fn global_key(global: GlobalId) -> u64 {
    match global {
        GlobalId::Variable(id) => u64::from(id.number()) ^ (5 << 24),
        GlobalId::Function(id) => u64::from(id.number()) ^ (6 << 24),
        GlobalId::Alias(id) => u64::from(id.number()) ^ (7 << 24),
    }
}

/// A number that short constants differ in where they can.
fn key_of(constant: &Const) -> Option<u64> {
    match constant {
        Const::Integer(number) => Some((*number % HALF) as u64 ^ (*number / HALF) as u64),
        Const::Null => Some(1 << 20),
        Const::Undef => Some(2 << 20),
        Const::Poison => Some(3 << 20),
        Const::ZeroInitializer => Some(4 << 20),
        Const::Address(global) => Some(global_key(*global)),
        _ => None,
    }
}

impl Recent {
    /// None is remembered.
    pub(crate) fn new(alloc: Global) -> Result<Recent, AllocError> {
        let mut slots = Vec::with_capacity(alloc, SLOT_COUNT)?;
        'slots: for _slot in 0..SLOT_COUNT {
            slots.push(None)?;
        }
        Ok(Recent { slots })
    }

    /// Where a constant is remembered, if it is short.
    pub(crate) fn slot_of(constant: &Const) -> Option<usize>
        ensures { IfSome result (λ slot. slot < SLOT_COUNT) }
    {
        let key = key_of(constant)?;
        Some(((key ^ (key >> 20)) % SLOT_COUNT as u64) as usize)
    }

    /// The constant that is remembered there.
    pub(crate) fn get(&self, slot: usize) -> Option<ConstId>
        requires { slot < SLOT_COUNT }
    {
        self.slots[slot]
    }

    /// Remembers a constant there.
    pub(crate) fn set(&mut self, slot: usize, id: ConstId)
        requires { slot < SLOT_COUNT }
    {
        self.slots[slot] = Some(id);
    }
}
