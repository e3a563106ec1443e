//! An arena in the making.
ghost use Rattle.std.specs.Prelude.{◌≡◌, ◌<◌, length, true, IfOk, IfSome, OnErr, OnOk};
ghost use Rattle.type_table.specs.Tree.{int, ptr};
ghost use Rattle.type_table.specs.Types.{IsKnown, with_type};
ghost use Rattle.module_arena.specs.Changes.{constant_in, with_constant, with_table};
ghost use Rattle.module_arena.specs.Known.{KnowsConst, counts};
ghost use Rattle.module_arena.specs.View.{module_of};
ghost use Rattle.type_read.specs.declared.arena.recent.TheConstants.{SLOT_COUNT};
ghost use Rattle.type_read.specs.Arena.Growing.{AddsConstant, IsConstant, IsGrowing, IsOver, IsType};

use crate::arena::recent::Recent;
use module_arena::{Arena, Const, ConstId};
use std::alloc::{AllocError, Global};
use std::marker::Model;
use type_table::{IrType, TypeId, TypeTable};

/// An arena that is read into. Its first types are listed, which records name by their places; behind these it has the types
/// of addresses and of conditions.
#[derive(Drop)]
pub struct GrowingArena {
    arena: Arena,
    /// How many types are listed.
    types: u64,
    pointer: TypeId,
    bit: TypeId,
    recent: Recent,
}

impl Model for GrowingArena {
    ghost use Rattle.type_read.specs.Arena.Growing.{Growing, IsGrowing};

    ghost Value = { Growing };

    ghost view = { λ g. record { arena = g.arena; types = g.types; pointer = g.pointer; bit = g.bit } };

    ghost invariant = { λ g. IsGrowing (record { arena = g.arena; types = g.types; pointer = g.pointer; bit = g.bit }) };
}

/// Adds a type.
fn add_type(arena: &mut Arena, ty: IrType) -> Result<TypeId, AllocError>
    requires { IsKnown arena.old.table ty }
    ensures id { IfOk result (λ id. id ≡ length arena.old.table.types) }
    ensures ok { OnOk result (arena.new ≡ with_table arena.old (with_type arena.old.table ty)) }
    ensures module { OnOk result (module_of arena.new ≡ module_of arena.old) }
{
    match arena.add_type(ty) {
        Ok(id) => Ok(id),
        Err(_) => Err(AllocError),
    }
}

/// What an arena has beside the types that are listed.
#[derive(Drop)]
struct Unlisted {
    /// How many types are listed.
    types: u64,
    pointer: TypeId,
    bit: TypeId,
    recent: Recent,
}

/// Adds the types of addresses and of conditions to an arena, all of whose types are listed. It is
/// borrowed, so that no exit here frees it.
fn add_unlisted(arena: &mut Arena, alloc: Global) -> Result<Unlisted, AllocError>
    ensures is { IfOk result (λ added. IsOver arena.old (record {
      arena = arena.new;
      types = added.types;
      pointer = added.pointer;
      bit = added.bit;
    })) }
    ensures growing { IfOk result (λ added. IsGrowing (record {
      arena = arena.new;
      types = added.types;
      pointer = added.pointer;
      bit = added.bit;
    })) }
    ensures module { OnOk result (module_of arena.new ≡ module_of arena.old) }
{
    let types = arena.types().type_count();
    let pointer = add_type(arena, IrType::Ptr)?;
    let bit = add_type(arena, IrType::Int(1))?;
    let recent = Recent::new(alloc)?;
    Ok(Unlisted {
        types,
        pointer,
        bit,
        recent,
    })
}

/// Adds a constant whose parts are in the arena.
fn add_constant(arena: &mut Arena, constant: Const) -> Result<ConstId, AllocError>
    requires { KnowsConst (length arena.old.table.types) (counts arena.old) (length arena.old.constants) constant }
    ensures id { IfOk result (λ id. id ≡ length arena.old.constants) }
    ensures ok { OnOk result (arena.new ≡ with_constant arena.old constant) }
    ensures err { OnErr result (arena.new ≡ arena.old) }
{
    match arena.add_const(constant) {
        Ok(id) => Ok(id),
        Err(_) => Err(AllocError),
    }
}

/// Whether the arena's constant of that number is this one.
fn is_at(arena: &Arena, id: ConstId, constant: &Const) -> bool
    ensures { result ≡ true → IsConstant arena.now id (constant_in arena.now constant.now) }
{
    let _good = arena.variable_count();
    id.number() < arena.const_count() && *arena.constant(id) == *constant
}

/// Where the constant is, if it was added lately.
fn remembered(arena: &Arena, recent: &Recent, slot: usize, constant: &Const) -> Option<ConstId>
    requires { slot < SLOT_COUNT }
    ensures { IfSome result (λ id. IsConstant arena.now id (constant_in arena.now constant.now)) }
{
    let id = recent.get(slot)?;
    if is_at(arena, id, constant) {
        Some(id)
    } else {
        None
    }
}

impl GrowingArena {
    /// The arena, all of whose types are listed; those of addresses and of conditions are added behind them. It is refused
    /// for want of memory alone.
    pub fn over(alloc: Global, listed: Arena) -> Result<GrowingArena, AllocError>
        ensures is { IfOk result (IsOver listed) }
        ensures module { IfOk result (λ growing. module_of growing.arena ≡ module_of listed) }
    {
        let mut arena = listed;
        let Unlisted {
            types,
            pointer,
            bit,
            recent,
        } = add_unlisted(&mut arena, alloc)?;
        Ok(GrowingArena {
            arena,
            types,
            pointer,
            bit,
            recent,
        })
    }

    /// The arena.
    pub fn arena(&self) -> &Arena
        ensures { result.now ≡ self.now.arena }
    {
        &self.arena
    }

    /// The arena, and nothing else.
    pub fn into_arena(self) -> Arena
        ensures { result ≡ self.arena }
    {
        let GrowingArena { arena, .. } = self;
        arena
    }

    /// The types of the arena.
    pub fn table(&self) -> &TypeTable
        ensures { result.now ≡ self.now.arena.table }
    {
        self.arena.types()
    }

    /// How many types are listed.
    pub fn type_count(&self) -> u64
        ensures listed { result ≡ self.now.types }
        ensures there { result < length self.now.arena.table.types }
    {
        self.types
    }

    /// The type of addresses.
    pub fn pointer(&self) -> TypeId
        ensures pointer { result ≡ self.now.pointer }
        ensures is { IsType self.now.arena result ptr }
    {
        self.pointer
    }

    /// The type of conditions.
    pub fn bit(&self) -> TypeId
        ensures bit { result ≡ self.now.bit }
        ensures is { IsType self.now.arena result (int 1) }
    {
        self.bit
    }

    /// The id of the constant, which is added where it was not added lately. It is refused for want of memory alone.
    pub fn keep(&mut self, constant: Const) -> Result<ConstId, AllocError>
        requires { KnowsConst (length self.old.arena.table.types) (counts self.old.arena) (length self.old.arena.constants) constant }
        ensures { IfOk result (λ id. AddsConstant self.old constant self.new id) }
    {
        let Some(slot) = Recent::slot_of(&constant) else {
            return add_constant(&mut self.arena, constant);
        };
        if let Some(id) = remembered(&self.arena, &self.recent, slot, &constant) {
            return Ok(id);
        }
        let id = add_constant(&mut self.arena, constant)?;
        self.recent.set(slot, id);
        Ok(id)
    }
}
