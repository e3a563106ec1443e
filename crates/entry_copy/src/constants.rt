//! Constants.
ghost use Rattle.std.specs.Prelude.{◌≡◌, ◌+◌, ◌<◌, length, IfOk, OnOk};
ghost use Rattle.module_arena.specs.Module.{Bytes};
ghost use Rattle.item_build.specs.Types.Stands.{Grows};
ghost use Rattle.entry_copy.specs.Copies.{CopiesTypes, CopiesConstants, Copies};
ghost use Rattle.entry_copy.specs.Moved.{moved_typed, moved_constant, moved_address, moved_pair};
ghost use Rattle.entry_copy.specs.Tables.{with_constants};

use crate::Copier;
use crate::moved::{Moved, moved_list};
use item_build::types::Builder;
use module_arena::{Arena, Boxed, Const, ConstAddress, ConstId, ConstPair, TypedConst};
use std::alloc::{AllocError, Global};

/// The constant and its type by their new ids.
fn moved_typed(copier: &Copier, typed: TypedConst) -> TypedConst
    ensures { result ≡ moved_typed copier.now typed }
{
    TypedConst {
        ty: copier.new_type(typed.ty),
        value: copier.new_constant(typed.value),
    }
}

impl Moved for TypedConst {
    ghost moved_by = { moved_typed };

    fn moved(&self, _alloc: Global, copier: &Copier) -> Result<TypedConst, AllocError> {
        Ok(moved_typed(copier, *self))
    }
}

fn moved_address(
    alloc: Global,
    copier: &Copier,
    address: &ConstAddress,
) -> Result<ConstAddress, AllocError>
    ensures { IfOk result (λ copy. copy ≡ moved_address copier.now address.now) }
{
    Ok(ConstAddress {
        source: copier.new_type(address.source),
        operands: moved_list(alloc, copier, &address.operands)?,
    })
}

fn moved_pair(copier: &Copier, pair: ConstPair) -> ConstPair
    ensures { result ≡ moved_pair copier.now pair }
{
    ConstPair {
        left: moved_typed(copier, pair.left),
        right: moved_typed(copier, pair.right),
    }
}

impl Moved for Const {
    ghost moved_by = { moved_constant };

    fn moved(&self, alloc: Global, copier: &Copier) -> Result<Const, AllocError> {
        Ok(match self {
            Const::Integer(number) => Const::Integer(*number),
            Const::Truth(truth) => Const::Truth(*truth),
            Const::Null => Const::Null,
            Const::Undef => Const::Undef,
            Const::Poison => Const::Poison,
            Const::ZeroInitializer => Const::ZeroInitializer,
            Const::Address(global) => match copier.new_global(*global) {
                Some(global) => Const::Address(global),
                None => Const::Null,
            },
            Const::ByteString(bytes) => Const::ByteString(bytes.copy(alloc)?),
            Const::Aggregate(round, elements) => {
                Const::Aggregate(*round, moved_list(alloc, copier, elements)?)
            }
            Const::ElementAddress(flags, address) => {
                let copy = moved_address(alloc, copier, address.get())?;
                Const::ElementAddress(*flags, Boxed::new(alloc, copy)?)
            }
            Const::Cast(opcode, operand, to) => {
                Const::Cast(*opcode, moved_typed(copier, *operand), copier.new_type(*to))
            }
            Const::Binary(opcode, flags, pair) => {
                let copy = moved_pair(copier, *pair.get());
                Const::Binary(*opcode, *flags, Boxed::new(alloc, copy)?)
            }
        })
    }
}

impl Copier {
    /// Copies the next constant.
    fn copy_constant(
        &mut self,
        alloc: Global,
        from: &Arena,
        into: &mut Builder,
        id: ConstId,
    ) -> Result<(), AllocError>
        requires next { id ≡ length self.old.constants }
        requires known { id < length from.now.constants }
        requires all_types { length self.old.types ≡ length from.now.table.types }
        requires copies { (structs globals : Bytes → Bytes) × CopiesTypes structs from.now into.old.arena self.old × CopiesConstants structs globals from.now into.old.arena self.old }
        ensures grows { OnOk result (Grows into.old.arena into.new.arena) }
        ensures one { OnOk result (length self.new.constants ≡ length self.old.constants + 1) }
        ensures others { OnOk result (self.new ≡ with_constants self.old self.new.constants) }
        ensures copies { (structs globals : Bytes → Bytes) → CopiesTypes structs from.now into.old.arena self.old → CopiesConstants structs globals from.now into.old.arena self.old
            → OnOk result (CopiesConstants structs globals from.now into.new.arena self.new) }
    {
        let _good = from.variable_count();
        let moved = from.constant(id).moved(alloc, self)?;
        let new = into.keep_constant(alloc, moved)?;
        self.push_constant(new)
    }

    /// Copies all constants that are not copied yet, where all types are copied and all entries of the old arena that are to have
    /// new ids have them. A constant that names any other entry is not what it was; no entry that is copied may use it. Only
    /// memory may be wanting.
    pub fn copy_constants(
        &mut self,
        alloc: Global,
        from: &Arena,
        into: &mut Builder,
    ) -> Result<(), AllocError>
        requires all_types { length self.old.types ≡ length from.now.table.types }
        requires copies { (structs globals : Bytes → Bytes) × CopiesTypes structs from.now into.old.arena self.old × CopiesConstants structs globals from.now into.old.arena self.old }
        ensures grows { OnOk result (Grows into.old.arena into.new.arena) }
        ensures others { OnOk result (self.new ≡ with_constants self.old self.new.constants) }
        ensures copies { (structs globals : Bytes → Bytes) → CopiesTypes structs from.now into.old.arena self.old → CopiesConstants structs globals from.now into.old.arena self.old
            → OnOk result (Copies structs globals from.now into.new.arena self.new) }
    {
        'constants: for number in self.constant_count()..from.const_count() {
            self.copy_constant(alloc, from, into, ConstId::new(number))?;
        }
        Ok(())
    }
}
