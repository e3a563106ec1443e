//! Constants.
ghost use Rattle.std.specs.Prelude.{◌≡◌, ◌<◌, ◌^◌, map, length, All, IfOk, OnOk};
ghost use Rattle.ir_phrases.specs.Constants.View.{type_view, constant_view, typed_constant_view};
ghost use Rattle.type_table.specs.Types.{trees, structs};
ghost use Rattle.module_arena.specs.Constants.{constants_listed};
ghost use Rattle.module_arena.specs.Module as m;
ghost use Rattle.module_arena.specs.View.{brackets_view, type_at};
ghost use Rattle.name_rules.specs.Written.{type_in, constant_in, bits_at, simple_at, brackets_in};
ghost use Rattle.item_build.specs.Types.Fitting.{CanBe};
ghost use Rattle.item_build.specs.Types.Holding.{entries, HasEntry, CanHold, CanHoldTyped};
ghost use Rattle.item_build.specs.Types.Stands.{IsConstant, IsKnownTyped, AreKnown, typed_at, AreTyped, IsTyped, Grows};
ghost use Rattle.item_build.specs.Types.Typed.{typed_in, pair_of, reduced_to, IsSimple};

use crate::types::builder::Builder;
use crate::types::integers::reduced;
use ir_base::ItemList;
use ir_phrases::constants::{Brackets, Constant, Simple, Type, TypedConstant};
use ir_tables::{Flags, Opcode, WIDEST};
use ir_terminals::{Number, PlacedName};
use module_arena::{Boxed, Const, ConstAddress, ConstId, ConstPair, TypedConst, TypedConstList};
use std::alloc::{AllocError, Global};
use type_table::TypeId;

/// The bits of an integer at this type; at a type that is none it has 128.
fn bits_of(ty: &Type) -> u8
    ensures { result ≡ bits_at (type_in (type_view ty.now)) }
{
    match ty {
        Type::Integer(_, width) => *width,
        Type::Ptr(_) | Type::Void(_) | Type::Array(_, _) | Type::Struct(_, _, _) | Type::Named(_) =>
            WIDEST,
    }
}

/// The brackets that are meant.
fn brackets_of(round: Brackets) -> module_arena::Brackets
    ensures { brackets_view result ≡ brackets_in round }
{
    match round {
        Brackets::Square => module_arena::Brackets::Square,
        Brackets::Braces => module_arena::Brackets::Braces,
        Brackets::Packed => module_arena::Brackets::Packed,
    }
}

/// A constant that is a word.
fn simple_const(ty: &Type, word: Simple) -> Const
    ensures { IsSimple result (simple_at (type_in (type_view ty.now)) word) }
{
    let is_bit = matches!(ty, Type::Integer(_, 1));
    match word {
        Simple::True if is_bit => Const::Integer(1),
        Simple::False if is_bit => Const::Integer(0),
        Simple::True => Const::Truth(true),
        Simple::False => Const::Truth(false),
        Simple::Null => Const::Null,
        Simple::Undef => Const::Undef,
        Simple::Poison => Const::Poison,
        Simple::ZeroInitializer => Const::ZeroInitializer,
    }
}

impl Builder {
    /// The id of the constant that the text writes, at the type that stands before it. An integer has a short way.
    pub fn add_constant(
        &mut self,
        alloc: Global,
        constant: &Constant,
        ty: &Type,
    ) -> Result<ConstId, AllocError>
        requires ty { CanBe (structs self.old.arena.table) (type_in (type_view ty.now)) }
        requires constant { CanHold (structs self.old.arena.table) (entries self.old.arena) (constant_view constant.now) }
        ensures grows { OnOk result (Grows self.old.arena self.new.arena) }
        ensures is { IfOk result (λ id.
            IsConstant self.new.arena id (constant_in (type_in (type_view ty.now)) (constant_view constant.now))) }
    {
        match constant {
            Constant::Integer(negative, _, magnitude) => self.add_number(
                alloc, ty, *negative, magnitude,
            ),
            _ => self.add_written_constant(alloc, constant, ty),
        }
    }

    /// The same of any constant.
    #[cycle(constants)]
    #[inline(never)]
    fn add_written_constant(
        &mut self,
        alloc: Global,
        constant: &Constant,
        ty: &Type,
    ) -> Result<ConstId, AllocError>
        requires ty { CanBe (structs self.old.arena.table) (type_in (type_view ty.now)) }
        requires constant { CanHold (structs self.old.arena.table) (entries self.old.arena) (constant_view constant.now) }
        ensures grows { OnOk result (Grows self.old.arena self.new.arena) }
        ensures is { IfOk result (λ id.
            IsConstant self.new.arena id (constant_in (type_in (type_view ty.now)) (constant_view constant.now))) }
    {
        match constant {
            Constant::Integer(negative, _, magnitude) => self.add_number(
                alloc, ty, *negative, magnitude,
            ),
            Constant::Simple(word, _) => self.keep_constant(alloc, simple_const(ty, *word)),
            Constant::Global(name) => self.add_address(alloc, name),
            Constant::Bytes(text) => {
                let bytes = text.text.to_text(alloc)?;
                self.keep_constant(alloc, Const::ByteString(bytes))
            }
            Constant::List(_, round, elements) => {
                let elements = self.add_typed_list(alloc, elements)?;
                self.keep_constant(alloc, Const::Aggregate(brackets_of(*round), elements))
            }
            Constant::GetElementPtr(_, flags, source, operands) => {
                let source = self.add_type(alloc, source)?;
                let operands = self.add_typed_list(alloc, operands)?;
                self.keep_address(alloc, *flags, source, operands)
            }
            Constant::Cast(_, opcode, operand, to) => {
                let operand = self.add_typed(alloc, operand)?;
                let to = self.add_type(alloc, to)?;
                self.keep_constant(alloc, Const::Cast(*opcode, operand, to))
            }
            Constant::Binary(_, opcode, flags, left, right) => {
                let left = self.add_typed(alloc, left)?;
                let right = self.add_typed(alloc, right)?;
                self.keep_pair(alloc, *opcode, *flags, left, right)
            }
        }
    }

    fn add_number(
        &mut self,
        alloc: Global,
        ty: &Type,
        negative: bool,
        magnitude: &Number,
    ) -> Result<ConstId, AllocError>
        requires ty { CanBe (structs self.old.arena.table) (type_in (type_view ty.now)) }
        requires magnitude { magnitude.now < 2 ^ WIDEST }
        ensures grows { OnOk result (Grows self.old.arena self.new.arena) }
        ensures is { IfOk result (λ id.
            IsConstant self.new.arena id (m.Integer (reduced_to (bits_at (type_in (type_view ty.now))) negative magnitude.now))) }
    {
        let number = reduced(bits_of(ty), negative, magnitude);
        self.keep_number(alloc, number)
    }

    fn add_address(&mut self, alloc: Global, name: &PlacedName) -> Result<ConstId, AllocError>
        requires { HasEntry (entries self.old.arena) name.now.name }
        ensures grows { OnOk result (Grows self.old.arena self.new.arena) }
        ensures is { IfOk result (λ id. IsConstant self.new.arena id (m.Address name.now.name)) }
    {
        let name = name.name.to_name(alloc)?;
        let Some(global) = self.arena.lookup(&name) else {
            unreachable!();
        };
        self.keep_entry(alloc, &global)
    }

    fn keep_address(
        &mut self,
        alloc: Global,
        flags: Flags,
        source: TypeId,
        operands: TypedConstList,
    ) -> Result<ConstId, AllocError>
        requires source { source < length self.old.arena.table.types }
        requires operands { AreKnown self.old.arena operands }
        ensures grows { OnOk result (Grows self.old.arena self.new.arena) }
        ensures is { IfOk result (λ id.
            IsConstant self.new.arena id (m.ElementAddress flags (type_at (trees self.old.arena.table) source) (constants_listed (map (typed_at self.old.arena) operands)))) }
    {
        let address = Boxed::new(alloc, ConstAddress { source, operands })?;
        self.keep_constant(alloc, Const::ElementAddress(flags, address))
    }

    fn keep_pair(
        &mut self,
        alloc: Global,
        opcode: Opcode,
        flags: Flags,
        left: TypedConst,
        right: TypedConst,
    ) -> Result<ConstId, AllocError>
        requires left { IsKnownTyped self.old.arena left }
        requires right { IsKnownTyped self.old.arena right }
        ensures grows { OnOk result (Grows self.old.arena self.new.arena) }
        ensures is { IfOk result (λ id.
            IsConstant self.new.arena id (pair_of opcode flags (typed_at self.old.arena left) (typed_at self.old.arena right))) }
    {
        let pair = Boxed::new(alloc, ConstPair { left, right })?;
        self.keep_constant(alloc, Const::Binary(opcode, flags, pair))
    }

    /// The ids of the constant that the text writes and of its type.
    #[cycle(constants)]
    pub fn add_typed(
        &mut self,
        alloc: Global,
        typed: &TypedConstant,
    ) -> Result<TypedConst, AllocError>
        requires { CanHoldTyped (structs self.old.arena.table) (entries self.old.arena) (typed_constant_view typed.now) }
        ensures grows { OnOk result (Grows self.old.arena self.new.arena) }
        ensures is { IfOk result (λ id. IsTyped self.new.arena id (typed_in (typed_constant_view typed.now))) }
    {
        let ty = self.add_type(alloc, &typed.ty)?;
        let value = self.add_written_constant(alloc, &typed.value, &typed.ty)?;
        Ok(TypedConst { ty, value })
    }

    /// The same for some constants, in order.
    #[cycle(constants)]
    fn add_typed_list(
        &mut self,
        alloc: Global,
        list: &[TypedConstant],
    ) -> Result<TypedConstList, AllocError>
        requires { All (λ c. CanHoldTyped (structs self.old.arena.table) (entries self.old.arena) (typed_constant_view c)) list.now }
        ensures grows { OnOk result (Grows self.old.arena self.new.arena) }
        ensures are { IfOk result (λ ids. AreTyped self.new.arena ids (map (λ c. typed_in (typed_constant_view c)) list.now)) }
    {
        let mut ids = Vec::with_capacity(alloc, list.len())?;
        for typed in list {
            let id = self.add_typed(alloc, typed)?;
            ids.push(id)?;
        }
        Ok(ItemList::from_vec(ids))
    }
}
