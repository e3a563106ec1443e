//! Constants as keys: when two are the same, and how one is hashed.
ghost use Rattle.std.specs.Prelude.{◌≡◌, ◌==◌, ◌&&◌, ◌++◌, fold};
ghost use Rattle.std.proofs.Common.{ap};
ghost use Rattle.std.specs.Cmp.{partial_equiv_from_equiv, decided};
ghost use Rattle.std.specs.Hash as fed;
ghost use Rattle.module_arena.specs.SameConst.{brackets_code, same_global, global_number, same_typed, all_same_typed, typed_writes, same_const, const_writes};
ghost use Rattle.module_arena.specs.SameConstLaws.{same_typed_decides, same_const_decides};

use crate::{Brackets, Const, ConstAddress, ConstPair, GlobalId, TypedConst};
use std::hash::{Hash, Hasher};

/// A number for each pair of brackets.
fn brackets_code(brackets: Brackets) -> u8
    ensures { result ≡ brackets_code brackets }
{
    match brackets {
        Brackets::Square => 0,
        Brackets::Braces => 1,
        Brackets::Packed => 2,
    }
}

/// The number of an entry among those of its kind.
fn global_number(global: GlobalId) -> u32
    ensures { result ≡ global_number global }
{
    match global {
        GlobalId::Variable(id) => id.number(),
        GlobalId::Function(id) => id.number(),
        GlobalId::Alias(id) => id.number(),
    }
}

/// Whether two ids are one.
pub fn is_same_global(global: GlobalId, other: GlobalId) -> bool
    ensures { result ≡ same_global global other }
{
    match global {
        GlobalId::Variable(id) => {
            matches!(other, GlobalId::Variable(found) if found.number() == id.number())
        }
        GlobalId::Function(id) => {
            matches!(other, GlobalId::Function(found) if found.number() == id.number())
        }
        GlobalId::Alias(id) => {
            matches!(other, GlobalId::Alias(found) if found.number() == id.number())
        }
    }
}

impl PartialEq for TypedConst {
    ghost eq = { same_typed };

    ghost laws = { partial_equiv_from_equiv (decided same_typed same_typed_decides) };

    fn eq(&self, other: &TypedConst) -> bool {
        self.ty.number() == other.ty.number() && self.value.number() == other.value.number()
    }
}

impl Eq for TypedConst {
    ghost laws = { decided same_typed same_typed_decides };
}

impl Hash for TypedConst {
    ghost hash_input = { typed_writes };

    ghost respects_eq = { λ a b same. ap typed_writes ((same_typed_decides a b).0 same) };

    fn hash<H: Hasher>(&self, state: &mut H) {
        self.ty.number().hash(state);
        self.value.number().hash(state);
    }
}

/// Whether two addresses with flags are the same.
fn is_same_address(address: &ConstAddress, other: &ConstAddress) -> bool
    ensures { result ≡ ((address.now.source == other.now.source) && all_same_typed address.now.operands other.now.operands) }
{
    address.source.number() == other.source.number()
        && address.operands.as_slice() == other.operands.as_slice()
}

/// Whether two pairs are the same.
fn is_same_pair(pair: &ConstPair, other: &ConstPair) -> bool
    ensures { result ≡ (same_typed pair.now.left other.now.left && same_typed pair.now.right other.now.right) }
{
    pair.left == other.left && pair.right == other.right
}

impl PartialEq for Const {
    ghost eq = { same_const };

    ghost laws = { partial_equiv_from_equiv (decided same_const same_const_decides) };

    fn eq(&self, other: &Const) -> bool {
        match self {
            Const::Integer(number) => {
                matches!(other, Const::Integer(found) if *found == *number)
            }
            Const::Truth(truth) => matches!(other, Const::Truth(found) if *found == *truth),
            Const::Null => matches!(other, Const::Null),
            Const::Undef => matches!(other, Const::Undef),
            Const::Poison => matches!(other, Const::Poison),
            Const::ZeroInitializer => matches!(other, Const::ZeroInitializer),
            Const::Address(global) => {
                matches!(other, Const::Address(found) if is_same_global(*global, *found))
            }
            Const::ByteString(bytes) =>
                matches!(other, Const::ByteString(found) if *bytes == *found),
            Const::Aggregate(round, elements) => {
                matches!(other, Const::Aggregate(other_round, found)
                    if brackets_code(*round) == brackets_code(*other_round)
                        && elements.as_slice() == found.as_slice())
            }
            Const::ElementAddress(flags, address) => {
                matches!(other, Const::ElementAddress(other_flags, found)
                    if flags.code() == other_flags.code()
                        && is_same_address(address.get(), found.get()))
            }
            Const::Cast(opcode, operand, to) => {
                matches!(other, Const::Cast(other_opcode, found, aim)
                    if opcode.code() == other_opcode.code()
                        && *operand == *found
                        && to.number() == aim.number())
            }
            Const::Binary(opcode, flags, pair) => {
                matches!(other, Const::Binary(other_opcode, other_flags, found)
                    if opcode.code() == other_opcode.code()
                        && flags.code() == other_flags.code()
                        && is_same_pair(pair.get(), found.get()))
            }
        }
    }
}

impl Eq for Const {
    ghost laws = { decided same_const same_const_decides };
}

/// Feeds a binary constant: its form, and its operands.
fn hash_binary<H: Hasher>(pair: &ConstPair, state: &mut H)
    ensures { state.new ≡ fold H.write state.old (fed.u8 11 ++ typed_writes pair.now.left ++ typed_writes pair.now.right) }
{
    state.write_u8(11);
    pair.left.hash(state);
    pair.right.hash(state);
}

impl Hash for Const {
    ghost hash_input = { const_writes };

    ghost respects_eq = { λ a b same. ap const_writes ((same_const_decides a b).0 same) };

    fn hash<H: Hasher>(&self, state: &mut H) {
        match self {
            Const::Integer(number) => {
                state.write_u8(0);
                number.hash(state);
            }
            Const::Truth(truth) => {
                state.write_u8(1);
                truth.hash(state);
            }
            Const::Null => state.write_u8(2),
            Const::Undef => state.write_u8(3),
            Const::Poison => state.write_u8(4),
            Const::ZeroInitializer => state.write_u8(5),
            Const::Address(global) => {
                state.write_u8(6);
                global_number(*global).hash(state);
            }
            Const::ByteString(bytes) => {
                state.write_u8(7);
                bytes.hash(state);
            }
            Const::Aggregate(_, elements) => {
                state.write_u8(8);
                elements.as_slice().hash(state);
            }
            Const::ElementAddress(_, address) => {
                state.write_u8(9);
                address.get().source.number().hash(state);
                address.get().operands.as_slice().hash(state);
            }
            Const::Cast(_, operand, to) => {
                state.write_u8(10);
                operand.hash(state);
                to.number().hash(state);
            }
            Const::Binary(_, _, pair) => hash_binary(pair.get(), state),
        }
    }
}
