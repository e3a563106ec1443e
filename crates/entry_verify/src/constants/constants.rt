//! What is known of constants, each looked at once.
ghost use Rattle.std.specs.Prelude.{◌≡◌, ◌<◌, ◌≤◌, All, map, length, take, slice_index_or, Some, None, IfOk};
ghost use Rattle.std.specs.List.{fold, list_all};
ghost use Rattle.type_table.specs.Types.{tree, structs};
ghost use Rattle.module_arena.specs.Changes.{constant_in};
ghost use Rattle.module_arena.specs.EntryRules as rules;
ghost use Rattle.module_arena.specs.Known.{KnowsConst, HasGlobal, counts};
ghost use Rattle.module_arena.specs.Lists.{name_at};
ghost use Rattle.module_arena.specs.Mentions.{typed_in};
ghost use Rattle.module_arena.specs.TypeTests.{is_passable, is_free_of_void};
ghost use Rattle.module_arena.specs.View.{constants_of, module_of};
ghost use Rattle.entry_verify.specs.Constants.FunctionIds.{is_function};
ghost use Rattle.entry_verify.specs.Constants.ConstantParts.{all_pass, both_constant_facts, own_fact, own_address_passes, part_fact_at, const_fact, typed_at};

use crate::constants::fits::{fits_outside, operands_fit};
use crate::types::TypeJudge;
use module_arena::{Arena, Const, ConstId, GlobalId, TypedConst};
use std::alloc::{AllocError, Global};
use std::slice;

/// What is known of a constant, whatever type stands before it.
#[derive(Clone, Copy)]
pub(crate) struct ConstFact {
    /// It takes the address of no intrinsic.
    pub(crate) takes_no_intrinsic: bool,
    /// The types that it writes suit.
    pub(crate) types_suit: bool,
    /// The constants in it fit the types that are written before them.
    pub(crate) parts_fit: bool,
}

impl ConstFact {
    /// What is known of a constant in which there is nothing to fail.
    fn all_pass() -> ConstFact
        ensures { result ≡ all_pass }
    {
        ConstFact {
            takes_no_intrinsic: true,
            types_suit: true,
            parts_fit: true,
        }
    }

    /// What holds of both.
    fn and(self, other: ConstFact) -> ConstFact
        ensures { result ≡ both_constant_facts self other }
    {
        ConstFact {
            takes_no_intrinsic: self.takes_no_intrinsic & other.takes_no_intrinsic,
            types_suit: self.types_suit & other.types_suit,
            parts_fit: self.parts_fit & other.parts_fit,
        }
    }
}

/// Whether a name begins `llvm.`.
pub fn is_llvm_name(name: &[u8]) -> bool
    ensures { result ≡ rules.is_llvm_name name.now }
{
    name.starts_with(b"llvm.")
}

/// Whether the entry is a function that may be used only as a direct callee.
pub fn is_only_called(arena: &Arena, id: GlobalId) -> bool
    requires { HasGlobal (counts arena.now) id }
    ensures { result ≡ rules.is_only_called (module_of arena.now) (name_at arena.now id) }
{
    // No two entries of an arena have one name.
    let _count = arena.variable_count();
    let is_function = is_function(&id);
    let is_llvm = is_llvm_name(arena.name(id).text().bytes());
    is_llvm & is_function
}

/// Whether the entry is a function.
fn is_function(id: &GlobalId) -> bool
    ensures { result ≡ is_function id.now }
{
    matches!(id, GlobalId::Function(_))
}

/// What is known of the constant with that id, where it is among those that were looked at.
pub(crate) fn fact_at(facts: &[ConstFact], id: ConstId) -> ConstFact
    ensures { result ≡ slice_index_or facts.now id all_pass }
{
    facts
        .get(id.number() as usize)
        .copied()
        .unwrap_or(ConstFact::all_pass())
}

/// Whether the constant itself is no address of an intrinsic.
fn own_address_passes(arena: &Arena, constant: &Const) -> bool
    requires { KnowsConst (length arena.now.table.types) (counts arena.now) (length arena.now.constants) constant.now }
    ensures { result ≡ own_address_passes (module_of arena.now) (constant_in arena.now constant.now) }
{
    match constant {
        Const::Address(id) => !is_only_called(arena, *id),
        Const::Integer(_)
        | Const::Truth(_)
        | Const::Null
        | Const::Undef
        | Const::Poison
        | Const::ZeroInitializer
        | Const::ByteString(_)
        | Const::Aggregate(_, _)
        | Const::ElementAddress(_, _)
        | Const::Cast(_, _, _)
        | Const::Binary(_, _, _) => true,
    }
}

/// Whether `void` is written in none of the types before these constants.
fn are_free_of_void(types: &TypeJudge<'_>, parts: &[TypedConst]) -> bool
    requires { All (λ x. x.ty < length types.now.types) parts.now }
    ensures { result ≡ list_all (λ x. is_free_of_void (tree types.now x.ty)) parts.now }
{
    for part in parts {
        if !types.is_free_of_void(part.ty) {
            return false;
        }
    }
    true
}

/// Whether values of the types before these constants are handed on.
fn are_passable(types: &TypeJudge<'_>, parts: &[TypedConst]) -> bool
    requires { All (λ x. x.ty < length types.now.types) parts.now }
    ensures { result ≡ list_all (λ x. is_passable (structs types.now) (tree types.now x.ty)) parts.now }
{
    for part in parts {
        if !types.is_passable(part.ty) {
            return false;
        }
    }
    true
}

/// Whether the types that the constant itself writes suit.
fn own_types_suit(arena: &Arena, types: &TypeJudge<'_>, constant: &Const) -> bool
    requires same { types.now ≡ arena.now.table }
    requires known { KnowsConst (length arena.now.table.types) (counts arena.now) (length arena.now.constants) constant.now }
    ensures { result ≡ (own_fact (module_of arena.now) (constant_in arena.now constant.now)).types_suit }
{
    match constant {
        Const::Aggregate(_, elements) => are_free_of_void(types, elements.as_slice()),
        Const::ElementAddress(_, address) => {
            let address = address.get();
            types.lies_in_memory(address.source) & are_passable(types, address.operands.as_slice())
        }
        Const::Cast(_, operand, to) => {
            types.is_passable(operand.ty) & types.is_free_of_void(*to)
        }
        Const::Binary(_, _, pair) => {
            let pair = pair.get();
            types.is_passable(pair.left.ty) & types.is_passable(pair.right.ty)
        }
        Const::Integer(_)
        | Const::Truth(_)
        | Const::Null
        | Const::Undef
        | Const::Poison
        | Const::ZeroInitializer
        | Const::ByteString(_)
        | Const::Address(_) => true,
    }
}

/// What is known of a constant at the type before it.
fn part_fact(
    arena: &Arena,
    types: &TypeJudge<'_>,
    facts: &[ConstFact],
    part: TypedConst,
) -> ConstFact
    requires same { types.now ≡ arena.now.table }
    requires facts { facts.now ≡ map (const_fact (module_of arena.now)) (take (length facts.now) (constants_of arena.now)) }
    requires few { length facts.now ≤ length arena.now.constants }
    requires ty { part.ty < length arena.now.table.types }
    requires value { part.value < length facts.now }
    ensures { result ≡ part_fact_at arena.now part }
{
    // The parts of each constant of an arena are earlier constants.
    let _count = arena.variable_count();
    let fact = fact_at(facts, part.value);
    let fits = fits_outside(arena, types, part.ty, arena.constant(part.value));
    ConstFact {
        takes_no_intrinsic: fact.takes_no_intrinsic,
        types_suit: fact.types_suit,
        parts_fit: fits & fact.parts_fit,
    }
}

/// What is known of all these constants.
fn parts_fact(
    arena: &Arena,
    types: &TypeJudge<'_>,
    facts: &[ConstFact],
    parts: &[TypedConst],
) -> ConstFact
    requires same { types.now ≡ arena.now.table }
    requires facts { facts.now ≡ map (const_fact (module_of arena.now)) (take (length facts.now) (constants_of arena.now)) }
    requires few { length facts.now ≤ length arena.now.constants }
    requires known { All (λ x. (x.ty < length arena.now.table.types) × (x.value < length facts.now)) parts.now }
    ensures { result ≡ fold both_constant_facts all_pass (map (part_fact_at arena.now) parts.now) }
{
    let mut all = ConstFact::all_pass();
    for part in parts {
        all = all.and(part_fact(arena, types, facts, *part));
    }
    all
}

/// What is known of all that is in a constant.
fn fact_within(
    arena: &Arena,
    types: &TypeJudge<'_>,
    facts: &[ConstFact],
    constant: &Const,
) -> ConstFact
    requires same { types.now ≡ arena.now.table }
    requires facts { facts.now ≡ map (const_fact (module_of arena.now)) (take (length facts.now) (constants_of arena.now)) }
    requires few { length facts.now ≤ length arena.now.constants }
    requires known { All (λ x. (x.ty < length arena.now.table.types) × (x.value < length facts.now)) (typed_in constant.now) }
    ensures { result ≡ fold both_constant_facts all_pass (map (part_fact_at arena.now) (typed_in constant.now)) }
{
    match constant {
        Const::Aggregate(_, elements) => parts_fact(arena, types, facts, elements.as_slice()),
        Const::ElementAddress(_, address) => {
            parts_fact(arena, types, facts, address.get().operands.as_slice())
        }
        Const::Cast(_, operand, _) => parts_fact(arena, types, facts, slice::from_ref(operand)),
        Const::Binary(_, _, pair) => {
            let pair = pair.get();
            parts_fact(arena, types, facts, &[pair.left, pair.right])
        }
        Const::Integer(_)
        | Const::Truth(_)
        | Const::Null
        | Const::Undef
        | Const::Poison
        | Const::ZeroInitializer
        | Const::ByteString(_)
        | Const::Address(_) => ConstFact::all_pass(),
    }
}

/// What is known of a constant, from what is known of those before it.
fn fact_of(arena: &Arena, types: &TypeJudge<'_>, facts: &[ConstFact], constant: &Const) -> ConstFact
    requires same { types.now ≡ arena.now.table }
    requires facts { facts.now ≡ map (const_fact (module_of arena.now)) (take (length facts.now) (constants_of arena.now)) }
    requires few { length facts.now < length arena.now.constants }
    requires known { KnowsConst (length arena.now.table.types) (counts arena.now) (length facts.now) constant.now }
    ensures { result ≡ const_fact (module_of arena.now) (constant_in arena.now constant.now) }
{
    let own = ConstFact {
        takes_no_intrinsic: own_address_passes(arena, constant),
        types_suit: own_types_suit(arena, types, constant),
        parts_fit: operands_fit(arena, types, constant),
    };
    own.and(fact_within(arena, types, facts, constant))
}

/// What is known of each constant of the arena.
pub(crate) fn facts_of(
    alloc: Global,
    arena: &Arena,
    types: &TypeJudge<'_>,
) -> Result<Vec<ConstFact>, AllocError>
    requires same { types.now ≡ arena.now.table }
    ensures { IfOk result (λ facts. facts.items ≡ map (const_fact (module_of arena.now)) (constants_of arena.now)) }
{
    // The parts of each constant of an arena are earlier constants.
    let _count = arena.variable_count();
    let mut facts = Vec::new(alloc);
    for number in 0..arena.const_count() {
        let fact = fact_of(arena, types, &facts, arena.constant(ConstId::new(number)));
        facts.push(fact)?;
    }
    Ok(facts)
}
