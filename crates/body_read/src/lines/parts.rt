//! Instructions of parts, where these are known.
ghost use Rattle.std.specs.Prelude.{◌≡◌, Some, IfOk};
ghost use Rattle.std.specs.Option.{option_map};
ghost use Rattle.module_arena.specs.declared.instruction.Inst.TheVariants as inst;
ghost use Rattle.body_read.specs.Operands.Found.{both};
ghost use Rattle.body_read.specs.Lines.Kept.{kept_alloca, kept_binary, kept_choice, kept_comparison, kept_conversion, kept_extraction, kept_insertion, kept_load, kept_phi, kept_steps, kept_store};

use ir_tables::{Flags, Opcode, Predicate};
use module_arena::{
    Boxed, Choice, IncomingList, IndexList, Insertion, Inst, Operand, OperandList, Value, ValueId,
};
use std::alloc::{AllocError, Global};
use type_table::TypeId;

/// An operation on two operands of one type.
pub(crate) fn binary_of(
    opcode: Opcode,
    flags: Flags,
    defined: ValueId,
    left: Option<Operand>,
    right: Option<Value>,
) -> Option<Inst>
    ensures { result ≡ option_map (kept_binary opcode defined) (both (Some flags) (both left right)) }
{
    Some(Inst::Binary(opcode, flags, defined, left?, right?))
}

/// `icmp`
pub(crate) fn comparison_of(
    flags: Flags,
    predicate: Predicate,
    defined: ValueId,
    left: Option<Operand>,
    right: Option<Value>,
) -> Option<Inst>
    ensures { result ≡ option_map (kept_comparison defined) (both (Some flags) (both (Some predicate) (both left right))) }
{
    Some(Inst::Compare(flags, predicate, defined, left?, right?))
}

/// A cast.
pub(crate) fn conversion_of(
    opcode: Opcode,
    flags: Flags,
    defined: ValueId,
    value: Option<Operand>,
    to: Option<TypeId>,
) -> Option<Inst>
    ensures { result ≡ option_map (kept_conversion opcode defined) (both (Some flags) (both value to)) }
{
    Some(Inst::Convert(opcode, flags, defined, value?, to?))
}

/// The parts of a `select`.
pub(crate) fn choice_of(
    condition: Option<Operand>,
    first: Option<Operand>,
    second: Option<Operand>,
) -> Option<Choice>
    ensures { result ≡ option_map kept_choice (both condition (both first second)) }
{
    Some(Choice {
        condition: condition?,
        first: first?,
        second: second?,
    })
}

/// `select`
pub(crate) fn select_of(
    alloc: Global,
    defined: ValueId,
    choice: Option<Choice>,
) -> Result<Option<Inst>, AllocError>
    ensures { IfOk result (λ made. made ≡ option_map (λ c. inst.Select defined c) choice) }
{
    match choice {
        Some(choice) => Ok(Some(Inst::Select(defined, Boxed::new(alloc, choice)?))),
        None => Ok(None),
    }
}

/// `freeze`
pub(crate) fn freeze_of(defined: ValueId, value: Option<Operand>) -> Option<Inst>
    ensures { result ≡ option_map (λ o. inst.Freeze defined o) value }
{
    Some(Inst::Freeze(defined, value?))
}

/// `phi`
pub(crate) fn phi_of(
    defined: ValueId,
    ty: Option<TypeId>,
    incoming: Option<IncomingList>,
) -> Option<Inst>
    ensures { result ≡ option_map (kept_phi defined) (both ty incoming) }
{
    Some(Inst::Phi(defined, ty?, incoming?))
}

/// `load`
pub(crate) fn load_of(
    flags: Flags,
    defined: ValueId,
    ty: Option<TypeId>,
    address: Option<Operand>,
    align: Option<u32>,
) -> Option<Inst>
    ensures { result ≡ option_map (kept_load defined) (both (Some flags) (both ty (both address (Some align)))) }
{
    Some(Inst::Load(flags, defined, ty?, address?, align))
}

/// `store`
pub(crate) fn store_of(
    flags: Flags,
    stored: Option<Operand>,
    address: Option<Operand>,
    align: Option<u32>,
) -> Option<Inst>
    ensures { result ≡ option_map kept_store (both (Some flags) (both stored (both address (Some align)))) }
{
    Some(Inst::Store(flags, stored?, address?, align))
}

/// `alloca`
pub(crate) fn alloca_of(
    defined: ValueId,
    ty: Option<TypeId>,
    count: Option<Option<Operand>>,
    align: Option<u32>,
) -> Option<Inst>
    ensures { result ≡ option_map (kept_alloca defined) (both ty (both count (Some align))) }
{
    Some(Inst::Alloca(defined, ty?, count?, align))
}

/// `getelementptr`
pub(crate) fn steps_of(
    flags: Flags,
    defined: ValueId,
    source: Option<TypeId>,
    base: Option<Operand>,
    indices: Option<OperandList>,
) -> Option<Inst>
    ensures { result ≡ option_map (kept_steps defined) (both (Some flags) (both source (both base indices))) }
{
    Some(Inst::GetElementPtr(flags, defined, source?, base?, indices?))
}

/// `extractvalue`
pub(crate) fn extraction_of(
    defined: ValueId,
    aggregate: Option<Operand>,
    indices: Option<IndexList>,
) -> Option<Inst>
    ensures { result ≡ option_map (kept_extraction defined) (both aggregate indices) }
{
    Some(Inst::ExtractValue(defined, aggregate?, indices?))
}

/// The parts of an `insertvalue`.
pub(crate) fn insertion_parts(
    aggregate: Option<Operand>,
    part: Option<Operand>,
    indices: Option<IndexList>,
) -> Option<Insertion>
    ensures { result ≡ option_map kept_insertion (both aggregate (both part indices)) }
{
    Some(Insertion {
        aggregate: aggregate?,
        part: part?,
        indices: indices?,
    })
}

/// `insertvalue`
pub(crate) fn insertion_of(
    alloc: Global,
    defined: ValueId,
    insertion: Option<Insertion>,
) -> Result<Option<Inst>, AllocError>
    ensures { IfOk result (λ made. made ≡ option_map (λ i. inst.InsertValue defined i) insertion) }
{
    match insertion {
        Some(insertion) => Ok(Some(Inst::InsertValue(defined, Boxed::new(alloc, insertion)?))),
        None => Ok(None),
    }
}
