//! All leaves of a constant.
ghost use Rattle.std.specs.Prelude.{◌≡◌, ◌++◌, ◌∷◌, [], ◌<◌, All, OnOk, length, map, true};
ghost use Rattle.ir_eval.specs.declared.value.Scalar.TheVariants as scalar;
ghost use Rattle.module_arena.specs.View.{module_of};
ghost use Rattle.type_table.specs.Types.{tree};
ghost use Rattle.run_rules.specs.Constant.{constant_value, constant_values};
ghost use Rattle.run_initial.specs.Constants.Sound.{IsPart, IsSound, constant_of, constants_with_types, is_single, names_of};

use crate::constants::arena::{constant_at, types_of};
use crate::constants::filled::{Fill, push_filled, push_leaf};
use crate::constants::leaf::leaf_of;
use ir_eval::Scalar;
use module_arena::{Const, ConstId, TypedConst};
use run_names::Names;
use std::alloc::AllocError;
use type_table::TypeId;

/// Appends a byte as an i8.
fn push_byte(into: &mut Vec<Scalar>, byte: u8) -> Result<(), AllocError>
    ensures { OnOk result (into.new.items ≡ into.old.items ++ scalar.Int byte ∷ []) }
{
    push_leaf(into, Scalar::Int(u128::from(byte)))
}

/// Appends bytes, each an i8.
fn push_bytes(into: &mut Vec<Scalar>, bytes: &[u8]) -> Result<(), AllocError>
    ensures { OnOk result (into.new.items ≡ into.old.items ++ map scalar.Int bytes.now) }
{
    'bytes: for byte in bytes {
        push_byte(into, *byte)?;
    }
    Ok(())
}

/// Appends the one leaf of a constant that is no list.
fn push_scalar(
    names: &Names<'_>,
    ty: TypeId,
    id: ConstId,
    into: &mut Vec<Scalar>,
) -> Result<(), AllocError>
    requires ty { ty < length names.now.table.types }
    requires constant { id < length names.now.constants }
    requires single { is_single (constant_of names.now id) ≡ true }
    requires sound { IsSound (module_of names.now) (tree names.now.table ty) (constant_of names.now id) }
    ensures { OnOk result (into.new.items ≡ into.old.items ++ constant_value (names_of names.now) (tree names.now.table ty) (constant_of names.now id)) }
{
    push_leaf(into, leaf_of(names, ty, id))
}

/// Appends the leaves of constants one behind the other.
#[cycle(leaves)]
fn push_parts(
    names: &Names<'_>,
    parts: &[TypedConst],
    into: &mut Vec<Scalar>,
) -> Result<(), AllocError>
    requires { All (IsPart names.now) parts.now }
    ensures { OnOk result (into.new.items ≡ into.old.items ++ constant_values (names_of names.now) (constants_with_types names.now parts.now)) }
{
    'parts: for part in parts {
        push_leaves(names, part.ty, part.value, into)?;
    }
    Ok(())
}

/// Appends the leaves of a constant at that type in order, as a run of the module alone has them: zeros for undef (LangRef,
/// "Constants"). It is refused for want of memory alone, and may then have appended some.
#[cycle(leaves)]
pub fn push_leaves(
    names: &Names<'_>,
    ty: TypeId,
    id: ConstId,
    into: &mut Vec<Scalar>,
) -> Result<(), AllocError>
    requires ty { ty < length names.now.table.types }
    requires constant { id < length names.now.constants }
    requires sound { IsSound (module_of names.now) (tree names.now.table ty) (constant_of names.now id) }
    ensures { OnOk result (into.new.items ≡ into.old.items ++ constant_value (names_of names.now) (tree names.now.table ty) (constant_of names.now id)) }
{
    let known = constant_at(names, id);
    match known {
        Const::Undef => push_filled(types_of(names), Fill::Zero, ty, into),
        Const::ZeroInitializer => push_filled(types_of(names), Fill::Zero, ty, into),
        Const::Poison => push_filled(types_of(names), Fill::Poison, ty, into),
        Const::ByteString(bytes) => push_bytes(into, bytes.bytes()),
        Const::Aggregate(_, elements) => push_parts(names, elements.as_slice(), into),
        Const::Integer(_)
        | Const::Truth(_)
        | Const::Null
        | Const::Address(_)
        | Const::ElementAddress(_, _)
        | Const::Cast(_, _, _)
        | Const::Binary(_, _, _) => push_scalar(names, ty, id, into),
    }
}
