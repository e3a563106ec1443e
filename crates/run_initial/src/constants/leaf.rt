//! Constants of one leaf (LangRef, "Simple Constants", "Constant Expressions").
ghost use Rattle.std.specs.Prelude.{◌≡◌, ◌*◌, ◌^◌, ◌<◌, All, IfSome, length, true, if◌then◌else◌};
ghost use Rattle.ir_eval.specs.Cast.{cast_of};
ghost use Rattle.ir_eval.specs.Operators.{binary_of};
ghost use Rattle.ir_eval.specs.Value.{IsPointer};
ghost use Rattle.ir_tables.specs.Flags.{has_flag};
ghost use Rattle.ir_tables.specs.declared.flag.Flag.TheVariants as flag;
ghost use Rattle.module_arena.specs.Constants.{element_operands_fit, is_cast_between};
ghost use Rattle.module_arena.specs.Forms.{is_constant_binary};
ghost use Rattle.module_arena.specs.TypeTests.{is_integer, lies_in_memory};
ghost use Rattle.module_arena.specs.View.{module_of};
ghost use Rattle.type_table.specs.Tree.{ptr};
ghost use Rattle.type_table.specs.Types.{structs, tree};
ghost use Rattle.type_table.specs.declared.measure.TheConstants.{SIZE_LIMIT};
ghost use Rattle.run_rules.specs.Constant as rules;
ghost use Rattle.run_rules.specs.Displace.{inner_term, known, number_in, reach_of, sum_of, terms_of};
ghost use Rattle.run_rules.specs.Leaves.{element};
ghost use Rattle.run_actions.specs.Accesses.Near.{IsNear};
ghost use Rattle.run_initial.specs.Constants.Places.{IsPlace, index_of, shape_at, term_reach};
ghost use Rattle.run_names.specs.Shapes.Shapes.{shape_in};
ghost use Rattle.run_initial.specs.Constants.Sound.{HasType, IsOfKind, IsPart, IsSound, constant_of, constants_with_types, is_scalar, leaf_tree, names_of};

use crate::constants::arena::{constant_at, kind_of, types_of, width_of};
use crate::constants::distance::{Reached, before_all, moved, reached_by};
use crate::constants::filled::zero;
use ir_eval::{Scalar, binary, cast};
use ir_memory::Leaf;
use ir_tables::{Flag, Flags, Opcode};
use module_arena::{Const, ConstAddress, ConstId, ConstPair, TypedConst};
use run_names::Names;
use type_table::TypeId;

/// A truth as a number.
fn bit(truth: bool) -> Scalar
    ensures { result ≡ Scalar.Int (if truth then 1 else 0) }
{
    if truth {
        return Scalar::Int(1);
    }
    Scalar::Int(0)
}

/// A cast of a constant to that type.
#[cycle(leaf)]
fn cast_leaf(names: &Names<'_>, opcode: Opcode, operand: TypedConst, to: TypeId) -> Scalar
    requires operand { IsPart names.now operand }
    requires to { to < length names.now.table.types }
    requires between { is_cast_between opcode (tree names.now.table operand.ty) (tree names.now.table to) ≡ true }
    ensures value { result ≡ cast_of opcode 0 (rules.width_of (names_of names.now) (tree names.now.table operand.ty)) (rules.width_of (names_of names.now) (tree names.now.table to))
        (rules.one_leaf (rules.constant_value (names_of names.now) (tree names.now.table operand.ty) (constant_of names.now operand.value))) }
    ensures kind { HasType (tree names.now.table to) result }
{
    let from = kind_of(names, operand.ty);
    let onto = kind_of(names, to);
    let leaf = leaf_at(names, from, operand.value);
    let from_width = width_of(from);
    let to_width = width_of(onto);
    cast(opcode, Flags::empty(), from_width, to_width, leaf)
}

/// A binary operation on two constants of one integer type. Those that constants have are never undefined.
#[cycle(leaf)]
fn binary_leaf(names: &Names<'_>, opcode: Opcode, flags: Flags, pair: ConstPair) -> Scalar
    requires left { IsPart names.now pair.left }
    requires right { IsPart names.now pair.right }
    requires integer { is_integer (tree names.now.table pair.left.ty) ≡ true }
    requires same { tree names.now.table pair.left.ty ≡ tree names.now.table pair.right.ty }
    requires opcode { is_constant_binary opcode ≡ true }
    ensures value { result ≡ rules.or_poison (binary_of opcode flags (rules.width_of (names_of names.now) (tree names.now.table pair.left.ty))
        (rules.one_leaf (rules.constant_value (names_of names.now) (tree names.now.table pair.left.ty) (constant_of names.now pair.left.value)))
        (rules.one_leaf (rules.constant_value (names_of names.now) (tree names.now.table pair.right.ty) (constant_of names.now pair.right.value)))) }
    ensures kind { HasType (tree names.now.table pair.left.ty) result }
{
    let kind = kind_of(names, pair.left.ty);
    let left = leaf_at(names, kind, pair.left.value);
    let right = leaf_at(names, kind, pair.right.value);
    let width = width_of(kind);
    match binary(opcode, flags, width, left, right) {
        Ok(leaf) => leaf,
        Err(_) => Scalar::Poison,
    }
}

/// Behind a constant index.
#[cycle(leaf)]
fn further(names: &Names<'_>, reached: Reached, index: TypedConst) -> Reached
    requires index { IsPart names.now index }
    requires integer { is_integer (tree names.now.table index.ty) ≡ true }
    requires place { IsPlace names.now.table reached.place }
    requires near { IfSome reached.distance (IsNear (2 ^ 125)) }
    ensures place { IsPlace names.now.table result.place }
    ensures shape { shape_at names.now.table result.place ≡ element (shape_at names.now.table reached.place) (number_in (index_of names.now index)) }
    ensures distance { result.distance ≡ sum_of reached.distance (term_reach (inner_term (shape_at names.now.table reached.place) (index_of names.now index))) }
    ensures near { IfSome (term_reach (inner_term (shape_at names.now.table reached.place) (index_of names.now index))) (IsNear (2 ^ 63 * SIZE_LIMIT)) }
{
    let kind = kind_of(names, index.ty);
    let leaf = leaf_at(names, kind, index.value);
    let width = width_of(kind);
    reached_by(types_of(names), reached, leaf, width)
}

/// How far constant indices lead into values of that type, in bytes; None where one is poison.
#[cycle(leaf)]
fn distance_of(names: &Names<'_>, source: TypeId, indices: &[TypedConst]) -> Option<i128>
    requires source { source < length names.now.table.types }
    requires laid { lies_in_memory (structs names.now.table) (tree names.now.table source) ≡ true }
    requires indices { All (IsPart names.now) indices.now }
    requires integers { All (λ index. is_integer (tree names.now.table index.ty) ≡ true) indices.now }
    ensures { result ≡ reach_of known (terms_of (shape_in names.now.table source) (rules.constant_indices (names_of names.now) (constants_with_types names.now indices.now))) }
{
    let mut reached = before_all(types_of(names), source);
    'indices: for index in indices {
        reached = further(names, reached, *index);
    }
    reached.distance
}

/// A constant `getelementptr`.
#[cycle(leaf)]
fn address_leaf(names: &Names<'_>, flags: Flags, address: &ConstAddress) -> Scalar
    requires source { address.now.source < length names.now.table.types }
    requires laid { lies_in_memory (structs names.now.table) (tree names.now.table address.now.source) ≡ true }
    requires operands { All (IsPart names.now) address.now.operands }
    requires fit { element_operands_fit (structs names.now.table) (tree names.now.table address.now.source) (constants_with_types names.now address.now.operands) ≡ true }
    ensures { result ≡ rules.element_address (names_of names.now) (has_flag flags flag.Inbounds) (shape_in names.now.table address.now.source)
        (rules.constant_indices (names_of names.now) (constants_with_types names.now address.now.operands)) }
{
    let operands = address.operands.as_slice();
    if operands.is_empty() {
        return Scalar::Poison;
    }
    let base = leaf_at(names, Leaf::Ptr, operands[0].value);
    let distance = distance_of(names, address.source, &operands[1..]);
    moved(names, flags.has(Flag::Inbounds), base, distance)
}

/// The one leaf of a constant at the type of that leaf.
#[cycle(leaf)]
fn leaf_at(names: &Names<'_>, kind: Leaf, id: ConstId) -> Scalar
    requires constant { id < length names.now.constants }
    requires sound { IsSound (module_of names.now) (leaf_tree kind) (constant_of names.now id) }
    ensures value { result ≡ rules.one_leaf (rules.constant_value (names_of names.now) (leaf_tree kind) (constant_of names.now id)) }
    ensures kind { IsOfKind kind result }
{
    let known = constant_at(names, id);
    match known {
        Const::Integer(number) => Scalar::Int(*number),
        Const::Truth(truth) => bit(*truth),
        Const::Null => zero(Leaf::Ptr),
        Const::Undef => zero(kind),
        Const::ZeroInitializer => zero(kind),
        Const::Poison => Scalar::Poison,
        Const::Address(global) => names.address(*global),
        Const::ElementAddress(flags, address) => address_leaf(names, *flags, address.get()),
        Const::Cast(opcode, operand, to) => cast_leaf(names, *opcode, *operand, *to),
        Const::Binary(opcode, flags, pair) => binary_leaf(names, *opcode, *flags, *pair.get()),
        // No integer and no pointer is a list.
        Const::ByteString(_) => Scalar::Poison,
        Const::Aggregate(_, _) => Scalar::Poison,
    }
}

/// The leaf of a constant at a type of integers or pointers, as a run of the module alone has it. No memory is wanted.
pub fn leaf_of(names: &Names<'_>, ty: TypeId, id: ConstId) -> Scalar
    requires ty { ty < length names.now.table.types }
    requires constant { id < length names.now.constants }
    requires scalar { is_scalar (tree names.now.table ty) ≡ true }
    requires sound { IsSound (module_of names.now) (tree names.now.table ty) (constant_of names.now id) }
    ensures value { result ≡ rules.one_leaf (rules.constant_value (names_of names.now) (tree names.now.table ty) (constant_of names.now id)) }
    ensures kind { HasType (tree names.now.table ty) result }
{
    leaf_at(names, kind_of(names, ty), id)
}

/// The leaf of a constant that is a pointer, where no type is written: that of a callee.
pub fn pointer_leaf(names: &Names<'_>, id: ConstId) -> Scalar
    requires constant { id < length names.now.constants }
    requires sound { IsSound (module_of names.now) ptr (constant_of names.now id) }
    ensures value { result ≡ rules.one_leaf (rules.constant_value (names_of names.now) ptr (constant_of names.now id)) }
    ensures kind { IsPointer result }
{
    leaf_at(names, Leaf::Ptr, id)
}
