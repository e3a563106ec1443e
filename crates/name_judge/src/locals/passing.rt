//! Whether a look tells that all holds that an operation, or the end of a block, asks for, as it nearly always does: one answer,
//! with no room for a refusal. What is not told so, `operations` and `endings` judge.
#![tactic(auto, using(crate::proofs::OnLocals::Steps::judged_rest, crate::proofs::OnLocals::Steps::judged_next))]

ghost use Rattle.std.specs.Prelude.{◌≡◌, ◌++◌, true, map, flat_map, option_map};
ghost use Rattle.ir_phrases.specs.Constants.View.{type_view, constant_view, value_view, typed_value_view};
ghost use Rattle.ir_phrases.specs.Instructions.Tree as tree;
ghost use Rattle.ir_phrases.specs.Instructions.View.{signature_view, call_view, operation_view, ending_view};
ghost use Rattle.type_table.specs.Tree.{ptr};
ghost use Rattle.name_rules.specs.FunctionDemands.{value_demands, operand_demands, alignment_demands, signature_demands, count_demands, operation_demands, ending_demands};
ghost use Rattle.name_rules.specs.Locals.{Locals};
ghost use Rattle.name_rules.specs.TypeDemands as demands;
ghost use Rattle.name_rules.specs.TypeDemands.{type_demands, constant_demands};
ghost use Rattle.name_rules.specs.Written.{type_in};
ghost use Rattle.type_judge.specs.Gathered.{IsKnown, known_of};
ghost use Rattle.name_judge.specs.Locals.Literals.{Hold};
ghost use Rattle.name_judge.specs.Locals.Names.{AreGathered, locals_of};

use crate::locals::gathered::FunctionLocals;
use crate::locals::literals::{is_literal, is_short_index};
use ir_base::Place;
use ir_phrases::constants::{Constant, Type, TypedValue, WrittenValue};
use ir_phrases::instructions::{
    Address, Alloca, CastParts, Load, Operands, Operation, SignatureTypes, Store, WrittenCall,
    WrittenChoice, WrittenEnding,
};
use ir_terminals::Integer;
use type_judge::Known;

/// Whether a look tells that nothing is asked of the type.
#[inline(always)]
pub(crate) fn type_passes(ty: &Type) -> bool
    ensures { (known : demands.Known) → result ≡ true → Hold (type_demands known (type_view ty.now)) }
{
    match ty {
        Type::Integer(_, _) | Type::Ptr(_) | Type::Void(_) => true,
        _ => false,
    }
}

/// Whether the constant may stand at that type, as a look at 64 bits or at a name tells.
#[inline(never)]
fn constant_passes(known: &Known, constant: &Constant, ty: &Type) -> bool
    requires known { IsKnown known.now }
    ensures { result ≡ true → Hold (constant_demands (known_of known.now) (type_in (type_view ty.now)) (constant_view constant.now)) }
{
    match constant {
        Constant::Simple(_, _) => true,
        Constant::Global(name) => known.has_global(name.name.bytes()),
        _ => is_literal(constant, ty),
    }
}

/// Whether the value may stand at that type: a number that came in turn, or such a constant.
#[inline(always)]
fn value_passes(known: &Known, locals: &FunctionLocals, value: &WrittenValue, ty: &Type) -> bool
    requires known { IsKnown known.now }
    requires locals { AreGathered locals.now }
    ensures { result ≡ true → Hold (value_demands (known_of known.now) (locals_of locals.now) (type_in (type_view ty.now)) (value_view value.now)) }
{
    match value {
        WrittenValue::Local(written) => locals.is_in_turn(false, written),
        WrittenValue::Constant(constant) => constant_passes(known, constant, ty),
    }
}

/// Whether a type, and the value at it, are such.
#[inline(always)]
fn operand_passes(known: &Known, locals: &FunctionLocals, operand: &TypedValue) -> bool
    requires known { IsKnown known.now }
    requires locals { AreGathered locals.now }
    ensures { result ≡ true → Hold (operand_demands (known_of known.now) (locals_of locals.now) (typed_value_view operand.now)) }
{
    if !type_passes(&operand.ty) {
        return false;
    }
    value_passes(known, locals, &operand.value, &operand.ty)
}

/// Whether each of the operands is such.
#[inline(always)]
fn operands_pass(known: &Known, locals: &FunctionLocals, operands: &[TypedValue]) -> bool
    requires known { IsKnown known.now }
    requires locals { AreGathered locals.now }
    ensures { result ≡ true → Hold (flat_map (operand_demands (known_of known.now) (locals_of locals.now)) (map typed_value_view operands.now)) }
{
    'operands: for operand in operands {
        if !operand_passes(known, locals, operand) {
            return false;
        }
    }
    true
}

/// Two operands of one type.
#[inline(always)]
fn pair_passes(known: &Known, locals: &FunctionLocals, operands: &Operands) -> bool
    requires known { IsKnown known.now }
    requires locals { AreGathered locals.now }
    ensures { result ≡ true → Hold (operand_demands (known_of known.now) (locals_of locals.now) (typed_value_view operands.now.left) ++ value_demands (known_of known.now) (locals_of locals.now) (type_in (type_view operands.now.left.ty)) (value_view operands.now.right)) }
{
    if !operand_passes(known, locals, &operands.left) {
        return false;
    }
    value_passes(known, locals, &operands.right, &operands.left.ty)
}

/// A cast.
#[inline(always)]
fn conversion_passes(known: &Known, locals: &FunctionLocals, conversion: &CastParts) -> bool
    requires known { IsKnown known.now }
    requires locals { AreGathered locals.now }
    ensures { result ≡ true → Hold (operand_demands (known_of known.now) (locals_of locals.now) (typed_value_view conversion.now.value) ++ type_demands (known_of known.now) (type_view conversion.now.to)) }
{
    if !operand_passes(known, locals, &conversion.value) {
        return false;
    }
    type_passes(&conversion.to)
}

/// A condition and its two arms.
#[inline(always)]
fn choice_passes(known: &Known, locals: &FunctionLocals, choice: &WrittenChoice) -> bool
    requires known { IsKnown known.now }
    requires locals { AreGathered locals.now }
    ensures { result ≡ true → Hold (operand_demands (known_of known.now) (locals_of locals.now) (typed_value_view choice.now.condition) ++ (operand_demands (known_of known.now) (locals_of locals.now) (typed_value_view choice.now.first) ++ operand_demands (known_of known.now) (locals_of locals.now) (typed_value_view choice.now.second))) }
{
    if !operand_passes(known, locals, &choice.condition) {
        return false;
    }
    if !operand_passes(known, locals, &choice.first) {
        return false;
    }
    operand_passes(known, locals, &choice.second)
}

/// An alignment, where one is written.
#[inline(always)]
fn alignment_passes(alignment: &Option<Integer>) -> bool
    ensures { result ≡ true → Hold (alignment_demands alignment.now) }
{
    match alignment {
        None => true,
        Some(written) => is_short_index(written),
    }
}

/// A load.
#[inline(always)]
fn load_passes(known: &Known, locals: &FunctionLocals, load: &Load) -> bool
    requires known { IsKnown known.now }
    requires locals { AreGathered locals.now }
    ensures { result ≡ true → Hold (type_demands (known_of known.now) (type_view load.now.ty) ++ (operand_demands (known_of known.now) (locals_of locals.now) (typed_value_view load.now.address) ++ alignment_demands load.now.alignment)) }
{
    if !type_passes(&load.ty) {
        return false;
    }
    if !operand_passes(known, locals, &load.address) {
        return false;
    }
    alignment_passes(&load.alignment)
}

/// A store.
#[inline(always)]
fn store_passes(known: &Known, locals: &FunctionLocals, store: &Store) -> bool
    requires known { IsKnown known.now }
    requires locals { AreGathered locals.now }
    ensures { result ≡ true → Hold (operand_demands (known_of known.now) (locals_of locals.now) (typed_value_view store.now.value) ++ (operand_demands (known_of known.now) (locals_of locals.now) (typed_value_view store.now.address) ++ alignment_demands store.now.alignment)) }
{
    if !operand_passes(known, locals, &store.value) {
        return false;
    }
    if !operand_passes(known, locals, &store.address) {
        return false;
    }
    alignment_passes(&store.alignment)
}

/// No count of an alloca is written, as a look tells.
#[inline(always)]
fn count_passes(count: &Option<Box<TypedValue>>) -> bool
    ensures { (known : demands.Known) → (all : Locals) → result ≡ true → Hold (count_demands known all (option_map (λ b. typed_value_view b.value) count.now)) }
{
    match count {
        None => true,
        Some(_) => false,
    }
}

/// An alloca of one.
#[inline(always)]
fn alloca_passes(alloca: &Alloca) -> bool
    ensures { (known : demands.Known) → (all : Locals) → result ≡ true
        → Hold (type_demands known (type_view alloca.now.ty) ++ (count_demands known all (option_map (λ b. typed_value_view b.value) alloca.now.count) ++ alignment_demands alloca.now.alignment)) }
{
    if !type_passes(&alloca.ty) {
        return false;
    }
    if !count_passes(&alloca.count) {
        return false;
    }
    alignment_passes(&alloca.alignment)
}

/// A `getelementptr`.
#[inline(always)]
fn address_passes(known: &Known, locals: &FunctionLocals, address: &Address) -> bool
    requires known { IsKnown known.now }
    requires locals { AreGathered locals.now }
    ensures { result ≡ true → Hold (type_demands (known_of known.now) (type_view address.now.source) ++ flat_map (operand_demands (known_of known.now) (locals_of locals.now)) (map typed_value_view address.now.operands.items)) }
{
    if !type_passes(&address.source) {
        return false;
    }
    operands_pass(known, locals, &address.operands)
}

/// A call writes no types of parameters, as a look tells.
#[inline(always)]
fn signature_passes(signature: &Option<SignatureTypes>) -> bool
    ensures { (known : demands.Known) → (all : Locals) → result ≡ true → Hold (signature_demands known all (option_map signature_view signature.now)) }
{
    match signature {
        None => true,
        Some(_) => false,
    }
}

/// What is called stands at the type of pointers, which no token writes.
#[inline(always)]
fn callee_passes(known: &Known, locals: &FunctionLocals, callee: &WrittenValue) -> bool
    requires known { IsKnown known.now }
    requires locals { AreGathered locals.now }
    ensures { result ≡ true → Hold (value_demands (known_of known.now) (locals_of locals.now) ptr (value_view callee.now)) }
{
    let pointer = Type::Ptr(Place { line: 1, column: 1 });
    value_passes(known, locals, callee, &pointer)
}

/// A call.
#[inline(always)]
fn call_passes(known: &Known, locals: &FunctionLocals, call: &WrittenCall) -> bool
    requires known { IsKnown known.now }
    requires locals { AreGathered locals.now }
    ensures { result ≡ true → Hold (operation_demands (known_of known.now) (locals_of locals.now) (tree.Call (call_view call.now))) }
{
    if !type_passes(&call.returns) {
        return false;
    }
    if !signature_passes(&call.signature) {
        return false;
    }
    if !callee_passes(known, locals, &call.callee) {
        return false;
    }
    operands_pass(known, locals, &call.arguments)
}

/// Whether a look tells that all holds that the operation asks for.
#[inline(always)]
pub(crate) fn operation_passes(
    known: &Known,
    locals: &FunctionLocals,
    operation: &Operation,
) -> bool
    requires known { IsKnown known.now }
    requires locals { AreGathered locals.now }
    ensures { result ≡ true → Hold (operation_demands (known_of known.now) (locals_of locals.now) (operation_view operation.now)) }
{
    match operation {
        Operation::Binary { operands, .. } => pair_passes(known, locals, operands),
        Operation::Compare { operands, .. } => pair_passes(known, locals, operands),
        Operation::Cast { conversion, .. } => conversion_passes(known, locals, conversion),
        Operation::Select(choice) => choice_passes(known, locals, choice),
        Operation::Load { load, .. } => load_passes(known, locals, load),
        Operation::Store { store, .. } => store_passes(known, locals, store),
        Operation::Alloca(alloca) => alloca_passes(alloca),
        Operation::GetElementPtr { address, .. } => address_passes(known, locals, address),
        Operation::Call(call) => call_passes(known, locals, call),
        _ => false,
    }
}

/// Whether a look tells that all holds that the end of a block asks for.
#[inline(always)]
pub(crate) fn ending_passes(known: &Known, locals: &FunctionLocals, ending: &WrittenEnding) -> bool
    requires known { IsKnown known.now }
    requires locals { AreGathered locals.now }
    ensures { result ≡ true → Hold (ending_demands (known_of known.now) (locals_of locals.now) (ending_view ending.now)) }
{
    match ending {
        WrittenEnding::ReturnVoid | WrittenEnding::Unreachable => true,
        WrittenEnding::Return(value) => operand_passes(known, locals, value),
        WrittenEnding::Jump(target) => locals.is_in_turn(true, target),
        _ => false,
    }
}
