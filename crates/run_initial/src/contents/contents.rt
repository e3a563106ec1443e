//! What variables hold at first.
ghost use Rattle.std.specs.Prelude.{◌≡◌, ◌<◌, ◌≤◌, OnOk, Some, length, slice_get, true};
ghost use Rattle.ir_memory.specs.Answer.{Keeps};
ghost use Rattle.ir_memory.specs.Given.{IsKnown};
ghost use Rattle.linkage_rules.specs.Linkages.{is_appending};
ghost use Rattle.linkage_rules.specs.Addresses.{rooms};
ghost use Rattle.module_arena.specs.declared.entry.Variable.{Variable};
ghost use Rattle.module_arena.specs.View.{module_of};
ghost use Rattle.run_initial.specs.Constants.Sound.{constant_of};
ghost use Rattle.run_initial.specs.Contents.Held.{held, is_list};
ghost use Rattle.run_initial.specs.Contents.Placed.{ArePlaced, IsNewBlock};
ghost use Rattle.run_initial.specs.Initial.Fresh.{Puts};
ghost use Rattle.run_names.specs.Spots.{defines, size_of};
ghost use Rattle.run_names.specs.Told.{alone};
ghost use Rattle.run_rules.specs.Opening.{with_contents};
ghost use Rattle.run_rules.specs.Plan.{plan};

use crate::initial::{Target, put_constant, wanting_memory};
use ir_eval::Pointer;
use ir_memory::Memory;
use ir_tables::Linkage;
use module_arena::{Const, ConstId, TypedConst, VariableId};
use run_names::Names;
use std::alloc::AllocError;

/// Whether lists of this linkage grow by linking (LangRef, "Linkage Types").
fn is_appending(linkage: Linkage) -> bool
    ensures { result ≡ is_appending linkage }
{
    matches!(linkage, Linkage::Appending)
}

/// Whether a constant is a list in brackets.
fn is_list(names: &Names<'_>, id: ConstId) -> bool
    requires { id < length names.now.constants }
    ensures { result ≡ is_list (constant_of names.now id) }
{
    let arena = names.program().arena();
    // What holds of each arena.
    let _count = arena.variable_count();
    match arena.constant(id) {
        Const::Aggregate(_, _) => true,
        Const::Integer(_) => false,
        Const::Truth(_) => false,
        Const::Null => false,
        Const::Undef => false,
        Const::Poison => false,
        Const::ZeroInitializer => false,
        Const::Address(_) => false,
        Const::ByteString(_) => false,
        Const::ElementAddress(_, _) => false,
        Const::Cast(_, _, _) => false,
        Const::Binary(_, _, _) => false,
    }
}

/// Puts what a variable holds at first into its block, which is fresh.
fn put_variable(
    names: &Names<'_>,
    memory: &mut Memory,
    block: Pointer,
    id: VariableId,
) -> Result<(), AllocError>
    requires id { id < length names.now.variables }
    requires defined { defines names.now id ≡ true }
    requires block { IsKnown memory.old.list block }
    requires variables { length (rooms (alone (module_of names.now))) ≤ length memory.old.list }
    requires fresh { (v : Variable) → slice_get names.now.variables id ≡ Some v → IsNewBlock memory.old block (size_of names.now v) }
    ensures put { OnOk result ((v : Variable) → slice_get names.now.variables id ≡ Some v → Puts block (held names.now v) memory.old memory.new) }
    ensures kept { Keeps memory.old memory.new }
{
    let program = names.program();
    let arena = program.arena();
    // The initialisers of the variables of an arena are constants of the arena.
    let _count = arena.variable_count();
    // No type of a table is larger than its limits.
    let types = arena.types();
    let _type_count = types.type_count();
    let variable = arena.variable(id);
    let Some(value) = variable.initialiser else {
        return Ok(());
    };
    if is_appending(variable.linkage) && !is_list(names, value) {
        return Ok(());
    }
    let target = Target { block, offset: 0 };
    let constant = TypedConst {
        ty: variable.ty,
        value,
    };
    // The block is fresh and long enough, so that no store is undefined.
    wanting_memory(put_constant(names, memory, target, constant))
}

/// Puts what each variable holds at first into its block, in order. It is refused for want of memory alone; then a part may be there.
pub fn put_contents(names: &Names<'_>, memory: &mut Memory) -> Result<(), AllocError>
    requires { ArePlaced names.now memory.old }
    ensures stored { OnOk result (memory.new ≡ with_contents (plan (alone (module_of names.now))).stores memory.old) }
    ensures kept { Keeps memory.old memory.new }
{
    let program = names.program();
    // A checked module is valid.
    let _arena = program.arena();
    let spots = names.spots();
    'spots: for block in 0..spots.len() {
        let spot = spots[block];
        let pointer = Pointer {
            block: Some(block as u64),
            address: spot.start,
        };
        put_variable(names, memory, pointer, spot.variable)?;
    }
    Ok(())
}
