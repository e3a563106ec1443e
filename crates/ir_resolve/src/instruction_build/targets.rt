//! Blocks, and what stands beside them: the values of a phi and the cases of a switch.
ghost use Rattle.std.specs.Prelude.{◌≡◌, ◌<◌, ◌^◌, map, length, All, Contains, IfOk, OnOk};
ghost use Rattle.ir_phrases.specs.Constants.View.{type_view};
ghost use Rattle.ir_phrases.specs.Instructions.View.{incoming_view, case_view};
ghost use Rattle.type_table.specs.Types.{structs};
ghost use Rattle.name_rules.specs.Bodies.{incoming_in, case_in};
ghost use Rattle.name_rules.specs.Locals.{local_in};
ghost use Rattle.name_rules.specs.Written.{type_in};
ghost use Rattle.item_build.specs.Types.Fitting.{CanBe};
ghost use Rattle.item_build.specs.Types.Stands.{Grows};
ghost use Rattle.ir_resolve.specs.InstructionBuild.Parts.{value_names, block_names, TakesIncoming, TakesCase, Each, IsTarget, IsIncoming, IsCase};

use crate::instruction_build::locals::Locals;
use crate::instruction_build::values::build_value;
use ir_base::ItemList;
use ir_phrases::constants::Type;
use ir_phrases::instructions::{WrittenCase, WrittenIncoming};
use ir_terminals::Local;
use item_build::types::Builder;
use module_arena::{BlockId, Case, CaseList, Incoming, IncomingList};
use std::alloc::{AllocError, Global};

/// The block that is called so.
pub(crate) fn find_block(locals: &Locals, written: &Local) -> BlockId
    requires there { Contains (block_names locals.now) (local_in written.now) }
    requires few_blocks { length locals.now.blocks.names.items < 2 ^ 32 }
    ensures { IsTarget (block_names locals.now) result (local_in written.now) }
{
    BlockId::new(locals.blocks.find(written))
}

/// The value of a phi of that type.
fn build_incoming(
    builder: &mut Builder,
    alloc: Global,
    locals: &Locals,
    ty: &Type,
    written: &WrittenIncoming,
) -> Result<Incoming, AllocError>
    requires ty { CanBe (structs builder.old.arena.table) (type_in (type_view ty.now)) }
    requires can { TakesIncoming builder.old.arena locals.now (incoming_view written.now) }
    requires few_values { length locals.now.values.names.items < 2 ^ 32 }
    requires few_blocks { length locals.now.blocks.names.items < 2 ^ 32 }
    ensures grows { OnOk result (Grows builder.old.arena builder.new.arena) }
    ensures is { IfOk result (λ i. IsIncoming (value_names locals.now) (block_names locals.now) builder.new.arena i (incoming_in (type_in (type_view ty.now)) (incoming_view written.now))) }
{
    let value = build_value(builder, alloc, locals, ty, &written.value)?;
    let block = find_block(locals, &written.block);
    Ok(Incoming { value, block })
}

/// The values of a phi of that type, in order. It is refused for want of memory alone.
pub(crate) fn build_incoming_list(
    builder: &mut Builder,
    alloc: Global,
    locals: &Locals,
    ty: &Type,
    written: &[WrittenIncoming],
) -> Result<IncomingList, AllocError>
    requires ty { CanBe (structs builder.old.arena.table) (type_in (type_view ty.now)) }
    requires can { All (TakesIncoming builder.old.arena locals.now) (map incoming_view written.now) }
    requires few_values { length locals.now.values.names.items < 2 ^ 32 }
    requires few_blocks { length locals.now.blocks.names.items < 2 ^ 32 }
    ensures grows { OnOk result (Grows builder.old.arena builder.new.arena) }
    ensures are { IfOk result (λ is. Each (IsIncoming (value_names locals.now) (block_names locals.now) builder.new.arena) is (map (incoming_in (type_in (type_view ty.now))) (map incoming_view written.now))) }
{
    let mut incoming = Vec::with_capacity(alloc, written.len())?;
    for one in written {
        let next = build_incoming(builder, alloc, locals, ty, one)?;
        // Part by part: a loop that pushes the whole is beyond the checker.
        let value = next.value;
        incoming.push(Incoming {
            value,
            block: next.block,
        })?;
    }
    Ok(ItemList::from_vec(incoming))
}

/// The case of a switch.
fn build_case(
    builder: &mut Builder,
    alloc: Global,
    locals: &Locals,
    written: &WrittenCase,
) -> Result<Case, AllocError>
    requires can { TakesCase builder.old.arena locals.now (case_view written.now) }
    requires few_blocks { length locals.now.blocks.names.items < 2 ^ 32 }
    ensures grows { OnOk result (Grows builder.old.arena builder.new.arena) }
    ensures is { IfOk result (λ c. IsCase (block_names locals.now) builder.new.arena c (case_in (case_view written.now))) }
{
    let typed = builder.add_typed(alloc, &written.value)?;
    let target = find_block(locals, &written.target);
    Ok(Case {
        ty: typed.ty,
        value: typed.value,
        target,
    })
}

/// The cases of a switch, in order. It is refused for want of memory alone.
pub(crate) fn build_cases(
    builder: &mut Builder,
    alloc: Global,
    locals: &Locals,
    written: &[WrittenCase],
) -> Result<CaseList, AllocError>
    requires can { All (TakesCase builder.old.arena locals.now) (map case_view written.now) }
    requires few_blocks { length locals.now.blocks.names.items < 2 ^ 32 }
    ensures grows { OnOk result (Grows builder.old.arena builder.new.arena) }
    ensures are { IfOk result (λ cs. Each (IsCase (block_names locals.now) builder.new.arena) cs (map case_in (map case_view written.now))) }
{
    let mut cases = Vec::with_capacity(alloc, written.len())?;
    for one in written {
        let case = build_case(builder, alloc, locals, one)?;
        cases.push(case)?;
    }
    Ok(ItemList::from_vec(cases))
}
