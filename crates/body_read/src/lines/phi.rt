//! `phi`, with its values and the blocks that they come from.
ghost use Rattle.std.specs.Prelude.{◌≡◌, ◌++◌, None, Some, IfOk, OnOk, option_to_list, if◌then◌else◌};
ghost use Rattle.std.specs.Option.{option_map};
ghost use Rattle.ir_tables.specs.declared.opcode.Opcode.TheVariants as op;
ghost use Rattle.record_table.specs.Layout.{counted_some};
ghost use Rattle.record_table.specs.Lines as lines;
ghost use Rattle.record_read.specs.Reader.{is_broken};
ghost use Rattle.type_read.specs.Arena.Kept.{IsKnownType, tree_at};
ghost use Rattle.body_read.specs.Operands.Found.{Finds, both};
ghost use Rattle.body_read.specs.Lines.Kept.{GivesInst, HaveIncoming, all_incoming_in, kept_incoming, operation_in};
ghost use Rattle.body_read.specs.Lines.Operations.{operation};

use crate::lines::parts::phi_of;
use crate::operands::read_value;
use ir_base::ItemList;
use module_arena::{BlockId, Incoming, IncomingList, Inst, Value, ValueId};
use record_read::RecordReader;
use std::alloc::AllocError;
use type_read::arena::{ModuleReader, read_block, read_type};
use type_table::TypeId;

/// A value with the block that it comes from, where both are known.
fn incoming_of(value: Option<Value>, block: Option<BlockId>) -> Option<Incoming>
    ensures { result ≡ option_map kept_incoming (both value block) }
{
    Some(Incoming {
        value: value?,
        block: block?,
    })
}

/// One more value of a phi, where it is known.
fn push_incoming(all: &mut Vec<Incoming>, one: Option<Incoming>) -> Result<(), AllocError>
    ensures { OnOk result (all.new.items ≡ all.old.items ++ option_to_list one) }
{
    // Part by part: a function that pushes the whole is beyond the checker.
    match one {
        Some(Incoming { value, block }) => {
            all.push(Incoming { value, block })?;
            Ok(())
        }
        None => Ok(()),
    }
}

/// One more value of a phi, with its block, where both are known.
fn add_incoming(
    all: &mut Vec<Incoming>,
    value: Option<Value>,
    block: Option<BlockId>,
) -> Result<(), AllocError>
    ensures { OnOk result (all.new.items ≡ all.old.items ++ option_to_list (option_map kept_incoming (both value block))) }
{
    push_incoming(all, incoming_of(value, block))
}

/// The values of a phi, where the record breaks no rule so far.
fn incoming_list(reader: &RecordReader<'_>, all: Vec<Incoming>) -> Option<IncomingList>
    ensures { result ≡ (if is_broken reader.now.walk then None else Some all.items) }
{
    if reader.is_broken() {
        None
    } else {
        Some(ItemList::from_vec(all))
    }
}

/// A count, which is not 0, and so many values of that type with their blocks. None only where a rule is broken.
fn read_incoming(
    m: &mut ModuleReader<'_>,
    ty: &Option<TypeId>,
) -> Result<Option<IncomingList>, AllocError>
    requires { IsKnownType m.old ty.now }
    ensures { IfOk result (Finds HaveIncoming all_incoming_in (λ k. (counted_some (lines.incoming k (tree_at m.old.growing.arena.table ty.now))).read) m.old m.new) }
{
    let count = m.reader.number();
    m.reader.ask(1, count != 0);
    let mut incoming = Vec::new(m.alloc);
    let mut place = 0;
    'incoming: while m.reader.has_more(place, count) {
        let value = read_value(m, ty)?;
        let block = read_block(m);
        add_incoming(&mut incoming, value, block)?;
        place += 1;
    }
    Ok(incoming_list(&m.reader, incoming))
}

/// `phi`: the type, and its values with their blocks.
pub(crate) fn read_phi(
    m: &mut ModuleReader<'_>,
    defined: ValueId,
) -> Result<Option<Inst>, AllocError>
    ensures { IfOk result (Finds (GivesInst defined) operation_in (λ k. (operation k op.Phi).read) m.old m.new) }
{
    let ty = read_type(m);
    let incoming = read_incoming(m, &ty)?;
    Ok(phi_of(defined, ty, incoming))
}
