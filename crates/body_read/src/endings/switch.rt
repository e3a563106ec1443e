//! `switch`, with its cases.
ghost use Rattle.std.specs.Prelude.{◌≡◌, IfOk};
ghost use Rattle.std.specs.Option.{option_map};
ghost use Rattle.ir_tables.specs.declared.opcode.Opcode.TheVariants as op;
ghost use Rattle.record_table.specs.Layout.{counted};
ghost use Rattle.record_table.specs.Lines as lines;
ghost use Rattle.type_read.specs.Arena.Kept.{IsKnownType, tree_at};
ghost use Rattle.body_read.specs.Operands.Found.{Finds, both};
ghost use Rattle.body_read.specs.Endings.Ends.{HasCase, HasEnding, HaveCases, case_in, cases_in, ending_in, kept_case, kept_switch};

use crate::constants::{NESTING_LIMIT, read_constant, same};
use crate::operands::read_operand_of;
use module_arena::{BlockId, Case, CaseList, ConstId, Ending, Operand};
use record_read::{push_known, unbroken};
use std::alloc::AllocError;
use type_read::arena::{ModuleReader, read_block, read_type};
use type_table::TypeId;

/// A case of these parts, where all of them are known.
fn case_of(ty: Option<TypeId>, value: Option<ConstId>, target: Option<BlockId>) -> Option<Case>
    ensures { result ≡ option_map kept_case (both ty (both value target)) }
{
    Some(Case {
        ty: ty?,
        value: value?,
        target: target?,
    })
}

/// A case over that type: a constant, and a block. None only where a rule is broken.
fn read_case(m: &mut ModuleReader<'_>, ty: &Option<TypeId>) -> Result<Option<Case>, AllocError>
    requires { IsKnownType m.old ty.now }
    ensures { IfOk result (Finds HasCase case_in (λ k. (lines.case_of k (tree_at m.old.growing.arena.table ty.now)).read) m.old m.new) }
{
    let value = read_constant(m, same(ty), NESTING_LIMIT)?;
    let target = read_block(m);
    Ok(case_of(same(ty), value, target))
}

/// A count, and so many cases over that type. None only where a rule is broken.
fn read_cases(m: &mut ModuleReader<'_>, ty: &Option<TypeId>) -> Result<Option<CaseList>, AllocError>
    requires { IsKnownType m.old ty.now }
    ensures { IfOk result (Finds HaveCases cases_in (λ k. (counted (lines.case_of k (tree_at m.old.growing.arena.table ty.now))).read) m.old m.new) }
{
    let count = m.reader.number();
    let mut cases = Vec::new(m.alloc);
    let mut place = 0;
    'cases: while m.reader.has_more(place, count) {
        let one = read_case(m, ty)?;
        push_known(&mut cases, one)?;
        place += 1;
    }
    Ok(unbroken(&m.reader, cases))
}

/// A switch of these parts, where all of them are known.
fn switch_of(
    value: Option<Operand>,
    otherwise: Option<BlockId>,
    cases: Option<CaseList>,
) -> Option<Ending>
    ensures { result ≡ option_map kept_switch (both value (both otherwise cases)) }
{
    Some(Ending::Switch {
        value: value?,
        otherwise: otherwise?,
        cases: cases?,
    })
}

/// `switch`: type, value, block, and cases.
pub(crate) fn read_switch(m: &mut ModuleReader<'_>) -> Result<Option<Ending>, AllocError>
    ensures { IfOk result (Finds HasEnding ending_in (λ k. (lines.ending k op.Switch).read) m.old m.new) }
{
    let ty = read_type(m);
    let value = read_operand_of(m, &ty)?;
    let otherwise = read_block(m);
    let cases = read_cases(m, &ty)?;
    Ok(switch_of(value, otherwise, cases))
}
