//! The blocks of variables.
ghost use Rattle.std.specs.Prelude.{◌≡◌, ◌+◌, ◌<◌, ◌≤◌, ◌^◌, All, IfOk, length, map, true};
ghost use Rattle.ir_memory.specs.declared.kind.BlockKind.TheVariants as kind;
ghost use Rattle.ir_memory.specs.Given.{IsAlignment};
ghost use Rattle.ir_memory.specs.Memory.{HasFreeAddresses, no_blocks, reach};
ghost use Rattle.module_arena.specs.View.{module_of};
ghost use Rattle.run_initial.specs.Contents.Placed.{ArePlaced, Fills};
ghost use Rattle.run_names.specs.Spots.{needs};
ghost use Rattle.run_names.specs.Told.{alone};
ghost use Rattle.run_rules.specs.Opening.{made, with_variables};
ghost use Rattle.run_rules.specs.Plan.{plan};

use ir_memory::{BlockKind, Memory, MemoryFault};
use run_names::{Names, Spot};
use std::alloc::AllocError;

/// A block for a variable; false exactly where too many bytes would live.
fn add_variable(memory: &mut Memory, spot: Spot) -> Result<bool, AllocError>
    requires align { IsAlignment spot.align }
    requires next { HasFreeAddresses memory.old }
    ensures made { IfOk result (λ is_made. Fills is_made (made spot.size spot.align (kind.Variable spot.constant) memory.old) memory.new) }
    ensures growth { memory.new.next ≤ memory.old.next + reach }
{
    let kind = BlockKind::Variable(spot.constant);
    match memory.add_block(spot.size, spot.align, kind) {
        Ok(_) => Ok(true),
        Err(MemoryFault::MemoryLimit) => Ok(false),
        Err(MemoryFault::Memory) => Err(AllocError),
        Err(MemoryFault::Undefined(_)) => unreachable!(),
    }
}

/// Blocks for variables, in order; false exactly where too many bytes would live.
fn add_variables(memory: &mut Memory, spots: &[Spot]) -> Result<bool, AllocError>
    requires none { memory.old ≡ no_blocks }
    requires aligned { All (λ s. IsAlignment s.align) spots.now }
    requires few { length spots.now < 2 ^ 32 }
    ensures { IfOk result (λ all. Fills all (with_variables (map needs spots.now) no_blocks) memory.new) }
{
    'spots: for spot in spots {
        let is_made = add_variable(memory, *spot)?;
        if !is_made {
            return Ok(false);
        }
    }
    Ok(true)
}

/// Gives the variables of a module their blocks, in order, in a memory that has no block yet; false exactly where too many bytes would
/// live. It is refused for want of memory alone. Where it is refused or false, some blocks may be there.
pub fn place_variables(memory: &mut Memory, names: &Names<'_>) -> Result<bool, AllocError>
    requires { memory.old ≡ no_blocks }
    ensures placed { IfOk result (λ all. Fills all (with_variables (plan (alone (module_of names.now))).variables no_blocks) memory.new) }
    ensures fresh { IfOk result (λ all. all ≡ true → ArePlaced names.now memory.new) }
{
    let program = names.program();
    let arena = program.arena();
    // There are no more spots than variables.
    let _count = arena.variable_count();
    add_variables(memory, names.spots())
}
