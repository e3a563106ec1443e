//! What the values and the blocks of a function are called.
ghost use Rattle.std.specs.Prelude.{◌≡◌, ◌<◌, ◌+◌, ◌-◌, ◌^◌, map, length, OnOk};
ghost use Rattle.std.specs.List.{sum_by};
ghost use Rattle.ir_phrases.specs.Instructions.View.{block_view};
ghost use Rattle.ir_syntax.specs.Counts.{block_count};
ghost use Rattle.ir_syntax.specs.View.{parameter_view};
ghost use Rattle.item_build.specs.Buildable.Bodies.{values_of, labels_of};
ghost use Rattle.ir_resolve.specs.InstructionBuild.Named.{called_of};

use crate::instruction_build::{Locals, add_block};
use ir_phrases::instructions::WrittenBlock;
use ir_syntax::WrittenParameter;
use std::alloc::{AllocError, Global};

/// Gathers the locals of a function, in the order of the text, whichever function's they were.
pub(crate) fn gather<'a>(
    locals: &mut Locals<'a>,
    alloc: Global,
    parameters: &'a [WrittenParameter],
    blocks: &'a [WrittenBlock],
) -> Result<(), AllocError>
    requires { length parameters.now + sum_by block_count (map block_view blocks.now) < 2 ^ 32 - 2 }
    ensures values { OnOk result (called_of locals.new.values.names.items ≡ values_of (map parameter_view parameters.now) (map block_view blocks.now)) }
    ensures labels { OnOk result (called_of locals.new.blocks.names.items ≡ labels_of (map parameter_view parameters.now) (map block_view blocks.now)) }
{
    locals.clear(alloc);
    let mut next = locals.values.add_parameters(alloc, parameters)?;
    for block in blocks {
        next = add_block(&mut locals.values, &mut locals.blocks, alloc, next, block)?;
    }
    Ok(())
}
