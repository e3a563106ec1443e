//! The whole body.
ghost use Rattle.std.specs.Prelude.{◌≡◌, map, length, IfOk, OnOk};
ghost use Rattle.ir_phrases.specs.Instructions.View.{block_view};
ghost use Rattle.ir_syntax.specs.View.{parameter_view};
ghost use Rattle.type_table.specs.Types.{structs, trees};
ghost use Rattle.module_arena.specs.Known.{KnowsBody};
ghost use Rattle.module_arena.specs.View.{constants_of, body_view};
ghost use Rattle.item_build.specs.Types.Holding.{entries};
ghost use Rattle.item_build.specs.Types.Stands.{Grows};
ghost use Rattle.item_build.specs.Buildable.Bodies.{CanBody, parameter_names, body_of};

use crate::blocks::build_blocks;
use crate::gathered::gather;
use crate::instruction_build::Locals;
use crate::names::names_from;
use ir_phrases::instructions::WrittenBlock;
use ir_syntax::WrittenParameter;
use item_build::types::Builder;
use module_arena::ValueId;
use std::alloc::{AllocError, Global};

/// The body of a function with these parameters: its blocks, and the names of the results behind those of the parameters.
/// The table of locals may be that of any function before. It is refused for want of memory alone.
pub(crate) fn build_body<'a>(
    builder: &mut Builder,
    alloc: Global,
    locals: &mut Locals<'a>,
    parameters: &'a [WrittenParameter],
    blocks: &'a [WrittenBlock],
) -> Result<module_arena::Body, AllocError>
    requires { CanBody (structs builder.old.arena.table) (entries builder.old.arena) (map parameter_view parameters.now) (map block_view blocks.now) }
    ensures grows { OnOk result (Grows builder.old.arena builder.new.arena) }
    ensures known { IfOk result (λ body. KnowsBody (length builder.new.arena.table.types) (length builder.new.arena.constants) (length parameters.now) body) }
    ensures blocks { IfOk result (λ body. body_view (trees builder.new.arena.table) (constants_of builder.new.arena) (parameter_names (map parameter_view parameters.now)) body ≡ body_of (map parameter_view parameters.now) (map block_view blocks.now)) }
{
    gather(locals, alloc, parameters, blocks)?;
    let first = ValueId::new(parameters.len() as u32);
    let blocks = build_blocks(builder, alloc, locals, first, blocks)?;
    let results = names_from(&mut locals.values.names, parameters.len())?;
    Ok(module_arena::Body { blocks, results })
}
