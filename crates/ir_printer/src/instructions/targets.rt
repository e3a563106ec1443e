//! Targets of branches.
ghost use Rattle.std.specs.Prelude.{◌<◌, length};
ghost use Rattle.ir_printer.specs.Gathered.Told.{state};
ghost use Rattle.canonical.specs.Instructions.{target};
ghost use Rattle.module_arena.specs.Lists.{Lists, function_blocks};
ghost use Rattle.ir_printer.specs.Phrases.Printing.{separator_of, Prints};
ghost use Rattle.ir_printer.specs.Instructions.Named.{label_of};

use crate::gathered::Gathered;
use crate::phrases::{Separator, put_local, put_token};
use ir_base::Sink;
use module_arena::{BlockId, Function};

/// Puts the word `label`, and what the block of that id is called.
pub(crate) fn put_target<S: Sink>(
    out: &mut Gathered,
    sink: &mut S,
    function: &Function,
    id: BlockId,
    behind: Separator,
)
    requires { id < length (function_blocks function.now) }
    ensures { (a : Lists) → Prints (state out.old (S.taken sink.old) (S.faults sink.old)) (state out.new (S.taken sink.new) (S.faults sink.new)) (target (label_of a function.now id) (separator_of behind)) }
{
    put_token(out, sink, b"label", Separator::Space);
    put_local(out, sink, &function.block(id).name, behind);
}
