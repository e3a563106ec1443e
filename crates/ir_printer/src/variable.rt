//! Variables (LangRef, "Global Variables").
ghost use Rattle.std.specs.Prelude.{◌<◌, length, option_map, option_to_list, All};
ghost use Rattle.ir_printer.specs.Gathered.Told.{state};
ghost use Rattle.ir_lexer.specs.Pieces.{Space};
ghost use Rattle.type_table.specs.Types.{trees, tree};
ghost use Rattle.module_arena.specs.Known.{KnowsVariable};
ghost use Rattle.module_arena.specs.View.{constants_of, constant_at, variable_view};
ghost use Rattle.canonical.specs.Canonical.{variable_linkage, global_or_constant, initialised, variable_phrase};
ghost use Rattle.ir_printer.specs.Phrases.Printing.{separator_of, Prints};

use crate::gathered::Gathered;
use crate::instructions::{before_alignment, put_alignment};
use crate::linkage::{put_linkage, put_linkage_word};
use crate::phrases::{Separator, put_constant, put_global, put_token, put_type};
use ir_base::Sink;
use ir_tables::Linkage;
use module_arena::{Arena, ConstId, Variable};
use type_table::TypeId;

/// Puts the linkage of a variable: external is written where it is declared.
fn put_variable_linkage<S: Sink>(
    out: &mut Gathered,
    sink: &mut S,
    arena: &Arena,
    initialiser: Option<ConstId>,
    linkage: Linkage,
)
    ensures { Prints (state out.old (S.taken sink.old) (S.faults sink.old)) (state out.new (S.taken sink.new) (S.faults sink.new)) (variable_linkage (option_map (constant_at (constants_of arena.now)) initialiser) linkage Space) }
{
    match initialiser {
        Some(_) => put_linkage(out, sink, linkage),
        None => put_linkage_word(out, sink, linkage),
    }
}

/// Puts whether a variable is constant.
fn put_constness<S: Sink>(out: &mut Gathered, sink: &mut S, constant: bool)
    ensures { Prints (state out.old (S.taken sink.old) (S.faults sink.old)) (state out.new (S.taken sink.new) (S.faults sink.new)) (global_or_constant constant Space) }
{
    if constant {
        put_token(out, sink, b"constant", Separator::Space);
    } else {
        put_token(out, sink, b"global", Separator::Space);
    }
}

/// Puts the type of a variable, and its initialiser where it is defined.
fn put_initialised<S: Sink>(
    out: &mut Gathered,
    sink: &mut S,
    arena: &Arena,
    ty: TypeId,
    initialiser: Option<ConstId>,
    behind: Separator,
)
    requires ty { ty < length arena.now.table.types }
    requires initialiser { All (λ id. id < length arena.now.constants) (option_to_list initialiser) }
    ensures { Prints (state out.old (S.taken sink.old) (S.faults sink.old)) (state out.new (S.taken sink.new) (S.faults sink.new)) (initialised (tree arena.now.table ty) (option_map (constant_at (constants_of arena.now)) initialiser) (separator_of behind)) }
{
    match initialiser {
        Some(id) => {
            put_type(out, sink, arena.types(), ty, Separator::Space);
            put_constant(out, sink, arena, ty, id, behind);
        }
        None => put_type(out, sink, arena.types(), ty, behind),
    }
}

/// Puts a variable, with that separator behind it.
pub(crate) fn put_variable<S: Sink>(
    out: &mut Gathered,
    sink: &mut S,
    arena: &Arena,
    variable: &Variable,
    behind: Separator,
)
    requires { KnowsVariable (length arena.now.table.types) (length arena.now.constants) variable.now }
    ensures { Prints (state out.old (S.taken sink.old) (S.faults sink.old)) (state out.new (S.taken sink.new) (S.faults sink.new)) (variable_phrase (variable_view (trees arena.now.table) (constants_of arena.now) variable.now) (separator_of behind)) }
{
    put_global(out, sink, &variable.name, Separator::Space);
    put_token(out, sink, b"=", Separator::Space);
    put_variable_linkage(out, sink, arena, variable.initialiser, variable.linkage);
    put_constness(out, sink, variable.constant);
    put_initialised(
        out,
        sink,
        arena,
        variable.ty,
        variable.initialiser,
        before_alignment(variable.alignment, behind),
    );
    put_alignment(out, sink, variable.alignment, behind);
}
