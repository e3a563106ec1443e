//! Named structs (LangRef, "Structure Type").
ghost use Rattle.std.specs.Prelude.{◌<◌, length, option_copied};
ghost use Rattle.ir_printer.specs.Gathered.Told.{state};
ghost use Rattle.type_table.specs.Types.{trees, tree_body, KnowsBody};
ghost use Rattle.canonical.specs.Canonical.{body_phrase};
ghost use Rattle.ir_printer.specs.Phrases.Printing.{separator_of, Prints};
ghost use Rattle.ir_printer.specs.Listed.{struct_line};

use crate::gathered::Gathered;
use crate::phrases::{Separator, put_struct_body, put_struct_name, put_token};
use ir_base::Sink;
use type_table::{StructBody, StructId, TypeTable};

/// Puts what a struct is: opaque where it has no body.
fn put_body<S: Sink>(
    out: &mut Gathered,
    sink: &mut S,
    types: &TypeTable,
    body: Option<&StructBody>,
    behind: Separator,
)
    requires { KnowsBody (length types.now.types) (option_copied body) }
    ensures { Prints (state out.old (S.taken sink.old) (S.faults sink.old)) (state out.new (S.taken sink.new) (S.faults sink.new)) (body_phrase (tree_body (trees types.now) (option_copied body.entry)) (separator_of behind)) }
{
    match body {
        Some(body) => put_struct_body(out, sink, types, body, behind),
        None => put_token(out, sink, b"opaque", behind),
    }
}

/// Puts the struct with that id, with that separator behind it.
pub(crate) fn put_struct<S: Sink>(
    out: &mut Gathered,
    sink: &mut S,
    types: &TypeTable,
    id: StructId,
    behind: Separator,
)
    requires { id < length types.now.structs }
    ensures { Prints (state out.old (S.taken sink.old) (S.faults sink.old)) (state out.new (S.taken sink.new) (S.faults sink.new)) (struct_line types.now id (separator_of behind)) }
{
    // What holds of the structs of each table.
    let _count = types.type_count();
    put_struct_name(out, sink, types.struct_name(id), Separator::Space);
    put_token(out, sink, b"=", Separator::Space);
    put_token(out, sink, b"type", Separator::Space);
    put_body(out, sink, types, types.struct_body(id), behind);
}
