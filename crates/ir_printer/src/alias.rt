//! Aliases (LangRef, "Aliases").
ghost use Rattle.std.specs.Prelude.{◌<◌, [], length, option_to_list, All};
ghost use Rattle.std.specs.Option.{option_map_or};
ghost use Rattle.ir_printer.specs.Gathered.Told.{state};
ghost use Rattle.type_table.specs.Types.{trees};
ghost use Rattle.module_arena.specs.Known.{HasGlobal, KnowsAlias, alias_types, counts};
ghost use Rattle.module_arena.specs.Lists.{name_at};
ghost use Rattle.module_arena.specs.View.{alias_type_view, alias_view};
ghost use Rattle.canonical.specs.Canonical.{alias_type, alias_phrase, function_type};
ghost use Rattle.canonical.specs.Names.{global};
ghost use Rattle.ir_printer.specs.Phrases.Printing.{separator_of, Prints};
ghost use Rattle.ir_printer.specs.Listed.{dotted_list, signature_of};

use crate::gathered::Gathered;
use crate::instructions::put_dotted;
use crate::linkage::put_linkage;
use crate::phrases::{Separator, put_global, put_token, put_type, put_types};
use ir_base::Sink;
use module_arena::{Alias, AliasType, Arena, GlobalId};
use type_table::{TypeId, TypeTable};

/// Puts the types of parameters, and `...` where there may be more.
fn put_parameter_types<S: Sink>(
    out: &mut Gathered,
    sink: &mut S,
    types: &TypeTable,
    parts: &[TypeId],
    variadic: bool,
)
    requires { All (λ part. part < length types.now.types) parts.now }
    ensures { Prints (state out.old (S.taken sink.old) (S.faults sink.old)) (state out.new (S.taken sink.new) (S.faults sink.new)) (dotted_list types.now parts.now variadic) }
{
    if variadic {
        put_dotted(out, sink, types, parts);
    } else {
        put_types(out, sink, types, parts, Separator::Nothing);
    }
}

/// Puts a function type.
fn put_function_type<S: Sink>(
    out: &mut Gathered,
    sink: &mut S,
    types: &TypeTable,
    returns: TypeId,
    parameters: &[TypeId],
    variadic: bool,
    behind: Separator,
)
    requires returns { returns < length types.now.types }
    requires parameters { All (λ part. part < length types.now.types) parameters.now }
    ensures { Prints (state out.old (S.taken sink.old) (S.faults sink.old)) (state out.new (S.taken sink.new) (S.faults sink.new)) (function_type (signature_of types.now returns parameters.now variadic) (separator_of behind)) }
{
    put_type(out, sink, types, returns, Separator::Space);
    put_token(out, sink, b"(", Separator::Nothing);
    put_parameter_types(out, sink, types, parameters, variadic);
    put_token(out, sink, b")", behind);
}

/// Puts the type of an alias.
fn put_alias_type<S: Sink>(
    out: &mut Gathered,
    sink: &mut S,
    types: &TypeTable,
    ty: &AliasType,
    behind: Separator,
)
    requires { All (λ part. part < length types.now.types) (alias_types ty.now) }
    ensures { Prints (state out.old (S.taken sink.old) (S.faults sink.old)) (state out.new (S.taken sink.new) (S.faults sink.new)) (alias_type (alias_type_view (trees types.now) ty.now) (separator_of behind)) }
{
    match ty {
        AliasType::Plain(ty) => put_type(out, sink, types, *ty, behind),
        AliasType::Function(returns, parameters, variadic) => put_function_type(
            out,
            sink,
            types,
            *returns,
            parameters.as_slice(),
            *variadic,
            behind,
        ),
    }
}

/// Puts the name of a target; an alias that has none has an empty name there.
fn put_target_name<S: Sink>(
    out: &mut Gathered,
    sink: &mut S,
    arena: &Arena,
    target: Option<GlobalId>,
    behind: Separator,
)
    requires { All (HasGlobal (counts arena.now)) (option_to_list target) }
    ensures { Prints (state out.old (S.taken sink.old) (S.faults sink.old)) (state out.new (S.taken sink.new) (S.faults sink.new)) (global (option_map_or (name_at arena.now) target []) (separator_of behind)) }
{
    match target {
        Some(id) => put_global(out, sink, arena.name(id), behind),
        None => put_token(out, sink, b"@\"\"", behind),
    }
}

/// Puts an alias, with that separator behind it.
pub(crate) fn put_alias<S: Sink>(
    out: &mut Gathered,
    sink: &mut S,
    arena: &Arena,
    alias: &Alias,
    behind: Separator,
)
    requires { KnowsAlias (length arena.now.table.types) (counts arena.now) alias.now }
    ensures { Prints (state out.old (S.taken sink.old) (S.faults sink.old)) (state out.new (S.taken sink.new) (S.faults sink.new)) (alias_phrase (alias_view (trees arena.now.table) (name_at arena.now) alias.now) (separator_of behind)) }
{
    put_global(out, sink, &alias.name, Separator::Space);
    put_token(out, sink, b"=", Separator::Space);
    put_linkage(out, sink, alias.linkage);
    put_token(out, sink, b"alias", Separator::Space);
    put_alias_type(out, sink, arena.types(), &alias.ty, Separator::Nothing);
    put_token(out, sink, b",", Separator::Space);
    put_token(out, sink, b"ptr", Separator::Space);
    put_target_name(out, sink, arena, alias.target, behind);
}
