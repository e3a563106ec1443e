//! Types (LangRef, "Type System").
ghost use Rattle.std.specs.Prelude.{◌<◌, length, All, Some};
ghost use Rattle.ir_printer.specs.Gathered.Told.{state};
ghost use Rattle.canonical.specs.Phrase.{listed};
ghost use Rattle.canonical.specs.Types.{type_phrase, type_phrases, in_braces};
ghost use Rattle.canonical.specs.Canonical.{body_phrase};
ghost use Rattle.type_table.specs.Tree.{int};
ghost use Rattle.type_table.specs.Types.{trees, tree, trees_at, tree_body, IsKnownBody};
ghost use Rattle.ir_printer.specs.Phrases.Printing.{separator_of, brace, opening, closing, Prints};

use crate::gathered::Gathered;
use crate::phrases::names::put_struct_name;
use crate::phrases::numbers::{put_digits, put_natural};
use crate::phrases::separator::Separator;
use crate::phrases::tokens::{put_comma, put_token};
use ir_base::Sink;
use type_table::{IrType, StructBody, TypeId, TypeTable};

/// Puts the type of integers with that width.
fn put_integer_type<S: Sink>(out: &mut Gathered, sink: &mut S, width: u8, behind: Separator)
    ensures { Prints (state out.old (S.taken sink.old) (S.faults sink.old)) (state out.new (S.taken sink.new) (S.faults sink.new)) (type_phrase (int width) (separator_of behind)) }
{
    out.put(sink, b"i");
    put_digits(out, sink, u128::from(width));
    out.put(sink, behind.bytes());
}

/// Puts what stands before so many fields of a struct.
pub(crate) fn put_opening<S: Sink>(out: &mut Gathered, sink: &mut S, packed: bool, count: usize)
    ensures { Prints (state out.old (S.taken sink.old) (S.faults sink.old)) (state out.new (S.taken sink.new) (S.faults sink.new)) (opening packed count) }
{
    if packed {
        put_token(out, sink, b"<", Separator::Nothing);
        put_brace(out, sink, count);
    } else {
        put_brace(out, sink, count);
    }
}

/// Puts the opening brace before so many fields: one space follows it, but none where there are no fields.
fn put_brace<S: Sink>(out: &mut Gathered, sink: &mut S, count: usize)
    ensures { Prints (state out.old (S.taken sink.old) (S.faults sink.old)) (state out.new (S.taken sink.new) (S.faults sink.new)) (brace count) }
{
    if count == 0 {
        put_token(out, sink, b"{", Separator::Nothing);
    } else {
        put_token(out, sink, b"{", Separator::Space);
    }
}

/// Puts what stands behind the fields of a struct.
pub(crate) fn put_closing<S: Sink>(
    out: &mut Gathered,
    sink: &mut S,
    packed: bool,
    behind: Separator,
)
    ensures { Prints (state out.old (S.taken sink.old) (S.faults sink.old)) (state out.new (S.taken sink.new) (S.faults sink.new)) (closing packed (separator_of behind)) }
{
    if packed {
        put_token(out, sink, b"}", Separator::Nothing);
        put_token(out, sink, b">", behind);
    } else {
        put_token(out, sink, b"}", behind);
    }
}

/// Puts the type with that id.
#[cycle(types)]
pub fn put_type<S: Sink>(
    out: &mut Gathered,
    sink: &mut S,
    types: &TypeTable,
    ty: TypeId,
    behind: Separator,
)
    requires { ty < length types.now.types }
    ensures { Prints (state out.old (S.taken sink.old) (S.faults sink.old)) (state out.new (S.taken sink.new) (S.faults sink.new)) (type_phrase (tree types.now ty) (separator_of behind)) }
{
    // What holds of the types of each table.
    let _count = types.type_count();
    match types.get(ty) {
        IrType::Int(width) => put_integer_type(out, sink, *width, behind),
        IrType::Ptr => put_token(out, sink, b"ptr", behind),
        IrType::Void => put_token(out, sink, b"void", behind),
        IrType::Array(count, element) => {
            put_token(out, sink, b"[", Separator::Nothing);
            put_natural(out, sink, *count, Separator::Space);
            put_token(out, sink, b"x", Separator::Space);
            put_type(out, sink, types, *element, Separator::Nothing);
            put_token(out, sink, b"]", behind);
        }
        IrType::Struct(packed, fields) => {
            let parts = fields.as_slice();
            put_opening(out, sink, *packed, parts.len());
            put_types(out, sink, types, parts, Separator::Space);
            put_closing(out, sink, *packed, behind);
        }
        IrType::Named(id) => put_struct_name(out, sink, types.struct_name(*id), behind),
    }
}

/// Puts the types with those ids, with commas between them.
#[cycle(types)]
pub fn put_types<S: Sink>(
    out: &mut Gathered,
    sink: &mut S,
    types: &TypeTable,
    parts: &[TypeId],
    behind: Separator,
)
    requires { All (λ part. part < length types.now.types) parts.now }
    ensures { Prints (state out.old (S.taken sink.old) (S.faults sink.old)) (state out.new (S.taken sink.new) (S.faults sink.new)) (listed (type_phrases (trees_at (trees types.now) parts.now)) (separator_of behind)) }
{
    'parts: for place in 0..parts.len() {
        let others = parts.len() - 1 - place;
        put_type(out, sink, types, parts[place], behind.before(others));
        put_comma(out, sink, others);
    }
}

/// Puts what a named struct holds.
pub fn put_struct_body<S: Sink>(
    out: &mut Gathered,
    sink: &mut S,
    types: &TypeTable,
    body: &StructBody,
    behind: Separator,
)
    requires { IsKnownBody types.now body.now }
    ensures { Prints (state out.old (S.taken sink.old) (S.faults sink.old)) (state out.new (S.taken sink.new) (S.faults sink.new)) (body_phrase (tree_body (trees types.now) (Some body.now)) (separator_of behind)) }
{
    match body {
        StructBody::Opaque => put_token(out, sink, b"opaque", behind),
        StructBody::Plain(fields) => put_fields(out, sink, types, false, fields.as_slice(), behind),
        StructBody::Packed(fields) => put_fields(out, sink, types, true, fields.as_slice(), behind),
    }
}

/// Puts the types of these fields in the brackets of a struct.
fn put_fields<S: Sink>(
    out: &mut Gathered,
    sink: &mut S,
    types: &TypeTable,
    packed: bool,
    parts: &[TypeId],
    behind: Separator,
)
    requires { All (λ part. part < length types.now.types) parts.now }
    ensures { Prints (state out.old (S.taken sink.old) (S.faults sink.old)) (state out.new (S.taken sink.new) (S.faults sink.new)) (in_braces packed (type_phrases (trees_at (trees types.now) parts.now)) (separator_of behind)) }
{
    put_opening(out, sink, packed, parts.len());
    put_types(out, sink, types, parts, Separator::Space);
    put_closing(out, sink, packed, behind);
}
