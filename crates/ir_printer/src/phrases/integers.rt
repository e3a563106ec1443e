//! Integers and truths (LangRef, "Simple Constants").
ghost use Rattle.std.specs.Prelude.{◌≤◌, ◌<◌, length};
ghost use Rattle.ir_printer.specs.Gathered.Told.{state};
ghost use Rattle.canonical.specs.Constants.{truth, integer_phrase};
ghost use Rattle.type_table.specs.Tree.{int};
ghost use Rattle.type_table.specs.Types.{tree};
ghost use Rattle.ir_printer.specs.Phrases.Printing.{separator_of, Prints};

use crate::gathered::Gathered;
use crate::phrases::numbers::put_signed;
use crate::phrases::separator::Separator;
use crate::phrases::tokens::put_token;
use ir_base::Sink;
use ir_tables::WIDEST;
use type_table::{IrType, TypeId, TypeTable};

/// Puts `true` or `false`.
pub(crate) fn put_truth<S: Sink>(out: &mut Gathered, sink: &mut S, value: bool, behind: Separator)
    ensures { Prints (state out.old (S.taken sink.old) (S.faults sink.old)) (state out.new (S.taken sink.new) (S.faults sink.new)) (truth value (separator_of behind)) }
{
    if value {
        put_token(out, sink, b"true", behind);
    } else {
        put_token(out, sink, b"false", behind);
    }
}

/// Puts an integer of that width in bits, from 1 to 128: with its sign, and at i1 as a truth.
fn put_integer_of<S: Sink>(
    out: &mut Gathered,
    sink: &mut S,
    width: u8,
    value: u128,
    behind: Separator,
)
    requires wide { 1 ≤ width }
    requires narrow { width ≤ WIDEST }
    ensures { Prints (state out.old (S.taken sink.old) (S.faults sink.old)) (state out.new (S.taken sink.new) (S.faults sink.new)) (integer_phrase (int width) value (separator_of behind)) }
{
    if width == 1 {
        put_truth(out, sink, value == 1, behind);
    } else {
        put_signed(out, sink, width, value, behind);
    }
}

/// Puts an integer at a type: with its sign, and at i1 as a truth.
pub(crate) fn put_integer<S: Sink>(
    out: &mut Gathered,
    sink: &mut S,
    types: &TypeTable,
    ty: TypeId,
    value: u128,
    behind: Separator,
)
    requires { ty < length types.now.types }
    ensures { Prints (state out.old (S.taken sink.old) (S.faults sink.old)) (state out.new (S.taken sink.new) (S.faults sink.new)) (integer_phrase (tree types.now ty) value (separator_of behind)) }
{
    // What holds of the types of each table.
    let _count = types.type_count();
    match types.get(ty) {
        IrType::Int(width) => put_integer_of(out, sink, *width, value, behind),
        IrType::Ptr => put_signed(out, sink, WIDEST, value, behind),
        IrType::Void => put_signed(out, sink, WIDEST, value, behind),
        IrType::Array(_, _) => put_signed(out, sink, WIDEST, value, behind),
        IrType::Struct(_, _) => put_signed(out, sink, WIDEST, value, behind),
        IrType::Named(_) => put_signed(out, sink, WIDEST, value, behind),
    }
}
