//! Constants (LangRef, "Constants" and "Constant Expressions").
ghost use Rattle.std.specs.Prelude.{◌<◌, length, All};
ghost use Rattle.ir_printer.specs.Gathered.Told.{state};
ghost use Rattle.canonical.specs.Phrase.{listed};
ghost use Rattle.canonical.specs.Constants.{constant_phrase, constant_phrases, typed_constant};
ghost use Rattle.type_table.specs.Types.{trees, tree};
ghost use Rattle.module_arena.specs.View.{constants_of, constant_at, constants_at};
ghost use Rattle.ir_printer.specs.Phrases.Printing.{separator_of, Prints};
ghost use Rattle.ir_printer.specs.Phrases.Parts.{IsPart, element_address, cast, binary};

use crate::gathered::Gathered;
use crate::phrases::brackets::{last_in, put_bracket, put_bracket_behind};
use crate::phrases::flags::{put_address_flags, put_flags};
use crate::phrases::integers::{put_integer, put_truth};
use crate::phrases::names::{put_byte_string, put_global};
use crate::phrases::separator::Separator;
use crate::phrases::tokens::{put_comma, put_token};
use crate::phrases::types::put_type;
use ir_base::Sink;
use ir_tables::{Flags, Opcode};
use module_arena::{Arena, Const, ConstAddress, ConstId, ConstPair, TypedConst};
use type_table::TypeId;

/// Puts the constant with that id, at that type.
#[cycle(constants)]
pub fn put_constant<S: Sink>(
    out: &mut Gathered,
    sink: &mut S,
    arena: &Arena,
    ty: TypeId,
    constant: ConstId,
    behind: Separator,
)
    requires ty { ty < length arena.now.table.types }
    requires constant { constant < length arena.now.constants }
    ensures { Prints (state out.old (S.taken sink.old) (S.faults sink.old)) (state out.new (S.taken sink.new) (S.faults sink.new)) (constant_phrase (tree arena.now.table ty) (constant_at (constants_of arena.now) constant) (separator_of behind)) }
{
    // What holds of each arena.
    let _count = arena.variable_count();
    match arena.constant(constant) {
        Const::Integer(value) => put_integer(out, sink, arena.types(), ty, *value, behind),
        Const::Truth(value) => put_truth(out, sink, *value, behind),
        Const::Null => put_token(out, sink, b"null", behind),
        Const::Undef => put_token(out, sink, b"undef", behind),
        Const::Poison => put_token(out, sink, b"poison", behind),
        Const::ZeroInitializer => put_token(out, sink, b"zeroinitializer", behind),
        Const::Address(entry) => put_global(out, sink, arena.name(*entry), behind),
        Const::ByteString(bytes) => put_byte_string(out, sink, bytes.bytes(), behind),
        Const::Aggregate(brackets, elements) => {
            let parts = elements.as_slice();
            put_bracket(out, sink, *brackets, parts.len());
            put_constants(out, sink, arena, parts, last_in(*brackets));
            put_bracket_behind(out, sink, *brackets, behind);
        }
        Const::ElementAddress(flags, address) => {
            put_element_address(out, sink, arena, *flags, address.get(), behind);
        }
        Const::Cast(opcode, operand, to) => {
            put_cast(out, sink, arena, *opcode, *operand, *to, behind);
        }
        Const::Binary(opcode, flags, pair) => {
            put_binary(out, sink, arena, *opcode, *flags, *pair.get(), behind);
        }
    }
}

/// Puts a constant with its type.
#[cycle(constants)]
pub fn put_typed<S: Sink>(
    out: &mut Gathered,
    sink: &mut S,
    arena: &Arena,
    part: TypedConst,
    behind: Separator,
)
    requires { IsPart arena.now part }
    ensures { Prints (state out.old (S.taken sink.old) (S.faults sink.old)) (state out.new (S.taken sink.new) (S.faults sink.new)) (typed_constant (tree arena.now.table part.ty) (constant_at (constants_of arena.now) part.value) (separator_of behind)) }
{
    put_type(out, sink, arena.types(), part.ty, Separator::Space);
    put_constant(out, sink, arena, part.ty, part.value, behind);
}

/// Puts constants with their types, with commas between them.
#[cycle(constants)]
fn put_constants<S: Sink>(
    out: &mut Gathered,
    sink: &mut S,
    arena: &Arena,
    parts: &[TypedConst],
    behind: Separator,
)
    requires { All (IsPart arena.now) parts.now }
    ensures { Prints (state out.old (S.taken sink.old) (S.faults sink.old)) (state out.new (S.taken sink.new) (S.faults sink.new)) (listed (constant_phrases (constants_at (trees arena.now.table) (constants_of arena.now) parts.now)) (separator_of behind)) }
{
    'parts: for place in 0..parts.len() {
        let others = parts.len() - 1 - place;
        put_typed(out, sink, arena, parts[place], behind.before(others));
        put_comma(out, sink, others);
    }
}

/// Puts a `getelementptr`.
#[cycle(constants)]
fn put_element_address<S: Sink>(
    out: &mut Gathered,
    sink: &mut S,
    arena: &Arena,
    flags: Flags,
    address: &ConstAddress,
    behind: Separator,
)
    requires source { address.now.source < length arena.now.table.types }
    requires operands { All (IsPart arena.now) address.now.operands }
    ensures { Prints (state out.old (S.taken sink.old) (S.faults sink.old)) (state out.new (S.taken sink.new) (S.faults sink.new)) (element_address arena.now flags address.now (separator_of behind)) }
{
    put_token(out, sink, b"getelementptr", Separator::Space);
    put_address_flags(out, sink, flags);
    put_token(out, sink, b"(", Separator::Nothing);
    put_type(out, sink, arena.types(), address.source, Separator::Nothing);
    put_token(out, sink, b",", Separator::Space);
    put_constants(
        out,
        sink,
        arena,
        address.operands.as_slice(),
        Separator::Nothing,
    );
    put_token(out, sink, b")", behind);
}

/// Puts a cast.
#[cycle(constants)]
fn put_cast<S: Sink>(
    out: &mut Gathered,
    sink: &mut S,
    arena: &Arena,
    opcode: Opcode,
    operand: TypedConst,
    to: TypeId,
    behind: Separator,
)
    requires operand { IsPart arena.now operand }
    requires to { to < length arena.now.table.types }
    ensures { Prints (state out.old (S.taken sink.old) (S.faults sink.old)) (state out.new (S.taken sink.new) (S.faults sink.new)) (cast arena.now opcode operand to (separator_of behind)) }
{
    put_token(out, sink, opcode.word().as_bytes(), Separator::Space);
    put_token(out, sink, b"(", Separator::Nothing);
    put_typed(out, sink, arena, operand, Separator::Space);
    put_token(out, sink, b"to", Separator::Space);
    put_type(out, sink, arena.types(), to, Separator::Nothing);
    put_token(out, sink, b")", behind);
}

/// Puts a sum, a difference or an exclusive or.
#[cycle(constants)]
fn put_binary<S: Sink>(
    out: &mut Gathered,
    sink: &mut S,
    arena: &Arena,
    opcode: Opcode,
    flags: Flags,
    pair: ConstPair,
    behind: Separator,
)
    requires left { IsPart arena.now pair.left }
    requires right { IsPart arena.now pair.right }
    ensures { Prints (state out.old (S.taken sink.old) (S.faults sink.old)) (state out.new (S.taken sink.new) (S.faults sink.new)) (binary arena.now opcode flags pair (separator_of behind)) }
{
    put_token(out, sink, opcode.word().as_bytes(), Separator::Space);
    put_flags(out, sink, flags);
    put_token(out, sink, b"(", Separator::Nothing);
    put_typed(out, sink, arena, pair.left, Separator::Nothing);
    put_token(out, sink, b",", Separator::Space);
    put_typed(out, sink, arena, pair.right, Separator::Nothing);
    put_token(out, sink, b")", behind);
}
