//! The host functions: those that a run reaches where no part defines them.
ghost use Rattle.std.specs.Prelude.{◌≡◌, ◌<◌, All, Some, false, map, find, bytes_eq, length, slice_get};
ghost use Rattle.type_table.specs.Types.{tree};
ghost use Rattle.module_arena.specs.Module as modules;
ghost use Rattle.module_arena.specs.View.{module_of};
ghost use Rattle.module_arena.specs.Same.{same_type};
ghost use Rattle.module_arena.specs.HostRows.{fixed_name, host_rows, host_row, pair_tree, integer_returns, integer_parameters, same_type_list, is_declared_as};
ghost use Rattle.module_arena.specs.Known.{KnowsFunction};
ghost use Rattle.module_arena.specs.Changes.{function_in};
ghost use Rattle.module_arena.specs.HostTypes.{host_tree, is_of, is_declared_with, first_types, has_short_form, is_declared_by_forms};

use crate::{Arena, Function, FunctionId, Parameter};
use ir_tables::Intrinsic;
use type_table::{IrType, TypeId, TypeTable};

/// A host function, one variant a name, but for the intrinsics over integers. The variants that end in a width take
/// counts of bytes of that width.
#[derive(Clone, Copy)]
pub enum HostRow {
    /// `putchar`: writes a byte.
    Putchar,
    /// `puts`: writes a string and a line feed.
    Puts,
    /// `getchar`: the next byte of the input, or -1 at its end.
    Getchar,
    /// `exit`: ends the run with the low byte of an `i32`.
    Exit,
    /// `abort`: ends the run with status 134.
    Abort,
    /// `malloc`: makes a block of the heap.
    Malloc,
    /// `free`: ends a block that `malloc` gave, and does nothing at the address 0.
    Free,
    /// `memcpy`: copies bytes from a place to another, which do not overlap.
    Memcpy,
    /// `memmove`: copies bytes from a place to another, which may overlap.
    Memmove,
    /// `memset`: fills with the low byte of an `i32`.
    Memset,
    /// `strlen`: how many bytes stand before the first zero.
    Strlen,
    /// `llvm.memcpy.p0.p0.i64`: copies as `memcpy` does, and gives nothing.
    MemcpyI64,
    /// `llvm.memmove.p0.p0.i64`: copies as `memmove` does, and gives nothing.
    MemmoveI64,
    /// `llvm.memset.p0.i64`: fills with an `i8`, and gives nothing.
    MemsetI64,
    /// `llvm.memcpy.p0.p0.i32`: copies as `memcpy` does, and gives nothing.
    MemcpyI32,
    /// `llvm.memmove.p0.p0.i32`: copies as `memmove` does, and gives nothing.
    MemmoveI32,
    /// `llvm.memset.p0.i32`: fills with an `i8`, and gives nothing.
    MemsetI32,
    /// `llvm.lifetime.start.p0`: nothing happens.
    LifetimeStart,
    /// `llvm.lifetime.end.p0`: nothing happens.
    LifetimeEnd,
    /// `printf`: writes the text of a pattern and its arguments.
    Printf,
    /// An intrinsic over integers, at a width in bits.
    Integer(Intrinsic, u8),
}

/// How many host functions have a name of their own.
const COUNT: usize = 20;

/// Those, in the order of the table.
static ROWS: [HostRow; COUNT] = [
    HostRow::Putchar,
    HostRow::Puts,
    HostRow::Getchar,
    HostRow::Exit,
    HostRow::Abort,
    HostRow::Malloc,
    HostRow::Free,
    HostRow::Memcpy,
    HostRow::Memmove,
    HostRow::Memset,
    HostRow::Strlen,
    HostRow::MemcpyI64,
    HostRow::MemmoveI64,
    HostRow::MemsetI64,
    HostRow::MemcpyI32,
    HostRow::MemmoveI32,
    HostRow::MemsetI32,
    HostRow::LifetimeStart,
    HostRow::LifetimeEnd,
    HostRow::Printf,
];

impl HostRow {
    /// The name of the function, where it is one of its own.
    fn fixed_name(self) -> &'static [u8]
        ensures { result.now ≡ fixed_name self }
    {
        match self {
            HostRow::Putchar => b"putchar",
            HostRow::Puts => b"puts",
            HostRow::Getchar => b"getchar",
            HostRow::Exit => b"exit",
            HostRow::Abort => b"abort",
            HostRow::Malloc => b"malloc",
            HostRow::Free => b"free",
            HostRow::Memcpy => b"memcpy",
            HostRow::Memmove => b"memmove",
            HostRow::Memset => b"memset",
            HostRow::Strlen => b"strlen",
            HostRow::MemcpyI64 => b"llvm.memcpy.p0.p0.i64",
            HostRow::MemmoveI64 => b"llvm.memmove.p0.p0.i64",
            HostRow::MemsetI64 => b"llvm.memset.p0.i64",
            HostRow::MemcpyI32 => b"llvm.memcpy.p0.p0.i32",
            HostRow::MemmoveI32 => b"llvm.memmove.p0.p0.i32",
            HostRow::MemsetI32 => b"llvm.memset.p0.i32",
            HostRow::LifetimeStart => b"llvm.lifetime.start.p0",
            HostRow::LifetimeEnd => b"llvm.lifetime.end.p0",
            HostRow::Printf => b"printf",
            HostRow::Integer(_, _) => b"",
        }
    }
}

/// The row with that name of its own.
fn fixed_row(name: &[u8]) -> Option<HostRow>
    ensures { result ≡ find (λ row. bytes_eq (fixed_name row) name.now) host_rows }
{
    ROWS.iter().copied().find(|row| row.fixed_name() == name)
}

/// The row with that name, and None exactly where no row has the name.
///
/// ```
/// host_row(b"puts") // Some(HostRow::Puts)
/// host_row(b"llvm.ctpop.i32") // Some(HostRow::Integer(Intrinsic::Ctpop, 32))
/// host_row(b"open") // None
/// ```
pub fn host_row(name: &[u8]) -> Option<HostRow>
    ensures { result ≡ host_row name.now }
{
    if let Some(row) = fixed_row(name) {
        return Some(row);
    }
    match Intrinsic::of_name(name) {
        Some((which, width)) => Some(HostRow::Integer(which, width)),
        None => None,
    }
}

/// A type that a host function is declared with.
#[derive(Clone, Copy)]
pub(crate) enum HostType {
    /// An integer of a width in bits.
    Int(u8),
    /// A pointer.
    Ptr,
    /// No value.
    Void,
    /// A struct of an integer of that width and an i1.
    Pair(u8),
}

use HostType::{Int, Pair, Ptr, Void};

/// Whether the type, without its parts, is that one.
fn is_of(ty: &IrType, wanted: HostType) -> bool
    ensures { result ≡ is_of ty.now wanted }
{
    match ty {
        IrType::Int(width) => matches!(wanted, Int(other) if other == *width),
        IrType::Ptr => matches!(wanted, Ptr),
        IrType::Void => matches!(wanted, Void),
        IrType::Array(_, _) | IrType::Struct(_, _) | IrType::Named(_) => false,
    }
}

/// Whether the type is a struct of an integer of that width and an i1.
fn is_pair(types: &TypeTable, ty: TypeId, width: u8) -> bool
    requires { ty < length types.now.types }
    ensures { result ≡ same_type (tree types.now ty) (pair_tree width) }
{
    // The parts of each type of a table are earlier types.
    let _count = types.type_count();
    let IrType::Struct(packed, fields) = types.get(ty) else {
        return false;
    };
    if *packed {
        return false;
    }
    if fields.len() != 2 {
        return false;
    }
    let first = *fields.at(0);
    let second = *fields.at(1);
    let is_number = is_of(types.get(first), Int(width));
    let is_bit = is_of(types.get(second), Int(1));
    is_number & is_bit
}

/// Whether the type is that one.
fn is_host_type(types: &TypeTable, ty: TypeId, wanted: HostType) -> bool
    requires { ty < length types.now.types }
    ensures { result ≡ same_type (tree types.now ty) (host_tree wanted) }
{
    if let Pair(width) = wanted {
        return is_pair(types, ty, width);
    }
    let _count = types.type_count();
    is_of(types.get(ty), wanted)
}

/// Whether the parameters have these types, in order.
fn have_host_types(types: &TypeTable, parameters: &[Parameter], wanted: &[HostType]) -> bool
    requires { All (λ p. p.ty < length types.now.types) parameters.now }
    ensures { result ≡ same_type_list (map (λ p. tree types.now p.ty) parameters.now) (map host_tree wanted.now) }
{
    if parameters.len() != wanted.len() {
        return false;
    }
    for (index, parameter) in parameters.iter().enumerate() {
        if !is_host_type(types, parameter.ty, wanted[index]) {
            return false;
        }
    }
    true
}

/// Whether the function is declared with these types.
fn is_declared_with(
    arena: &Arena,
    function: &Function,
    returns: HostType,
    parameters: &[HostType],
    variadic: bool,
) -> bool
    requires { KnowsFunction (length arena.now.table.types) (length arena.now.constants) function.now }
    ensures { result ≡ is_declared_with (function_in arena.now function.now) (host_tree returns) (map host_tree parameters.now) variadic }
{
    let types = arena.types();
    let undefined = function.body.is_none();
    let returned = is_host_type(types, function.result, returns);
    let taken = have_host_types(types, function.parameters.as_slice(), parameters);
    undefined & returned & taken & (function.variadic == variadic)
}

/// The return type and the parameters of a row with a name of its own, the first ones where it has two.
fn types_of(row: HostRow) -> (HostType, &'static [HostType])
    ensures returns { host_tree result.0 ≡ (first_types row).returns }
    ensures parameters { map host_tree result.1.now ≡ (first_types row).parameters }
{
    match row {
        HostRow::Putchar => (Int(32), &[Int(32)]),
        HostRow::Puts => (Int(32), &[Ptr]),
        HostRow::Getchar => (Int(32), &[]),
        HostRow::Exit => (Void, &[Int(32)]),
        HostRow::Abort => (Void, &[]),
        HostRow::Malloc => (Ptr, &[Int(64)]),
        HostRow::Free => (Void, &[Ptr]),
        HostRow::Memcpy | HostRow::Memmove => (Ptr, &[Ptr, Ptr, Int(64)]),
        HostRow::Memset => (Ptr, &[Ptr, Int(32), Int(64)]),
        HostRow::Strlen => (Int(64), &[Ptr]),
        HostRow::MemcpyI64 | HostRow::MemmoveI64 => (Void, &[Ptr, Ptr, Int(64), Int(1)]),
        HostRow::MemsetI64 => (Void, &[Ptr, Int(8), Int(64), Int(1)]),
        HostRow::MemcpyI32 | HostRow::MemmoveI32 => (Void, &[Ptr, Ptr, Int(32), Int(1)]),
        HostRow::MemsetI32 => (Void, &[Ptr, Int(8), Int(32), Int(1)]),
        HostRow::LifetimeStart | HostRow::LifetimeEnd => (Void, &[Int(64), Ptr]),
        HostRow::Printf => (Int(32), &[Ptr]),
        HostRow::Integer(_, _) => (Void, &[]),
    }
}

/// Whether the function may have further arguments.
fn is_variadic(row: HostRow) -> bool
    ensures { result ≡ (first_types row).variadic }
{
    matches!(row, HostRow::Printf)
}

/// Whether the function may be declared and called with a pointer alone, too.
pub fn has_short_form(row: HostRow) -> bool
    ensures { result ≡ has_short_form row }
{
    matches!(row, HostRow::LifetimeStart | HostRow::LifetimeEnd)
}

/// Whether the function is declared as that intrinsic.
fn integer_fits(arena: &Arena, function: &Function, which: Intrinsic, width: u8) -> bool
    requires { KnowsFunction (length arena.now.table.types) (length arena.now.constants) function.now }
    ensures { result ≡ is_declared_with (function_in arena.now function.now) (integer_returns which width) (integer_parameters which width) false }
{
    let (number, bit) = (Int(width), Int(1));
    match which {
        Intrinsic::Ctpop | Intrinsic::Bswap | Intrinsic::Bitreverse => {
            is_declared_with(arena, function, number, &[number], false)
        }
        Intrinsic::Ctlz | Intrinsic::Cttz | Intrinsic::Abs => {
            is_declared_with(arena, function, number, &[number, bit], false)
        }
        Intrinsic::Smin
        | Intrinsic::Smax
        | Intrinsic::Umin
        | Intrinsic::Umax
        | Intrinsic::SaddSat
        | Intrinsic::UaddSat
        | Intrinsic::SsubSat
        | Intrinsic::UsubSat => is_declared_with(arena, function, number, &[number, number], false),
        Intrinsic::SaddWithOverflow
        | Intrinsic::UaddWithOverflow
        | Intrinsic::SsubWithOverflow
        | Intrinsic::UsubWithOverflow
        | Intrinsic::SmulWithOverflow
        | Intrinsic::UmulWithOverflow => {
            is_declared_with(arena, function, Pair(width), &[number, number], false)
        }
        Intrinsic::Fshl | Intrinsic::Fshr => {
            is_declared_with(arena, function, number, &[number, number, number], false)
        }
    }
}

/// Whether the function is declared with a type of a row with a name of its own.
fn fixed_fits(arena: &Arena, function: &Function, row: HostRow) -> bool
    requires { KnowsFunction (length arena.now.table.types) (length arena.now.constants) function.now }
    ensures { result ≡ is_declared_by_forms row (function_in arena.now function.now) }
{
    let (returns, parameters) = types_of(row);
    let first = is_declared_with(arena, function, returns, parameters, is_variadic(row));
    let short = is_declared_with(arena, function, Void, &[Ptr], false);
    first | (has_short_form(row) & short)
}

/// Whether the function is declared with a type of the row.
pub fn host_row_fits(row: HostRow, arena: &Arena, function: FunctionId) -> bool
    requires { function < length arena.now.functions }
    ensures { (f : modules.Function) → slice_get (module_of arena.now).functions function ≡ Some f → result ≡ is_declared_as row f }
{
    // The types of each function of an arena are types of the arena.
    let _count = arena.variable_count();
    let declared = arena.function(function);
    match row {
        HostRow::Integer(which, width) => integer_fits(arena, declared, which, width),
        _ => fixed_fits(arena, declared, row),
    }
}
