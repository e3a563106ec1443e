//! The function types of host functions.
ghost use Rattle.std.specs.Prelude.{◌≡◌, ◌<◌, ◌&&◌, All, [], ◌∷◌, false, length, map};
ghost use Rattle.std.specs.List.{list_any};
ghost use Rattle.module_arena.specs.HostRows.{fixed, host_types, integer_parameters, integer_returns};
ghost use Rattle.module_arena.specs.declared.host.HostRow.TheVariants as HostRow;
ghost use Rattle.module_arena.specs.HostTypes.{has_short_form};
ghost use Rattle.run_rules.specs.Calls.{same_signature};
ghost use Rattle.run_rules.specs.Look.{no_names};
ghost use Rattle.run_rules.specs.Resolve.{signature_in};
ghost use Rattle.run_names.specs.Types.Wanted.{fits_forms, first_type, is_typed, shape_wanted, written_as};
ghost use Rattle.type_table.specs.Shape.{ptr_leaf, void_leaf};

use crate::types::wanted::{Wanted, are_wanted, is_wanted};
use Wanted::{Int, Pair, Ptr, Void};
use ir_tables::Intrinsic;
use module_arena::{HostRow, has_short_form};
use type_table::{TypeId, TypeTable};

/// A function type as a call has it: the ids of its types, and whether it has further arguments.
#[derive(Clone, Copy)]
struct CallType<'t> {
    returns: TypeId,
    parameters: &'t [TypeId],
    variadic: bool,
}

/// Whether the function type is that one.
fn is_type(
    types: &TypeTable,
    written: &CallType<'_>,
    returns: Wanted,
    parameters: &[Wanted],
    variadic: bool,
) -> bool
    requires returns { written.now.returns < length types.now.types }
    requires parameters { All (λ ty. ty < length types.now.types) written.now.parameters.now }
    ensures { result ≡ is_typed (written_as types.now written.now.returns written.now.parameters.now written.now.variadic) (shape_wanted returns) (map shape_wanted parameters.now) variadic }
{
    let returned = is_wanted(types, written.returns, returns);
    let taken = are_wanted(types, written.parameters, parameters);
    returned & taken & (written.variadic == variadic)
}

/// The return type and the parameters of a row with a name of its own, the first ones where it has two.
fn types_of(row: HostRow) -> (Wanted, &'static [Wanted])
    ensures returns { shape_wanted result.0 ≡ (first_type row).returns }
    ensures parameters { map shape_wanted result.1.now ≡ (first_type row).parameters }
{
    match row {
        HostRow::Putchar => (Int(32), &[Int(32)]),
        HostRow::Puts => (Int(32), &[Ptr]),
        HostRow::Getchar => (Int(32), &[]),
        HostRow::Exit => (Void, &[Int(32)]),
        HostRow::Abort => (Void, &[]),
        HostRow::Malloc => (Ptr, &[Int(64)]),
        HostRow::Free => (Void, &[Ptr]),
        HostRow::Memcpy | HostRow::Memmove => (Ptr, &[Ptr, Ptr, Int(64)]),
        HostRow::Memset => (Ptr, &[Ptr, Int(32), Int(64)]),
        HostRow::Strlen => (Int(64), &[Ptr]),
        HostRow::MemcpyI64 | HostRow::MemmoveI64 => (Void, &[Ptr, Ptr, Int(64), Int(1)]),
        HostRow::MemsetI64 => (Void, &[Ptr, Int(8), Int(64), Int(1)]),
        HostRow::MemcpyI32 | HostRow::MemmoveI32 => (Void, &[Ptr, Ptr, Int(32), Int(1)]),
        HostRow::MemsetI32 => (Void, &[Ptr, Int(8), Int(32), Int(1)]),
        HostRow::LifetimeStart | HostRow::LifetimeEnd => (Void, &[Int(64), Ptr]),
        HostRow::Printf => (Int(32), &[Ptr]),
        HostRow::Integer(_, _) => (Void, &[]),
    }
}

/// Whether the function may have further arguments.
fn is_variadic(row: HostRow) -> bool
    ensures { result ≡ (first_type row).variadic }
{
    matches!(row, HostRow::Printf)
}

/// Whether the function type is that of an intrinsic over integers.
fn fits_integer(types: &TypeTable, written: &CallType<'_>, which: Intrinsic, width: u8) -> bool
    requires returns { written.now.returns < length types.now.types }
    requires parameters { All (λ ty. ty < length types.now.types) written.now.parameters.now }
    ensures { result ≡ same_signature (written_as types.now written.now.returns written.now.parameters.now written.now.variadic)
        (signature_in no_names (fixed (integer_returns which width) (integer_parameters which width))) }
{
    let (number, bit) = (Int(width), Int(1));
    match which {
        Intrinsic::Ctpop | Intrinsic::Bswap | Intrinsic::Bitreverse => {
            is_type(types, written, number, &[number], false)
        }
        Intrinsic::Ctlz | Intrinsic::Cttz | Intrinsic::Abs => {
            is_type(types, written, number, &[number, bit], false)
        }
        Intrinsic::Smin
        | Intrinsic::Smax
        | Intrinsic::Umin
        | Intrinsic::Umax
        | Intrinsic::SaddSat
        | Intrinsic::UaddSat
        | Intrinsic::SsubSat
        | Intrinsic::UsubSat => is_type(types, written, number, &[number, number], false),
        Intrinsic::SaddWithOverflow
        | Intrinsic::UaddWithOverflow
        | Intrinsic::SsubWithOverflow
        | Intrinsic::UsubWithOverflow
        | Intrinsic::SmulWithOverflow
        | Intrinsic::UmulWithOverflow => {
            is_type(types, written, Pair(width), &[number, number], false)
        }
        Intrinsic::Fshl | Intrinsic::Fshr => {
            is_type(types, written, number, &[number, number, number], false)
        }
    }
}

/// Whether the function may be called with a pointer alone, and is.
fn fits_short(types: &TypeTable, written: &CallType<'_>, row: HostRow) -> bool
    requires returns { written.now.returns < length types.now.types }
    requires parameters { All (λ ty. ty < length types.now.types) written.now.parameters.now }
    ensures { result ≡ (has_short_form row && is_typed (written_as types.now written.now.returns written.now.parameters.now written.now.variadic) void_leaf (ptr_leaf ∷ []) false) }
{
    if !has_short_form(row) {
        return false;
    }
    is_type(types, written, Void, &[Ptr], false)
}

/// Whether the function type is one of a row with a name of its own.
fn fits_fixed(types: &TypeTable, written: &CallType<'_>, row: HostRow) -> bool
    requires returns { written.now.returns < length types.now.types }
    requires parameters { All (λ ty. ty < length types.now.types) written.now.parameters.now }
    ensures { result ≡ fits_forms row (written_as types.now written.now.returns written.now.parameters.now written.now.variadic) }
{
    let (returns, parameters) = types_of(row);
    let first = is_type(types, written, returns, parameters, is_variadic(row));
    let short = fits_short(types, written, row);
    first | short
}

/// Whether a function type, by the ids of its types, is that of `printf`.
///
/// It stands apart since `printf` is called often: what its types have to be is known here, and no list of them is gone through.
fn fits_printf(types: &TypeTable, returns: TypeId, parameters: &[TypeId], variadic: bool) -> bool
    requires returns { returns < length types.now.types }
    requires parameters { All (λ ty. ty < length types.now.types) parameters.now }
    ensures { result ≡ list_any (same_signature (written_as types.now returns parameters.now variadic)) (map (signature_in no_names) (host_types HostRow.Printf)) }
{
    let returned = is_wanted(types, returns, Int(32));
    let taken = are_wanted(types, parameters, &[Ptr]);
    returned & taken & variadic
}

/// Whether a function type, by the ids of its types, is one with which a host function can be called.
pub fn fits_row(
    types: &TypeTable,
    row: HostRow,
    returns: TypeId,
    parameters: &[TypeId],
    variadic: bool,
) -> bool
    requires returns { returns < length types.now.types }
    requires parameters { All (λ ty. ty < length types.now.types) parameters.now }
    ensures { result ≡ list_any (same_signature (written_as types.now returns parameters.now variadic)) (map (signature_in no_names) (host_types row)) }
{
    match row {
        HostRow::Integer(which, width) => {
            let written = CallType {
                returns,
                parameters,
                variadic,
            };
            fits_integer(types, &written, which, width)
        }
        HostRow::Printf => fits_printf(types, returns, parameters, variadic),
        _ => {
            let written = CallType {
                returns,
                parameters,
                variadic,
            };
            fits_fixed(types, &written, row)
        }
    }
}
