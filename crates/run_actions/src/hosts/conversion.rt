//! What a conversion of `printf` writes of its argument (C, "The fprintf function").
ghost use Rattle.std.specs.Prelude.{◌≡◌, ℕ, List, ◌++◌, Ok, Err, IfErr, IfOk, IfSome, None, OnErr, OnOk, OnSome, Some, true, if◌then◌else◌, length};
ghost use Rattle.ir_eval.specs.declared.value.Scalar.TheVariants.{Ptr};
ghost use Rattle.ir_memory.specs.Given.{IsKnown};
ghost use Rattle.ir_printf.specs.declared.conversion.ConversionKind.TheVariants as ConversionKind;
ghost use Rattle.ir_printf.specs.Printed.{is_number, printed_bytes};
ghost use Rattle.ir_tables.specs.declared.undefined_kind.UndefinedKind.TheVariants.{BadFormat};
ghost use Rattle.linkage_rules.specs.SameShape.{same_shape};
ghost use Rattle.run_rules.specs.Printing.{converted, shape_for, string_for};
ghost use Rattle.run_names.specs.Values.Answer.{IsRefusal, Loads};
ghost use Rattle.typed_runs.specs.Kinds.{IsNumberOf, IsOf};
ghost use Rattle.run_actions.specs.Hosts.Printing.{leaf_for, number_bytes, shape_from, takes_argument};

use ir_eval::{Pointer, Scalar};
use ir_memory::{Leaf, Memory, MemoryFault};
use ir_printf::{Conversion, ConversionKind, Length, put_bytes, put_number};
use ir_tables::UndefinedKind;
use run_names::values::{plain_string, push_string};
use std::alloc::{AllocError, Global};

/// The leaf of the argument that a conversion takes.
fn leaf_for(kind: ConversionKind, length: Length) -> Leaf
    ensures { result ≡ leaf_for kind length }
{
    match kind {
        ConversionKind::Bytes => Leaf::Ptr,
        ConversionKind::Char => Leaf::Int(32),
        ConversionKind::Signed
        | ConversionKind::Unsigned
        | ConversionKind::LowerHex
        | ConversionKind::UpperHex
        | ConversionKind::Octal
        | ConversionKind::Percent => match length {
            Length::Long => Leaf::Int(64),
            Length::Word | Length::Byte | Length::Half => Leaf::Int(32),
        },
    }
}

/// Whether an argument is one leaf of that kind.
fn is_leaf(kind: Option<Leaf>, leaf: Leaf) -> bool
    ensures { result ≡ same_shape (shape_from kind) (shape_from (Some leaf)) }
{
    match kind {
        Some(Leaf::Int(width)) => matches!(leaf, Leaf::Int(other) if other == width),
        Some(Leaf::Ptr) => matches!(leaf, Leaf::Ptr),
        None => false,
    }
}

/// Whether a conversion writes a number.
fn is_number(kind: ConversionKind) -> bool
    ensures { result ≡ is_number kind }
{
    !matches!(
        kind,
        ConversionKind::Char | ConversionKind::Bytes | ConversionKind::Percent
    )
}

/// Adds the digits of a number, or the byte that it tells, or nothing where memory is wanted.
fn put_digits(
    alloc: Global,
    conversion: &Conversion,
    number: u128,
    written: &mut Vec<u8>,
) -> Result<(), AllocError>
    requires takes { takes_argument conversion.now.kind ≡ true }
    requires number { IsNumberOf number (leaf_for conversion.now.kind conversion.now.length) }
    ensures ok { OnOk result (written.new.items ≡ written.old.items ++ number_bytes conversion.now number) }
    ensures err { OnErr result (written.new.items ≡ written.old.items) }
{
    if is_number(conversion.kind) {
        put_number(alloc, conversion, number as u64, written)
    } else {
        put_bytes(alloc, conversion, &[(number % 256) as u8], written)
    }
}

/// Adds what a conversion writes of a number.
fn put_converted_number(
    alloc: Global,
    conversion: &Conversion,
    number: u128,
    written: &mut Vec<u8>,
) -> Result<(), MemoryFault>
    requires takes { takes_argument conversion.now.kind ≡ true }
    requires number { IsNumberOf number (leaf_for conversion.now.kind conversion.now.length) }
    ensures ok { OnOk result (written.new.items ≡ written.old.items ++ number_bytes conversion.now number) }
    ensures err { OnErr result (written.new.items ≡ written.old.items) }
    ensures why { IfErr result (λ fault. fault ≡ MemoryFault.Memory) }
{
    put_digits(alloc, conversion, number, written)?;
    Ok(())
}

/// The string that a conversion writes, where it lies in memory as it is told, and no precision ends it.
fn whole_string<'m>(
    memory: &'m Memory,
    conversion: &Conversion,
    string: Pointer,
) -> Option<&'m [u8]>
    requires { IsKnown memory.now.list string }
    ensures told { IfSome result (λ bytes. string_for memory.now conversion.now.precision string ≡ Ok bytes.now) }
    ensures plain { OnSome result (conversion.now.precision ≡ None) }
{
    match conversion.precision {
        None => plain_string(memory, string),
        Some(_) => None,
    }
}

/// A copy of the string that a conversion writes.
fn copied_string(
    alloc: Global,
    memory: &Memory,
    conversion: &Conversion,
    string: Pointer,
) -> Result<Vec<u8>, MemoryFault>
    requires { IsKnown memory.now.list string }
    ensures ok { IfOk result (λ bytes. string_for memory.now conversion.now.precision string ≡ Ok bytes.items) }
    ensures why { IfErr result (IsRefusal (string_for memory.now conversion.now.precision string)) }
{
    let mut bytes = Vec::with_capacity(alloc, 64)?;
    push_string(memory, string, conversion.precision, &mut bytes)?;
    Ok(bytes)
}

/// Adds what a conversion of a string without a precision writes of these bytes, which are its string, or nothing where memory is
/// wanted.
fn put_whole(
    alloc: Global,
    conversion: &Conversion,
    bytes: &[u8],
    written: &mut Vec<u8>,
) -> Result<(), AllocError>
    requires bytes { conversion.now.kind ≡ ConversionKind.Bytes }
    requires plain { conversion.now.precision ≡ None }
    ensures ok { OnOk result (written.new.items ≡ written.old.items ++ printed_bytes conversion.now bytes.now) }
    ensures err { OnErr result (written.new.items ≡ written.old.items) }
{
    let width = conversion.width;
    if width == 0 {
        written.extend_from_slice(bytes)?;
        return Ok(());
    }
    put_bytes(alloc, conversion, bytes, written)
}

/// Adds what a conversion of a string writes of the string at a pointer, which is copied first.
#[inline(never)]
fn put_copied(
    alloc: Global,
    memory: &Memory,
    conversion: &Conversion,
    string: Pointer,
    written: &mut Vec<u8>,
) -> Result<(), MemoryFault>
    requires known { IsKnown memory.now.list string }
    requires bytes { conversion.now.kind ≡ ConversionKind.Bytes }
    ensures ok { OnOk result ((bytes : List ℕ) × (converted memory.now conversion.now (Ptr string) ≡ Ok bytes) × (written.new.items ≡ written.old.items ++ bytes)) }
    ensures err { OnErr result (written.new.items ≡ written.old.items) }
    ensures why { IfErr result (IsRefusal (converted memory.now conversion.now (Ptr string))) }
{
    let bytes = copied_string(alloc, memory, conversion, string)?;
    put_bytes(alloc, conversion, bytes.as_slice(), written)?;
    Ok(())
}

/// Adds what a conversion of a string writes of the string at a pointer.
fn put_string(
    alloc: Global,
    memory: &Memory,
    conversion: &Conversion,
    string: Pointer,
    written: &mut Vec<u8>,
) -> Result<(), MemoryFault>
    requires known { IsKnown memory.now.list string }
    requires bytes { conversion.now.kind ≡ ConversionKind.Bytes }
    ensures ok { OnOk result ((bytes : List ℕ) × (converted memory.now conversion.now (Ptr string) ≡ Ok bytes) × (written.new.items ≡ written.old.items ++ bytes)) }
    ensures err { OnErr result (written.new.items ≡ written.old.items) }
    ensures why { IfErr result (IsRefusal (converted memory.now conversion.now (Ptr string))) }
{
    let Some(bytes) = whole_string(memory, conversion, string) else {
        return put_copied(alloc, memory, conversion, string, written);
    };
    put_whole(alloc, conversion, bytes, written)?;
    Ok(())
}

/// Adds what a conversion writes of its argument.
fn put_converted(
    alloc: Global,
    memory: &Memory,
    conversion: &Conversion,
    argument: Scalar,
    written: &mut Vec<u8>,
) -> Result<(), MemoryFault>
    requires takes { takes_argument conversion.now.kind ≡ true }
    requires typed { IsOf (length memory.now.list) (leaf_for conversion.now.kind conversion.now.length) argument }
    ensures ok { OnOk result ((bytes : List ℕ) × (converted memory.now conversion.now argument ≡ Ok bytes) × (written.new.items ≡ written.old.items ++ bytes)) }
    ensures err { OnErr result (written.new.items ≡ written.old.items) }
    ensures why { IfErr result (IsRefusal (converted memory.now conversion.now argument)) }
{
    match argument {
        Scalar::Int(number) => put_converted_number(alloc, conversion, number, written),
        Scalar::Ptr(string) => put_string(alloc, memory, conversion, string, written),
        Scalar::Poison => Err(MemoryFault::Undefined(UndefinedKind::PoisonArgument)),
    }
}

/// Writes the argument that a conversion takes, if it has the conversion's type. Its type is judged before it is found to be poison.
pub(crate) fn put_argument(
    alloc: Global,
    memory: &Memory,
    conversion: &Conversion,
    kind: Option<Leaf>,
    argument: Scalar,
    written: &mut Vec<u8>,
) -> Result<(), MemoryFault>
    requires takes { takes_argument conversion.now.kind ≡ true }
    requires typed { IfSome kind (λ leaf. IsOf (length memory.now.list) leaf argument) }
    ensures { Loads (if same_shape (shape_from kind) (shape_for conversion.now.kind conversion.now.length) then converted memory.now conversion.now argument else Err BadFormat) written.old.items written.new.items result }
{
    if !is_leaf(kind, leaf_for(conversion.kind, conversion.length)) {
        return Err(MemoryFault::Undefined(UndefinedKind::BadFormat));
    }
    put_converted(alloc, memory, conversion, argument, written)
}
