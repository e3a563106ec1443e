//! What `printf` writes, piece by piece of its pattern (C, "The fprintf function").
ghost use Rattle.std.specs.Prelude.{◌≡◌, ℕ, ◌+◌, ◌++◌, List, Ok, IfErr, IfOk, OnErr, OnOk, length, map};
ghost use Rattle.run_rules.specs.Printing.{Rest, written_conversion, written_from};
ghost use Rattle.run_names.specs.Values.Answer.{IsRefusal};
ghost use Rattle.run_actions.specs.Hosts.Printing.{AreOf, IsConversion, shape_from};
ghost use Rattle.run_actions.specs.Hosts.Pieces.{IsPiece, IsPlace, piece_from};

use crate::hosts::conversion::put_argument;
use crate::hosts::kinds::ArgumentKinds;
use ir_eval::Scalar;
use ir_memory::{Memory, MemoryFault};
use ir_printf::{Conversion, ConversionKind, PatternPiece, next_piece};
use ir_tables::UndefinedKind;
use std::alloc::{AllocError, Global};

/// A pattern, and the arguments behind it: what each is, where it is one leaf, and their leaves one after another.
#[derive(Clone, Copy)]
pub(crate) struct Format<'f> {
    pub(crate) pattern: &'f [u8],
    pub(crate) kinds: &'f ArgumentKinds<'f>,
    pub(crate) arguments: &'f [Scalar],
}

/// How far a pattern was written: the place of its next piece, and how many arguments were taken.
#[derive(Clone, Copy)]
pub(crate) struct PatternPlace {
    pub(crate) at: usize,
    pub(crate) taken: usize,
}

/// Adds bytes of the pattern that are written as they are, or nothing where memory is wanted. One byte alone, as a line
/// feed often is, is pushed: no range is copied.
fn put_literal(bytes: &[u8], written: &mut Vec<u8>) -> Result<(), AllocError>
    ensures ok { OnOk result (written.new.items ≡ written.old.items ++ bytes.now) }
    ensures err { OnErr result (written.new.items ≡ written.old.items) }
{
    if bytes.len() == 1 {
        written.push(bytes[0])?;
        return Ok(());
    }
    written.extend_from_slice(bytes)?;
    Ok(())
}

/// Writes a conversion, and tells how many arguments it took: one, but for `%%`.
fn put_conversion(
    alloc: Global,
    memory: &Memory,
    conversion: &Conversion,
    kinds: &ArgumentKinds<'_>,
    arguments: &[Scalar],
    written: &mut Vec<u8>,
) -> Result<usize, MemoryFault>
    requires { AreOf (length memory.now.list) kinds.now arguments.now }
    ensures ok { IfOk result (λ taken. (bytes : List ℕ) × IsConversion memory.now conversion.now kinds.now arguments.now taken bytes × (written.new.items ≡ written.old.items ++ bytes)) }
    ensures err { OnErr result (written.new.items ≡ written.old.items) }
    ensures why { IfErr result (λ fault. (rest : Rest) (to at : ℕ) → IsRefusal (written_conversion memory.now rest conversion.now conversion.now.kind to at (map shape_from kinds.now) arguments.now) fault) }
{
    if matches!(conversion.kind, ConversionKind::Percent) {
        written.push(b'%')?;
        return Ok(0);
    }
    let Some(kind) = kinds.first() else {
        return Err(MemoryFault::Undefined(UndefinedKind::BadFormat));
    };
    let Some(argument) = arguments.first() else {
        return Err(MemoryFault::Undefined(UndefinedKind::BadFormat));
    };
    put_argument(alloc, memory, conversion, kind, *argument, written)?;
    Ok(1)
}

/// Writes the piece of the pattern at a place, and tells the place behind it; None at the pattern's end.
fn put_piece(
    alloc: Global,
    memory: &Memory,
    format: &Format<'_>,
    place: PatternPlace,
    written: &mut Vec<u8>,
) -> Result<Option<PatternPlace>, MemoryFault>
    requires { IsPlace (length memory.now.list) format.now.pattern.now format.now.kinds.now format.now.arguments.now place }
    ensures ok { IfOk result (λ next. (bytes : List ℕ) × IsPiece memory.now format.now.pattern.now format.now.kinds.now format.now.arguments.now place bytes next × (written.new.items ≡ written.old.items ++ bytes)) }
    ensures err { OnErr result (written.new.items ≡ written.old.items) }
    ensures why { IfErr result (λ fault. (rest : Rest) → IsRefusal (piece_from memory.now format.now.pattern.now format.now.kinds.now format.now.arguments.now rest place) fault) }
{
    match next_piece(format.pattern, place.at) {
        Err(_) => Err(MemoryFault::Undefined(UndefinedKind::BadFormat)),
        Ok(PatternPiece::End) => Ok(None),
        Ok(PatternPiece::Literal(from, to)) => {
            put_literal(&format.pattern[from..to], written)?;
            Ok(Some(PatternPlace {
                at: to,
                taken: place.taken,
            }))
        }
        Ok(PatternPiece::Convert(conversion, to)) => {
            let kinds = format.kinds.behind(place.taken);
            let arguments = &format.arguments[place.taken..];
            let taken = put_conversion(alloc, memory, &conversion, &kinds, arguments, written)?;
            Ok(Some(PatternPlace {
                at: to,
                taken: place.taken + taken,
            }))
        }
    }
}

/// Writes a pattern with its arguments. Where it is refused, a part of it may be written.
///
/// It stands apart so that what `printf` answers, which is large, is made where it is used.
#[inline(never)]
pub(crate) fn put_pieces(
    alloc: Global,
    memory: &Memory,
    format: &Format<'_>,
    written: &mut Vec<u8>,
) -> Result<(), MemoryFault>
    requires { AreOf (length memory.now.list) format.now.kinds.now format.now.arguments.now }
    ensures ok { OnOk result ((bytes : List ℕ) × (written_from memory.now format.now.pattern.now (length format.now.pattern.now + 1) 0 (map shape_from format.now.kinds.now) format.now.arguments.now ≡ Ok bytes) × (written.new.items ≡ written.old.items ++ bytes)) }
    ensures err { OnErr result ((bytes : List ℕ) × (written.new.items ≡ written.old.items ++ bytes)) }
    ensures why { IfErr result (IsRefusal (written_from memory.now format.now.pattern.now (length format.now.pattern.now + 1) 0 (map shape_from format.now.kinds.now) format.now.arguments.now)) }
{
    let mut place = PatternPlace { at: 0, taken: 0 };
    'pieces: loop {
        match put_piece(alloc, memory, format, place, written)? {
            Some(next) => place = next,
            None => return Ok(()),
        }
    }
}
