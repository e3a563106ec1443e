//! Numbers in decimal.
ghost use Rattle.std.specs.Prelude.{◌≡◌, ◌≤◌, ◌^◌, ◌-◌};
ghost use Rattle.ir_tables.specs.declared.width.TheConstants.{WIDEST};
ghost use Rattle.ir_printer.specs.Gathered.Told.{state, Tells};
ghost use Rattle.name_rules.specs.Spelled.{decimal};
ghost use Rattle.canonical.specs.Names.{natural, signed_spelling};
ghost use Rattle.canonical.specs.Phrase.{number};
ghost use Rattle.ir_printer.specs.Phrases.Printing.{separator_of, Prints};

use crate::gathered::Gathered;
use crate::phrases::separator::Separator;
use ir_base::Sink;
use itoa::Buffer;

/// Puts the digits of a number, without leading zeros: `0` for zero.
pub(crate) fn put_digits<S: Sink>(out: &mut Gathered, sink: &mut S, value: u128)
    ensures { Tells (state out.old (S.taken sink.old) (S.faults sink.old)) (state out.new (S.taken sink.new) (S.faults sink.new)) (decimal value) }
{
    let mut buffer = Buffer::new();
    out.put(sink, buffer.format(value).as_bytes());
}

/// Puts a number without a sign.
pub fn put_natural<S: Sink>(out: &mut Gathered, sink: &mut S, value: u64, behind: Separator)
    ensures { Prints (state out.old (S.taken sink.old) (S.faults sink.old)) (state out.new (S.taken sink.new) (S.faults sink.new)) (natural value (separator_of behind)) }
{
    put_digits(out, sink, u128::from(value));
    out.put(sink, behind.bytes());
}

/// Puts a sign where the number is negative, and the digits of its magnitude.
#[tactic(auto, using(crate::proofs::OnPhrases::Numerals::magnitude_is, crate::proofs::OnPhrases::Printing::tells_then))]
fn put_signed_digits<S: Sink>(out: &mut Gathered, sink: &mut S, width: u8, value: u128)
    requires wide { 1 ≤ width }
    requires narrow { width ≤ WIDEST }
    ensures { Tells (state out.old (S.taken sink.old) (S.faults sink.old)) (state out.new (S.taken sink.new) (S.faults sink.new)) (signed_spelling width value) }
{
    let half = half_of(width);
    if value < half {
        put_digits(out, sink, value);
    } else {
        out.put(sink, b"-");
        put_digits(out, sink, half.saturating_sub(value - half));
    }
}

/// Half of the numbers of that width in bits, from 1 to 128.
#[tactic(auto, using(crate::proofs::OnPhrases::Numerals::half_is))]
fn half_of(width: u8) -> u128
    requires wide { 1 ≤ width }
    requires narrow { width ≤ WIDEST }
    ensures { result ≡ 2 ^ (width - 1) }
{
    1 << (width - 1)
}

/// Puts a number modulo 2 to the width as the one of least magnitude that it stands for: negative from the half on. The width is
/// from 1 to 128 bits.
pub fn put_signed<S: Sink>(
    out: &mut Gathered,
    sink: &mut S,
    width: u8,
    value: u128,
    behind: Separator,
)
    requires wide { 1 ≤ width }
    requires narrow { width ≤ WIDEST }
    ensures { Prints (state out.old (S.taken sink.old) (S.faults sink.old)) (state out.new (S.taken sink.new) (S.faults sink.new)) (number (signed_spelling width value) (separator_of behind)) }
{
    put_signed_digits(out, sink, width, value);
    out.put(sink, behind.bytes());
}
