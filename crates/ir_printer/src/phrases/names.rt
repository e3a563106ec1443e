//! Names, labels and texts, bare or in quotes.
ghost use Rattle.ir_printer.specs.Gathered.Told.{state, Tells};
ghost use Rattle.canonical.specs.Names.{quoted, global, named_local, local, label_spelling, label, text, byte_string};
ghost use Rattle.module_arena.specs.Module.{Numbered};
ghost use Rattle.module_arena.specs.View.{local_view};
ghost use Rattle.name_rules.specs.Spelled.{quoted_byte, is_identifier, name_spelling};
ghost use Rattle.ir_printer.specs.Phrases.Printing.{separator_of, Prints};

use crate::gathered::Gathered;
use crate::phrases::numbers::put_digits;
use crate::phrases::separator::Separator;
use ir_base::{Name, Sink};
use module_arena::LocalName;
use name_rules::{hexadecimal, is_identifier, is_plain};

/// Puts a byte between quotes: itself where it may stand there, else a backslash and two digits.
fn put_quoted_byte<S: Sink>(out: &mut Gathered, sink: &mut S, byte: u8)
    ensures { Tells (state out.old (S.taken sink.old) (S.faults sink.old)) (state out.new (S.taken sink.new) (S.faults sink.new)) (quoted_byte byte) }
{
    if is_plain(byte) {
        out.put(sink, &[byte]);
    } else {
        out.put(
            sink,
            &[b'\\', hexadecimal(byte / 16), hexadecimal(byte % 16)],
        );
    }
}

/// Puts bytes between quotes.
fn put_quoted<S: Sink>(out: &mut Gathered, sink: &mut S, bytes: &[u8])
    ensures { Tells (state out.old (S.taken sink.old) (S.faults sink.old)) (state out.new (S.taken sink.new) (S.faults sink.new)) (quoted bytes.now) }
{
    out.put(sink, b"\"");
    'bytes: for byte in bytes {
        put_quoted_byte(out, sink, *byte);
    }
    out.put(sink, b"\"");
}

/// Puts a name, in quotes where it is no identifier.
fn put_name<S: Sink>(out: &mut Gathered, sink: &mut S, name: &[u8])
    ensures { Tells (state out.old (S.taken sink.old) (S.faults sink.old)) (state out.new (S.taken sink.new) (S.faults sink.new)) (name_spelling name.now) }
{
    if is_identifier(name) {
        out.put(sink, name);
    } else {
        put_quoted(out, sink, name);
    }
}

/// Puts the name of a variable, an alias or a function (LangRef, "Identifiers").
pub fn put_global<S: Sink>(out: &mut Gathered, sink: &mut S, name: &Name, behind: Separator)
    ensures { Prints (state out.old (S.taken sink.old) (S.faults sink.old)) (state out.new (S.taken sink.new) (S.faults sink.new)) (global name.now (separator_of behind)) }
{
    out.put(sink, b"@");
    put_name(out, sink, name.text().bytes());
    out.put(sink, behind.bytes());
}

/// Puts the name of a struct, or a name of a value or a block.
pub fn put_struct_name<S: Sink>(out: &mut Gathered, sink: &mut S, name: &Name, behind: Separator)
    ensures { Prints (state out.old (S.taken sink.old) (S.faults sink.old)) (state out.new (S.taken sink.new) (S.faults sink.new)) (named_local name.now (separator_of behind)) }
{
    out.put(sink, b"%");
    put_name(out, sink, name.text().bytes());
    out.put(sink, behind.bytes());
}

/// Puts the number of a value or a block, with `%` before it.
fn put_numbered<S: Sink>(out: &mut Gathered, sink: &mut S, place: u32, behind: Separator)
    ensures { Prints (state out.old (S.taken sink.old) (S.faults sink.old)) (state out.new (S.taken sink.new) (S.faults sink.new)) (local (Numbered place) (separator_of behind)) }
{
    out.put(sink, b"%");
    put_digits(out, sink, u128::from(place));
    out.put(sink, behind.bytes());
}

/// Puts the name or number of a value or a block.
pub fn put_local<S: Sink>(out: &mut Gathered, sink: &mut S, name: &LocalName, behind: Separator)
    ensures { Prints (state out.old (S.taken sink.old) (S.faults sink.old)) (state out.new (S.taken sink.new) (S.faults sink.new)) (local (local_view name.now) (separator_of behind)) }
{
    match name {
        LocalName::Named(name) => put_struct_name(out, sink, name, behind),
        LocalName::Numbered(place) => put_numbered(out, sink, *place, behind),
    }
}

/// Puts a name or number with no mark before it.
fn put_bare<S: Sink>(out: &mut Gathered, sink: &mut S, name: &LocalName)
    ensures { Tells (state out.old (S.taken sink.old) (S.faults sink.old)) (state out.new (S.taken sink.new) (S.faults sink.new)) (label_spelling (local_view name.now)) }
{
    match name {
        LocalName::Named(name) => put_name(out, sink, name.text().bytes()),
        LocalName::Numbered(place) => put_digits(out, sink, u128::from(*place)),
    }
}

/// Puts the name or number of a block where it begins.
pub fn put_label<S: Sink>(out: &mut Gathered, sink: &mut S, name: &LocalName, behind: Separator)
    ensures { Prints (state out.old (S.taken sink.old) (S.faults sink.old)) (state out.new (S.taken sink.new) (S.faults sink.new)) (label (local_view name.now) (separator_of behind)) }
{
    put_bare(out, sink, name);
    out.put(sink, b":");
    out.put(sink, behind.bytes());
}

/// Puts a text in quotes.
pub fn put_text<S: Sink>(out: &mut Gathered, sink: &mut S, bytes: &[u8], behind: Separator)
    ensures { Prints (state out.old (S.taken sink.old) (S.faults sink.old)) (state out.new (S.taken sink.new) (S.faults sink.new)) (text bytes.now (separator_of behind)) }
{
    put_quoted(out, sink, bytes);
    out.put(sink, behind.bytes());
}

/// Puts a byte string, as an initialiser writes it: `c"..."`.
pub(crate) fn put_byte_string<S: Sink>(
    out: &mut Gathered,
    sink: &mut S,
    bytes: &[u8],
    behind: Separator,
)
    ensures { Prints (state out.old (S.taken sink.old) (S.faults sink.old)) (state out.new (S.taken sink.new) (S.faults sink.new)) (byte_string bytes.now (separator_of behind)) }
{
    out.put(sink, b"c");
    put_quoted(out, sink, bytes);
    out.put(sink, behind.bytes());
}
