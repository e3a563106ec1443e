//! A module, to standard output or to a file.
ghost use Rattle.std.specs.Prelude.{◌≡◌, ℕ, List, true, false, Option, IfOk, IsErrOf};
ghost use Rattle.ir_base.specs.Files.{Named};
ghost use Rattle.module_arena.specs.View.{module_of};
ghost use Rattle.tool_output.specs.declared.format.OutputFormat.TheVariants.{CanonicalText, Bitcode};
ghost use Rattle.tool_output.specs.Outputs.{outputs, is_standard};
ghost use Rattle.tool_output.specs.Written.{written};
ghost use Rattle.tool_output.specs.Writing.{Puts, CountsSink, CountsFiles, Counts};

use crate::{OutputFault, OutputFormat};
use bitcode_write::write;
use command_line::OutputName;
use ir_base::{Failed, FileFault, Files, Sink, Text, write_all};
use ir_printer::{print, print_text};
use module_arena::Checked;
use std::alloc::{AllocError, Global};

// The bytes that stand for a module. They are refused for want of memory alone.
fn written(alloc: Global, format: OutputFormat, checked: &Checked) -> Result<Text, AllocError>
    ensures { IfOk result (λ bytes. bytes ≡ written format (module_of checked.now)) }
{
    match format {
        OutputFormat::CanonicalText => print_text(alloc, checked),
        OutputFormat::Bitcode => write(alloc, checked),
    }
}

// Writes the text of a module to standard output, piece by piece. The name of the output is made first, so that after a failed write no memory is
// wanting.
fn print_standard<O: Sink>(
    alloc: Global,
    checked: &Checked,
    sink: &mut O,
) -> Result<(), OutputFault>
    ensures put { (contents : Option Named)
        → Puts OutputName.Standard (written CanonicalText (module_of checked.now)) (outputs (O.taken sink.old) contents) (outputs (O.taken sink.new) contents) result }
    ensures counts { CountsSink (O.faults sink.old) (O.faults sink.new) result }
    ensures memory { IsErrOf result OutputFault.Memory → sink.new ≡ sink.old }
{
    let name = Text::from_slice(alloc, b"-")?;
    match print(checked, sink) {
        Ok(()) => Ok(()),
        Err(Failed) => Err(OutputFault::CannotWrite(name)),
    }
}

// Writes bytes to standard output. The name of the output is made first, as above.
fn put_standard<O: Sink>(alloc: Global, bytes: &Text, sink: &mut O) -> Result<(), OutputFault>
    ensures put { (contents : Option Named)
        → Puts OutputName.Standard bytes.now (outputs (O.taken sink.old) contents) (outputs (O.taken sink.new) contents) result }
    ensures counts { CountsSink (O.faults sink.old) (O.faults sink.new) result }
    ensures memory { IsErrOf result OutputFault.Memory → sink.new ≡ sink.old }
{
    let told = Text::from_slice(alloc, b"-")?;
    match write_all(sink, bytes.bytes()) {
        Ok(()) => Ok(()),
        Err(Failed) => Err(OutputFault::CannotWrite(told)),
    }
}

// Writes a module to standard output: text piece by piece, which takes no memory but for the output's name, and bitcode once it is made.
fn write_standard<O: Sink>(
    alloc: Global,
    format: OutputFormat,
    checked: &Checked,
    sink: &mut O,
) -> Result<(), OutputFault>
    ensures put { (contents : Option Named)
        → Puts OutputName.Standard (written format (module_of checked.now)) (outputs (O.taken sink.old) contents) (outputs (O.taken sink.new) contents) result }
    ensures counts { CountsSink (O.faults sink.old) (O.faults sink.new) result }
    ensures memory { IsErrOf result OutputFault.Memory → sink.new ≡ sink.old }
{
    match format {
        OutputFormat::CanonicalText => print_standard(alloc, checked, sink),
        OutputFormat::Bitcode => {
            let bytes = written(alloc, format, checked)?;
            put_standard(alloc, &bytes, sink)
        }
    }
}

// Makes the file of this name hold these bytes. The name of the output is made first, so that after a failed write no memory is wanting.
fn write_named<F: Files>(
    alloc: Global,
    name: &Text,
    bytes: &Text,
    files: &mut F,
) -> Result<(), OutputFault>
    ensures put { (taken : Option (List ℕ))
        → Puts (OutputName.File name.now) bytes.now (outputs taken (F.contents files.old)) (outputs taken (F.contents files.new)) result }
    ensures counts { CountsFiles (F.write_faults files.old) (F.write_faults files.new) result }
    ensures reads { F.read_faults files.new ≡ F.read_faults files.old }
{
    let told = name.copy(alloc)?;
    match files.write_file(alloc, name, bytes) {
        Ok(()) => Ok(()),
        Err(FileFault::Failed) => Err(OutputFault::CannotWrite(told)),
        Err(FileFault::Memory) => Err(OutputFault::Memory),
        // No file is too large to be written.
        Err(FileFault::TooLarge) => unreachable!(),
    }
}

/// Writes a module to where it goes: its canonical text, or its bitcode. Text goes to standard output piece by piece, which takes no memory but
/// for the output's name; all else is made first, and then written.
///
/// `CannotWrite` where a write failed, with `-` or the file's name: standard output has a front of the result, or the file has one, or what it
/// held before. `Memory` where memory ran out: nothing was written.
pub fn write_module<F: Files, O: Sink>(
    alloc: Global,
    format: OutputFormat,
    output: &OutputName,
    checked: &Checked,
    files: &mut F,
    sink: &mut O,
) -> Result<(), OutputFault>
    // The result is where it goes, or a front of it, and nothing else changed.
    ensures put { Puts output.now (written format (module_of checked.now)) (outputs (O.taken sink.old) (F.contents files.old)) (outputs (O.taken sink.new) (F.contents files.new)) result }
    // A write failed exactly where it is told, and the count of its object alone rose.
    ensures counts { Counts output.now (O.faults sink.old) (O.faults sink.new) (F.write_faults files.old) (F.write_faults files.new) result }
    ensures reads { F.read_faults files.new ≡ F.read_faults files.old }
    // What is not written to is not touched.
    ensures sink_unused { is_standard output.now ≡ false → sink.new ≡ sink.old }
    ensures files_unused { is_standard output.now ≡ true → files.new ≡ files.old }
    ensures memory { IsErrOf result OutputFault.Memory → sink.new ≡ sink.old }
{
    match output {
        OutputName::Standard => write_standard(alloc, format, checked, sink),
        OutputName::File(name) => {
            let bytes = written(alloc, format, checked)?;
            write_named(alloc, name, &bytes, files)
        }
    }
}
