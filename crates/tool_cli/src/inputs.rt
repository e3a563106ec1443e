//! The inputs of a command, read whole in the order of the words.
ghost use Rattle.std.specs.Prelude.{◌≡◌, ◌⊎◌, ◌<◌, ℕ, List, length, false, true, IfOk, IfErr, OnOk, IsErrAnd};
ghost use Rattle.ir_base.specs.Outside.{Rose, Lost};
ghost use Rattle.ir_base.specs.Files.{Named, ReadsFrom};
ghost use Rattle.command_line.specs.Options.{is_dash};
ghost use Rattle.tool_cli.specs.Inputs.{inputs_of, has_stdin, TellsAll, texts_read};
ghost use Rattle.tool_cli.specs.Judged.{IsShort, AreShort};
ghost use Rattle.tool_cli.specs.Reads.{LeavesFiles, LeavesInput, LeavesInputs, LeavesUnread};
ghost use Rattle.tool_cli.specs.Order.{has_file, HasFineFront, IsInTurn, KeepsOrder, KeepsTurn};
ghost use Rattle.tool_cli.specs.Causes.{IsEmptied, HasRead, GaveUp, RefusesStdin, RefusesFile, Refuses, RefusesOne, IsStdinOrMemory, IsUnreadOrMemory};
ghost use Rattle.tool_cli.specs.World.{found, sources};

use command_line::{Command, is_dash};
use ir_base::{FileFault, Files, ReadFault, Source, Text, TextList, read_all};
use std::alloc::Global;
use std::slice;
use tool_output::ends::Ended;

/// The most bytes of one input: 16 MiB.
const LARGEST: usize = ir_lexer::LARGEST;

/// The most bytes of all inputs together: 32 MiB.
const LARGEST_TOGETHER: usize = 33_554_432;

/// The names of the command's inputs, in the order of the words.
pub fn inputs_of(command: &Command) -> &[Text]
    ensures { result.now ≡ inputs_of command.now }
{
    match command {
        Command::Assemble { input, .. }
        | Command::Disassemble { input, .. }
        | Command::Extract { input, .. }
        | Command::Lli { input, .. }
        | Command::Analyze { input, .. } => slice::from_ref(input),
        Command::Link { inputs, .. } => inputs.as_slice(),
    }
}

fn cannot_read(alloc: Global, name: &[u8]) -> Ended
    ensures { (result ≡ Ended.CannotRead name.now) ⊎ (result ≡ Ended.Memory) }
{
    match Text::from_slice(alloc, name) {
        Ok(name) => Ended::CannotRead(name),
        Err(_) => Ended::Memory,
    }
}

fn too_large(alloc: Global, name: &[u8], limit: u64) -> Ended
    ensures { (result ≡ Ended.InputTooLarge name.now limit) ⊎ (result ≡ Ended.Memory) }
{
    match Text::from_slice(alloc, name) {
        Ok(input) => Ended::InputTooLarge { input, limit },
        Err(_) => Ended::Memory,
    }
}

// All that is left of standard input.
fn read_stdin<I: Source>(alloc: Global, input: &mut I) -> Result<Text, Ended>
    ensures read { IfOk result (λ text. Lost (I.left input.old) (I.left input.new) text) }
    ensures emptied { OnOk result (IsEmptied (I.left input.new)) }
    ensures few { IfOk result (λ text. IsShort text) }
    ensures refused { IfErr result (RefusesStdin (I.left input.old) (Rose (I.faults input.old) (I.faults input.new))) }
    ensures fine { OnOk result (I.faults input.new ≡ I.faults input.old) }
    ensures passed_on { I.faults input.old < I.faults input.new → IsErrAnd result IsStdinOrMemory }
    ensures leaves_input { LeavesInput (I.left input.old) (I.left input.new) (I.faults input.old) (I.faults input.new) }
{
    match read_all(alloc, input, LARGEST + 1) {
        Ok(text) if text.bytes().len() > LARGEST => Err(too_large(alloc, b"-", LARGEST as u64)),
        Ok(text) => Ok(text),
        Err(ReadFault::CannotRead) => Err(cannot_read(alloc, b"-")),
        Err(ReadFault::Memory) => Err(Ended::Memory),
    }
}

// A file.
fn read_named<F: Files>(alloc: Global, files: &mut F, name: &Text) -> Result<Text, Ended>
    ensures read { IfOk result (λ text. ReadsFrom (F.contents files.old) name.now text) }
    ensures few { IfOk result (λ text. IsShort text) }
    ensures refused { IfErr result (RefusesFile (F.contents files.old) (Rose (F.read_faults files.old) (F.read_faults files.new)) name.now) }
    ensures fine { OnOk result (F.read_faults files.new ≡ F.read_faults files.old) }
    ensures passed_on { F.read_faults files.old < F.read_faults files.new → IsErrAnd result IsUnreadOrMemory }
    ensures leaves_files { LeavesFiles (F.contents files.old) (F.contents files.new) (F.read_faults files.old) (F.read_faults files.new) (F.write_faults files.old) (F.write_faults files.new) }
{
    match files.read_file(alloc, name, LARGEST as u64) {
        Ok(text) => Ok(text),
        Err(FileFault::Failed) => Err(cannot_read(alloc, name.bytes())),
        Err(FileFault::TooLarge) => Err(too_large(alloc, name.bytes(), LARGEST as u64)),
        Err(FileFault::Memory) => Err(Ended::Memory),
    }
}

// One input: what is left of standard input, or a file.
fn read_input<F: Files, I: Source>(
    alloc: Global,
    files: &mut F,
    input: &mut I,
    name: &Text,
) -> Result<Text, Ended>
    ensures read { IfOk result (λ text. HasRead (F.contents files.old) (I.left input.old) (I.left input.new) name.now text) }
    ensures refused { IfErr result (Refuses (found (sources I.Source F.Files input.old files.old) (sources I.Source F.Files input.new files.new)) name.now) }
    ensures untouched { LeavesUnread (is_dash name.now ≡ false) (is_dash name.now ≡ true) input.old input.new files.old files.new }
    ensures leaves { LeavesInputs (sources I.Source F.Files input.old files.old) (sources I.Source F.Files input.new files.new) result }
{
    if is_dash(name.bytes()) {
        read_stdin(alloc, input)
    } else {
        read_named(alloc, files, name)
    }
}

/// Reads the inputs of these names whole, one behind the other. The first that is refused is told.
pub fn read_inputs<F: Files, I: Source>(
    alloc: Global,
    files: &mut F,
    input: &mut I,
    names: &[Text],
) -> Result<TextList, Ended>
    ensures told { (held : Named) (stdin : List ℕ) → TellsAll names.now (F.contents files.old) (I.left input.old) held stdin
        → (result ≡ texts_read held stdin 0 names.now)
        ⊎ IsErrAnd result (GaveUp (Rose (I.faults input.old) (I.faults input.new)) (Rose (F.read_faults files.old) (F.read_faults files.new))) }
    ensures count { IfOk result (λ texts. length texts ≡ length names.now) }
    ensures short { IfOk result AreShort }
    ensures refused { IfErr result (RefusesOne (found (sources I.Source F.Files input.old files.old) (sources I.Source F.Files input.new files.new)) names.now) }
    ensures order { IfErr result (KeepsOrder names.now input.old input.new) }
    ensures turn { KeepsTurn (F.contents files.old) names.now input.old input.new }
    ensures in_turn { IfErr result (IsInTurn (F.contents files.old) (Rose (F.read_faults files.old) (F.read_faults files.new)) names.now) }
    ensures fine_front { OnOk result (HasFineFront (F.contents files.old) names.now) }
    ensures untouched { LeavesUnread (has_stdin names.now ≡ false) (has_file names.now ≡ false) input.old input.new files.old files.new }
    ensures emptied { OnOk result (has_stdin names.now ≡ true → IsEmptied (I.left input.new)) }
    ensures leaves { LeavesInputs (sources I.Source F.Files input.old files.old) (sources I.Source F.Files input.new files.new) result }
{
    let mut texts = TextList::new(alloc);
    let mut total = 0;
    for name in names {
        let text = read_input(alloc, files, input, name)?;
        total += text.bytes().len();
        if total > LARGEST_TOGETHER {
            return Err(too_large(alloc, name.bytes(), LARGEST_TOGETHER as u64));
        }
        texts.push(text)?;
    }
    Ok(texts)
}
