//! A whole stream.
ghost use Rattle.std.specs.Prelude.{◌≡◌, ◌≤◌, [], length, false, IfErr, IfOk};
ghost use Rattle.bit_tree.specs.Read.{IsStream};
ghost use Rattle.bit_tree.specs.Stream.{StreamTree, Stream};
ghost use Rattle.module_arena.specs.Module.{Module};
ghost use Rattle.module_arena.specs.View.{module_of};
ghost use Rattle.module_arena.specs.WellFormed.{IsWellFormed};
ghost use Rattle.bit_stream.specs.declared.reader.TheConstants.{LARGEST_STREAM};
ghost use Rattle.record_table.specs.Faults.{Records, records as records_of};
ghost use Rattle.record_table.specs.Records as table;
ghost use Rattle.record_read.specs.Entries.{IsBefore};
ghost use Rattle.record_read.specs.Faults.{Answers};
ghost use Rattle.bitcode_read.specs.Answers.{IsModule, IsReadAs, IsReadFault};
ghost use Rattle.bitcode_read.specs.Opening.{IsOpened, IsOpenedStream};
ghost use Rattle.bitcode_read.specs.Sofar.{AreBytesHeld, AreRead, AreSettable, IsBegunOver};

use crate::head::ModuleAhead;
use crate::holding::{set_bodies, set_initialisers, set_targets};
use crate::module::read_module;
use crate::opening::{Opening, open_stream};
use crate::sofar::Sofar;
use bit_dump::walk::judge;
use module_arena::Arena;
use record_read::opening::expect_end;
use record_read::{BitcodeFault, RecordReader, Texts};
use std::alloc::{AllocError, Global};
use type_read::arena::{GrowingArena, LocalCounts, ModuleReader};

/// Nothing of a module's block is read yet: the arena has no types but those that records do not name.
fn begin<'b>(
    alloc: Global,
    reader: RecordReader<'b>,
    known: &ModuleAhead,
) -> Result<ModuleReader<'b>, AllocError>
    ensures { IfOk result (IsBegunOver reader.entry known.now) }
{
    let growing = GrowingArena::over(alloc, Arena::new(alloc))?;
    let locals = LocalCounts {
        values: 0,
        blocks: 0,
    };
    Ok(ModuleReader {
        reader,
        alloc,
        growing,
        globals: known.counts,
        locals,
    })
}

/// The module of what was read: what its entries hold is set in the arena, and its texts.
fn finished(m: ModuleReader<'_>, sofar: Sofar) -> Arena
    requires { AreSettable m.growing.arena sofar }
    ensures { (s : table.Sofar) → AreRead m.entry.growing.arena sofar s → IsModule result (table.module_of s) }
{
    let ModuleReader {
        reader: _reader,
        alloc: _alloc,
        growing,
        globals: _globals,
        locals: _locals,
    } = m;
    let Sofar {
        last: _last,
        source,
        layout,
        triple,
        initialisers,
        defined,
        numbers: _numbers,
        targets,
        bodies,
        ahead: _ahead,
    } = sofar;
    let mut arena = growing.into_arena();
    set_targets(&mut arena, &targets);
    set_initialisers(&mut arena, &initialisers);
    set_bodies(&mut arena, &defined, bodies);
    arena.set_texts(source, layout, triple);
    arena
}

/// The module of a block that was read whole, where nothing stands behind it.
fn read_end(m: ModuleReader<'_>, sofar: Sofar) -> Result<Arena, BitcodeFault>
    requires unspent { m.reader.spent ≡ false }
    requires settable { AreSettable m.growing.arena sofar }
    ensures { (s : table.Sofar) (behind : Records) → IsBefore m.entry.reader.left behind [] → m.entry.reader.at ≡ s.at → AreRead m.entry.growing.arena sofar s
        → Answers IsModule (table.nothing_behind s behind) result }
{
    let mut m = m;
    expect_end(&mut m.reader)?;
    Ok(finished(m, sofar))
}

/// The module of a stream in whose module's block the reader stands.
fn read_opened(
    alloc: Global,
    bytes: &[u8],
    reader: RecordReader<'_>,
    texts: &Texts,
    known: &mut ModuleAhead,
) -> Result<Arena, BitcodeFault>
    requires short { length bytes.now ≤ LARGEST_STREAM }
    requires unspent { reader.spent ≡ false }
    requires held { AreBytesHeld texts.now }
    requires opened { IsOpenedStream bytes.now texts.now reader known.old }
    ensures { (tree : StreamTree) → Stream bytes.now tree → IsOpened tree texts.now reader.entry known.old → Answers IsModule (table.read (records_of tree)) result }
{
    let mut m = begin(alloc, reader, known)?;
    let sofar = read_module(&mut m, bytes, texts, known)?;
    read_end(m, sofar)
}

/// The module of a stream that is a tree.
fn read_judged(alloc: Global, bytes: &[u8]) -> Result<Arena, BitcodeFault>
    requires short { length bytes.now ≤ LARGEST_STREAM }
    requires judged { IsStream bytes.now }
    ensures { (tree : StreamTree) → Stream bytes.now tree → Answers IsModule (table.read (records_of tree)) result }
{
    let opening = open_stream(alloc, bytes)?;
    let Opening {
        reader,
        texts,
        known,
    } = opening;
    let mut known = known;
    read_opened(alloc, bytes, reader, &texts, &mut known)
}

/// The module that a stream of bitcode spells, in an arena of its own: by the LLVM Bitcode File Format, and by version 1 or
/// 2 of the record table of `docs/bitcode.md`.
///
/// It is refused exactly where the bytes spell no module. `Bit` tells the first field of the container that is refused, and
/// its bit, counted from 0. Where the container is whole, `ForeignProducer`, `BadVersion`, `UnknownRecord` or `BadRecord`
/// tells the first block or record that breaks a rule, and the least rule that it breaks. `Memory` where memory ran out.
pub fn read(alloc: Global, bytes: &[u8]) -> Result<Arena, BitcodeFault>
    requires { length bytes.now ≤ LARGEST_STREAM }
    ensures spelled { IfOk result (λ arena. table.Spells bytes.now (module_of arena)) }
    // Bytes spell no other module, and what they spell is refused for want of memory alone.
    ensures alone { (m : Module) → table.Spells bytes.now m → IsReadAs m result }
    ensures told { IfErr result (IsReadFault bytes.now) }
    ensures well_formed { IfOk result (λ arena. IsWellFormed (module_of arena)) }
{
    judge(alloc, bytes)?;
    read_judged(alloc, bytes)
}
