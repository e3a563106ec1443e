//! The blocks in a module's block: the types, and bodies.
ghost use Rattle.std.specs.Prelude.{◌≡◌, ◌≤◌, ◌&&◌, nat_eq, length, true, false, slice_get, Some, OnOk, IfOk, IfErr};
ghost use Rattle.bit_tree.specs.Read.{IsStream};
ghost use Rattle.bit_tree.specs.Stream.{StreamTree, Stream};
ghost use Rattle.type_table.specs.Types as tables;
ghost use Rattle.module_arena.specs.declared.entry.Function.{Function};
ghost use Rattle.module_arena.specs.Known.{AreDistinct, IsGood};
ghost use Rattle.bit_stream.specs.declared.reader.TheConstants.{LARGEST_STREAM};
ghost use Rattle.record_table.specs.Faults.{Records, body_id, records as records_of, types_id};
ghost use Rattle.record_table.specs.Records as records;
ghost use Rattle.record_read.specs.declared.fault.BitcodeFault.TheVariants as fault;
ghost use Rattle.record_read.specs.Entries.{IsInBlock};
ghost use Rattle.record_read.specs.Fields.{texts_of};
ghost use Rattle.bitcode_read.specs.Head.Ahead.{first_module};
ghost use Rattle.bitcode_read.specs.declared.head.ahead.ModuleAhead as the_ahead;
ghost use Rattle.record_read.specs.Order.Due.{due_at};
ghost use Rattle.bitcode_read.specs.Sofar.{AreBytesHeld, HasRoom, IsNextCounts, IsTypesBegun, MayBeTypes, ReadsBlock};

use crate::ahead::declare_entries;
use crate::head::ModuleAhead;
use crate::sofar::Sofar;
use body_read::read_body;
use module_arena::{Arena, FunctionId};
use record_read::order::ModulePart;
use record_read::{BitcodeFault, Texts, misplaced};
use record_table::{BODY_BLOCK, TYPES_BLOCK};
use std::mem;
use type_read::arena::{GrowingArena, LocalCounts, ModuleReader};
use type_read::{name_structs, read_types};

/// What holds of the lists of every arena.
fn arena_facts(arena: &Arena)
    ensures good { IsGood arena.now }
    ensures distinct { AreDistinct arena.now }
    ensures types { tables.IsGood arena.now.table }
{
    let _count = arena.variable_count();
    let _types = arena.types().type_count();
}

/// Reads the block of types that was begun, and declares what the records behind it declare. From then on the arena of the
/// module's reader is that with the types.
fn read_types_block(
    m: &mut ModuleReader<'_>,
    bytes: &[u8],
    texts: &Texts,
    sofar: &mut Sofar,
    known: &mut ModuleAhead,
) -> Result<(), BitcodeFault>
    requires unspent { m.old.reader.spent ≡ false }
    requires begun { IsTypesBegun (texts_of texts.now) m.old.reader.left known.old }
    requires short { length bytes.now ≤ LARGEST_STREAM }
    requires judged { IsStream bytes.now }
    requires held { AreBytesHeld texts.now }
    requires room { HasRoom sofar.old }
    ensures room { OnOk result (HasRoom sofar.new) }
    ensures reads { (tree : StreamTree) → Stream bytes.now tree → records.may_follow sofar.old.last 5 ≡ true
        → ReadsBlock (texts_of texts.now) (first_module (records_of tree)) m.old sofar.old known.old types_id result m.new sofar.new known.new }
{
    let gathered = mem::replace(&mut known.named, Arena::new(m.alloc));
    let mut arena = name_structs(m.alloc, gathered, known.structs)?;
    read_types(&mut m.reader, m.alloc, texts, &mut arena, known.structs)?;
    sofar.ahead = declare_entries(m.alloc, bytes, texts, &mut arena)?;
    arena_facts(&arena);
    m.growing = GrowingArena::over(m.alloc, arena)?;
    sofar.last = ModulePart::Types.place();
    Ok(())
}

/// How many parameters the function of that number has that is declared. More than 32 bits hold are more than memory holds.
fn parameters_of(arena: &Arena, number: u32) -> Result<u32, BitcodeFault>
    ensures count { IfOk result (λ count. (f : Function) → slice_get arena.now.functions number ≡ Some f → count ≡ length f.parameters) }
    ensures memory { IfErr result (λ given. given ≡ fault.Memory) }
{
    if number >= arena.function_count() {
        return Ok(0);
    }
    let function = arena.function(FunctionId::new(number));
    u32::try_from(function.parameters.len()).map_err(|_| BitcodeFault::Memory)
}

/// What is counted ahead of the body that is the next.
fn counts_ahead(sofar: &Sofar) -> LocalCounts
    ensures { IsNextCounts sofar.now result }
{
    match sofar.ahead.get(sofar.bodies.len()) {
        Some(ahead) => ahead.counts,
        None => LocalCounts {
            values: 0,
            blocks: 0,
        },
    }
}

/// Reads the body that was begun, of the function of that number, which is the first whose body is due.
fn read_next_body(
    m: &mut ModuleReader<'_>,
    texts: &Texts,
    sofar: &mut Sofar,
    number: u32,
) -> Result<(), BitcodeFault>
    requires unspent { m.old.reader.spent ≡ false }
    requires begun { IsInBlock m.old.reader.left }
    requires room { HasRoom sofar.old }
    requires due { due_at sofar.old.defined.items (length sofar.old.bodies.items) 0 ≡ Some number }
    ensures room { OnOk result (HasRoom sofar.new) }
    ensures reads { (all : Records) (known : the_ahead.ModuleAhead) → records.may_follow sofar.old.last 9 ≡ true → ReadsBlock (texts_of texts.now) all m.old sofar.old known body_id result m.new sofar.new known }
{
    let parameters = parameters_of(m.growing.arena(), number)?;
    m.locals = counts_ahead(sofar);
    let body = read_body(m, texts, parameters)?;
    m.locals = LocalCounts {
        values: 0,
        blocks: 0,
    };
    sofar.bodies.push(body)?;
    sofar.last = ModulePart::Body.place();
    Ok(())
}

/// The number at that place, where there is one.
fn number_at(numbers: &[u32], place: usize) -> Option<u32>
    ensures { result ≡ slice_get numbers.now place }
{
    match numbers.get(place) {
        Some(number) => Some(*number),
        None => None,
    }
}

/// Reads the body that was begun, of the first function whose body is due.
fn read_body_block(
    m: &mut ModuleReader<'_>,
    texts: &Texts,
    sofar: &mut Sofar,
) -> Result<(), BitcodeFault>
    requires unspent { m.old.reader.spent ≡ false }
    requires begun { IsInBlock m.old.reader.left }
    requires room { HasRoom sofar.old }
    ensures room { OnOk result (HasRoom sofar.new) }
    ensures reads { (all : Records) (known : the_ahead.ModuleAhead) → records.may_follow sofar.old.last 9 ≡ true → ReadsBlock (texts_of texts.now) all m.old sofar.old known body_id result m.new sofar.new known }
{
    match number_at(&sofar.numbers, sofar.bodies.len()) {
        Some(number) => read_next_body(m, texts, sofar, number),
        None => Err(misplaced(BODY_BLOCK, m.reader.at())),
    }
}

/// Whether types may stand behind what stands at that place.
fn takes_types(id: u32, last: u8) -> bool
    ensures { result ≡ (nat_eq id types_id && records.may_follow last 5) }
{
    id == TYPES_BLOCK && ModulePart::Types.may_follow(last)
}

/// Whether a body may.
fn takes_body(id: u32, last: u8) -> bool
    ensures { result ≡ (nat_eq id body_id && records.may_follow last 9) }
{
    id == BODY_BLOCK && ModulePart::Body.may_follow(last)
}

/// Reads a block of that id that was begun.
pub(crate) fn read_block(
    m: &mut ModuleReader<'_>,
    bytes: &[u8],
    texts: &Texts,
    sofar: &mut Sofar,
    known: &mut ModuleAhead,
    id: u32,
) -> Result<(), BitcodeFault>
    requires unspent { m.old.reader.spent ≡ false }
    requires begun { IsInBlock m.old.reader.left }
    requires held { AreBytesHeld texts.now }
    requires types { MayBeTypes id (texts_of texts.now) sofar.old m.old.reader.left known.old }
    requires short { length bytes.now ≤ LARGEST_STREAM }
    requires judged { IsStream bytes.now }
    requires room { HasRoom sofar.old }
    ensures room { OnOk result (HasRoom sofar.new) }
    ensures reads { (tree : StreamTree) → Stream bytes.now tree → ReadsBlock (texts_of texts.now) (first_module (records_of tree)) m.old sofar.old known.old id result m.new sofar.new known.new }
{
    if takes_types(id, sofar.last) {
        return read_types_block(m, bytes, texts, sofar, known);
    }
    if takes_body(id, sofar.last) {
        return read_body_block(m, texts, sofar);
    }
    Err(misplaced(id, m.reader.at()))
}
