//! What is known ahead of the block of a module.
ghost use Rattle.std.specs.Prelude.{◌≡◌, ◌≤◌, ◌&&◌, ◌∷◌, ℕ, List, [], false, length, nat_eq, not, IfOk, OnOk};
ghost use Rattle.bit_stream.specs.declared.reader.TheConstants.{LARGEST_STREAM};
ghost use Rattle.bit_tree.specs.Pieces.{Piece, ended};
ghost use Rattle.bit_tree.specs.Read.{IsStream};
ghost use Rattle.bit_tree.specs.Stream.{StreamTree, Stream};
ghost use Rattle.record_table.specs.Faults.{Records, records, types_id};
ghost use Rattle.record_read.specs.Entries.{IsBefore, IsInBlock};
ghost use Rattle.record_read.specs.Fields.{texts_of};
ghost use Rattle.bitcode_read.specs.Head.Ahead.{CountsRecord, FindsFirst, Gathers, GathersBlock, IsAhead, IsNothing, first_module};

use module_arena::Arena;
use record_read::{NextEntry, RecordReader, Texts, one_more};
use record_table::{ALIAS, FUNCTION, MODULE_BLOCK, TYPES_BLOCK, VARIABLE};
use std::alloc::{AllocError, Global};
use type_read::arena::GlobalCounts;
use type_read::{StructNames, gather_types};

/// What is known ahead of a module's block: how many entries it has, and its structs, with an arena that has their names, where none is
/// bad, and nothing else.
#[derive(Drop)]
pub struct ModuleAhead {
    pub counts: GlobalCounts,
    pub structs: StructNames,
    pub named: Arena,
}

/// Structs, with an arena that has their names.
#[derive(Drop)]
struct NamedStructs {
    structs: StructNames,
    named: Arena,
}

/// Goes into the module's block, which is the first of its id that is in no other. False where there is none. It is refused
/// for want of memory alone.
pub fn find_module(reader: &mut RecordReader<'_>) -> Result<bool, AllocError>
    requires { reader.old.spent ≡ false }
    ensures unspent { OnOk result (reader.new.spent ≡ false) }
    ensures finds { (all : Records) → IsBefore reader.old.left all [] → IfOk result (λ found. FindsFirst found reader.new all) }
{
    'entries: loop {
        match reader.next()? {
            NextEntry::Block(id) => {
                if id == MODULE_BLOCK {
                    return Ok(true);
                }
                reader.pass_block()?;
            }
            NextEntry::Record(_) => {}
            NextEntry::End => return Ok(false),
        }
    }
}

/// The counts with a record of that code.
fn counted(counts: GlobalCounts, code: u32) -> Result<GlobalCounts, AllocError>
    ensures { IfOk result (CountsRecord code counts) }
{
    let mut now = counts;
    if code == VARIABLE {
        now.variables = one_more(counts.variables)?;
        return Ok(now);
    }
    if code == FUNCTION {
        now.functions = one_more(counts.functions)?;
        return Ok(now);
    }
    if code == ALIAS {
        now.aliases = one_more(counts.aliases)?;
        return Ok(now);
    }
    Ok(now)
}

/// The structs of the block of types that was begun. The reader stands behind it then.
fn gather_structs(
    reader: &mut RecordReader<'_>,
    alloc: Global,
    texts: &Texts,
) -> Result<NamedStructs, AllocError>
    requires { reader.old.spent ≡ false }
    ensures unspent { OnOk result (reader.new.spent ≡ false) }
    ensures gathers { (inside : Records) (others : List Piece) → IsBefore reader.old.left inside (ended ∷ others) → IfOk result (Gathers (texts_of texts.now) inside others reader.new) }
{
    let mut named = Arena::new(alloc);
    let types = gather_types(reader, alloc, texts, &mut named)?;
    Ok(NamedStructs {
        structs: types.structs,
        named,
    })
}

/// What is known ahead of a block in which nothing stands.
fn nothing_ahead(alloc: Global) -> ModuleAhead
    ensures { IsNothing result }
{
    let named = Arena::new(alloc);
    ModuleAhead {
        counts: GlobalCounts {
            variables: 0,
            functions: 0,
            aliases: 0,
        },
        structs: StructNames {
            count: 0,
            first_bad: None,
        },
        named,
    }
}

/// Whether a block of that id is the first block of types.
fn is_first_types(id: u32, had: bool) -> bool
    ensures { result ≡ (nat_eq id types_id && not had) }
{
    id == TYPES_BLOCK && !had
}

/// Goes through a block of that id that was begun, where there was a block of types before it or not, and tells whether there
/// is one now. The reader stands behind the block then.
fn gather_block(
    reader: &mut RecordReader<'_>,
    alloc: Global,
    texts: &Texts,
    ahead: &mut ModuleAhead,
    had: bool,
    id: u32,
) -> Result<bool, AllocError>
    requires { reader.old.spent ≡ false }
    ensures unspent { OnOk result (reader.new.spent ≡ false) }
    ensures gathers { (held : Records) (others : List Piece) → IsBefore reader.old.left held (ended ∷ others)
        → IfOk result (λ has. GathersBlock (texts_of texts.now) id held had ahead.old has ahead.new × (reader.new.left ≡ others)) }
{
    let is_first = is_first_types(id, had);
    if is_first {
        let found = gather_structs(reader, alloc, texts)?;
        let NamedStructs { structs, named } = found;
        ahead.structs = structs;
        ahead.named = named;
        return Ok(true);
    }
    reader.pass_block()?;
    Ok(had)
}

/// Goes through the module's block that was begun, of which nothing is known yet. The reader stands behind it then.
fn gather_module(
    reader: &mut RecordReader<'_>,
    alloc: Global,
    texts: &Texts,
    ahead: &mut ModuleAhead,
) -> Result<(), AllocError>
    requires unspent { reader.old.spent ≡ false }
    requires begun { IsInBlock reader.old.left }
    requires nothing { IsNothing ahead.old }
    ensures { (inside : Records) (others : List Piece) → IsBefore reader.old.left inside (ended ∷ others) → OnOk result (IsAhead (texts_of texts.now) inside ahead.new) }
{
    let mut has_types = false;
    'entries: loop {
        match reader.next()? {
            NextEntry::Record(code) => {
                let counts = counted(ahead.counts, code)?;
                ahead.counts = counts;
            }
            NextEntry::Block(id) => {
                has_types = gather_block(reader, alloc, texts, ahead, has_types, id)?;
            }
            NextEntry::End => return Ok(()),
        }
    }
}

/// What is known ahead of the module's block of a judged stream. It is refused for want of memory alone.
pub fn look_ahead(alloc: Global, bytes: &[u8], texts: &Texts) -> Result<ModuleAhead, AllocError>
    requires short { length bytes.now ≤ LARGEST_STREAM }
    requires judged { IsStream bytes.now }
    ensures { (tree : StreamTree) → Stream bytes.now tree → IfOk result (IsAhead (texts_of texts.now) (first_module (records tree))) }
{
    let mut ahead = nothing_ahead(alloc);
    let mut reader = RecordReader::new(alloc, bytes);
    let is_there = find_module(&mut reader)?;
    if is_there {
        gather_module(&mut reader, alloc, texts, &mut ahead)?;
        return Ok(ahead);
    }
    Ok(ahead)
}
