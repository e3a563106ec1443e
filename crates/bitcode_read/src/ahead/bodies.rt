//! What is known ahead of the bodies of a module's block.
ghost use Rattle.std.specs.Prelude.{◌≡◌, ◌+◌, ◌≤◌, ◌∷◌, ℕ, List, [], false, true, length, slice_get, None, IfOk, OnOk, option_to_list};
ghost use Rattle.bit_stream.specs.declared.reader.TheConstants.{LARGEST_STREAM};
ghost use Rattle.bit_tree.specs.Pieces.{Piece, ended};
ghost use Rattle.bit_tree.specs.Read.{IsStream};
ghost use Rattle.bit_tree.specs.Stream.{StreamTree, Stream};
ghost use Rattle.record_table.specs.Faults.{Records, records};
ghost use Rattle.record_table.specs.Fields.{Numbering};
ghost use Rattle.record_table.specs.Layout.{judged};
ghost use Rattle.record_table.specs.Walk.{going};
ghost use Rattle.record_read.specs.Entries.{IsBefore, IsInBlock};
ghost use Rattle.record_read.specs.Fields.{texts_of};
ghost use Rattle.body_read.specs.Ahead.Ahead.{AreVoids};
ghost use Rattle.bitcode_read.specs.Head.Ahead.{first_module, one_where};
ghost use Rattle.bitcode_read.specs.Head.Fronts.{function_front};
ghost use Rattle.bitcode_read.specs.Ahead.Bodies.{AddsBody, AddsDue, AddsIf, AddsIfBody, Foresees, count_due};
ghost use Rattle.bitcode_read.specs.Ahead.Entries.{declaring, entry_count, is_entry};

use crate::head::{FunctionFront, find_module, read_function_front};
use body_read::ahead::{BodyAhead, gather_body};
use record_read::{NextEntry, RecordReader, Texts, push_known};
use record_table::{ALIAS, BODY_BLOCK, FUNCTION, VARIABLE};
use std::alloc::{AllocError, Global};
use type_table::TypeList;

/// What is known ahead of a module's block: its bodies that are due, in their order, and how many of its records declare
/// entries.
#[derive(Drop)]
pub(crate) struct BlockAhead {
    pub(crate) bodies: Vec<BodyAhead>,
    pub(crate) entries: u64,
}

/// Whether a record of that code declares an entry.
pub(crate) fn is_entry(code: u32) -> bool
    ensures { result ≡ is_entry (declaring code) }
{
    if code == VARIABLE {
        return true;
    }
    if code == FUNCTION {
        return true;
    }
    code == ALIAS
}

/// One more. More than 64 bits hold are more than memory holds.
fn more(count: u64) -> Result<u64, AllocError>
    ensures { IfOk result (λ next. next ≡ count + 1) }
{
    count.checked_add(1).ok_or(AllocError)
}

/// How many records declare entries, with one of that code.
fn counted(count: u64, code: u32) -> Result<u64, AllocError>
    ensures { IfOk result (λ now. now ≡ count + one_where (is_entry (declaring code))) }
{
    let is_one = is_entry(code);
    if is_one {
        let now = more(count)?;
        return Ok(now);
    }
    Ok(count)
}

/// How many types there are. More than 32 bits hold are more than memory holds.
fn count_of(types: &TypeList) -> Result<u32, AllocError>
    ensures { IfOk result (λ count. count ≡ length types.now) }
{
    match u32::try_from(types.len()) {
        Ok(count) => Ok(count),
        Err(_) => Err(AllocError),
    }
}

/// How many parameters there are, where they are known.
fn known_count(parameters: &Option<TypeList>) -> Result<Option<u32>, AllocError>
    ensures { IfOk result (λ count. option_to_list count ≡ count_due true parameters.now) }
{
    match parameters {
        Some(types) => {
            let count = count_of(types)?;
            Ok(Some(count))
        }
        None => Ok(None),
    }
}

/// How many parameters the function has, if it is defined.
fn due_count(front: &FunctionFront) -> Result<Option<u32>, AllocError>
    ensures { IfOk result (λ count. option_to_list count ≡ count_due front.now.defined front.now.parameters) }
{
    let is_defined = front.defined;
    if is_defined {
        let count = known_count(&front.parameters)?;
        return Ok(count);
    }
    Ok(None)
}

/// Reads the record of a function, which there are so many types for. Its body is due if it is defined and breaks no rule.
fn gather_function(
    reader: &mut RecordReader<'_>,
    alloc: Global,
    texts: &Texts,
    types: u64,
    due: &mut Vec<u32>,
) -> Result<(), AllocError>
    ensures spent { OnOk result (reader.new.spent ≡ reader.old.spent) }
    ensures left { OnOk result (reader.new.left ≡ reader.old.left) }
    ensures gathers { (operands : List ℕ) → reader.old.walk ≡ going operands None → OnOk result (AddsDue (judged (function_front (texts_of texts.now) types) operands) due.old.items due.new.items) }
{
    let front = read_function_front(reader, alloc, texts, types)?;
    let is_refused = reader.told().is_some();
    if is_refused {
        return Ok(());
    }
    let count = due_count(&front)?;
    push_known(due, count)?;
    Ok(())
}

/// Counts a record of that code, and reads it if it is that of a function.
fn gather_record(
    reader: &mut RecordReader<'_>,
    alloc: Global,
    texts: &Texts,
    types: u64,
    due: &mut Vec<u32>,
    count: &mut u64,
    code: u32,
) -> Result<(), AllocError>
    ensures spent { OnOk result (reader.new.spent ≡ reader.old.spent) }
    ensures left { OnOk result (reader.new.left ≡ reader.old.left) }
    ensures gathers { (operands : List ℕ) → reader.old.walk ≡ going operands None → OnOk result (AddsIf code (judged (function_front (texts_of texts.now) types) operands) due.old.items due.new.items) }
    ensures counts { OnOk result (count.new ≡ count.old + one_where (is_entry (declaring code))) }
{
    let now = counted(*count, code)?;
    *count = now;
    if code == FUNCTION {
        gather_function(reader, alloc, texts, types, due)?;
        return Ok(());
    }
    Ok(())
}

/// How many parameters the function at that place has.
fn due_at(due: &[u32], place: usize) -> Option<u32>
    ensures { result ≡ slice_get due.now place }
{
    match due.get(place) {
        Some(count) => Some(*count),
        None => None,
    }
}

/// Goes through the body that was begun, of the first function whose body is due and did not come. One that is of none is
/// passed over.
fn gather_due(
    reader: &mut RecordReader<'_>,
    alloc: Global,
    texts: &Texts,
    voids: &[bool],
    due: &[u32],
    bodies: &mut Vec<BodyAhead>,
) -> Result<(), AllocError>
    requires { reader.old.spent ≡ false }
    ensures unspent { OnOk result (reader.new.spent ≡ false) }
    ensures gathers { (held : Records) (others : List Piece) → IsBefore reader.old.left held (ended ∷ others)
        → OnOk result (AddsBody (texts_of texts.now) voids.now due.now held bodies.old.items bodies.new.items × (reader.new.left ≡ others)) }
{
    let place = bodies.as_slice().len();
    match due_at(due, place) {
        Some(count) => {
            let body = gather_body(reader, alloc, texts, count, voids)?;
            bodies.push(body)?;
            Ok(())
        }
        None => {
            reader.pass_block()?;
            Ok(())
        }
    }
}

/// Goes through the block of that id that was begun.
fn gather_block(
    reader: &mut RecordReader<'_>,
    alloc: Global,
    texts: &Texts,
    voids: &[bool],
    due: &[u32],
    bodies: &mut Vec<BodyAhead>,
    id: u32,
) -> Result<(), AllocError>
    requires { reader.old.spent ≡ false }
    ensures unspent { OnOk result (reader.new.spent ≡ false) }
    ensures gathers { (held : Records) (others : List Piece) → IsBefore reader.old.left held (ended ∷ others)
        → OnOk result (AddsIfBody id (texts_of texts.now) voids.now due.now held bodies.old.items bodies.new.items × (reader.new.left ≡ others)) }
{
    if id == BODY_BLOCK {
        gather_due(reader, alloc, texts, voids, due, bodies)?;
        return Ok(());
    }
    reader.pass_block()?;
    Ok(())
}

/// What is known ahead of the module's block that was begun.
fn gather_bodies(
    reader: &mut RecordReader<'_>,
    alloc: Global,
    texts: &Texts,
    types: u64,
    voids: &[bool],
) -> Result<BlockAhead, AllocError>
    requires unspent { reader.old.spent ≡ false }
    requires begun { IsInBlock reader.old.left }
    ensures foresees { (inside : Records) (others : List Piece) → IsBefore reader.old.left inside (ended ∷ others)
        → IfOk result (λ found. (k : Numbering) → AreVoids voids.now k → Foresees (texts_of texts.now) k types [] found.bodies.items inside) }
    ensures counted { (inside : Records) (others : List Piece) → IsBefore reader.old.left inside (ended ∷ others) → IfOk result (λ found. found.entries ≡ entry_count inside) }
{
    let mut due = Vec::new(alloc);
    let mut bodies = Vec::new(alloc);
    let mut count: u64 = 0;
    'entries: loop {
        match reader.next()? {
            NextEntry::Record(code) => {
                gather_record(reader, alloc, texts, types, &mut due, &mut count, code)?;
            }
            NextEntry::Block(id) => {
                gather_block(reader, alloc, texts, voids, due.as_slice(), &mut bodies, id)?;
            }
            NextEntry::End => {
                return Ok(BlockAhead {
                    bodies,
                    entries: count,
                });
            }
        }
    }
}

/// What is known ahead of the block of a judged stream's module, whose types are so many. `voids` says of each whether it is
/// `void`.
pub(crate) fn look_at_bodies(
    alloc: Global,
    bytes: &[u8],
    texts: &Texts,
    types: u64,
    voids: &[bool],
) -> Result<BlockAhead, AllocError>
    requires short { length bytes.now ≤ LARGEST_STREAM }
    requires judged { IsStream bytes.now }
    ensures foresees { (tree : StreamTree) (k : Numbering) → Stream bytes.now tree → AreVoids voids.now k → IfOk result (λ found. Foresees (texts_of texts.now) k types [] found.bodies.items (first_module (records tree))) }
    ensures counted { (tree : StreamTree) → Stream bytes.now tree → IfOk result (λ found. found.entries ≡ entry_count (first_module (records tree))) }
{
    let mut reader = RecordReader::new(alloc, bytes);
    let is_there = find_module(&mut reader)?;
    if is_there {
        let found = gather_bodies(&mut reader, alloc, texts, types, voids)?;
        return Ok(found);
    }
    let none = Vec::new(alloc);
    Ok(BlockAhead {
        bodies: none,
        entries: 0,
    })
}
