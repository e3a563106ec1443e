//! The entries of a module's block, declared in their order.
ghost use Rattle.std.specs.Prelude.{◌≡◌, ◌+◌, ◌<◌, ◌≤◌, ◌∷◌, ℕ, List, [], false, length, map, drop, None, Some, IfOk, IfSome, OnOk, if◌then◌else◌};
ghost use Rattle.bit_tree.specs.Pieces.{Piece, ended};
ghost use Rattle.bit_tree.specs.Read.{IsStream};
ghost use Rattle.bit_tree.specs.Stream.{StreamTree, Stream};
ghost use Rattle.type_table.specs.Types.{trees};
ghost use Rattle.bit_stream.specs.declared.reader.TheConstants.{LARGEST_STREAM};
ghost use Rattle.record_table.specs.Faults.{Records, records};
ghost use Rattle.record_table.specs.Fields.{Numbering};
ghost use Rattle.record_table.specs.Walk.{going};
ghost use Rattle.record_read.specs.Entries.{IsBefore};
ghost use Rattle.record_read.specs.Fields.{texts_of};
ghost use Rattle.bitcode_read.specs.Head.Ahead.{first_module, one_where};
ghost use Rattle.bitcode_read.specs.Ahead.Entries.{Declares, DeclaresAlias, DeclaresBy, DeclaresFunction, DeclaresVariable, declaring, entry_count, is_entry, names_for, names_of_place, used_with, whole_function};
ghost use Rattle.bitcode_read.specs.Ahead.Bodies.{Foresees, names_given};

use crate::ahead::adding::{add_alias, add_function, add_variable};
use crate::ahead::bodies::{BlockAhead, is_entry, look_at_bodies};
use crate::ahead::entries::{alias_of, function_of, variable_of};
use crate::ahead::voids::voids_of;
use crate::head::{
    FunctionFront, find_module, read_alias_front, read_function_front, read_variable_front,
};
use body_read::ahead::BodyAhead;
use module_arena::{Arena, Function, LocalName};
use record_read::{NextEntry, RecordReader, Texts};
use record_table::{ALIAS, FUNCTION, VARIABLE};
use std::alloc::{AllocError, Global};

/// Declares the variable of a record, and tells whether it did.
fn declare_variable(
    reader: &mut RecordReader<'_>,
    alloc: Global,
    texts: &Texts,
    arena: &mut Arena,
) -> Result<bool, AllocError>
    ensures spent { OnOk result (reader.new.spent ≡ reader.old.spent) }
    ensures left { OnOk result (reader.new.left ≡ reader.old.left) }
    ensures declares { (operands : List ℕ) → reader.old.walk ≡ going operands None → IfOk result (λ is. DeclaresVariable (texts_of texts.now) [] 0 operands arena.old is arena.new) }
{
    let types = arena.types().type_count();
    let front = read_variable_front(reader, alloc, texts, types)?;
    let is_broken = reader.is_broken();
    if is_broken {
        return Ok(false);
    }
    match variable_of(front) {
        Some(variable) => {
            let done = add_variable(arena, variable)?;
            Ok(done)
        }
        None => Ok(false),
    }
}

/// Declares the alias of a record, and tells whether it did.
fn declare_alias(
    reader: &mut RecordReader<'_>,
    alloc: Global,
    texts: &Texts,
    arena: &mut Arena,
) -> Result<bool, AllocError>
    ensures spent { OnOk result (reader.new.spent ≡ reader.old.spent) }
    ensures left { OnOk result (reader.new.left ≡ reader.old.left) }
    ensures declares { (operands : List ℕ) → reader.old.walk ≡ going operands None → IfOk result (λ is. DeclaresAlias (texts_of texts.now) [] 0 operands arena.old is arena.new) }
{
    let types = arena.types().type_count();
    let front = read_alias_front(reader, alloc, texts, types)?;
    let is_broken = reader.is_broken();
    if is_broken {
        return Ok(false);
    }
    match alias_of(front) {
        Some(alias) => {
            let done = add_alias(arena, alias)?;
            Ok(done)
        }
        None => Ok(false),
    }
}

/// The names that a body gives the parameters of its function.
fn names_of(body: &BodyAhead) -> &[LocalName]
    ensures { result.now ≡ names_given body.now }
{
    match &body.names {
        Some(names) => names.as_slice(),
        None => &[],
    }
}

/// The names that the body of that place gives the parameters of its function.
fn names_at(bodies: &[BodyAhead], place: usize) -> &[LocalName]
    ensures { result.now ≡ names_of_place bodies.now place }
{
    match bodies.get(place) {
        Some(body) => names_of(body),
        None => &[],
    }
}

/// How many bodies are used behind a function that is defined or not.
fn used_behind(used: usize, defined: bool, count: usize) -> usize
    requires { used ≤ count }
    ensures is { result ≡ used_with defined used count }
    ensures few { result ≤ count }
{
    if defined && used < count {
        used + 1
    } else {
        used
    }
}

/// The function of a front, whose parameters are called as the body of that place calls them, if it is defined.
fn function_with(
    alloc: Global,
    front: FunctionFront,
    bodies: &[BodyAhead],
    used: usize,
) -> Result<Option<Function>, AllocError>
    ensures { IfOk result (λ function. function ≡ whole_function (names_for front.defined (drop used (map names_given bodies.now))) front.name front.linkage front.returns front.variadic front.parameters) }
{
    let is_defined = front.defined;
    if is_defined {
        let names = names_at(bodies, used);
        let function = function_of(alloc, front, names)?;
        return Ok(function);
    }
    let declaration = function_of(alloc, front, &[])?;
    Ok(declaration)
}

/// So many, where an entry was declared.
fn used_where(is: bool, used: usize) -> Option<usize>
    ensures { result ≡ (if is then Some used else None) }
{
    if is { Some(used) } else { None }
}

/// Declares the function of a record, behind so many that are defined, and tells how many are then; none where it did not.
fn declare_function(
    reader: &mut RecordReader<'_>,
    alloc: Global,
    texts: &Texts,
    arena: &mut Arena,
    bodies: &[BodyAhead],
    used: usize,
) -> Result<Option<usize>, AllocError>
    requires { used ≤ length bodies.now }
    ensures spent { OnOk result (reader.new.spent ≡ reader.old.spent) }
    ensures left { OnOk result (reader.new.left ≡ reader.old.left) }
    ensures few { IfOk result (λ now. IfSome now (λ now. now ≤ length bodies.now)) }
    ensures declares { (operands : List ℕ) → reader.old.walk ≡ going operands None → IfOk result (λ now. DeclaresFunction (texts_of texts.now) (map names_given bodies.now) used operands arena.old now arena.new) }
{
    let types = arena.types().type_count();
    let front = read_function_front(reader, alloc, texts, types)?;
    let is_broken = reader.is_broken();
    if is_broken {
        return Ok(None);
    }
    let now = used_behind(used, front.defined, bodies.len());
    let made = function_with(alloc, front, bodies, used)?;
    match made {
        Some(function) => {
            let done = add_function(arena, function)?;
            Ok(used_where(done, now))
        }
        None => Ok(None),
    }
}

/// Declares what a record of that code declares, behind so many functions that are defined, and tells how many are then; none
/// where it did not.
fn declare_record(
    reader: &mut RecordReader<'_>,
    alloc: Global,
    texts: &Texts,
    arena: &mut Arena,
    bodies: &[BodyAhead],
    used: usize,
    code: u32,
) -> Result<Option<usize>, AllocError>
    requires { used ≤ length bodies.now }
    ensures spent { OnOk result (reader.new.spent ≡ reader.old.spent) }
    ensures left { OnOk result (reader.new.left ≡ reader.old.left) }
    ensures few { IfOk result (λ now. IfSome now (λ now. now ≤ length bodies.now)) }
    ensures declares { (operands : List ℕ) → reader.old.walk ≡ going operands None → IfOk result (λ now. DeclaresBy (texts_of texts.now) (map names_given bodies.now) used operands arena.old (declaring code) now arena.new) }
{
    if code == VARIABLE {
        let done = declare_variable(reader, alloc, texts, arena)?;
        return Ok(used_where(done, used));
    }
    if code == FUNCTION {
        let now = declare_function(reader, alloc, texts, arena, bodies, used)?;
        return Ok(now);
    }
    if code == ALIAS {
        let done = declare_alias(reader, alloc, texts, arena)?;
        return Ok(used_where(done, used));
    }
    Ok(Some(used))
}

/// How many entries are to come behind a record of that code, in front of which so many are.
fn due_behind(due: u64, code: u32) -> u64
    requires { 0 < due }
    ensures { result + one_where (is_entry (declaring code)) ≡ due }
{
    let is_one = is_entry(code);
    if is_one {
        return due - 1;
    }
    due
}

/// Declares what the records of the module's block that was begun declare, up to one that is refused. So many of them declare
/// entries, behind the last of which nothing is looked at.
fn declare_block(
    reader: &mut RecordReader<'_>,
    alloc: Global,
    texts: &Texts,
    arena: &mut Arena,
    bodies: &[BodyAhead],
    count: u64,
) -> Result<(), AllocError>
    requires { reader.old.spent ≡ false }
    ensures { (inside : Records) (others : List Piece) → IsBefore reader.old.left inside (ended ∷ others) → count ≡ entry_count inside
        → OnOk result (Declares (texts_of texts.now) (length arena.old.table.types) arena.new (map names_given bodies.now) arena.old inside) }
{
    let mut used: usize = 0;
    let mut due = count;
    'entries: loop {
        if due == 0 {
            return Ok(());
        }
        match reader.next()? {
            NextEntry::Record(code) => {
                let left = due_behind(due, code);
                let now = declare_record(reader, alloc, texts, arena, bodies, used, code)?;
                match now {
                    Some(now) => {
                        used = now;
                        due = left;
                    }
                    None => return Ok(()),
                }
            }
            NextEntry::Block(_) => reader.pass_block()?,
            NextEntry::End => return Ok(()),
        }
    }
}

/// Declares what the records of the module's block of a judged stream declare, up to one that is refused. So many of them
/// declare entries.
fn declare_all(
    alloc: Global,
    bytes: &[u8],
    texts: &Texts,
    arena: &mut Arena,
    bodies: &[BodyAhead],
    count: u64,
) -> Result<(), AllocError>
    requires short { length bytes.now ≤ LARGEST_STREAM }
    requires judged { IsStream bytes.now }
    ensures { (tree : StreamTree) → Stream bytes.now tree → count ≡ entry_count (first_module (records tree))
        → OnOk result (Declares (texts_of texts.now) (length arena.old.table.types) arena.new (map names_given bodies.now) arena.old (first_module (records tree))) }
{
    let mut reader = RecordReader::new(alloc, bytes);
    let is_there = find_module(&mut reader)?;
    if is_there {
        declare_block(&mut reader, alloc, texts, arena, bodies, count)?;
        return Ok(());
    }
    Ok(())
}

/// Declares in an arena that has the module's types what the records of the module's block declare, in their order, up to one
/// that will be refused for a rule, and tells what is known ahead of its bodies. Parameters are called as their bodies call
/// them. The stream is judged. It is refused for want of memory alone.
pub fn declare_entries(
    alloc: Global,
    bytes: &[u8],
    texts: &Texts,
    arena: &mut Arena,
) -> Result<Vec<BodyAhead>, AllocError>
    requires short { length bytes.now ≤ LARGEST_STREAM }
    requires judged { IsStream bytes.now }
    ensures declares { (tree : StreamTree) → Stream bytes.now tree → IfOk result (λ bodies. Declares (texts_of texts.now) (length arena.old.table.types) arena.new (map names_given bodies.items) arena.old (first_module (records tree))) }
    ensures foresees { (tree : StreamTree) (k : Numbering) → Stream bytes.now tree → k.types ≡ trees arena.old.table
        → IfOk result (λ bodies. Foresees (texts_of texts.now) k (length arena.old.table.types) [] bodies.items (first_module (records tree))) }
{
    let types = arena.types().type_count();
    let voids = voids_of(alloc, arena.types())?;
    let found = look_at_bodies(alloc, bytes, texts, types, voids.as_slice())?;
    let BlockAhead { bodies, entries } = found;
    declare_all(alloc, bytes, texts, arena, bodies.as_slice(), entries)?;
    Ok(bodies)
}
