//! The names of structs, ahead of the types.
ghost use Rattle.std.specs.Prelude.{◌≡◌, ◌∷◌, ◌++◌, ◌<◌, ◌+◌, ◌/◌, ◌%◌, ℕ, List, [], false, None, IfOk, OnOk};
ghost use Rattle.bit_tree.specs.Pieces.{Piece, ended};
ghost use Rattle.module_arena.specs.Lists.{no_lists};
ghost use Rattle.record_table.specs.Codes.{kind_view};
ghost use Rattle.record_table.specs.Faults.{Records};
ghost use Rattle.record_table.specs.TypeRecords as types;
ghost use Rattle.record_table.specs.Walk.{going};
ghost use Rattle.record_read.specs.Entries.{IsBefore};
ghost use Rattle.record_read.specs.Fields.{texts_of};
ghost use Rattle.type_read.specs.Listed.{AddsName, AddsNew, AreGathered, GathersRecord, HasStructs, IsNamedAs, is_void_kind, void_of, voids_in};
ghost use Rattle.type_read.specs.Fields.{IsNameOf};

use crate::definition::read_definition;
use ir_base::{Name, Text};
use module_arena::Arena;
use record_read::{NextEntry, RecordReader, Texts};
use record_table::{DEFINE, TypeKind};
use std::alloc::{AllocError, Global};
use type_table::TypeFault;

/// The structs of a block: how many there are, and the first, counted from 0, that is called as no struct may be: by no name,
/// or by that of one before it.
///
/// ```
/// StructNames { count: 2, first_bad: None } // of `%T = type opaque` and `%U = type { i32 }`
/// StructNames { count: 2, first_bad: Some(1) } // of two structs of one name
/// ```
#[derive(Clone, Copy)]
pub struct StructNames {
    pub count: u32,
    pub first_bad: Option<u32>,
}

/// Gives the name to one more struct, and tells whether it is new. More structs than 32 bits count are more than memory holds.
fn add_new(arena: &mut Arena, name: Name) -> Result<bool, AllocError>
    ensures { IfOk result (λ is_new. AddsNew arena.old name is_new arena.new) }
{
    if arena.types().struct_count() == u32::MAX {
        return Err(AllocError);
    }
    match arena.name_struct(name) {
        Ok(_) => Ok(true),
        Err(TypeFault::Duplicate) => Ok(false),
        Err(_) => Err(AllocError),
    }
}

/// Whether the name is one, and is new; then it is given to one more struct.
fn is_added(arena: &mut Arena, name: Option<Name>) -> Result<bool, AllocError>
    ensures { IfOk result (λ is_new. AddsName arena.old name is_new arena.new) }
{
    match name {
        Some(name) => add_new(arena, name),
        None => Ok(false),
    }
}

/// Fewer structs than this are counted: as many are more than memory holds.
pub(crate) const STRUCT_LIMIT: u32 = 1 << 31;

/// One more.
fn one_more(count: u32) -> Result<u32, AllocError>
    ensures { IfOk result (λ more. (more ≡ count + 1) × (more < STRUCT_LIMIT)) }
{
    if count >= STRUCT_LIMIT - 1 {
        return Err(AllocError);
    }
    Ok(count + 1)
}

/// One more struct of that name. The first that is bad is noted, and behind it no names are kept.
fn add_struct(
    arena: &mut Arena,
    names: StructNames,
    name: Option<Name>,
) -> Result<StructNames, AllocError>
    ensures { IfOk result (λ now. (all : List (List ℕ)) (value : List ℕ) → IsNameOf name value → AreGathered arena.old names all → AreGathered arena.new now (all ++ value ∷ [])) }
{
    let count = one_more(names.count)?;
    match names.first_bad {
        Some(place) => Ok(StructNames {
            count,
            first_bad: Some(place),
        }),
        None => {
            let is_new = is_added(arena, name)?;
            if is_new {
                Ok(StructNames {
                    count,
                    first_bad: None,
                })
            } else {
                Ok(StructNames {
                    count,
                    first_bad: Some(names.count),
                })
            }
        }
    }
}

/// Whether types of that kind are `void`.
fn is_void(kind: TypeKind) -> bool
    ensures { result ≡ is_void_kind (kind_view kind) }
{
    match kind {
        TypeKind::Void => true,
        TypeKind::Int | TypeKind::Ptr | TypeKind::Array | TypeKind::Struct | TypeKind::Named =>
            false,
    }
}

/// What is known ahead of a block of types: its structs, and for each type whether it is `void`.
#[derive(Drop)]
pub struct TypesAhead {
    pub structs: StructNames,
    pub voids: Vec<bool>,
}

/// One more type, where the code is that of a kind.
fn push_void(voids: &mut Vec<bool>, code: u32) -> Result<(), AllocError>
    ensures { OnOk result (voids.new.items ≡ voids.old.items ++ void_of code) }
{
    match TypeKind::of_code(code) {
        Some(kind) => {
            voids.push(is_void(kind))?;
            Ok(())
        }
        None => Ok(()),
    }
}

/// One more record of that code: a struct's name, or whether a type is `void`.
fn gather_record(
    reader: &mut RecordReader<'_>,
    alloc: Global,
    texts: &Texts,
    arena: &mut Arena,
    ahead: &mut TypesAhead,
    code: u32,
) -> Result<(), AllocError>
    ensures kept { OnOk result ((reader.new.spent ≡ reader.old.spent) × (reader.new.left ≡ reader.old.left)) }
    ensures gathers { (operands : List ℕ) → reader.old.walk ≡ going operands None → OnOk result (GathersRecord (texts_of texts.now) code operands arena.old ahead.old arena.new ahead.new) }
{
    if code == DEFINE {
        let definition = read_definition(reader, alloc, texts, u64::MAX)?;
        ahead.structs = add_struct(arena, ahead.structs, definition.name)?;
        Ok(())
    } else {
        push_void(&mut ahead.voids, code)
    }
}

/// Goes through the block of types that was begun, and gives an empty arena the structs' names, where none is bad. The reader stands
/// behind the block then. It refuses nothing.
pub fn gather_types(
    reader: &mut RecordReader<'_>,
    alloc: Global,
    texts: &Texts,
    arena: &mut Arena,
) -> Result<TypesAhead, AllocError>
    requires unspent { reader.old.spent ≡ false }
    requires empty { arena.old ≡ no_lists }
    ensures unspent { OnOk result (reader.new.spent ≡ false) }
    ensures gathered { (inside : Records) (others : List Piece) → IsBefore reader.old.left inside (ended ∷ others)
        → IfOk result (λ ahead. AreGathered arena.new ahead.structs (types.names_in (texts_of texts.now) inside) × (ahead.voids.items ≡ voids_in inside) × (reader.new.left ≡ others)) }
{
    let mut ahead = TypesAhead {
        structs: StructNames {
            count: 0,
            first_bad: None,
        },
        voids: Vec::new(alloc),
    };
    'records: loop {
        match reader.next()? {
            NextEntry::Record(code) => {
                gather_record(reader, alloc, texts, arena, &mut ahead, code)?;
            }
            NextEntry::Block(_) => reader.pass_block()?,
            NextEntry::End => return Ok(ahead),
        }
    }
}

/// The digit of that weight of the number in base 255, as a byte that is not zero.
fn digit(number: u32, weight: u32) -> u8
    requires { 0 < weight }
    ensures { result ≡ 1 + number / weight % 255 }
{
    (1 + number / weight % 255) as u8
}

/// The number as four bytes that are not zero.
fn stand_in(alloc: Global, number: u32) -> Result<Name, AllocError>
    ensures { IfOk result (λ name. name ≡ types.stand_in number) }
{
    let mut text = Text::new(alloc);
    text.push(digit(number, 16_581_375))?;
    text.push(digit(number, 65_025))?;
    text.push(digit(number, 255))?;
    text.push(digit(number, 1))?;
    match Name::from_text(text) {
        Ok(name) => Ok(name),
        Err(_) => unreachable!(),
    }
}

/// Gives an empty arena stand-ins for the names of so many structs. It is borrowed, so that no exit
/// here frees it.
fn add_stand_ins(arena: &mut Arena, alloc: Global, count: u32) -> Result<(), AllocError>
    requires { arena.old ≡ no_lists }
    ensures { OnOk result (HasStructs count arena.new) }
{
    'structs: for number in 0..count {
        let name = stand_in(alloc, number)?;
        match arena.name_struct(name) {
            Ok(_) => {}
            Err(_) => return Err(AllocError),
        }
    }
    Ok(())
}

/// An arena with stand-ins for the names of so many structs, and nothing else.
fn stand_ins(alloc: Global, count: u32) -> Result<Arena, AllocError>
    ensures { IfOk result (λ arena. HasStructs count arena) }
{
    let mut arena = Arena::new(alloc);
    add_stand_ins(&mut arena, alloc, count)?;
    Ok(arena)
}

/// The arena with the names of its structs: those that were gathered in it, or stand-ins for all where one of them is bad
/// and so will be refused.
pub fn name_structs(alloc: Global, gathered: Arena, names: StructNames) -> Result<Arena, AllocError>
    ensures { (all : List (List ℕ)) → AreGathered gathered names all → IfOk result (IsNamedAs names all) }
{
    match names.first_bad {
        None => Ok(gathered),
        Some(_) => stand_ins(alloc, names.count),
    }
}
