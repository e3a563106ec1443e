//! The block of types, record by record.
ghost use Rattle.std.specs.Prelude.{◌≡◌, ◌∷◌, ◌+◌, ◌-◌, ◌<◌, ℕ, List, false, length, OnOk};
ghost use Rattle.type_table.specs.Limits.{IsWithin};
ghost use Rattle.type_table.specs.Types.{IsGood, IsKnown, IsKnownBody, with_body, with_type};
ghost use Rattle.record_table.specs.Codes.{kind_view};
ghost use Rattle.record_table.specs.Layout.{judged};
ghost use Rattle.record_table.specs.TypeRecords as types;
ghost use Rattle.record_read.specs.Faults.{Answers};
ghost use Rattle.record_read.specs.Fields.{texts_of};
ghost use Rattle.type_read.specs.declared.structs.TheConstants.{STRUCT_LIMIT};
ghost use Rattle.type_read.specs.Listed.{AddsType, AreSoFar, IsBegun, IsMore, IsOn, IsRefusedBy, IsUndefined, NamesNext, ReadsOne, ReadsTypes, later_names};
ghost use Rattle.type_read.specs.Pending.{IsCounted, IsPending, Puts, held};

use crate::definition::{StructDefinition, read_definition};
use crate::pending::{Pending, give, is_counted, put_body};
use crate::records::read_type;
use crate::structs::StructNames;
use module_arena::{Arena, COUNT_LIMIT};
use record_read::{BitcodeFault, NextEntry, RecordReader, Texts, misplaced};
use record_table::{DEFINE, TYPES_BLOCK, TypeKind};
use std::alloc::Global;
use type_table::{IrType, StructBody, StructId, TypeFault};

/// What holds of the types of every arena.
pub(crate) fn are_within(arena: &Arena)
    ensures good { IsGood arena.now.table }
    ensures within { IsWithin arena.now.table }
{
    let _count = arena.types().type_count();
}

/// Refuses a change of the table of types by rule 7: a type would be past a limit, or a struct would contain itself.
fn refuse(reader: &mut RecordReader<'_>, fault: TypeFault) -> Result<(), BitcodeFault>
    ensures { IsRefusedBy fault reader.old result reader.new }
{
    match fault {
        TypeFault::Memory => Err(BitcodeFault::Memory),
        TypeFault::Duplicate
        | TypeFault::SelfContaining
        | TypeFault::TooDeep
        | TypeFault::TooLarge => {
            reader.also(7, false);
            Ok(())
        }
    }
}

/// Adds a type that was read. Rule 7 is broken where it is past a limit.
fn add_type(
    reader: &mut RecordReader<'_>,
    arena: &mut Arena,
    ty: IrType,
) -> Result<(), BitcodeFault>
    requires { IsKnown arena.old.table ty }
    ensures { AddsType (with_type arena.old.table ty) arena.old reader.old result arena.new reader.new }
{
    match arena.add_type(ty) {
        Ok(_) => {
            are_within(arena);
            Ok(())
        }
        Err(fault) => refuse(reader, fault),
    }
}

/// Gives a struct what it is. Rule 7 is broken where a type would be past a limit, or a struct would contain itself.
pub(crate) fn define_struct(
    reader: &mut RecordReader<'_>,
    arena: &mut Arena,
    id: StructId,
    body: StructBody,
) -> Result<(), BitcodeFault>
    requires undefined { IsUndefined arena.old id }
    requires fields { IsKnownBody arena.old.table body }
    ensures { AddsType (with_body arena.old.table id body) arena.old reader.old result arena.new reader.new }
{
    match arena.define_struct(id, body) {
        Ok(()) => {
            are_within(arena);
            Ok(())
        }
        Err(fault) => refuse(reader, fault),
    }
}

/// Reads the record of a type, behind so many structs: none may stand there.
fn read_type_record(
    reader: &mut RecordReader<'_>,
    alloc: Global,
    arena: &mut Arena,
    kind: TypeKind,
    defined: u32,
) -> Result<(), BitcodeFault>
    requires { 0 < reader.old.at }
    ensures reads { ReadsOne reader.old result reader.new }
    ensures answers { (names : StructNames) (all : List (List ℕ)) (s : types.Listed) (operands : List ℕ) → IsOn arena.old names all reader.old operands s → defined ≡ length s.names
        → (later : List (List ℕ)) → AreSoFar names all s later
        → Answers (λ _ listed. IsMore arena.new names all later s listed) (types.of_kind s operands (kind_view kind)) result }
{
    let count = arena.types().type_count();
    let structs = arena.types().struct_count();
    let ty = read_type(reader, alloc, kind, count, structs)?;
    reader.also(5, defined == 0);
    are_within(arena);
    match ty {
        Some(ty) => {
            add_type(reader, arena, ty)?;
            reader.finish(TYPES_BLOCK)
        }
        None => reader.finish(TYPES_BLOCK),
    }
}

/// Asks of the struct of that number, whose name is kept, that no struct before it is called so: rule 4.
fn ask_new(reader: &mut RecordReader<'_>, names: StructNames, number: u32, is_kept: bool)
    ensures { NamesNext names number is_kept reader.old reader.new }
{
    if is_kept {
        let is_new = match names.first_bad {
            Some(place) => number != place,
            None => true,
        };
        reader.also(4, is_new);
    }
}

/// Reads the record of the struct of that number, counted from 0. Its body pends where the record breaks no rule but,
/// maybe, 7.
fn read_struct_record(
    reader: &mut RecordReader<'_>,
    alloc: Global,
    texts: &Texts,
    arena: &mut Arena,
    names: StructNames,
    pending: &mut Pending,
    number: u32,
) -> Result<(), BitcodeFault>
    requires given { 0 < reader.old.at }
    requires undefined { IsUndefined (held arena.old pending.old) number }
    requires pending { IsPending arena.old pending.old }
    requires counted { IsCounted pending.old number (reader.old.at - 1) }
    ensures reads { ReadsOne reader.old result reader.new }
    ensures answers { (all : List (List ℕ)) (s : types.Listed) (operands : List ℕ) → IsOn (held arena.old pending.old) names all reader.old operands s → number ≡ length s.names → s.texts ≡ texts_of texts.now
        → (later : List (List ℕ)) → AreSoFar names all s (types.name_defined (judged (types.definition s.texts (length s.types.types)) operands) ∷ later)
        → Puts (λ _. number + 1) arena.old pending.old names all later s (types.struct_record s (judged (types.definition s.texts (length s.types.types)) operands)) result arena.new pending.new }
{
    let count = arena.types().type_count();
    let definition = read_definition(reader, alloc, texts, count)?;
    let StructDefinition { body, name } = definition;
    ask_new(reader, names, number, name.is_some());
    reader.also(7, number < COUNT_LIMIT);
    are_within(arena);
    match body {
        Some(body) => put_body(reader, alloc, arena, pending, number, body),
        None => {
            is_counted(reader);
            give(arena, alloc, pending)?;
            reader.finish(TYPES_BLOCK)
        }
    }
}

/// Reads a record of that code, behind so many structs, and tells how many there are then.
fn read_record(
    reader: &mut RecordReader<'_>,
    alloc: Global,
    texts: &Texts,
    arena: &mut Arena,
    names: StructNames,
    pending: &mut Pending,
    defined: u32,
    code: u32,
) -> Result<u32, BitcodeFault>
    requires given { 0 < reader.old.at }
    requires undefined { code ≡ 7 → IsUndefined (held arena.old pending.old) defined }
    requires room { code ≡ 7 → defined < STRUCT_LIMIT }
    requires pending { IsPending arena.old pending.old }
    requires counted { IsCounted pending.old defined (reader.old.at - 1) }
    ensures reads { ReadsOne reader.old result reader.new }
    ensures answers { (all : List (List ℕ)) (s : types.Listed) (operands : List ℕ) → IsOn (held arena.old pending.old) names all reader.old operands s → defined ≡ length s.names → s.texts ≡ texts_of texts.now
        → (later : List (List ℕ)) → AreSoFar names all s (later_names s code operands later)
        → Puts (λ number. number) arena.old pending.old names all later s (types.listed_by s code operands (types.kind_of_code code types.kinds)) result arena.new pending.new }
{
    if code == DEFINE {
        read_struct_record(reader, alloc, texts, arena, names, pending, defined)?;
        return Ok(defined + 1);
    }
    is_counted(reader);
    give(arena, alloc, pending)?;
    match TypeKind::of_code(code) {
        Some(kind) => {
            read_type_record(reader, alloc, arena, kind, defined)?;
            *pending = Pending {
                first: defined,
                at: reader.at(),
                bodies: Vec::new(alloc),
            };
            Ok(defined)
        }
        None => Err(BitcodeFault::UnknownRecord {
            block: TYPES_BLOCK,
            code,
        }),
    }
}

/// Reads the block of types that was begun, into an arena that has the names of its structs and nothing else. The reader
/// stands behind the block then.
pub fn read_types(
    reader: &mut RecordReader<'_>,
    alloc: Global,
    texts: &Texts,
    arena: &mut Arena,
    names: StructNames,
) -> Result<(), BitcodeFault>
    requires unspent { reader.old.spent ≡ false }
    requires begun { IsBegun (texts_of texts.now) reader.old.left names arena.old }
    ensures unspent { OnOk result (reader.new.spent ≡ false) }
    ensures answers { ReadsTypes (texts_of texts.now) names reader.old arena.old result reader.new arena.new }
{
    let start = reader.at();
    let mut defined: u32 = 0;
    let mut pending = Pending {
        first: 0,
        at: start,
        bodies: Vec::new(alloc),
    };
    'records: loop {
        is_counted(reader);
        match reader.next()? {
            NextEntry::Record(code) => {
                defined = read_record(
                    reader,
                    alloc,
                    texts,
                    arena,
                    names,
                    &mut pending,
                    defined,
                    code,
                )?;
            }
            NextEntry::Block(id) => {
                give(arena, alloc, &mut pending)?;
                return Err(misplaced(id, reader.at()));
            }
            NextEntry::End => return give(arena, alloc, &mut pending),
        }
    }
}
