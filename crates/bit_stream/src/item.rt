//! What stands at a place of a stream: an entry or a definition.
ghost use Rattle.std.specs.Prelude.{◌≡◌, ℕ, ◌<◌, ◌≤◌, ◌++◌, ◌∷◌, [], length, Some, None, Ok, IfOk};
ghost use Rattle.bit_stream.specs.Answers.{Ran};
ghost use Rattle.bit_stream.specs.Scope.{abbreviation_of};
ghost use Rattle.bit_stream.specs.Record.{ReadRecord};
ghost use Rattle.bit_stream.specs.Entry.{is_blockinfo, StreamItem, plain, enter_block, end_block, define_for, define, recorded, settled, by_abbreviation, record_by, inside, item, id_at, has_blob_by, defined_at, with_definition, with_item, IsRecordBy};
ghost use Rattle.bit_stream.specs.Abbreviation.{ends_in_blob, ops_of};
ghost use Rattle.bit_stream.specs.Definition.{defined_abbreviation};
ghost use Rattle.bit_stream.specs.declared.entry.Entry.TheVariants.{Block, EndBlock, Record};

use crate::StreamFault;
use crate::abbreviation::{AbbreviationList, AdmittedAbbreviation, ChunkWidth, WIDEST_CHUNK};
use crate::bits::{BitCursor, BitFault};
use crate::definition::defined_abbreviation;
use crate::entry::Entry;
use crate::fault::{bad_abbreviation, bad_block_length, nested_too_deep};
use crate::record::{RecordOpening, abbreviated, unabbreviated};
use crate::scope::Scope;
use std::alloc::Global;

/// How many blocks may be open at once.
pub const MAX_OPEN: usize = 16;

/// The ids of blocks and of abbreviations, and the codes of records, are below this.
pub const ID_LIMIT: u64 = 1 << 32;

/// A block that is read has fewer words of 32 bits than this: its count of them has 32 bits.
pub const WORDS_LIMIT: u64 = 1 << 32;

/// What stands at a place: an entry, or none where it is a definition; and of a record its abbreviation id, its blob, and
/// whether it ended in one.
#[derive(Drop)]
pub struct StreamItem<'b> {
    pub entry: Option<Entry>,
    pub id: u32,
    pub blob: &'b [u8],
    pub has_blob: bool,
}

impl<'b> StreamItem<'b> {
    /// What is no record.
    fn plain(entry: Option<Entry>) -> Self
        ensures entry { result.entry ≡ entry }
        ensures blob { result.blob.now ≡ [] }
    {
        StreamItem {
            entry,
            id: 0,
            blob: &[],
            has_blob: false,
        }
    }
}

/// ENTER_SUBBLOCK behind its id. It answers the id of the block.
#[tactic(auto, unfolding(crate::specs::Entry::enter_block))]
fn enter_block(cursor: &mut BitCursor, scope: &mut Scope) -> Result<u32, StreamFault>
    ensures { Ran (λ block. plain (Some (Block block)) scope.new) cursor.new result (enter_block scope.old cursor.old) }
{
    let id_bit = cursor.at();
    let id = cursor.vbr(8)?;
    if id >= ID_LIMIT {
        return Err(bad_abbreviation(id_bit).into());
    }
    if scope.depth() == MAX_OPEN {
        return Err(nested_too_deep(id_bit).into());
    }
    let width_bit = cursor.at();
    let width = cursor.vbr(4)?;
    if width < 2 || width > u64::from(WIDEST_CHUNK) {
        return Err(bad_abbreviation(width_bit).into());
    }
    cursor.align()?;
    let count_bit = cursor.at();
    let words = cursor.fixed(32)?;
    scope.enter(
        id as u32,
        ChunkWidth::new(width as u32),
        count_bit,
        words as u32,
    )?;
    Ok(id as u32)
}

/// END_BLOCK behind its id.
#[tactic(auto, unfolding(crate::specs::Entry::end_block))]
fn end_block(cursor: &mut BitCursor, scope: &mut Scope) -> Result<(), StreamFault>
    ensures { Ran (λ _. plain (Some EndBlock) scope.new) cursor.new result (end_block scope.old cursor.old) }
{
    cursor.align()?;
    let count_bit = scope.count_bit();
    if (cursor.at() / 32).saturating_sub(count_bit / 32 + 1) != u64::from(scope.words()) {
        return Err(bad_block_length(count_bit).into());
    }
    scope.leave();
    Ok(())
}

/// The definition in front, which is added to those that are there.
fn next_definition(
    cursor: &mut BitCursor,
    definitions: &mut AbbreviationList,
    alloc: Global,
) -> Result<AdmittedAbbreviation, StreamFault>
    ensures read { Ran (λ abbreviation. abbreviation) cursor.new result (defined_abbreviation cursor.old) }
    ensures told { IfOk result (λ abbreviation. definitions.new ≡ definitions.old ++ ops_of abbreviation ∷ []) }
{
    let abbreviation = defined_abbreviation(cursor, alloc)?;
    definitions.push(abbreviation.abbreviation(alloc)?)?;
    Ok(abbreviation)
}

/// DEFINE_ABBREV behind its id, which stands at this bit.
#[tactic(auto, unfolding(crate::specs::Entry::define, crate::specs::Entry::define_for))]
fn define(
    cursor: &mut BitCursor,
    scope: &mut Scope,
    definitions: &mut AbbreviationList,
    alloc: Global,
    bit: u64,
) -> Result<(), StreamFault>
    ensures read { Ran (λ _. plain None scope.new) cursor.new result (define bit scope.old cursor.old) }
    ensures told { IfOk result (λ _. definitions.new ≡ with_definition definitions.old (defined_abbreviation cursor.old)) }
{
    if scope.is_blockinfo() {
        let Some(id) = scope.target() else {
            return Err(bad_abbreviation(bit).into());
        };
        scope.give(id, next_definition(cursor, definitions, alloc)?)?;
    } else {
        scope.define(next_definition(cursor, definitions, alloc)?)?;
    }
    Ok(())
}

/// Behind a record whose id stands at this bit: in BLOCKINFO it may name a block.
#[tactic(auto, unfolding(crate::specs::Entry::recorded))]
fn recorded(scope: &mut Scope, code: u32, operands: &[u64], bit: u64) -> Result<(), BitFault>
    ensures { settled result scope.new ≡ recorded bit scope.old code operands.now }
{
    if scope.is_blockinfo() && code == 1 {
        match operands {
            [id, ..] => scope.set_target(*id),
            [] => return Err(bad_abbreviation(bit)),
        }
    }
    Ok(())
}

/// A record by the abbreviation of an id from 4 on, which stands at this bit.
#[tactic(auto, unfolding(crate::specs::Entry::by_abbreviation))]
fn by_abbreviation<'b>(
    cursor: &mut BitCursor<'b>,
    scope: &Scope,
    operands: &mut Vec<u64>,
    id: u64,
    bit: u64,
) -> Result<RecordOpening<'b>, StreamFault>
    requires id_in { 4 ≤ id }
    requires none { operands.old.items ≡ [] }
    ensures read { Ran (λ head. record { code = head.code; operands = operands.new.items; blob = head.blob.now }) cursor.new result (by_abbreviation (abbreviation_of scope.now id) bit (is_blockinfo scope.now) cursor.old) }
    ensures has_blob { IfOk result (λ head. head.has_blob ≡ ends_in_blob (abbreviation_of scope.now id)) }
{
    match scope.abbreviation(id) {
        Some(abbreviation) => abbreviated(cursor, operands, abbreviation, scope.is_blockinfo()),
        None => Err(bad_abbreviation(bit).into()),
    }
}

/// A record behind its id, which is from 3 on and stands at this bit.
#[tactic(auto, unfolding(crate::specs::Entry::record_by))]
fn record<'b>(
    cursor: &mut BitCursor<'b>,
    scope: &mut Scope,
    operands: &mut Vec<u64>,
    id: u64,
    bit: u64,
) -> Result<RecordOpening<'b>, StreamFault>
    requires id_in { 3 ≤ id }
    requires none { operands.old.items ≡ [] }
    ensures read { Ran (λ head. record { entry = Some (Record head.code); scope = scope.new; operands = operands.new.items; blob = head.blob.now }) cursor.new result (record_by id bit scope.old cursor.old) }
    ensures has_blob { IfOk result (λ head. head.has_blob ≡ has_blob_by scope.old id) }
{
    let head = if id == 3 {
        unabbreviated(cursor, operands, scope.is_blockinfo())?
    } else {
        by_abbreviation(cursor, scope, operands, id, bit)?
    };
    recorded(scope, head.code, operands, bit)?;
    Ok(head)
}

/// What stands behind an abbreviation id in a block. The id stands at this bit.
#[tactic(auto, unfolding(crate::specs::Entry::inside))]
fn inside<'b>(
    cursor: &mut BitCursor<'b>,
    scope: &mut Scope,
    operands: &mut Vec<u64>,
    definitions: &mut AbbreviationList,
    alloc: Global,
    id: u64,
    bit: u64,
) -> Result<StreamItem<'b>, StreamFault>
    requires small { id < ID_LIMIT }
    requires none { operands.old.items ≡ [] }
    ensures read { Ran (λ item. record { entry = item.entry; scope = scope.new; operands = operands.new.items; blob = item.blob.now }) cursor.new result (inside id bit scope.old cursor.old) }
    ensures told { IfOk result (λ item. IsRecordBy item.entry item.id item.has_blob scope.old id) }
    ensures definitions { IfOk result (λ item. definitions.new ≡ with_item definitions.old item.entry (defined_abbreviation cursor.old)) }
{
    match id {
        0 => {
            end_block(cursor, scope)?;
            Ok(StreamItem::plain(Some(Entry::EndBlock)))
        }
        1 if scope.is_blockinfo() => Err(bad_abbreviation(bit).into()),
        1 => Ok(StreamItem::plain(Some(Entry::Block(enter_block(cursor, scope)?)))),
        2 => {
            define(cursor, scope, definitions, alloc, bit)?;
            Ok(StreamItem::plain(None))
        }
        _ => {
            let head = record(cursor, scope, operands, id, bit)?;
            Ok(StreamItem {
                entry: Some(Entry::Record(head.code)),
                id: id as u32,
                blob: head.blob,
                has_blob: head.has_blob,
            })
        }
    }
}

/// What stands in front. Operands are added to a list that is empty, a definition to those that are there.
#[tactic(auto, unfolding(crate::specs::Entry::item, crate::specs::Entry::id_at, crate::specs::Entry::defined_at))]
pub fn next_item<'b>(
    cursor: &mut BitCursor<'b>,
    scope: &mut Scope,
    operands: &mut Vec<u64>,
    definitions: &mut AbbreviationList,
    alloc: Global,
) -> Result<StreamItem<'b>, StreamFault>
    requires { operands.old.items ≡ [] }
    ensures read { Ran (λ item. record { entry = item.entry; scope = scope.new; operands = operands.new.items; blob = item.blob.now }) cursor.new result (item scope.old cursor.old) }
    ensures told { IfOk result (λ item. IsRecordBy item.entry item.id item.has_blob scope.old (id_at scope.old cursor.old)) }
    ensures definitions { IfOk result (λ item. definitions.new ≡ with_item definitions.old item.entry (defined_at scope.old cursor.old)) }
{
    let bit = cursor.at();
    if scope.depth() > 0 {
        let id = cursor.fixed(scope.width().bits())?;
        return inside(cursor, scope, operands, definitions, alloc, id, bit);
    }
    if cursor.is_at_end() {
        return Ok(StreamItem::plain(Some(Entry::End)));
    }
    if cursor.fixed(scope.width().bits())? != 1 {
        return Err(bad_abbreviation(bit).into());
    }
    Ok(StreamItem::plain(Some(Entry::Block(enter_block(cursor, scope)?))))
}
