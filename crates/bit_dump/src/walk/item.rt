//! What stands at a place of a stream, passed over without holding its operands.
ghost use Rattle.std.specs.Prelude.{◌≡◌, ℕ, ◌<◌, ◌≤◌, ◌^◌, [], length, Some, None, Ok, IfOk};
ghost use Rattle.bit_stream.specs.Answers.{Ran};
ghost use Rattle.bit_stream.specs.Scope.{abbreviation_of};
ghost use Rattle.bit_stream.specs.Entry.{is_blockinfo, StreamItem, plain, enter_block, end_block, define_for, define, id_at, defined_at, settled};
ghost use Rattle.bit_stream.specs.Definition.{defined_abbreviation};
ghost use Rattle.bit_stream.specs.declared.entry.Entry.TheVariants.{Block, EndBlock, Record};
ghost use Rattle.bit_dump.specs.Walk.Starts.{IsOn, IsKept};
ghost use Rattle.bit_dump.specs.Walk.Passing.{Passed, recorded, pass_by_abbreviation, pass_record, pass_inside, pass_item, IsBy};

use crate::walk::passing::{Passed, pass_abbreviated, pass_unabbreviated};
use crate::walk::plain::{PlainPassed, plain_passed};
use crate::walk::scope::WalkScope;
use crate::walk::starts::Kept;
use bit_stream::bits::{BitCursor, BitFault};
use bit_stream::{
    ChunkWidth, Entry, ID_LIMIT, MAX_OPEN, StreamFault, WIDEST_CHUNK, bad_abbreviation,
    bad_block_length, defined_abbreviation, nested_too_deep,
};
use std::alloc::Global;

/// What stands at a place: an entry, or none where it is a definition; and the blob of a record, which is empty where it
/// has none.
#[derive(Drop)]
pub struct WalkItem<'b> {
    pub entry: Option<Entry>,
    pub blob: &'b [u8],
}

impl<'b> WalkItem<'b> {
    /// What is no record.
    fn plain(entry: Option<Entry>) -> Self
        ensures entry { result.entry ≡ entry }
        ensures blob { result.blob.now ≡ [] }
    {
        WalkItem { entry, blob: &[] }
    }
}

/// ENTER_SUBBLOCK behind its id. It answers the id of the block.
#[tactic(auto, unfolding(bit_stream::specs::Entry::enter_block))]
fn enter_block(cursor: &mut BitCursor, scope: &mut WalkScope) -> Result<u32, StreamFault>
    ensures read { Ran (λ block. plain (Some (Block block)) scope.new.scope) cursor.new result (enter_block scope.old.scope cursor.old) }
    ensures bits { IfOk result (λ _. scope.new.bits ≡ scope.old.bits) }
{
    let id_bit = cursor.at();
    let id = cursor.vbr(8)?;
    if id >= ID_LIMIT {
        return Err(bad_abbreviation(id_bit).into());
    }
    if scope.depth() == MAX_OPEN {
        return Err(nested_too_deep(id_bit).into());
    }
    let width_bit = cursor.at();
    let width = cursor.vbr(4)?;
    if width < 2 || width > u64::from(WIDEST_CHUNK) {
        return Err(bad_abbreviation(width_bit).into());
    }
    cursor.align()?;
    let count_bit = cursor.at();
    let words = cursor.fixed(32)?;
    scope.enter(
        id as u32,
        ChunkWidth::new(width as u32),
        count_bit,
        words as u32,
    )?;
    Ok(id as u32)
}

/// END_BLOCK behind its id.
#[tactic(auto, unfolding(bit_stream::specs::Entry::end_block))]
fn end_block(cursor: &mut BitCursor, scope: &mut WalkScope) -> Result<(), StreamFault>
    ensures read { Ran (λ _. plain (Some EndBlock) scope.new.scope) cursor.new result (end_block scope.old.scope cursor.old) }
    ensures bits { IfOk result (λ _. scope.new.bits ≡ scope.old.bits) }
{
    cursor.align()?;
    let count_bit = scope.count_bit();
    if (cursor.at() / 32).saturating_sub(count_bit / 32 + 1) != u64::from(scope.words()) {
        return Err(bad_block_length(count_bit).into());
    }
    scope.leave();
    Ok(())
}

/// The definition in front, which is kept. It answers the bit where it starts.
fn next_definition(
    cursor: &mut BitCursor,
    kept: &mut Kept,
    alloc: Global,
) -> Result<u32, StreamFault>
    ensures read { Ran (λ _. kept.new.abbreviation) cursor.new result (defined_abbreviation cursor.old) }
    ensures start { IfOk result (λ start. start ≡ cursor.old.at) }
    ensures kept { IfOk result (λ start. kept.new.start ≡ Some start) }
{
    let bit = cursor.at();
    if bit >= 1 << 32 {
        return Err(StreamFault::Memory);
    }
    let abbreviation = defined_abbreviation(cursor, alloc)?;
    kept.keep(alloc, bit as u32, abbreviation)?;
    Ok(bit as u32)
}

/// DEFINE_ABBREV behind its id, which stands at this bit.
#[tactic(auto, using(crate::proofs::OnWalk::Definitions::abbreviation_here), unfolding(bit_stream::specs::Entry::define, bit_stream::specs::Entry::define_for))]
#[inline(never)]
fn define(
    cursor: &mut BitCursor,
    scope: &mut WalkScope,
    kept: &mut Kept,
    alloc: Global,
    bit: u64,
) -> Result<(), StreamFault>
    requires on { IsOn scope.old.bits cursor.old }
    ensures read { Ran (λ _. plain None scope.new.scope) cursor.new result (define bit scope.old.scope cursor.old) }
    ensures bits { IfOk result (λ _. scope.new.bits ≡ scope.old.bits) }
    ensures by { IfOk result (λ _. defined_abbreviation cursor.old ≡ Ok (kept.new.abbreviation, cursor.new)) }
    ensures kept { IfOk result (λ _. IsKept scope.old.bits kept.new.start kept.new.abbreviation) }
{
    if scope.is_blockinfo() {
        let Some(id) = scope.target() else {
            return Err(bad_abbreviation(bit).into());
        };
        let start = next_definition(cursor, kept, alloc)?;
        scope.give(id, start)?;
    } else {
        let start = next_definition(cursor, kept, alloc)?;
        scope.define(start)?;
    }
    Ok(())
}

/// Behind a record whose id stands at this bit: in BLOCKINFO it may name a block.
#[tactic(auto, unfolding(crate::specs::Walk::Passing::recorded))]
fn recorded(scope: &mut WalkScope, code: u32, first: Option<u64>, bit: u64) -> Result<(), BitFault>
    ensures read { settled result scope.new.scope ≡ recorded bit scope.old.scope code first }
    ensures bits { scope.new.bits ≡ scope.old.bits }
{
    if scope.is_blockinfo() && code == 1 {
        match first {
            Some(id) => scope.set_target(id),
            None => return Err(bad_abbreviation(bit)),
        }
    }
    Ok(())
}

/// A record by the abbreviation of an id from 4 on, which stands at this bit.
#[tactic(auto, unfolding(crate::specs::Walk::Passing::pass_by_abbreviation))]
fn by_abbreviation<'b>(
    cursor: &mut BitCursor<'b>,
    scope: &WalkScope<'b>,
    kept: &mut Kept,
    alloc: Global,
    id: u64,
    bit: u64,
) -> Result<Passed<'b>, StreamFault>
    requires id_in { 4 ≤ id }
    requires kept { IsKept scope.now.bits kept.old.start kept.old.abbreviation }
    ensures read { Ran (λ passed. record { code = passed.code; first = passed.first; blob = passed.blob.now }) cursor.new result (pass_by_abbreviation (abbreviation_of scope.now.scope id) bit (is_blockinfo scope.now.scope) cursor.old) }
    ensures by { IfOk result (λ _. abbreviation_of scope.now.scope id ≡ Some kept.new.abbreviation) }
    ensures kept { IfOk result (λ _. IsKept scope.now.bits kept.new.start kept.new.abbreviation) }
{
    match scope.start_of(id) {
        Some(start) => {
            kept.fetch(alloc, scope.bytes(), start)?;
            Ok(pass_abbreviated(cursor, &kept.abbreviation, scope.is_blockinfo())?)
        }
        None => Err(bad_abbreviation(bit).into()),
    }
}

/// A record behind its id, which is from 3 on and stands at this bit.
#[tactic(auto, unfolding(crate::specs::Walk::Passing::pass_record))]
#[inline(never)]
fn record<'b>(
    cursor: &mut BitCursor<'b>,
    scope: &mut WalkScope<'b>,
    kept: &mut Kept,
    alloc: Global,
    id: u64,
    bit: u64,
) -> Result<Passed<'b>, StreamFault>
    requires id_in { 3 ≤ id }
    requires kept { IsKept scope.old.bits kept.old.start kept.old.abbreviation }
    ensures read { Ran (λ passed. record { entry = Some (Record passed.code); scope = scope.new.scope; operands = []; blob = passed.blob.now }) cursor.new result (pass_record id bit scope.old.scope cursor.old) }
    ensures bits { IfOk result (λ _. scope.new.bits ≡ scope.old.bits) }
    ensures by { IfOk result (λ _. 4 ≤ id → abbreviation_of scope.old.scope id ≡ Some kept.new.abbreviation) }
    ensures kept { IfOk result (λ _. IsKept scope.old.bits kept.new.start kept.new.abbreviation) }
{
    let passed = if id == 3 {
        pass_unabbreviated(cursor, scope.is_blockinfo())?
    } else {
        by_abbreviation(cursor, scope, kept, alloc, id, bit)?
    };
    recorded(scope, passed.code, passed.first, bit)?;
    Ok(passed)
}

/// What stands behind an abbreviation id in a block. The id stands at this bit.
#[tactic(auto, unfolding(crate::specs::Walk::Passing::pass_inside))]
fn inside<'b>(
    cursor: &mut BitCursor<'b>,
    scope: &mut WalkScope<'b>,
    kept: &mut Kept,
    alloc: Global,
    id: u64,
    bit: u64,
) -> Result<WalkItem<'b>, StreamFault>
    requires on { IsOn scope.old.bits cursor.old }
    requires kept { IsKept scope.old.bits kept.old.start kept.old.abbreviation }
    ensures read { Ran (λ item. record { entry = item.entry; scope = scope.new.scope; operands = []; blob = item.blob.now }) cursor.new result (pass_inside id bit scope.old.scope cursor.old) }
    ensures bits { IfOk result (λ _. scope.new.bits ≡ scope.old.bits) }
    ensures by { IfOk result (λ item. IsBy item.entry kept.new.abbreviation (defined_abbreviation cursor.old) cursor.new scope.old.scope id) }
    ensures kept { IfOk result (λ _. IsKept scope.old.bits kept.new.start kept.new.abbreviation) }
{
    match id {
        0 => {
            end_block(cursor, scope)?;
            Ok(WalkItem::plain(Some(Entry::EndBlock)))
        }
        1 if scope.is_blockinfo() => Err(bad_abbreviation(bit).into()),
        1 => Ok(WalkItem::plain(Some(Entry::Block(enter_block(cursor, scope)?)))),
        2 => {
            define(cursor, scope, kept, alloc, bit)?;
            Ok(WalkItem::plain(None))
        }
        _ => {
            let passed = record(cursor, scope, kept, alloc, id, bit)?;
            Ok(WalkItem {
                entry: Some(Entry::Record(passed.code)),
                blob: passed.blob,
            })
        }
    }
}

/// What stands in front, and is passed over. The abbreviation of a definition is kept, and that of a record by one.
#[tactic(auto, using(crate::proofs::OnWalk::StaysInBits::id_is_on), unfolding(crate::specs::Walk::Passing::pass_item, bit_stream::specs::Entry::id_at, bit_stream::specs::Entry::defined_at))]
pub fn pass_item<'b>(
    cursor: &mut BitCursor<'b>,
    scope: &mut WalkScope<'b>,
    kept: &mut Kept,
    alloc: Global,
) -> Result<WalkItem<'b>, StreamFault>
    requires on { IsOn scope.old.bits cursor.old }
    requires kept { IsKept scope.old.bits kept.old.start kept.old.abbreviation }
    ensures read { Ran (λ item. record { entry = item.entry; scope = scope.new.scope; operands = []; blob = item.blob.now }) cursor.new result (pass_item scope.old.scope cursor.old) }
    ensures bits { IfOk result (λ _. scope.new.bits ≡ scope.old.bits) }
    ensures by { IfOk result (λ item. IsBy item.entry kept.new.abbreviation (defined_at scope.old.scope cursor.old) cursor.new scope.old.scope (id_at scope.old.scope cursor.old)) }
    ensures kept { IfOk result (λ _. IsKept scope.old.bits kept.new.start kept.new.abbreviation) }
{
    let bit = cursor.at();
    if scope.depth() > 0 {
        let id = cursor.fixed(scope.width().bits())?;
        return inside(cursor, scope, kept, alloc, id, bit);
    }
    if cursor.is_at_end() {
        return Ok(WalkItem::plain(Some(Entry::End)));
    }
    if cursor.fixed(scope.width().bits())? != 1 {
        return Err(bad_abbreviation(bit).into());
    }
    Ok(WalkItem::plain(Some(Entry::Block(enter_block(cursor, scope)?))))
}

/// The same, but that nothing is told of abbreviations. A record without one is passed where it stands.
#[inline(always)]
pub fn pass_next<'b>(
    cursor: &mut BitCursor<'b>,
    scope: &mut WalkScope<'b>,
    kept: &mut Kept,
    alloc: Global,
) -> Result<WalkItem<'b>, StreamFault>
    requires on { IsOn scope.old.bits cursor.old }
    requires kept { IsKept scope.old.bits kept.old.start kept.old.abbreviation }
    ensures read { Ran (λ item. record { entry = item.entry; scope = scope.new.scope; operands = []; blob = item.blob.now }) cursor.new result (pass_item scope.old.scope cursor.old) }
    ensures bits { IfOk result (λ _. scope.new.bits ≡ scope.old.bits) }
    ensures kept { IfOk result (λ _. IsKept scope.old.bits kept.new.start kept.new.abbreviation) }
{
    match plain_passed(cursor, scope) {
        Some(passed) => {
            let PlainPassed { code, behind } = passed;
            *cursor = behind;
            Ok(WalkItem::plain(Some(Entry::Record(code))))
        }
        None => pass_item(cursor, scope, kept, alloc),
    }
}
