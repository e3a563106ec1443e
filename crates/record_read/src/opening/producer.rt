//! The block that names the producer.
ghost use Rattle.std.specs.Prelude.{◌≡◌, ◌&&◌, ◌<◌, ◌∷◌, [], ℕ, List, false, nat_eq, None, OnOk, IfOk, bytes_eq, slice_index};
ghost use Rattle.bit_tree.specs.Pieces.{Piece, ended};
ghost use Rattle.record_table.specs.Faults.{Records};
ghost use Rattle.record_table.specs.Fields.{byte};
ghost use Rattle.record_table.specs.Layout.{times};
ghost use Rattle.record_table.specs.Records as records;
ghost use Rattle.record_table.specs.Walk.{going};
ghost use Rattle.record_read.specs.Entries.{IsBefore, IsInBlock};
ghost use Rattle.record_read.specs.Faults.{Answers};
ghost use Rattle.record_read.specs.Opening.Producer.{FindsFront, IsBehind, IsEnded, IsWholeStream, TakesThat, another, is_producer_block, noted_or, producer_of};

use crate::{BitcodeFault, NextEntry, RecordReader, misplaced, read_below};
use record_table::{PRODUCER, PRODUCER_BLOCK, TEXT};
use std::alloc::AllocError;

/// What stands in front in the producer's block: whether its first record names this producer, and the block with which it
/// begins, where it begins with one.
#[derive(Clone, Copy)]
struct ProducerFront {
    is_ours: bool,
    block: Option<u32>,
}

/// The byte in that place of this producer's name.
fn byte_at(place: usize) -> u64
    requires { place < 17 }
    ensures { result ≡ slice_index records.producer place }
{
    PRODUCER[place]
}

/// Takes the next operand, and tells whether it is that number.
fn takes(reader: &mut RecordReader<'_>, number: u64) -> bool
    ensures is { (operands : List ℕ) → reader.old.walk ≡ going operands None → TakesThat number operands result reader.new.walk }
    ensures rest { reader.new ≡ record reader.old { walk = reader.new.walk } }
{
    match reader.take() {
        Some(taken) => taken == number,
        None => false,
    }
}

/// Whether the operands are the bytes that name this producer, and no others.
fn names_us(reader: &mut RecordReader<'_>) -> bool
    ensures is { (operands : List ℕ) → reader.old.walk ≡ going operands None → result ≡ bytes_eq operands records.producer }
    ensures rest { reader.new ≡ record reader.old { walk = reader.new.walk } }
{
    let mut place: usize = 0;
    'bytes: while place < 17 {
        if !takes(reader, byte_at(place)) {
            return false;
        }
        place += 1;
    }
    match reader.take() {
        Some(_) => false,
        None => true,
    }
}

/// Whether the operands of a record of that code name this producer.
fn is_naming(reader: &mut RecordReader<'_>, code: u32) -> bool
    ensures is { (operands : List ℕ) → reader.old.walk ≡ going operands None → result ≡ (nat_eq code 1 && bytes_eq operands records.producer) }
    ensures rest { reader.new ≡ record reader.old { walk = reader.new.walk } }
{
    if code != TEXT {
        return false;
    }
    names_us(reader)
}

/// The first of some blocks, where that one is the next.
fn first_of(block: Option<u32>, id: u32) -> Option<u32>
    ensures { result ≡ noted_or block id }
{
    match block {
        Some(first) => Some(first),
        None => Some(id),
    }
}

/// Goes behind the first record of the block that was begun, blocks before it passed over, and tells what stands in front.
fn read_front(reader: &mut RecordReader<'_>) -> Result<ProducerFront, AllocError>
    requires { reader.old.spent ≡ false }
    ensures unspent { OnOk result (reader.new.spent ≡ false) }
    ensures finds { (inside : Records) (others : List Piece) → IsBefore reader.old.left inside (ended ∷ others) → IfOk result (λ front. FindsFront inside others front reader.old reader.new) }
{
    let mut block = None;
    'entries: loop {
        match reader.next()? {
            NextEntry::Record(code) => {
                let is_ours = is_naming(reader, code);
                return Ok(ProducerFront { is_ours, block });
            }
            NextEntry::Block(id) => {
                block = first_of(block, id);
                reader.pass_block()?;
            }
            NextEntry::End => {
                return Ok(ProducerFront {
                    is_ours: false,
                    block,
                });
            }
        }
    }
}

/// Takes as many bytes as the name of the producer has. A number that is none breaks rule 3.
fn read_name_bytes(reader: &mut RecordReader<'_>)
    ensures { reader.new ≡ record reader.old { walk = ((times 17 byte).read reader.old.walk).1 } }
{
    let mut place: u64 = 0;
    'bytes: while reader.has_more(place, 17) {
        let _byte = read_below(reader, 256);
        place += 1;
    }
}

/// Refuses another record of the producer's block: there is one.
fn refuse_more(reader: &mut RecordReader<'_>, code: u32) -> Result<(), BitcodeFault>
    requires { reader.old.at ≡ 2 }
    ensures { (operands : List ℕ) → reader.old.walk ≡ going operands None → Answers (λ done more. ⊥) (another code operands) result }
{
    if code != TEXT {
        return Err(BitcodeFault::UnknownRecord {
            block: PRODUCER_BLOCK,
            code,
        });
    }
    read_name_bytes(reader);
    reader.also(5, false);
    reader.finish(PRODUCER_BLOCK)
}

/// Refuses what stands behind the one record of the producer's block. The reader stands behind the block then.
fn end_of_producer(reader: &mut RecordReader<'_>) -> Result<(), BitcodeFault>
    requires unspent { reader.old.spent ≡ false }
    requires begun { IsInBlock reader.old.left }
    requires one { reader.old.at ≡ 1 }
    ensures unspent { OnOk result (reader.new.spent ≡ false) }
    ensures answers { (rest : Records) (others : List Piece) → IsBefore reader.old.left rest (ended ∷ others) → Answers (λ done at. IsEnded reader.new others at) (records.producer_from 1 rest) result }
{
    match reader.next()? {
        NextEntry::Record(code) => refuse_more(reader, code),
        NextEntry::Block(id) => Err(misplaced(id, reader.at())),
        NextEntry::End => Ok(()),
    }
}

/// Whether an entry of the stream is the block that names the producer.
fn is_producer(entry: NextEntry) -> bool
    ensures { result ≡ is_producer_block entry }
{
    match entry {
        NextEntry::Block(id) => id == PRODUCER_BLOCK,
        NextEntry::Record(_) | NextEntry::End => false,
    }
}

/// Reads the first block of a stream, which names this producer in its one record. The reader stands behind it then. A stream
/// of another producer is refused as such, and what else stands in the block by the least rule that it breaks.
pub fn read_producer(reader: &mut RecordReader<'_>) -> Result<(), BitcodeFault>
    requires unspent { reader.old.spent ≡ false }
    requires whole { IsWholeStream reader.old.left }
    requires first { reader.old.at ≡ 0 }
    ensures unspent { OnOk result (reader.new.spent ≡ false) }
    ensures answers { (all : Records) → IsBefore reader.old.left all [] → Answers (λ done read. IsBehind reader.new read) (producer_of all) result }
{
    let entry = reader.next()?;
    if !is_producer(entry) {
        return Err(BitcodeFault::ForeignProducer);
    }
    let front = read_front(reader)?;
    if !front.is_ours {
        return Err(BitcodeFault::ForeignProducer);
    }
    match front.block {
        Some(id) => Err(misplaced(id, 0)),
        None => end_of_producer(reader),
    }
}
