//! The counts of each block id.
ghost use Rattle.std.specs.Prelude.{◌≡◌, ℕ, OnOk, Some, string_bytes};
ghost use Rattle.std.specs.List.{flat_map};
ghost use Rattle.bit_dump.specs.Dumped.{Counted};
ghost use Rattle.bit_dump.specs.Telling.{Spilled};
ghost use Rattle.bit_dump.specs.Text.{row_line, summary};
ghost use Rattle.bit_dump.specs.Halves.{joined, upper_of};
ghost use Rattle.bit_dump.specs.Tally.{no_tally, counts_of, counted, with_one};

use crate::DumpFault;
use crate::counts::{CountedKind, Half, StreamCounts};
use crate::summary::tell_row;
use crate::text::put_total;
use ir_base::Sink;
use std::alloc::{AllocError, Global};
use std::collections::BTreeMap;
use std::marker::Model;

/// The counts of each block id, and of all. A block id has a row of six bytes in one map, and only where a count passes 65,535
/// a further one in the other: a stream has room for a thousand such ids, but for a million of the others.
#[derive(Drop)]
pub struct Tally {
    lower: BTreeMap<u32, Half>,
    upper: BTreeMap<u32, Half>,
    total: StreamCounts,
}

impl Model for Tally {
    ghost use Rattle.bit_dump.specs.Halves.{joined};
    ghost use Rattle.bit_dump.specs.Tally.{Tally};

    ghost Value = { Tally };

    ghost view = { λ t. record { rows = joined t.upper.entries t.lower.entries; total = t.total } };
}

/// The upper halves of the counts of a block id.
fn upper_at(upper: &BTreeMap<u32, Half>, id: u32) -> Half
    ensures { result ≡ upper_of upper.now.entries id }
{
    match upper.get(&id) {
        Some(half) => *half,
        None => Half::none(),
    }
}

/// The counts of a block id.
fn counts_at(lower: &BTreeMap<u32, Half>, upper: &BTreeMap<u32, Half>, id: u32) -> StreamCounts
    ensures { result ≡ counts_of (joined upper.now.entries lower.now.entries) id }
{
    match lower.get(&id) {
        Some(half) => StreamCounts::of_halves(*half, upper_at(upper, id)),
        None => StreamCounts::none(),
    }
}

/// A block id has this upper half from now on.
fn set_upper(upper: &mut BTreeMap<u32, Half>, id: u32, half: Half) -> Result<(), AllocError>
    ensures here { OnOk result (upper_of upper.new.entries id ≡ half) }
    ensures others { OnOk result ((other : ℕ) → (other ≡ id → ⊥) → upper_of upper.new.entries other ≡ upper_of upper.old.entries other) }
{
    let is_none = half.blocks == 0 && half.records == 0 && half.abbreviations == 0;
    if !is_none || upper.contains_key(&id) {
        upper.insert(id, half)?;
    }
    Ok(())
}

/// One more of a kind, for this block.
fn add_to(
    lower: &mut BTreeMap<u32, Half>,
    upper: &mut BTreeMap<u32, Half>,
    kind: CountedKind,
    id: u32,
) -> Result<(), AllocError>
    ensures { OnOk result (joined upper.new.entries lower.new.entries ≡ with_one kind (joined upper.old.entries lower.old.entries) (Some id)) }
{
    let (low, high) = counts_at(lower, upper, id).with(kind)?.halves();
    set_upper(upper, id, high)?;
    lower.insert(id, low)?;
    Ok(())
}

/// A line for each block id, the ids ascending.
fn tell_rows<S: Sink>(
    lower: &BTreeMap<u32, Half>,
    upper: &BTreeMap<u32, Half>,
    text: &mut String,
    sink: &mut S,
) -> Result<(), DumpFault>
    ensures told { Spilled (flat_map row_line (joined upper.now.entries lower.now.entries)) (S.taken sink.old) (string_bytes text.old) (S.taken sink.new) (string_bytes text.new) result }
    ensures counted { Counted (S.faults sink.old) (S.faults sink.new) result }
{
    for (id, half) in lower {
        let counts = StreamCounts::of_halves(*half, upper_at(upper, *id));
        tell_row(*id, counts, text, sink)?;
    }
    Ok(())
}

impl Tally {
    /// Nothing is counted yet.
    pub fn new(alloc: Global) -> Self
        ensures { result ≡ no_tally }
    {
        Tally {
            lower: BTreeMap::new(alloc),
            upper: BTreeMap::new(alloc),
            total: StreamCounts::none(),
        }
    }

    /// One more of a kind, for this block and in all.
    pub fn add(&mut self, kind: CountedKind, here: Option<u32>) -> Result<(), AllocError>
        ensures { OnOk result (self.new ≡ counted kind self.old here) }
    {
        if let Some(id) = here {
            add_to(&mut self.lower, &mut self.upper, kind, id)?;
        }
        self.total = self.total.with(kind)?;
        Ok(())
    }

    /// A line for each block id, the ids ascending, and one for all. A front of them is written where they are many.
    #[tactic(auto, unfolding(crate::specs::Text::summary))]
    pub fn tell_summary<S: Sink>(&self, text: &mut String, sink: &mut S) -> Result<(), DumpFault>
        ensures told { Spilled (summary self.now) (S.taken sink.old) (string_bytes text.old) (S.taken sink.new) (string_bytes text.new) result }
        ensures counted { Counted (S.faults sink.old) (S.faults sink.new) result }
    {
        tell_rows(&self.lower, &self.upper, text, sink)?;
        put_total(text, self.total)?;
        Ok(())
    }
}
