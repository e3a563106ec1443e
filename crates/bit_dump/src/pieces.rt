//! Telling an entry or a definition, with its operands one by one.
ghost use Rattle.std.specs.Prelude.{◌≡◌, [], OnOk};
ghost use Rattle.bit_tree.specs.Pieces.{holds};
ghost use Rattle.bit_dump.specs.Walk.Walker.{piece_of};
ghost use Rattle.bit_dump.specs.Dumped.{Counted};
ghost use Rattle.bit_dump.specs.Outline.{after, after_operands};
ghost use Rattle.bit_dump.specs.Telling.{Adds};

use crate::DumpFault;
use crate::outline::Outline;
use crate::walk::{Event, RecordHead, Walker};
use ir_base::Sink;
use std::alloc::Global;

/// Writes the text that is gathered where it is worth a write.
fn spill<S: Sink>(outline: &mut Outline, sink: &mut S) -> Result<(), DumpFault>
    ensures told { Adds (λ x. x) (S.taken sink.old) outline.old (S.taken sink.new) outline.new result }
    ensures counted { Counted (S.faults sink.old) (S.faults sink.new) result }
    ensures whole { OnOk result (outline.new.whole ≡ outline.old.whole) }
{
    if !outline.is_full() {
        return Ok(());
    }
    outline.flush(sink)?;
    Ok(())
}

/// The operands of a record that are left, each as it is read.
fn tell_operands<S: Sink>(
    walker: &mut Walker,
    outline: &mut Outline,
    sink: &mut S,
) -> Result<(), DumpFault>
    ensures told { Adds (λ x. after_operands x walker.old.operands) (S.taken sink.old) outline.old (S.taken sink.new) outline.new result }
    ensures counted { Counted (S.faults sink.old) (S.faults sink.new) result }
    ensures walker { OnOk result (walker.new ≡ record walker.old { operands = [] }) }
{
    'operands: loop {
        match walker.next_operand() {
            Some(operand) => {
                outline.operand(operand)?;
                spill(outline, sink)?;
            }
            None => return Ok(()),
        }
    }
}

/// The same where each entry is told, and else nothing.
fn tell_values<S: Sink>(
    walker: &mut Walker,
    outline: &mut Outline,
    sink: &mut S,
) -> Result<(), DumpFault>
    ensures told { Adds (λ x. after_operands x walker.old.operands) (S.taken sink.old) outline.old (S.taken sink.new) outline.new result }
    ensures counted { Counted (S.faults sink.old) (S.faults sink.new) result }
    ensures left { OnOk result (walker.new.left ≡ walker.old.left) }
    ensures spent { OnOk result (walker.new.spent ≡ walker.old.spent) }
    ensures has_blob { OnOk result (walker.new.has_blob ≡ walker.old.has_blob) }
    ensures blob { OnOk result (walker.new.blob ≡ walker.old.blob) }
{
    if outline.is_whole() {
        return tell_operands(walker, outline, sink);
    }
    Ok(())
}

/// A record, whose operands are left.
fn tell_record<S: Sink>(
    head: RecordHead,
    walker: &mut Walker,
    outline: &mut Outline,
    sink: &mut S,
) -> Result<(), DumpFault>
    ensures told { Adds (λ x. after x (holds head.id head.code walker.old.operands walker.old.has_blob walker.old.blob)) (S.taken sink.old) outline.old (S.taken sink.new) outline.new result }
    ensures counted { Counted (S.faults sink.old) (S.faults sink.new) result }
    ensures left { OnOk result (walker.new.left ≡ walker.old.left) }
    ensures spent { OnOk result (walker.new.spent ≡ walker.old.spent) }
{
    outline.head(head)?;
    tell_values(walker, outline, sink)?;
    let has_blob = walker.has_blob();
    let size = walker.blob().len();
    outline.close(has_blob, size)?;
    spill(outline, sink)
}

/// What a walker gave last.
pub fn tell<S: Sink>(
    alloc: Global,
    event: Event,
    walker: &mut Walker,
    outline: &mut Outline,
    sink: &mut S,
) -> Result<(), DumpFault>
    ensures told { Adds (λ x. after x (piece_of event walker.old)) (S.taken sink.old) outline.old (S.taken sink.new) outline.new result }
    ensures counted { Counted (S.faults sink.old) (S.faults sink.new) result }
    ensures left { OnOk result (walker.new.left ≡ walker.old.left) }
    ensures spent { OnOk result (walker.new.spent ≡ walker.old.spent) }
{
    match event {
        Event::Begun(head) => {
            outline.begin(head)?;
            spill(outline, sink)
        }
        Event::Ended => {
            outline.end()?;
            spill(outline, sink)
        }
        Event::Defined(id) => {
            let operands = walker.admitted().abbreviation(alloc)?;
            outline.define(id, &operands)?;
            spill(outline, sink)
        }
        Event::Held(head) => tell_record(head, walker, outline, sink),
    }
}
