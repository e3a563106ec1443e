//! What is told so far of a stream, and what one more piece of it adds.
ghost use Rattle.std.specs.Prelude.{◌≡◌, ◌++◌, [], OnOk, OnErr, string_bytes};
ghost use Rattle.ir_base.specs.Outside.{Added, Wrote, Rose};
ghost use Rattle.bit_dump.specs.Outline.{nothing_told, after_block, after_end, after_definition, after_head, after_operand, after_close, emptied, here};
ghost use Rattle.bit_dump.specs.Dumped.{Counted};
ghost use Rattle.bit_dump.specs.Telling.{Spilled};
ghost use Rattle.bit_dump.specs.Text.{summary};

use crate::DumpFault;
use crate::counts::CountedKind;
use crate::summary::ROOM;
use crate::tally::Tally;
use crate::text::{
    put_block, put_definition, put_end, put_operand, put_record_end, put_record_head,
};
use crate::walk::{BlockHead, RecordHead};
use bit_stream::Abbreviation;
use ir_base::{Failed, Sink, write_all};
use std::alloc::{AllocError, Global};
use std::marker::Model;

/// The blocks that are open, the counts, and the text that is not written yet.
#[derive(Drop)]
pub struct Outline {
    /// Whether each entry is told, and not only the counts.
    whole: bool,
    unclosed: Vec<u32>,
    tally: Tally,
    text: String,
}

impl Model for Outline {
    ghost use Rattle.std.specs.Prelude.{string_bytes};
    ghost use Rattle.bit_dump.specs.Outline.{Outline};

    ghost Value = { Outline };

    ghost view = { λ o. record { whole = o.whole; unclosed = o.unclosed.items; tally = o.tally; text = string_bytes o.text } };
}

impl Outline {
    /// Nothing is told yet.
    pub fn new(alloc: Global, whole: bool) -> Self
        ensures { result ≡ nothing_told whole }
    {
        Outline {
            whole,
            unclosed: Vec::new(alloc),
            tally: Tally::new(alloc),
            text: String::new(alloc),
        }
    }

    /// Whether each entry is told.
    pub fn is_whole(&self) -> bool
        ensures { result ≡ self.now.whole }
    {
        self.whole
    }

    /// The summary, behind all entries.
    pub fn sum_up<S: Sink>(&mut self, sink: &mut S) -> Result<(), DumpFault>
        ensures told { Spilled (summary self.old.tally) (S.taken sink.old) self.old.text (S.taken sink.new) self.new.text result }
        ensures rest { self.new ≡ record self.old { text = self.new.text } }
        ensures counted { Counted (S.faults sink.old) (S.faults sink.new) result }
    {
        self.tally.tell_summary(&mut self.text, sink)
    }

    /// Whether so much text is gathered that it is worth a write.
    pub fn is_full(&self) -> bool {
        self.text.len() >= ROOM
    }

    /// Writes the text, or a front of it where a write fails.
    pub fn flush<S: Sink>(&mut self, sink: &mut S) -> Result<(), Failed>
        ensures ok { OnOk result (Added (S.taken sink.old) (S.taken sink.new) self.old.text) }
        ensures none { OnOk result (self.new ≡ emptied self.old) }
        ensures wrote { Wrote (S.taken sink.old) (S.taken sink.new) (S.faults sink.old) (S.faults sink.new) self.old.text }
        ensures fine { OnOk result (S.faults sink.new ≡ S.faults sink.old) }
        ensures rose { OnErr result (Rose (S.faults sink.old) (S.faults sink.new)) }
    {
        write_all(sink, self.text.as_bytes())?;
        self.text.clear();
        Ok(())
    }

    /// A block begins.
    pub fn begin(&mut self, head: BlockHead) -> Result<(), AllocError>
        ensures { OnOk result (self.new ≡ after_block self.old head.id head.width head.words) }
    {
        if self.whole {
            put_block(
                &mut self.text,
                self.unclosed.len(),
                head.id,
                head.width,
                head.words,
            )?;
        }
        self.tally.add(CountedKind::Blocks, Some(head.id))?;
        self.unclosed.push(head.id)?;
        Ok(())
    }

    /// The innermost open block ends.
    pub fn end(&mut self) -> Result<(), AllocError>
        ensures { OnOk result (self.new ≡ after_end self.old) }
    {
        let id = self.unclosed.pop().unwrap_or(0);
        if self.whole {
            put_end(&mut self.text, self.unclosed.len(), id)?;
        }
        Ok(())
    }

    /// An abbreviation is defined for this id.
    pub fn define(&mut self, id: u64, operands: &Abbreviation) -> Result<(), AllocError>
        ensures { OnOk result (self.new ≡ after_definition self.old id operands.now) }
    {
        if self.whole {
            put_definition(&mut self.text, self.unclosed.len(), id, operands.as_slice())?;
        }
        let here = self.here();
        self.tally.add(CountedKind::Abbreviations, here)
    }

    /// A record begins.
    pub fn head(&mut self, head: RecordHead) -> Result<(), AllocError>
        ensures { OnOk result (self.new ≡ after_head self.old head.id head.code) }
    {
        if self.whole {
            put_record_head(&mut self.text, self.unclosed.len(), head.id, head.code)?;
        }
        let here = self.here();
        self.tally.add(CountedKind::Records, here)
    }

    /// One more operand of a record.
    pub fn operand(&mut self, operand: u64) -> Result<(), AllocError>
        ensures { OnOk result (self.new ≡ after_operand self.old operand) }
    {
        if self.whole {
            put_operand(&mut self.text, operand)?;
        }
        Ok(())
    }

    /// A record ends, in a blob of so many bytes or in none.
    pub fn close(&mut self, has_blob: bool, size: usize) -> Result<(), AllocError>
        ensures { OnOk result (self.new ≡ after_close self.old has_blob size) }
    {
        if self.whole {
            put_record_end(&mut self.text, has_blob, size)?;
        }
        Ok(())
    }

    /// The innermost open block.
    fn here(&self) -> Option<u32>
        ensures { result ≡ here self.now.unclosed }
    {
        self.unclosed.last().copied()
    }
}
