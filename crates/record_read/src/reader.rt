//! A reader of records.
ghost use Rattle.std.specs.Prelude.{◌≡◌, ◌≤◌, ◌<◌, ◌+◌, ◌&&◌, not, nat_lt, true, false, None, [], length, IfOk, OnOk, OnErr};
ghost use Rattle.bit_stream.specs.declared.reader.TheConstants.{LARGEST_STREAM};
ghost use Rattle.bit_tree.specs.Read.{IsStream};
ghost use Rattle.bit_tree.specs.Stream.{StreamTree, Stream};
ghost use Rattle.record_table.specs.Walk as walk;
ghost use Rattle.record_table.specs.Layout.{number};
ghost use Rattle.record_table.specs.Faults.{records};
ghost use Rattle.record_read.specs.Reader.{Reads, Takes, also_asked, behind_end, is_broken, is_stopped, noted};
ghost use Rattle.record_read.specs.Faults.{Finishes};
ghost use Rattle.record_read.specs.Entries.{IsBefore, Advances, Passes};

use crate::entry::NextEntry;
use crate::fault::BitcodeFault;
use bit_dump::walk::{Event, Walker};
use std::alloc::{AllocError, Global};
use std::marker::Model;

/// A reader over the blocks and records of a judged stream, in order.
///
/// It holds no operands: those of a record are read as they are taken. Where one breaks a rule, the reading goes on as long
/// as what follows is known, so that the least rule of the record is told. After want of memory the reader is spent.
#[derive(Drop)]
pub struct RecordReader<'b> {
    walker: Walker<'b>,
    /// Whether nothing says what stands next in the record.
    stopped: bool,
    /// The least rule that the record breaks so far.
    broken: Option<u8>,
    /// How many records were given.
    at: u64,
    /// Whether there were more pieces than can be counted.
    overrun: bool,
}

impl<'b> Model for RecordReader<'b> {
    ghost use Rattle.std.specs.Prelude.{◌||◌};
    ghost use Rattle.record_read.specs.Reader.{Reader, IsReader, walk_of};

    ghost Value = { Reader };

    ghost invariant = { λ r. IsReader r.stopped r.broken };

    ghost view = { λ r. record { spent = r.overrun || r.walker.spent; left = r.walker.left; walk = walk_of r.stopped r.broken r.walker.operands; at = r.at } };
}

/// One more, where so many can be counted; else this is noted. There are not as many in a stream that memory holds.
fn one_more(count: u64, overrun: &mut bool) -> Result<u64, AllocError>
    ensures more { IfOk result (λ more. more ≡ count + 1) }
    ensures stays { OnOk result (overrun.new ≡ overrun.old) }
    ensures noted { OnErr result (overrun.new ≡ true) }
{
    if count == u64::MAX {
        *overrun = true;
        return Err(AllocError);
    }
    Ok(count + 1)
}

impl<'b> RecordReader<'b> {
    /// A reader in front of all of a stream.
    pub fn new(alloc: Global, bytes: &'b [u8]) -> RecordReader<'b>
        requires short { length bytes.now ≤ LARGEST_STREAM }
        requires judged { IsStream bytes.now }
        ensures unspent { result.spent ≡ false }
        ensures whole { (tree : StreamTree) → Stream bytes.now tree → IsBefore result.left (records tree) [] }
        ensures none { result.at ≡ 0 }
        ensures bare { result.walk ≡ walk.going [] None }
    {
        RecordReader {
            walker: Walker::new(alloc, bytes),
            stopped: false,
            broken: None,
            at: 0,
            overrun: false,
        }
    }

    /// How many records were given. BLOCKINFO's are not counted.
    pub fn at(&self) -> u64
        ensures { result ≡ self.now.at }
    {
        self.at
    }

    /// What stands next in the innermost open block, or in the stream. Operands of the record before that were not taken
    /// are passed over, and so are definitions, and BLOCKINFO with what it holds. After want of memory the reader is spent.
    pub fn next(&mut self) -> Result<NextEntry, AllocError>
        requires { self.old.spent ≡ false }
        ensures { Advances self.old result self.new }
    {
        'entries: loop {
            match self.walker.next()? {
                Some(Event::Begun(head)) if head.id == 0 => self.pass_block()?,
                Some(Event::Begun(head)) => return Ok(NextEntry::Block(head.id)),
                Some(Event::Held(head)) => {
                    self.at = one_more(self.at, &mut self.overrun)?;
                    self.stopped = false;
                    self.broken = None;
                    return Ok(NextEntry::Record(head.code));
                }
                Some(Event::Ended) => return Ok(NextEntry::End),
                None => return Ok(NextEntry::End),
                Some(Event::Defined(_)) => {}
            }
        }
    }

    /// Goes past what is left of the innermost open block, blocks in it included. Of the records that it passes none is
    /// counted. After want of memory the reader is spent.
    pub fn pass_block(&mut self) -> Result<(), AllocError>
        requires { self.old.spent ≡ false }
        ensures { Passes self.old result self.new }
    {
        let mut unclosed: u64 = 1;
        'pieces: while unclosed > 0 {
            match self.walker.next()? {
                Some(Event::Begun(_)) => {
                    unclosed = one_more(unclosed, &mut self.overrun)?;
                }
                Some(Event::Ended) => unclosed -= 1,
                Some(Event::Held(_)) => {}
                Some(Event::Defined(_)) => {}
                None => return Ok(()),
            }
        }
        Ok(())
    }

    /// Whether nothing says what stands next in the record.
    pub fn is_stopped(&self) -> bool
        ensures { result ≡ is_stopped self.now.walk }
    {
        self.stopped
    }

    /// What holds of a reader: it stops only where a rule is broken.
    pub fn stops_where_broken(&self)
        ensures { is_stopped self.now.walk ≡ true → is_broken self.now.walk ≡ true }
    {
        let _stopped = self.stopped;
    }

    /// Whether more of so many values can be read, behind so many of them.
    pub fn has_more(&self, place: u64, count: u64) -> bool
        ensures { result ≡ (nat_lt place count && not (is_stopped self.now.walk)) }
    {
        place < count && !self.is_stopped()
    }

    /// Whether the record breaks a rule so far.
    pub fn is_broken(&self) -> bool
        ensures { result ≡ is_broken self.now.walk }
    {
        self.broken.is_some()
    }

    /// The record breaks this rule. Of several the least is told.
    fn note(&mut self, rule: u8)
        ensures { self.new ≡ record self.old { walk = noted rule self.old.walk } }
    {
        self.broken = Some(match self.broken {
            Some(other) => other.min(rule),
            None => rule,
        });
    }

    /// The record breaks this rule, and what follows is known all the same.
    pub fn refuse(&mut self, rule: u8)
        ensures { self.new ≡ record self.old { walk = walk.break rule self.old.walk } }
    {
        if !self.stopped {
            self.note(rule);
        }
    }

    /// The record breaks this rule where this is false.
    pub fn ask(&mut self, rule: u8, holds: bool)
        ensures { self.new ≡ record self.old { walk = walk.ask rule holds self.old.walk } }
    {
        if !holds {
            self.refuse(rule);
        }
    }

    /// The record as a whole breaks this rule where this is false, whether or not all its operands are known.
    pub fn also(&mut self, rule: u8, holds: bool)
        ensures { self.new ≡ record self.old { walk = also_asked rule holds self.old.walk } }
    {
        if !holds {
            self.note(rule);
        }
    }

    /// The record breaks this rule, and what follows is not known.
    pub fn stop(&mut self, rule: u8)
        ensures { self.new ≡ record self.old { walk = walk.stop rule self.old.walk } }
    {
        self.refuse(rule);
        self.stopped = true;
    }

    /// The next operand, if one is left and what stands next is known.
    pub fn take(&mut self) -> Option<u64>
        ensures { Takes self.old result self.new }
    {
        if self.stopped {
            return None;
        }
        self.walker.next_operand()
    }

    /// The next operand. Where none is left there are too few, which breaks rule 1.
    #[tactic(auto, unfolding(record_table::specs::Walk::next))]
    pub fn number(&mut self) -> u64
        ensures { Reads number self.old self.new result }
    {
        if self.stopped {
            return 0;
        }
        match self.walker.next_operand() {
            Some(number) => number,
            None => {
                self.stop(1);
                0
            }
        }
    }

    /// The least rule that the record breaks. Where operands are left at its end there are too many, which breaks rule 1.
    pub fn told(&mut self) -> Option<u8>
        ensures told { result ≡ walk.told self.old.walk }
        ensures walk { self.new.walk ≡ behind_end self.old.walk }
        ensures left { self.new.left ≡ self.old.left }
        ensures spent { self.new.spent ≡ self.old.spent }
        ensures at { self.new.at ≡ self.old.at }
    {
        if self.take().is_some() {
            self.note(1);
        }
        self.broken
    }

    /// Refuses the record that was given last, which stands in that block, where it breaks a rule or has operands left.
    pub fn finish(&mut self, block: u32) -> Result<(), BitcodeFault>
        requires { 0 < self.old.at }
        ensures told { Finishes block self.old result }
        ensures walk { self.new.walk ≡ behind_end self.old.walk }
        ensures left { self.new.left ≡ self.old.left }
        ensures spent { self.new.spent ≡ self.old.spent }
        ensures at { self.new.at ≡ self.old.at }
    {
        match self.told() {
            Some(rule) => Err(BitcodeFault::BadRecord {
                block,
                index: self.at - 1,
                rule,
            }),
            None => Ok(()),
        }
    }
}
