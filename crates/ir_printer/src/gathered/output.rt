//! The room before a sink.
ghost use Rattle.std.specs.Prelude.{◌≡◌, ◌++◌, ◌⊎◌, ◌≤◌, ℕ, List, [], true, false, IsErr, OnOk, OnErr, Option};
ghost use Rattle.ir_base.specs.Outside.{Added, Rose, Wrote};
ghost use Rattle.ir_printer.specs.Gathered.Told.{AddedFront, Gathers, Says, Tells, state};

use ir_base::{Failed, Sink, write_all};
use std::marker::Model;

// How many bytes are gathered before they are written.
const ROOM: usize = 4096;

/// Bytes that were put and not yet written, or that a write failed.
#[derive(Drop)]
pub struct Gathered {
    room: [u8; ROOM],
    used: usize,
    failed: bool,
}

impl Model for Gathered {
    ghost use Rattle.std.specs.Prelude.{◌≤◌, take};
    ghost use Rattle.ir_printer.specs.Gathered.Told.{Pending};
    ghost use Rattle.ir_printer.specs.declared.gathered.output.TheConstants.{ROOM};

    ghost Value = { Pending };

    ghost view = { λ g. record { held = take g.used g.room; failed = g.failed } };

    ghost invariant = { λ g. g.used ≤ ROOM };
}

impl Gathered {
    /// Nothing was put yet.
    pub fn new() -> Gathered
        ensures { result ≡ record { held = []; failed = false } }
    {
        Gathered {
            room: [0; ROOM],
            used: 0,
            failed: false,
        }
    }

    // Holds the bytes behind the others, where they have room.
    #[inline(always)]
    fn hold(&mut self, bytes: &[u8]) -> bool
        ensures there { result ≡ true → self.new ≡ record { held = self.old.held ++ bytes.now; failed = self.old.failed } }
        ensures full { result ≡ false → self.new ≡ self.old }
    {
        if bytes.len() > ROOM - self.used {
            return false;
        }
        let end = self.used + bytes.len();
        self.room[self.used..end].copy_from_slice(bytes);
        self.used = end;
        true
    }

    // Writes what is held.
    fn write<S: Sink>(&mut self, sink: &mut S) -> Result<(), Failed>
        ensures wrote { Wrote (S.taken sink.old) (S.taken sink.new) (S.faults sink.old) (S.faults sink.new) self.old.held }
        ensures ok { OnOk result (Added (S.taken sink.old) (S.taken sink.new) self.old.held) }
        ensures fine { OnOk result (S.faults sink.new ≡ S.faults sink.old) }
        ensures rose { OnErr result (Rose (S.faults sink.old) (S.faults sink.new)) }
        ensures later { S.faults sink.old ≤ S.faults sink.new }
        ensures none { OnOk result (self.new ≡ record { held = []; failed = self.old.failed }) }
        ensures err { OnErr result (self.new ≡ self.old) }
    {
        write_all(sink, &self.room[..self.used])?;
        self.used = 0;
        Ok(())
    }

    // Writes what is held, and these bytes where there is no room for them even then.
    fn write_behind<S: Sink>(&mut self, sink: &mut S, bytes: &[u8]) -> Result<(), Failed>
        ensures ok { OnOk result ((start : Option (List ℕ)) (text : List ℕ) → Gathers start (state self.old (S.taken sink.old) (S.faults sink.old)) text → Gathers start (state self.new (S.taken sink.new) (S.faults sink.new)) (text ++ bytes.now)) }
        ensures err { OnErr result ((start : Option (List ℕ)) (text : List ℕ) → Gathers start (state self.old (S.taken sink.old) (S.faults sink.old)) text → AddedFront start (S.taken sink.new) (text ++ bytes.now)) }
        ensures same { self.new.failed ≡ self.old.failed }
        ensures fine { OnOk result (S.faults sink.new ≡ S.faults sink.old) }
        ensures rose { OnErr result (Rose (S.faults sink.old) (S.faults sink.new)) }
        ensures later { S.faults sink.old ≤ S.faults sink.new }
    {
        self.write(sink)?;
        if self.hold(bytes) {
            return Ok(());
        }
        write_all(sink, bytes)
    }

    /// Puts bytes behind the others; they are written when there is no room for more. After a write that failed,
    /// nothing is written.
    #[inline]
    pub fn put<S: Sink>(&mut self, sink: &mut S, bytes: &[u8])
        ensures { Tells (state self.old (S.taken sink.old) (S.faults sink.old)) (state self.new (S.taken sink.new) (S.faults sink.new)) bytes.now }
    {
        if self.failed || self.hold(bytes) {
            return;
        }
        self.put_through(sink, bytes);
    }

    // Puts bytes for which there is no room before what is held is written. It stands apart so that other bytes pass by it.
    #[inline(never)]
    fn put_through<S: Sink>(&mut self, sink: &mut S, bytes: &[u8])
        requires { self.old.failed ≡ false }
        ensures { Tells (state self.old (S.taken sink.old) (S.faults sink.old)) (state self.new (S.taken sink.new) (S.faults sink.new)) bytes.now }
    {
        match self.write_behind(sink, bytes) {
            Ok(()) => {}
            Err(Failed) => self.failed = true,
        }
    }

    /// Writes what is still held.
    ///
    /// Failed where this write or an earlier one failed: the sink has taken a front of all that was put.
    pub fn finish<S: Sink>(mut self, sink: &mut S) -> Result<(), Failed>
        ensures ok { OnOk result ((start : Option (List ℕ)) (text : List ℕ) → Says start (state self (S.taken sink.old) (S.faults sink.old)) text → Added start (S.taken sink.new) text) }
        ensures front { (start : Option (List ℕ)) (text : List ℕ) → Says start (state self (S.taken sink.old) (S.faults sink.old)) text → AddedFront start (S.taken sink.new) text }
        ensures cause { OnErr result ((self.failed ≡ true) ⊎ Rose (S.faults sink.old) (S.faults sink.new)) }
        ensures later { S.faults sink.old ≤ S.faults sink.new }
        ensures fine { OnOk result ((self.failed ≡ false) × (S.faults sink.new ≡ S.faults sink.old)) }
    {
        if self.failed {
            return Err(Failed);
        }
        self.write(sink)
    }
}
