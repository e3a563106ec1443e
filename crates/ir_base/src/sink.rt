//! Where bytes are written.
ghost use Rattle.std.specs.Prelude.{◌≡◌, ◌<◌, ◌≤◌, ℕ, List, length, take, Option, IfOk, OnOk, OnErr};
ghost use Rattle.ir_base.specs.Outside.{Rose, Added, Wrote, joined};

use crate::Failed;

/// An object of the outside that takes bytes. It tells which bytes it has taken, or nothing of them.
pub trait Sink {
    /// The bytes that it has taken, where they are told.
    ghost taken: { Self → Option (List ℕ) };

    /// How often a write has failed, a number that never falls.
    ghost faults: { Self → ℕ };

    /// Takes a front of the piece, which is not empty, and says how many bytes: at least one.
    fn write(&mut self, piece: &[u8]) -> Result<usize, Failed>
        requires { 0 < length piece.now }
        ensures some { IfOk result (λ n. 0 < n) }
        ensures within { IfOk result (λ n. n ≤ length piece.now) }
        ensures added { IfOk result (λ n. Added (taken self.old) (taken self.new) (take n piece.now)) }
        ensures fine { OnOk result (faults self.new ≡ faults self.old) }
        ensures kept { OnErr result (taken self.new ≡ taken self.old) }
        ensures later { faults self.old ≤ faults self.new }
        ensures rose { OnErr result (Rose (faults self.old) (faults self.new)) };
}

/// Writes the whole line, or a front of it where a write fails.
pub fn write_all<O: Sink>(sink: &mut O, line: &[u8]) -> Result<(), Failed>
    ensures ok { OnOk result (Added (O.taken sink.old) (O.taken sink.new) line.now) }
    ensures wrote { Wrote (O.taken sink.old) (O.taken sink.new) (O.faults sink.old) (O.faults sink.new) line.now }
    ensures fine { OnOk result (O.faults sink.new ≡ O.faults sink.old) }
    ensures later { O.faults sink.old ≤ O.faults sink.new }
    ensures rose { OnErr result (Rose (O.faults sink.old) (O.faults sink.new)) }
{
    let mut at = 0;
    'writing: while at < line.len() {
        at += sink.write(&line[at..])?;
    }
    Ok(())
}

/// Writes the pieces one behind the other, or a front of them where a write fails. It takes no memory.
pub fn write_pieces<O: Sink>(sink: &mut O, pieces: &[&[u8]]) -> Result<(), Failed>
    ensures ok { OnOk result (Added (O.taken sink.old) (O.taken sink.new) (joined pieces.now)) }
    ensures wrote { Wrote (O.taken sink.old) (O.taken sink.new) (O.faults sink.old) (O.faults sink.new) (joined pieces.now) }
    ensures fine { OnOk result (O.faults sink.new ≡ O.faults sink.old) }
    ensures later { O.faults sink.old ≤ O.faults sink.new }
    ensures rose { OnErr result (Rose (O.faults sink.old) (O.faults sink.new)) }
{
    let mut at = 0;
    'writing: while at < pieces.len() {
        write_all(sink, pieces[at])?;
        at += 1;
    }
    Ok(())
}
