//! Telling a whole stream.
ghost use Rattle.std.specs.Prelude.{◌≡◌, ◌≤◌, ℕ, Bool, List, false, length};
ghost use Rattle.bit_stream.specs.declared.reader.TheConstants.{LARGEST_STREAM};
ghost use Rattle.bit_tree.specs.Read.{IsStream};
ghost use Rattle.bit_dump.specs.Dumped.{Dumped, Counted};
ghost use Rattle.bit_dump.specs.Outline.{summed};
ghost use Rattle.bit_dump.specs.Telling.{Finished, IsUntold};

use crate::DumpFault;
use crate::outline::Outline;
use crate::pieces::tell;
use crate::walk::{Walker, judge};
use ir_base::Sink;
use std::alloc::Global;

/// Writes the text of a stream's tree: with `whole` its entries and definitions, and always how many blocks, records and
/// definitions each block id has. Nothing is written before the whole stream was judged. Neither pass holds a list of
/// operands or of definitions.
pub fn dump<S: Sink>(
    alloc: Global,
    bytes: &[u8],
    whole: bool,
    sink: &mut S,
) -> Result<(), DumpFault>
    requires { length bytes.now ≤ LARGEST_STREAM }
    ensures told { Dumped bytes.now whole (S.taken sink.old) (S.taken sink.new) result }
    ensures counted { Counted (S.faults sink.old) (S.faults sink.new) result }
{
    judge(alloc, bytes)?;
    tell_judged(alloc, bytes, whole, sink)
}

/// Writes the text of a stream of which nothing is told yet. What tells it is borrowed, so that no
/// exit here frees it.
fn tell_all<S: Sink>(
    alloc: Global,
    walker: &mut Walker,
    outline: &mut Outline,
    sink: &mut S,
) -> Result<(), DumpFault>
    requires { walker.old.spent ≡ false }
    ensures told { (bytes : List ℕ) (whole : Bool)
        → IsUntold bytes whole walker.old.left outline.old
        → Dumped bytes whole (S.taken sink.old) (S.taken sink.new) result }
    ensures counted { Counted (S.faults sink.old) (S.faults sink.new) result }
{
    'telling: loop {
        let next = walker.next()?;
        match next {
            Some(event) => tell(alloc, event, walker, outline, sink)?,
            None => return finish(outline, sink),
        }
    }
}

/// The same of a stream that is a tree.
fn tell_judged<S: Sink>(
    alloc: Global,
    bytes: &[u8],
    whole: bool,
    sink: &mut S,
) -> Result<(), DumpFault>
    requires short { length bytes.now ≤ LARGEST_STREAM }
    requires judged { IsStream bytes.now }
    ensures told { Dumped bytes.now whole (S.taken sink.old) (S.taken sink.new) result }
    ensures counted { Counted (S.faults sink.old) (S.faults sink.new) result }
{
    let mut walker = Walker::new(alloc, bytes);
    let mut outline = Outline::new(alloc, whole);
    tell_all(alloc, &mut walker, &mut outline, sink)
}

/// Writes the summary behind what is not written yet.
fn finish<S: Sink>(outline: &mut Outline, sink: &mut S) -> Result<(), DumpFault>
    ensures told { Finished (S.taken sink.old) (S.taken sink.new) (summed outline.old).text result }
    ensures counted { Counted (S.faults sink.old) (S.faults sink.new) result }
{
    outline.sum_up(sink)?;
    Ok(outline.flush(sink)?)
}
