//! What stands in front of the block of the module.
ghost use Rattle.std.specs.Prelude.{◌≡◌, ◌≤◌, length, false, IfOk};
ghost use Rattle.bit_stream.specs.declared.reader.TheConstants.{LARGEST_STREAM};
ghost use Rattle.bit_tree.specs.Read.{IsStream};
ghost use Rattle.bit_tree.specs.Stream.{StreamTree, Stream};
ghost use Rattle.bitcode_read.specs.Opening.{Opens};
ghost use Rattle.bitcode_read.specs.Sofar.{AreBytesHeld};

use crate::head::{ModuleAhead, look_ahead};
use record_read::opening::{read_producer, read_texts};
use record_read::{BitcodeFault, RecordReader, Texts, each_is_byte};
use std::alloc::Global;

/// What holds of every table of texts: it is made of bytes.
fn are_bytes_held(texts: &Texts)
    ensures { AreBytesHeld texts.now }
{
    match texts {
        Texts::Inline => {}
        Texts::Table(bytes) => each_is_byte(bytes.bytes()),
    }
}

/// A stream of which the reader stands in the module's block: how texts stand in it, and what is known ahead of it.
#[derive(Drop)]
pub(crate) struct Opening<'b> {
    pub(crate) reader: RecordReader<'b>,
    pub(crate) texts: Texts,
    pub(crate) known: ModuleAhead,
}

/// Goes into the module's block of a judged stream, and looks ahead over it. What stands in front of it is refused by the
/// least rule that it breaks.
pub(crate) fn open_stream<'b>(alloc: Global, bytes: &'b [u8]) -> Result<Opening<'b>, BitcodeFault>
    requires short { length bytes.now ≤ LARGEST_STREAM }
    requires judged { IsStream bytes.now }
    ensures unspent { IfOk result (λ opening. opening.reader.spent ≡ false) }
    ensures held { IfOk result (λ opening. AreBytesHeld opening.texts) }
    ensures opens { (tree : StreamTree) → Stream bytes.now tree → Opens tree result }
{
    let mut reader = RecordReader::new(alloc, bytes);
    read_producer(&mut reader)?;
    let texts = read_texts(&mut reader, alloc)?;
    are_bytes_held(&texts);
    let known = look_ahead(alloc, bytes, &texts)?;
    Ok(Opening {
        reader,
        texts,
        known,
    })
}
