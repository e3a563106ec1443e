//! Records on their way to a stream.
ghost use Rattle.std.specs.Prelude.{◌≡◌, ◌∷◌, [], false, OnOk, IfOk};
ghost use Rattle.bit_stream.specs.Writer as stream;
ghost use Rattle.bit_tree.specs.Written.{AreBytesOf};
ghost use Rattle.bitcode_write.specs.Put.{IsOpen, PutsLines};

use bit_stream::BitWriter;
use ir_base::Text;
use std::alloc::{AllocError, Global};

/// How many bits the abbreviation ids of each block have.
const ID_WIDTH: u32 = 3;

/// A writer of records, and the operands of the next one. The room of these is used again for each record.
#[derive(Drop)]
pub(crate) struct RecordSink {
    pub(crate) writer: BitWriter,
    pub(crate) operands: Vec<u64>,
}

impl RecordSink {
    /// A stream of which nothing is written but its first bytes.
    pub(crate) fn new(alloc: Global) -> Result<RecordSink, AllocError>
        ensures writer { IfOk result (λ sink. sink.writer ≡ stream.begun) }
        ensures none { IfOk result (λ sink. sink.operands.items ≡ []) }
    {
        Ok(RecordSink {
            writer: BitWriter::new(alloc)?,
            operands: Vec::new(alloc),
        })
    }

    /// Begins a block.
    pub(crate) fn enter(&mut self, id: u32) -> Result<(), AllocError>
        requires { self.old.writer.spent ≡ false }
        ensures entered { OnOk result (self.new.writer ≡ stream.enter self.old.writer id 3) }
        ensures kept { self.new.operands.items ≡ self.old.operands.items }
    {
        self.writer.enter(id, ID_WIDTH)
    }

    /// Ends the innermost open block.
    pub(crate) fn leave(&mut self) -> Result<(), AllocError>
        requires { IsOpen self.old.writer }
        ensures ended { OnOk result (self.new.writer ≡ stream.end_block self.old.writer) }
        ensures kept { self.new.operands.items ≡ self.old.operands.items }
    {
        self.writer.end_block()
    }

    /// Writes a record of that code with the operands that were gathered for it, of which none are left then.
    pub(crate) fn put(&mut self, code: u32) -> Result<(), AllocError>
        requires { IsOpen self.old.writer }
        ensures put { OnOk result (PutsLines self.old.writer ((code, self.old.operands.items) ∷ []) self.new.writer) }
        ensures none { OnOk result (self.new.operands.items ≡ []) }
    {
        self.writer.put_record(code, &self.operands)?;
        self.operands.clear();
        Ok(())
    }

    /// The bytes of the stream.
    pub(crate) fn finish(self) -> Text
        requires unspent { self.writer.spent ≡ false }
        requires outside { self.writer.around ≡ [] }
        ensures { AreBytesOf self.writer result }
    {
        let RecordSink { writer, .. } = self;
        writer.finish()
    }
}
