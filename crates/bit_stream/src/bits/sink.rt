//! Bits that grow at the end.
ghost use Rattle.std.specs.Prelude.{◌≡◌, ℕ, ◌+◌, ◌-◌, ◌*◌, ◌/◌, ◌%◌, ◌^◌, ◌<◌, ◌≤◌, [], ◌++◌, length, take, drop, IfOk, OnOk, OnErr};
ghost use Rattle.bit_stream.specs.Bits.Bits.{bits_of, stream_bits};
ghost use Rattle.bit_stream.specs.Bits.Writing.{vbr_bits, pad_bits, byte_pad};

use ir_base::Text;
use std::alloc::{AllocError, Global};
use std::marker::Model;

/// Bits, kept as whole words of 32 bits and up to 31 that are pending. There is always room for those.
#[derive(Drop)]
pub struct BitSink {
    out: Vec<u8>,
    pending: u64,
    count: u32,
}

impl Model for BitSink {
    ghost use Rattle.std.specs.Prelude.{List, Bool, ◌++◌};
    ghost use Rattle.bit_stream.specs.Bits.Bits.{stream_bits, bits_of};

    ghost Value = { List Bool };

    ghost use Rattle.bit_stream.specs.Bits.Sink.{IsSink};

    ghost view = { λ w. stream_bits w.out.items ++ bits_of w.count w.pending };

    ghost invariant = { IsSink };
}

impl BitSink {
    /// No bits.
    pub fn new(alloc: Global) -> Result<Self, AllocError>
        ensures { IfOk result (λ sink. sink ≡ []) }
    {
        Ok(BitSink {
            out: Vec::with_capacity(alloc, 64)?,
            pending: 0,
            count: 0,
        })
    }

    /// Adds the number in `width` bits. Where memory runs out nothing is added.
    pub fn fixed(&mut self, value: u64, width: u32) -> Result<(), AllocError>
        requires width_in { width ≤ 64 }
        requires fits { value < 2 ^ width }
        ensures ok { OnOk result (self.new ≡ self.old ++ bits_of width value) }
        ensures err { OnErr result (self.new ≡ self.old) }
    {
        if width <= 32 {
            self.narrow(value, width)
        } else {
            self.wide(value, width)
        }
    }

    /// Adds the number in at most 32 bits, which with those that wait are at most one whole word and a rest.
    #[inline]
    fn narrow(&mut self, value: u64, width: u32) -> Result<(), AllocError>
        requires width_in { width ≤ 32 }
        requires fits { value < 2 ^ width }
        ensures ok { OnOk result (self.new ≡ self.old ++ bits_of width value) }
        ensures err { OnErr result (self.new ≡ self.old) }
    {
        let pending = value << self.count | self.pending;
        let count = self.count + width;
        if count < 32 {
            self.pending = pending;
            self.count = count;
            return Ok(());
        }
        self.out.reserve(8)?;
        let bytes = pending.to_le_bytes();
        self.out.extend_from_slice(&bytes[..4])?;
        self.pending = pending >> 32;
        self.count = count - 32;
        Ok(())
    }

    /// Adds the number in at most 64 bits, which with those that wait are at most two whole words and a rest.
    #[inline(never)]
    fn wide(&mut self, value: u64, width: u32) -> Result<(), AllocError>
        requires width_in { width ≤ 64 }
        requires fits { value < 2 ^ width }
        ensures ok { OnOk result (self.new ≡ self.old ++ bits_of width value) }
        ensures err { OnErr result (self.new ≡ self.old) }
    {
        self.out.reserve(12)?;
        let pending = u128::from(value) << self.count | u128::from(self.pending);
        let count = self.count + width;
        let words = count / 32;
        let bytes = pending.to_le_bytes();
        self.out.extend_from_slice(&bytes[..4 * words as usize])?;
        self.pending = (pending >> (32 * words)) as u64;
        self.count = count % 32;
        Ok(())
    }

    /// Adds the number in chunks of `width` bits, as few as it has. Where memory runs out, what the sink has is not told.
    pub fn vbr(&mut self, value: u64, width: u32) -> Result<(), AllocError>
        requires width_low { 2 ≤ width }
        requires width_high { width ≤ 32 }
        ensures { OnOk result (self.new ≡ self.old ++ vbr_bits 64 width value) }
    {
        let next = 1 << (width - 1);
        if value < next {
            return self.narrow(value, width);
        }
        self.chunks(value, width)
    }

    /// The same, of a number that may need several chunks.
    #[inline(never)]
    fn chunks(&mut self, value: u64, width: u32) -> Result<(), AllocError>
        requires width_low { 2 ≤ width }
        requires width_high { width ≤ 32 }
        ensures { OnOk result (self.new ≡ self.old ++ vbr_bits 64 width value) }
    {
        let next = 1 << (width - 1);
        let mut rest = value;
        while rest >= next {
            self.narrow(rest & (next - 1) | next, width)?;
            rest >>= width - 1;
        }
        self.narrow(rest, width)
    }

    /// Adds bits of zero up to a whole word of 32. Where memory runs out nothing is added.
    pub fn align(&mut self) -> Result<(), AllocError>
        ensures ok { OnOk result (self.new ≡ self.old ++ pad_bits (length self.old)) }
        ensures whole { OnOk result (length self.new % 32 ≡ 0) }
        ensures err { OnErr result (self.new ≡ self.old) }
    {
        let gap = (32 - self.count) % 32;
        self.fixed(0, gap)
    }

    /// Adds the bits of another sink. Both hold whole words. Where memory runs out nothing is added.
    pub fn append(&mut self, other: &BitSink) -> Result<(), AllocError>
        requires whole { length self.old % 32 ≡ 0 }
        requires other_whole { length other.now % 32 ≡ 0 }
        ensures ok { OnOk result (self.new ≡ self.old ++ other.now) }
        ensures err { OnErr result (self.new ≡ self.old) }
    {
        let more = other.out.as_slice();
        self.out.reserve(more.len().saturating_add(4))?;
        self.out.extend_from_slice(more)?;
        Ok(())
    }

    /// How many whole words there are.
    pub fn words(&self) -> u64
        ensures { result ≡ length self.now / 32 }
    {
        (self.out.len() / 4) as u64
    }

    /// The bytes, with bits of zero up to a whole byte. It takes no memory.
    pub fn finish(mut self) -> Text
        ensures { stream_bits result ≡ self ++ byte_pad (length self) }
    {
        let bytes = self.pending.to_le_bytes();
        let count = self.count.div_ceil(8) as usize;
        match self.out.extend_from_slice(&bytes[..count]) {
            Ok(()) => Text::from_vec(self.out),
            Err(_) => unreachable!(),
        }
    }
}

/// Whole words of 32 bits.
#[derive(Drop)]
pub struct WholeWords {
    sink: BitSink,
}

impl Model for WholeWords {
    ghost use Rattle.std.specs.Prelude.{◌≡◌, ℕ, ◌%◌, List, Bool, length};

    ghost Value = { List Bool };

    ghost view = { λ w. w.sink };

    ghost invariant = { λ w. length w.sink % 32 ≡ 0 };
}

impl WholeWords {
    /// The words of a sink.
    pub fn new(sink: BitSink) -> Self
        requires { length sink % 32 ≡ 0 }
        ensures { result ≡ sink }
    {
        WholeWords { sink }
    }

    /// These words, the count of the words of another sink modulo 2^32, and those words.
    pub fn with_counted(self, other: &BitSink) -> Result<BitSink, AllocError>
        requires { length other.now % 32 ≡ 0 }
        ensures { IfOk result (λ sink. sink ≡ self ++ bits_of 32 (length other.now / 32 % 2 ^ 32) ++ other.now) }
    {
        let mut sink = self.sink;
        sink.fixed(other.words() & 0xffff_ffff, 32)?;
        sink.append(other)?;
        Ok(sink)
    }
}
