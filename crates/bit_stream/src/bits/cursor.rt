//! A place in a stream, from which fields are read one after another.
ghost use Rattle.std.specs.Prelude.{◌≡◌, ℕ, ◌+◌, ◌*◌, ◌^◌, ◌%◌, ◌<◌, ◌≤◌, ◌==◌, length, take, drop, Ok, Err, IfOk, List};
ghost use Rattle.bit_stream.specs.Bits.Bits.{stream_bits};
ghost use Rattle.bit_stream.specs.Bits.Cursor.{Cursor, found_at};
ghost use Rattle.bit_stream.specs.Bits.Reading.{fixed, vbr, align, bytes, blob};

use crate::bits::field::{bytes_at, field_at, vbr_in};
use crate::bits::{BitFault, BitFaultKind};
use std::marker::Model;

/// A place in the bits of some bytes. After a refused read it may stand anywhere.
#[derive(Drop)]
pub struct BitCursor<'b> {
    bytes: &'b [u8],
    at: u64,
}

impl<'b> Model for BitCursor<'b> {
    ghost use Rattle.std.specs.Prelude.{ℕ, ◌*◌, ◌^◌, ◌<◌, ◌≤◌, length, drop};
    ghost use Rattle.bit_stream.specs.Bits.Bits.{stream_bits};
    ghost use Rattle.bit_stream.specs.Bits.Cursor.{Cursor};

    ghost Value = { Cursor };

    ghost view = { λ c. record { at = c.at; rest = drop c.at (stream_bits c.bytes.now) } };

    ghost invariant = { λ c. (c.at ≤ 8 * length c.bytes.now) × (length c.bytes.now < 2 ^ 60) };
}

impl<'b> BitCursor<'b> {
    /// The first bit of some bytes.
    pub fn new(bytes: &'b [u8]) -> Self
        requires { length bytes.now < 2 ^ 60 }
        ensures { result ≡ record { at = 0; rest = stream_bits bytes.now } }
    {
        BitCursor { bytes, at: 0 }
    }

    /// A bit of some bytes, counted from 0; their end is one, too.
    pub fn at_bit(bytes: &'b [u8], bit: u64) -> Self
        requires small { length bytes.now < 2 ^ 60 }
        requires within { bit ≤ 8 * length bytes.now }
        ensures { result ≡ record { at = bit; rest = drop bit (stream_bits bytes.now) } }
    {
        BitCursor { bytes, at: bit }
    }

    /// The same place once more.
    pub fn copy(&self) -> Self
        ensures { result ≡ self.now }
    {
        BitCursor {
            bytes: self.bytes,
            at: self.at,
        }
    }

    /// The number of the first bit that is left, counted from 0.
    pub fn at(&self) -> u64
        ensures value { result ≡ self.now.at }
        ensures small { self.now.at + length self.now.rest < 2 ^ 63 }
    {
        self.at
    }

    /// Whether no bit is left.
    pub fn is_at_end(&self) -> bool
        ensures { result ≡ (length self.now.rest == 0) }
    {
        self.bytes.len() as u64 * 8 - self.at == 0
    }

    /// The number of `width` bits in front.
    #[inline(always)]
    pub fn fixed(&mut self, width: u32) -> Result<u64, BitFault>
        requires { width ≤ 64 }
        ensures read { found_at (λ n. n) result self.new ≡ fixed width self.old }
        ensures small { IfOk result (λ n. n < 2 ^ width) }
    {
        if self.left() < u64::from(width) {
            return Err(self.refusal(BitFaultKind::Truncated));
        }
        let value = field_at(self.bytes, self.at, width);
        self.at += u64::from(width);
        Ok(value)
    }

    /// The number in chunks of `width` bits in front.
    #[inline(always)]
    pub fn vbr(&mut self, width: u32) -> Result<u64, BitFault>
        requires width_low { 2 ≤ width }
        requires width_high { width ≤ 32 }
        ensures { found_at (λ n. n) result self.new ≡ vbr width self.old }
    {
        match vbr_in(self.bytes, self.at, width) {
            Ok((value, taken)) => {
                self.at += taken;
                Ok(value)
            }
            Err(kind) => Err(self.refusal(kind)),
        }
    }

    /// Goes to the next bit that begins a word of 32 bits. What it passes is not looked at.
    pub fn align(&mut self) -> Result<(), BitFault>
        ensures { found_at (λ n. n) result self.new ≡ align self.old }
    {
        let gap = (32 - self.at % 32) % 32;
        if self.left() < gap {
            return Err(self.refusal(BitFaultKind::Truncated));
        }
        self.at += gap;
        Ok(())
    }

    /// As many bytes as `count` says.
    fn bytes(&mut self, count: u64) -> Result<&'b [u8], BitFault>
        requires { self.old.at % 8 ≡ 0 }
        ensures { found_at (λ s. s.now) result self.new ≡ bytes count self.old }
    {
        if self.left() / 8 < count {
            return Err(self.refusal(BitFaultKind::Truncated));
        }
        let start = self.at;
        self.at += 8 * count;
        Ok(bytes_at(self.bytes, start, count))
    }

    /// A blob in front, without a copy of its bytes: how many bytes, alignment, the bytes, alignment.
    #[tactic(auto, unfolding(crate::specs::Bits::Reading::blob))]
    pub fn blob(&mut self) -> Result<&'b [u8], BitFault>
        ensures { found_at (λ s. s.now) result self.new ≡ blob self.old }
    {
        let count = self.vbr(6)?;
        self.align()?;
        let bytes = self.bytes(count)?;
        self.align()?;
        Ok(bytes)
    }

    /// How many bits are left.
    fn left(&self) -> u64
        ensures { result ≡ length self.now.rest }
    {
        self.bytes.len() as u64 * 8 - self.at
    }

    /// A fault at the bit in front.
    pub fn refusal(&self, kind: BitFaultKind) -> BitFault
        ensures { result ≡ record { kind = kind; bit = self.now.at } }
    {
        BitFault { kind, bit: self.at }
    }
}
