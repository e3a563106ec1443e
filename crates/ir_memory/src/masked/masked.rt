//! Bytes of which some are poison.
ghost use Rattle.std.specs.Prelude.{◌≡◌, ◌≢◌, ℕ, ◌+◌, ◌<◌, ◌≤◌, ◌^◌, IfOk, IfSome, Some, None, [], length, map, replicate, slice_range, slice_index_or, true};
ghost use Rattle.ir_memory.specs.Masked.Masked as of;
ghost use Rattle.ir_memory.specs.Masked.Masked.{put};

use crate::masked::bytes::{move_bytes, number_of_bytes, put_bytes, put_many, put_number};
use crate::masked::mask::{clear, copy_marks, has, has_any, move_marks, no_marks, set_all};
use crate::masked::words::Words;
use std::alloc::{AllocError, Global};
use std::marker::Model;

/// Bytes, and a mask with one bit for each that tells whether it is poison. While the mask is clean, no bit
/// is set.
#[derive(Drop)]
pub struct MaskedBytes {
    bytes: Vec<u8>,
    marks: Words,
    clean: bool,
}

impl Model for MaskedBytes {
    ghost use Rattle.std.specs.Prelude.{◌≡◌, ℕ, ◌*◌, ◌≤◌, List, Option, true, false, length, vec_len};
    ghost use Rattle.ir_memory.specs.Masked.Masked.{masked, is_marked};

    ghost Value = { List (Option ℕ) };

    ghost view = { λ b. masked b.marks b.bytes.items };

    ghost invariant = { λ b. (vec_len b.bytes ≤ 64 * length b.marks) × (b.clean ≡ true → (k : ℕ) → is_marked b.marks k ≡ false) };
}

impl MaskedBytes {
    /// So many zeros.
    pub fn new(alloc: Global, count: usize) -> Result<MaskedBytes, AllocError>
        ensures { IfOk result (λ b. b ≡ replicate count (Some 0)) }
    {
        Ok(MaskedBytes {
            bytes: vec![in alloc; 0; count]?,
            marks: no_marks(alloc, count)?,
            clean: true,
        })
    }

    /// So many zeros, in the memory of these bytes where it is enough.
    #[inline]
    pub fn renewed(self, alloc: Global, count: usize) -> Result<MaskedBytes, AllocError>
        ensures { IfOk result (λ b. b ≡ replicate count (Some 0)) }
    {
        let MaskedBytes { mut bytes, .. } = self;
        bytes.clear();
        bytes.resize(count, 0)?;
        Ok(MaskedBytes {
            bytes,
            marks: no_marks(alloc, count)?,
            clean: true,
        })
    }

    /// No bytes, which takes no memory.
    pub fn none(alloc: Global) -> MaskedBytes
        ensures { result ≡ [] }
    {
        MaskedBytes {
            bytes: Vec::new(alloc),
            marks: Words::one(alloc),
            clean: true,
        }
    }

    /// How many there are.
    #[inline]
    pub fn len(&self) -> usize
        ensures { result ≡ length self.now }
    {
        self.bytes.len()
    }

    /// Whether none of them is poison, as far as one test tells: false where one is, or has been since they were made.
    #[inline(always)]
    pub fn is_clean(&self) -> bool
        ensures { result ≡ true → (k : ℕ) → k < length self.now → slice_index_or self.now k None ≢ None }
    {
        self.clean
    }

    /// The byte at a place, or None exactly where it is poison.
    pub fn get(&self, at: usize) -> Option<u8>
        requires { at < length self.now }
        ensures { result ≡ slice_index_or self.now at None }
    {
        if has(&self.marks, at) {
            None
        } else {
            Some(self.bytes[at])
        }
    }

    /// All of them as they lie, where none is poison; None where one may be.
    #[inline(always)]
    pub fn plain(&self) -> Option<&[u8]>
        ensures { IfSome result (λ bytes. self.now ≡ map (λ byte. Some byte) bytes.now) }
    {
        if !self.clean {
            return None;
        }
        Some(self.bytes.as_slice())
    }

    /// The number that so many of them spell, the least byte first, or None exactly where one is poison.
    #[inline(always)]
    pub fn number(&self, at: usize, count: usize) -> Option<u128>
        requires within { at + count ≤ length self.now }
        requires count { count ≤ 16 }
        ensures value { result ≡ of.number_of (slice_range self.now at (at + count)) }
        ensures fits { IfSome result (λ n. n < 256 ^ count) }
    {
        if has_any(&self.marks, self.clean, at, count) {
            return None;
        }
        Some(number_of_bytes(&self.bytes[at..at + count]))
    }

    /// Writes the least bytes of a number.
    #[inline(always)]
    pub fn write_number(&mut self, at: usize, count: usize, number: u128)
        requires within { at + count ≤ length self.old }
        requires count { count ≤ 16 }
        ensures { self.new ≡ put at (of.bytes count number) self.old }
    {
        clear(&mut self.marks, self.clean, at, count);
        put_number(&mut self.bytes, at, count, number);
    }

    /// Writes one byte in so many places.
    pub fn fill(&mut self, at: usize, count: usize, byte: u8)
        requires { at + count ≤ length self.old }
        ensures { self.new ≡ put at (replicate count (Some byte)) self.old }
    {
        clear(&mut self.marks, self.clean, at, count);
        put_many(&mut self.bytes, at, count, byte);
    }

    /// Makes so many of them poison.
    pub fn poison(&mut self, at: usize, count: usize)
        requires { at + count ≤ length self.old }
        ensures { self.new ≡ put at (replicate count None) self.old }
    {
        self.clean = false;
        set_all(&mut self.marks, at, count, true);
        put_many(&mut self.bytes, at, count, 0);
    }

    /// Copies so many of them to another place, as if through a buffer.
    pub fn copy_within(&mut self, at: usize, from: usize, count: usize)
        requires target { at + count ≤ length self.old }
        requires source { from + count ≤ length self.old }
        ensures { self.new ≡ put at (slice_range self.old from (from + count)) self.old }
    {
        if self.clean {
            move_bytes(&mut self.bytes, at, from, count);
            return;
        }
        move_marks(&mut self.marks, at, from, count);
        move_bytes(&mut self.bytes, at, from, count);
    }

    /// Copies so many bytes of another.
    pub fn copy_from(&mut self, at: usize, other: &MaskedBytes, from: usize, count: usize)
        requires target { at + count ≤ length self.old }
        requires source { from + count ≤ length other.now }
        ensures { self.new ≡ put at (slice_range other.now from (from + count)) self.old }
    {
        if other.clean {
            clear(&mut self.marks, self.clean, at, count);
            put_bytes(&mut self.bytes, at, &other.bytes[from..from + count]);
            return;
        }
        self.clean = false;
        copy_marks(&mut self.marks, at, &other.marks, from, count);
        put_bytes(&mut self.bytes, at, &other.bytes[from..from + count]);
    }
}
