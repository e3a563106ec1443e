//! Fields cut out of words.
//!
//! A field of up to 57 bits lies in the 64 bits that begin with the byte of its first bit, since at most 7 bits
//! of that byte come before it. So one word is read there, the bits before the field are shifted out, and those
//! behind it are masked off. A wider field is cut in two.
ghost use Rattle.std.specs.Prelude.{◌≡◌, ℕ, ◌+◌, ◌*◌, ◌^◌, ◌%◌, ◌<◌, ◌≤◌, length, take, drop, Ok, IfSome};
ghost use Rattle.bit_stream.specs.Bits.Bits.{value, stream_bits};
ghost use Rattle.bit_stream.specs.Bits.Reading.{vbr_at, bytes_of};

use crate::bits::BitFaultKind;

/// The number of fewer than eight bytes, the low one first.
#[cold]
#[inline(never)]
fn few_bytes(bytes: &[u8]) -> u64
    requires { length bytes.now < 8 }
    ensures { result ≡ value (stream_bits bytes.now) }
{
    let mut at = bytes.len();
    let mut word = 0;
    while at > 0 {
        at -= 1;
        word = word << 8 | u64::from(bytes[at]);
    }
    word
}

/// The number of up to eight bytes, the low one first.
#[inline(always)]
fn word_of(bytes: &[u8]) -> u64
    requires { length bytes.now ≤ 8 }
    ensures { result ≡ value (stream_bits bytes.now) }
{
    if bytes.len() == 8 {
        return u64::from_le_bytes([
            bytes[0], bytes[1], bytes[2], bytes[3], bytes[4], bytes[5], bytes[6], bytes[7],
        ]);
    }
    few_bytes(bytes)
}

/// The first 64 bits from byte `from` on, or fewer where the bytes end.
#[inline(always)]
fn word_at(bytes: &[u8], from: usize) -> u64
    requires { from ≤ length bytes.now }
    ensures { result ≡ value (take 64 (drop (8 * from) (stream_bits bytes.now))) }
{
    let count = (bytes.len() - from).min(8);
    word_of(&bytes[from..from + count])
}

/// The field of `width` bits from bit `at` on.
#[inline(always)]
pub fn field_at(bytes: &[u8], at: u64, width: u32) -> u64
    requires width_in { width ≤ 64 }
    requires whole { at + width ≤ 8 * length bytes.now }
    requires small { length bytes.now < 2 ^ 60 }
    ensures { result ≡ value (take width (drop at (stream_bits bytes.now))) }
{
    if width <= 57 {
        short_field_at(bytes, at, width)
    } else {
        long_field_at(bytes, at, width)
    }
}

/// The same, for a field that one word holds wherever it begins.
#[inline(always)]
fn short_field_at(bytes: &[u8], at: u64, width: u32) -> u64
    requires width_in { width ≤ 57 }
    requires whole { at + width ≤ 8 * length bytes.now }
    requires small { length bytes.now < 2 ^ 60 }
    ensures { result ≡ value (take width (drop at (stream_bits bytes.now))) }
{
    let word = word_at(bytes, (at / 8) as usize);
    word >> (at % 8) & ((1 << width) - 1)
}

/// The same, for a field that one word may not hold.
#[cold]
#[inline(never)]
fn long_field_at(bytes: &[u8], at: u64, width: u32) -> u64
    requires long { 57 < width }
    requires width_in { width ≤ 64 }
    requires whole { at + width ≤ 8 * length bytes.now }
    requires small { length bytes.now < 2 ^ 60 }
    ensures { result ≡ value (take width (drop at (stream_bits bytes.now))) }
{
    let low = short_field_at(bytes, at, 32);
    let high = short_field_at(bytes, at + 32, width - 32);
    high << 32 | low
}

/// The `count` bytes from bit `at` on, which begins a byte.
pub fn bytes_at(bytes: &[u8], at: u64, count: u64) -> &[u8]
    requires byte { at % 8 ≡ 0 }
    requires whole { at + 8 * count ≤ 8 * length bytes.now }
    requires small { length bytes.now < 2 ^ 60 }
    ensures { result.now ≡ bytes_of count (drop at (stream_bits bytes.now)) }
{
    let start = (at / 8) as usize;
    &bytes[start..start + count as usize]
}

/// The number in chunks of `width` bits from bit `start` on, where it has one chunk.
#[inline(always)]
fn in_one_chunk(bytes: &[u8], start: u64, width: u32) -> Option<u64>
    requires width_low { 2 ≤ width }
    requires width_high { width ≤ 32 }
    requires start_in { start ≤ 8 * length bytes.now }
    requires small { length bytes.now < 2 ^ 60 }
    ensures { IfSome result (λ number. Ok (number, width) ≡ vbr_at width (drop start (stream_bits bytes.now))) }
{
    let end = bytes.len() as u64 * 8;
    let data_bits = width - 1;
    if end - start < u64::from(width) {
        return None;
    }
    let number = field_at(bytes, start, width);
    if number >> data_bits == 0 {
        return Some(number);
    }
    None
}

/// The number in chunks of `width` bits from bit `start` on, and how many bits it takes, where a field of 57 bits holds it.
#[inline(always)]
fn in_one_field(bytes: &[u8], start: u64, width: u32) -> Option<(u64, u64)>
    requires width_low { 2 ≤ width }
    requires width_high { width ≤ 32 }
    requires start_in { start ≤ 8 * length bytes.now }
    requires small { length bytes.now < 2 ^ 60 }
    ensures { IfSome result (λ read. Ok read ≡ vbr_at width (drop start (stream_bits bytes.now))) }
{
    let step = u64::from(width);
    let data_bits = width - 1;
    let room = (bytes.len() as u64 * 8 - start).min(57);
    let mut left = field_at(bytes, start, room as u32);
    let mut value = 0;
    let mut shift = 0;
    let mut taken = 0;
    for _ in 0..65u32 {
        if room - taken < step {
            return None;
        }
        let part = left & ((1 << width) - 1);
        let data = part & ((1 << data_bits) - 1);
        value |= data << shift;
        taken += step;
        if part >> data_bits == 0 {
            return Some((value, taken));
        }
        left >>= width;
        shift += data_bits;
    }
    None
}

/// The number in chunks of `width` bits from bit `start` on, and how many bits it takes. A field holds all but the largest.
#[inline(never)]
fn in_more_chunks(bytes: &[u8], start: u64, width: u32) -> Result<(u64, u64), BitFaultKind>
    requires width_low { 2 ≤ width }
    requires width_high { width ≤ 32 }
    requires start_in { start ≤ 8 * length bytes.now }
    requires small { length bytes.now < 2 ^ 60 }
    ensures { result ≡ vbr_at width (drop start (stream_bits bytes.now)) }
{
    match in_one_field(bytes, start, width) {
        Some(read) => Ok(read),
        None => in_chunks(bytes, start, width),
    }
}

/// The number in chunks of `width` bits from bit `start` on, and how many bits it takes. Most numbers have one chunk.
#[inline(always)]
pub fn vbr_in(bytes: &[u8], start: u64, width: u32) -> Result<(u64, u64), BitFaultKind>
    requires width_low { 2 ≤ width }
    requires width_high { width ≤ 32 }
    requires start_in { start ≤ 8 * length bytes.now }
    requires small { length bytes.now < 2 ^ 60 }
    ensures { result ≡ vbr_at width (drop start (stream_bits bytes.now)) }
{
    match in_one_chunk(bytes, start, width) {
        Some(number) => Ok((number, u64::from(width))),
        None => in_more_chunks(bytes, start, width),
    }
}

/// The same, chunk by chunk.
#[inline(never)]
fn in_chunks(bytes: &[u8], start: u64, width: u32) -> Result<(u64, u64), BitFaultKind>
    requires width_low { 2 ≤ width }
    requires width_high { width ≤ 32 }
    requires start_in { start ≤ 8 * length bytes.now }
    requires small { length bytes.now < 2 ^ 60 }
    ensures { result ≡ vbr_at width (drop start (stream_bits bytes.now)) }
{
    let end = bytes.len() as u64 * 8;
    let data_bits = width - 1;
    let mut value = 0;
    let mut shift = 0;
    let mut at = start;
    for _ in 0..65u32 {
        if end - at < u64::from(width) {
            return Err(BitFaultKind::Truncated);
        }
        let chunk = field_at(bytes, at, width);
        let data = chunk & ((1 << data_bits) - 1);
        if shift >= 64 || data > u64::MAX >> shift {
            return Err(BitFaultKind::VbrTooLong);
        }
        value |= data << shift;
        at += u64::from(width);
        if chunk >> data_bits == 0 {
            return Ok((value, at - start));
        }
        shift += data_bits;
    }
    Err(BitFaultKind::VbrTooLong)
}
