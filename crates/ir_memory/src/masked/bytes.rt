//! Numbers as bytes, the least first.
ghost use Rattle.std.specs.Prelude.{◌≡◌, ◌+◌, ◌<◌, ◌≤◌, ◌^◌, length, replicate, slice_range, vec_len};
ghost use Rattle.ir_memory.specs.Masked.Masked.{put, digit, digits, number_of_bytes};

/// The byte at a place of a number, the least first.
#[inline]
fn digit(number: u128, place: usize) -> u8
    requires { place < 16 }
    ensures { result ≡ digit number place }
{
    ((number >> (8 * place)) % 256) as u8
}

/// The number that bytes spell.
#[inline(always)]
pub fn number_of_bytes(bytes: &[u8]) -> u128
    requires { length bytes.now ≤ 16 }
    ensures value { result ≡ number_of_bytes bytes.now }
    ensures fits { result < 256 ^ length bytes.now }
{
    match bytes.len() {
        1 => u128::from(bytes[0]),
        2 => u128::from(u16::from_le_bytes([bytes[0], bytes[1]])),
        4 => u128::from(u32::from_le_bytes([bytes[0], bytes[1], bytes[2], bytes[3]])),
        8 => u128::from(u64::from_le_bytes([
            bytes[0], bytes[1], bytes[2], bytes[3], bytes[4], bytes[5], bytes[6], bytes[7],
        ])),
        _ => number_in_turn(bytes),
    }
}

/// The number that bytes spell, one after the other.
#[inline(never)]
fn number_in_turn(bytes: &[u8]) -> u128
    requires { length bytes.now ≤ 16 }
    ensures value { result ≡ number_of_bytes bytes.now }
    ensures fits { result < 256 ^ length bytes.now }
{
    let mut number = 0;
    let mut left = bytes.len();
    while left > 0 {
        left -= 1;
        number = number * 256 + u128::from(bytes[left]);
    }
    number
}

/// Writes a number over bytes.
#[inline(always)]
pub fn spell(bytes: &mut [u8], number: u128)
    requires { length bytes.old ≤ 16 }
    ensures { bytes.new ≡ digits (length bytes.old) number }
{
    match bytes.len() {
        1 => bytes[0] = digit(number, 0),
        2 => bytes.copy_from_slice(&((number % (1 << 16)) as u16).to_le_bytes()),
        4 => bytes.copy_from_slice(&((number % (1 << 32)) as u32).to_le_bytes()),
        8 => bytes.copy_from_slice(&((number % (1 << 64)) as u64).to_le_bytes()),
        _ => spell_in_turn(bytes, number),
    }
}

/// Writes a number over bytes, one after the other.
#[inline(never)]
fn spell_in_turn(bytes: &mut [u8], number: u128)
    requires { length bytes.old ≤ 16 }
    ensures { bytes.new ≡ digits (length bytes.old) number }
{
    for place in 0..bytes.len() {
        bytes[place] = digit(number, place);
    }
}

/// Writes a number at a place.
#[inline(always)]
pub fn put_number(bytes: &mut Vec<u8>, at: usize, count: usize, number: u128)
    requires within { at + count ≤ vec_len bytes.old }
    requires count { count ≤ 16 }
    ensures len { vec_len bytes.new ≡ vec_len bytes.old }
    ensures items { bytes.new.items ≡ put at (digits count number) bytes.old.items }
{
    spell(bytes.slice_mut(at..at + count), number);
}

/// Writes one byte at so many places.
pub fn put_many(bytes: &mut Vec<u8>, at: usize, count: usize, byte: u8)
    requires { at + count ≤ vec_len bytes.old }
    ensures len { vec_len bytes.new ≡ vec_len bytes.old }
    ensures items { bytes.new.items ≡ put at (replicate count byte) bytes.old.items }
{
    bytes.slice_mut(at..at + count).fill(byte);
}

/// Writes bytes at a place.
pub fn put_bytes(bytes: &mut Vec<u8>, at: usize, new: &[u8])
    requires { at + length new.now ≤ vec_len bytes.old }
    ensures len { vec_len bytes.new ≡ vec_len bytes.old }
    ensures items { bytes.new.items ≡ put at new.now bytes.old.items }
{
    bytes.slice_mut(at..at + new.len()).copy_from_slice(new);
}

/// Copies bytes to another place, as if through a buffer.
pub fn move_bytes(bytes: &mut Vec<u8>, at: usize, from: usize, count: usize)
    requires target { at + count ≤ vec_len bytes.old }
    requires source { from + count ≤ vec_len bytes.old }
    ensures len { vec_len bytes.new ≡ vec_len bytes.old }
    ensures items { bytes.new.items ≡ put at (slice_range bytes.old.items from (from + count)) bytes.old.items }
{
    bytes.as_mut_slice().copy_within(from..from + count, at);
}
