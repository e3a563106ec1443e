//! Room for a block more.
ghost use Rattle.std.specs.Prelude.{◌≡◌, ℕ, ◌*◌, ◌≤◌, nat_le, Some, None, IfSome, if◌then◌else◌};
ghost use Rattle.ir_memory.specs.Memory.{byte_limit};
ghost use Rattle.run_rules.specs.Access as access;

use ir_memory::{BYTE_LIMIT, Memory};

/// How many bytes more may live.
fn room_left(memory: &Memory) -> u64
    ensures left { (size : ℕ) → access.has_room size memory.now ≡ nat_le size result }
    ensures most { result ≤ byte_limit }
{
    BYTE_LIMIT - memory.live_bytes()
}

/// Whether so many more bytes may live.
pub fn has_room(memory: &Memory, size: u128) -> bool
    ensures { result ≡ access.has_room size memory.now }
{
    size <= u128::from(room_left(memory))
}

/// The bytes of a block of so many elements of a size, and None exactly where so many more may not live.
pub fn block_size(memory: &Memory, count: u128, size: u64) -> Option<u64>
    ensures value { result ≡ (if access.has_room (count * size) memory.now then Some (count * size) else None) }
    ensures most { IfSome result (λ bytes. bytes ≤ byte_limit) }
{
    let left = room_left(memory);
    if count == 1 {
        return if size <= left { Some(size) } else { None };
    }
    if size == 0 {
        return Some(0);
    }
    if count > u128::from(left / size) {
        return None;
    }
    Some(count as u64 * size)
}
