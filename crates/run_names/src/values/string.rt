//! Strings in memory (C, "strings"): bytes up to a zero.
ghost use Rattle.std.specs.Prelude.{◌≡◌, ◌+◌, ◌≤◌, ◌++◌, ℕ, List, Ok, None, IfOk, IfErr, IfSome, OnOk, OnErr, drop, length, true};
ghost use Rattle.std.specs.List.{prefix_len};
ghost use Rattle.ir_memory.specs.Given.{IsKnown};
ghost use Rattle.run_rules.specs.Access.{string_at};
ghost use Rattle.run_rules.specs.Printing.{string_for};
ghost use Rattle.run_names.specs.Values.Answer.{IsRefusal, Loads};
ghost use Rattle.run_names.specs.Values.Strings.{StringTold, byte_in, is_inside, string_ended, string_then};

use crate::values::displaced::behind;
use ir_eval::{Pointer, Scalar};
use ir_memory::{Leaf, Memory, MemoryFault};
use ir_tables::UndefinedKind;

/// The byte at a pointer. Poison is undefined where a string is read.
fn byte_at(memory: &Memory, pointer: Pointer) -> Result<u8, UndefinedKind>
    requires { IsKnown memory.now.list pointer }
    ensures { result ≡ byte_in memory.now pointer }
{
    match memory.load(Scalar::Ptr(pointer), Leaf::Int(8), 1)? {
        Scalar::Int(byte) => Ok(byte as u8),
        Scalar::Ptr(_) | Scalar::Poison => Err(UndefinedKind::PoisonArgument),
    }
}

/// Adds the bytes before the first zero, of no more than so many, and tells whether there was a zero among these.
fn push_bytes(
    memory: &Memory,
    pointer: Pointer,
    most: u64,
    into: &mut Vec<u8>,
) -> Result<bool, MemoryFault>
    requires { IsKnown memory.now.list pointer }
    ensures ok { IfOk result (λ ended. (bytes : List ℕ) × ((rest : StringTold) → string_then rest memory.now most pointer ≡ string_ended bytes ended rest) × (into.new.items ≡ into.old.items ++ bytes)) }
    ensures err { OnErr result ((bytes : List ℕ) × (into.new.items ≡ into.old.items ++ bytes)) }
    ensures why { IfErr result (λ fault. (rest : StringTold) → IsRefusal (string_then rest memory.now most pointer) fault) }
{
    let mut place = pointer;
    'bytes: for _read in 0..most {
        let byte = byte_at(memory, place)?;
        if byte == 0 {
            return Ok(true);
        }
        into.push(byte)?;
        place = behind(place, 1);
    }
    Ok(false)
}

/// Adds the bytes of a string, which are read one by one: none behind so many, or else those of a whole string.
fn push_up_to(
    memory: &Memory,
    pointer: Pointer,
    most: Option<u32>,
    into: &mut Vec<u8>,
) -> Result<(), MemoryFault>
    requires { IsKnown memory.now.list pointer }
    ensures ok { OnOk result ((bytes : List ℕ) × (string_for memory.now most pointer ≡ Ok bytes) × (into.new.items ≡ into.old.items ++ bytes)) }
    ensures err { OnErr result ((bytes : List ℕ) × (into.new.items ≡ into.old.items ++ bytes)) }
    ensures why { IfErr result (IsRefusal (string_for memory.now most pointer)) }
{
    match most {
        Some(most) => {
            push_bytes(memory, pointer, u64::from(most), into)?;
            Ok(())
        }
        None => {
            // Bytes that follow one another lie in one block, so a string has fewer bytes than live.
            if push_bytes(memory, pointer, memory.live_bytes() + 1, into)? {
                Ok(())
            } else {
                Err(MemoryFault::Undefined(UndefinedKind::OutsideBlock))
            }
        }
    }
}

/// Whether four bytes stand in front of which none is zero.
#[inline(always)]
fn are_four_inside(bytes: &[u8]) -> bool
    ensures { result ≡ true → (4 ≤ length bytes.now) × (prefix_len is_inside bytes.now ≡ 4 + prefix_len is_inside (drop 4 bytes.now)) }
{
    match bytes {
        [first, second, third, fourth, ..] => {
            *first != 0 && *second != 0 && *third != 0 && *fourth != 0
        }
        _ => false,
    }
}

/// How many bytes stand before the first zero, gone through one by one.
fn single_count(bytes: &[u8]) -> usize
    ensures count { result ≡ prefix_len is_inside bytes.now }
    ensures within { result ≤ length bytes.now }
{
    bytes.iter().take_while(|byte| **byte != 0).count()
}

/// How many bytes stand before the first zero. They are gone through four at a time, and one by one at the end.
#[tactic(auto, using(crate::proofs::OnValues::Fours::four_more))]
fn inside_count(bytes: &[u8]) -> usize
    ensures count { result ≡ prefix_len is_inside bytes.now }
    ensures within { result ≤ length bytes.now }
{
    let mut count = 0;
    'fours: while are_four_inside(&bytes[count..]) {
        count += 4;
    }
    count + single_count(&bytes[count..])
}

/// The string at a pointer, its bytes before the first zero, where it can be told as it lies in memory. None says nothing of it.
pub fn plain_string(memory: &Memory, pointer: Pointer) -> Option<&[u8]>
    requires { IsKnown memory.now.list pointer }
    ensures { IfSome result (λ bytes. string_at memory.now pointer ≡ Ok bytes.now) }
{
    let bytes = memory.plain_bytes(pointer)?;
    let count = inside_count(bytes);
    if count == bytes.len() {
        return None;
    }
    Some(&bytes[..count])
}

/// Adds the bytes of a whole string, at once where it lies in memory as it is told.
fn push_whole(memory: &Memory, pointer: Pointer, into: &mut Vec<u8>) -> Result<(), MemoryFault>
    requires { IsKnown memory.now.list pointer }
    ensures ok { OnOk result ((bytes : List ℕ) × (string_for memory.now None pointer ≡ Ok bytes) × (into.new.items ≡ into.old.items ++ bytes)) }
    ensures err { OnErr result ((bytes : List ℕ) × (into.new.items ≡ into.old.items ++ bytes)) }
    ensures why { IfErr result (IsRefusal (string_for memory.now None pointer)) }
{
    let Some(bytes) = plain_string(memory, pointer) else {
        return push_up_to(memory, pointer, None, into);
    };
    into.extend_from_slice(bytes)?;
    Ok(())
}

/// Adds the bytes of a string where no byte is to be read behind so many, or else of a whole string.
fn push_told(
    memory: &Memory,
    pointer: Pointer,
    precision: Option<u32>,
    into: &mut Vec<u8>,
) -> Result<(), MemoryFault>
    requires { IsKnown memory.now.list pointer }
    ensures ok { OnOk result ((bytes : List ℕ) × (string_for memory.now precision pointer ≡ Ok bytes) × (into.new.items ≡ into.old.items ++ bytes)) }
    ensures err { OnErr result ((bytes : List ℕ) × (into.new.items ≡ into.old.items ++ bytes)) }
    ensures why { IfErr result (IsRefusal (string_for memory.now precision pointer)) }
{
    match precision {
        None => push_whole(memory, pointer, into),
        Some(_) => push_up_to(memory, pointer, precision, into),
    }
}

/// Adds the bytes of the string at a pointer, those before its first zero. With a precision no byte is read behind so many (C,
/// "The fprintf function", `s`). Where the string is undefined, or memory is wanted, nothing is added.
pub fn push_string(
    memory: &Memory,
    pointer: Pointer,
    precision: Option<u32>,
    into: &mut Vec<u8>,
) -> Result<(), MemoryFault>
    requires { IsKnown memory.now.list pointer }
    ensures { Loads (string_for memory.now precision pointer) into.old.items into.new.items result }
{
    let before = into.len();
    let done = push_told(memory, pointer, precision, into);
    if done.is_err() {
        into.truncate(before);
    }
    done
}
