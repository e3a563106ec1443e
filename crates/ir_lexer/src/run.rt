//! Runs of bytes of one set of classes.
ghost use Rattle.std.specs.Prelude.{◌≡◌, ◌+◌, ◌≤◌, length, IfSome};
ghost use Rattle.ir_lexer.specs.Class.{set_of, starts_with};
ghost use Rattle.ir_lexer.specs.Form.{run, longest};
ghost use Rattle.ir_lexer.specs.Table.{Dots, RecordMark, tail_of, digits, identifier};

use crate::class::{ClassSet, class_of};

/// How many bytes of the set stand at the front.
#[inline(always)]
pub fn run_of(set: ClassSet, bytes: &[u8]) -> usize
    ensures count { result ≡ run (set_of set) bytes.now }
    ensures in_bytes { result ≤ length bytes.now }
{
    let mut n = 0;
    while n < bytes.len() && set.has(class_of(bytes[n])) {
        n += 1;
    }
    n
}

/// Whether a byte of the set stands at the front.
#[inline(always)]
pub fn begins(set: ClassSet, bytes: &[u8]) -> bool
    ensures { result ≡ starts_with (set_of set) bytes.now }
{
    match bytes.first() {
        Some(byte) => set.has(class_of(*byte)),
        None => false,
    }
}

/// The length of digits at the front.
pub fn digits_of(bytes: &[u8]) -> Option<usize>
    ensures length { result ≡ longest digits bytes.now }
    ensures in_bytes { IfSome result (λ n. n ≤ length bytes.now) }
{
    if begins(ClassSet::Digits, bytes) {
        Some(1 + run_of(ClassSet::Digits, &bytes[1..]))
    } else {
        None
    }
}

/// The length of an identifier at the front.
pub fn identifier_of(bytes: &[u8]) -> Option<usize>
    ensures length { result ≡ longest identifier bytes.now }
    ensures in_bytes { IfSome result (λ n. n ≤ length bytes.now) }
{
    if begins(ClassSet::StartsName, bytes) {
        Some(1 + run_of(ClassSet::InName, &bytes[1..]))
    } else {
        None
    }
}

/// The length of a letter and the rest of its word at the front.
pub fn letter_word_of(bytes: &[u8]) -> Option<usize>
    ensures length { result ≡ longest (tail_of RecordMark) bytes.now }
    ensures in_bytes { IfSome result (λ n. n ≤ length bytes.now) }
{
    if begins(ClassSet::Letters, bytes) {
        Some(1 + run_of(ClassSet::InWord, &bytes[1..]))
    } else {
        None
    }
}

/// The length of two dots at the front.
pub fn dots_of(bytes: &[u8]) -> Option<usize>
    ensures length { result ≡ longest (tail_of Dots) bytes.now }
    ensures in_bytes { IfSome result (λ n. n ≤ length bytes.now) }
{
    if begins(ClassSet::Dots, bytes) && begins(ClassSet::Dots, &bytes[1..]) {
        Some(2)
    } else {
        None
    }
}
