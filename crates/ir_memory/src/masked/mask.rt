//! One bit for each byte.
ghost use Rattle.std.specs.Prelude.{◌≡◌, ℕ, ◌+◌, ◌-◌, ◌*◌, ◌<◌, ◌≤◌, ◌^◌, ◌==◌, IfOk, true, false, if◌then◌else◌, length};
ghost use Rattle.ir_memory.specs.Masked.Masked.{is_marked, is_within};

use crate::masked::words::Words;
use std::alloc::{AllocError, Global};

/// How many bits a word has.
const WORD: usize = 64;

/// Words without a mark, enough for so many bytes.
pub fn no_marks(alloc: Global, count: usize) -> Result<Words, AllocError>
    ensures none { IfOk result (λ v. (k : ℕ) → is_marked v k ≡ false) }
    ensures room { IfOk result (λ v. count ≤ 64 * length v) }
{
    Words::new(alloc, count / WORD)
}

/// Whether a byte is marked.
pub fn has(words: &Words, at: usize) -> bool
    requires { at < 64 * length words.now }
    ensures { result ≡ is_marked words.now at }
{
    (words.get(at / WORD) >> (at % WORD)) & 1 == 1
}

/// Marks a byte.
fn mark(words: &mut Words, at: usize)
    requires { at < 64 * length words.old }
    ensures len { length words.new ≡ length words.old }
    ensures marks { (k : ℕ) → is_marked words.new k ≡ (if k == at then true else is_marked words.old k) }
{
    let word = words.get(at / WORD);
    words.put(at / WORD, word | 1 << (at % WORD));
}

/// Unmarks a byte.
fn unmark(words: &mut Words, at: usize)
    requires { at < 64 * length words.old }
    ensures len { length words.new ≡ length words.old }
    ensures marks { (k : ℕ) → is_marked words.new k ≡ (if k == at then false else is_marked words.old k) }
{
    let word = words.get(at / WORD);
    words.put(at / WORD, word & !(1 << (at % WORD)));
}

/// Marks a byte, or unmarks it.
fn set(words: &mut Words, at: usize, to: bool)
    requires { at < 64 * length words.old }
    ensures len { length words.new ≡ length words.old }
    ensures marks { (k : ℕ) → is_marked words.new k ≡ (if k == at then to else is_marked words.old k) }
{
    if to {
        mark(words, at);
    } else {
        unmark(words, at);
    }
}

/// Marks so many bytes, or unmarks them.
#[inline(never)]
pub fn set_all(words: &mut Words, at: usize, count: usize, to: bool)
    requires within { at + count ≤ 64 * length words.old }
    requires small { at + count < 2 ^ 64 }
    ensures len { length words.new ≡ length words.old }
    ensures marks { (k : ℕ) → is_marked words.new k ≡ (if is_within at (at + count) k then to else is_marked words.old k) }
{
    for k in 0..count {
        set(words, at + k, to);
    }
}

/// Unmarks so many bytes, which costs nothing where none is marked.
#[inline(always)]
pub fn clear(words: &mut Words, clean: bool, at: usize, count: usize)
    requires within { at + count ≤ 64 * length words.old }
    requires small { at + count < 2 ^ 64 }
    requires clean { clean ≡ true → (k : ℕ) → is_marked words.old k ≡ false }
    ensures len { length words.new ≡ length words.old }
    ensures marks { (k : ℕ) → is_marked words.new k ≡ (if is_within at (at + count) k then false else is_marked words.old k) }
    ensures clean { clean ≡ true → (k : ℕ) → is_marked words.new k ≡ false }
{
    if !clean {
        set_all(words, at, count, false);
    }
}

/// Whether one of so many bytes is marked.
#[inline]
pub fn has_any(words: &Words, clean: bool, at: usize, count: usize) -> bool
    requires within { at + count ≤ 64 * length words.now }
    requires small { at + count < 2 ^ 64 }
    requires clean { clean ≡ true → (k : ℕ) → is_marked words.now k ≡ false }
    ensures some { result ≡ true → (k : ℕ) × (k < count) × (is_marked words.now (at + k) ≡ true) }
    ensures none { result ≡ false → (k : ℕ) → k < count → is_marked words.now (at + k) ≡ false }
{
    if clean {
        return false;
    }
    for k in 0..count {
        if has(words, at + k) {
            return true;
        }
    }
    false
}

/// Gives so many bytes the marks of others.
pub fn copy_marks(words: &mut Words, at: usize, others: &Words, from: usize, count: usize)
    requires within { at + count ≤ 64 * length words.old }
    requires small { at + count < 2 ^ 64 }
    requires others { from + count ≤ 64 * length others.now }
    requires others_small { from + count < 2 ^ 64 }
    ensures len { length words.new ≡ length words.old }
    ensures marks { (k : ℕ) → is_marked words.new k ≡ (if is_within at (at + count) k then is_marked others.now (from + (k - at)) else is_marked words.old k) }
{
    for k in 0..count {
        let to = has(others, from + k);
        set(words, at + k, to);
    }
}

/// Gives so many bytes the marks of others of the same mask, as if through a buffer.
pub fn move_marks(words: &mut Words, at: usize, from: usize, count: usize)
    requires within { at + count ≤ 64 * length words.old }
    requires small { at + count < 2 ^ 64 }
    requires others { from + count ≤ 64 * length words.old }
    requires others_small { from + count < 2 ^ 64 }
    ensures len { length words.new ≡ length words.old }
    ensures marks { (k : ℕ) → is_marked words.new k ≡ (if is_within at (at + count) k then is_marked words.old (from + (k - at)) else is_marked words.old k) }
{
    if at <= from {
        move_down(words, at, from, count);
    } else {
        move_up(words, at, from, count);
    }
}

/// Gives so many bytes the marks of later ones, the first byte first.
fn move_down(words: &mut Words, at: usize, from: usize, count: usize)
    requires order { at ≤ from }
    requires others { from + count ≤ 64 * length words.old }
    requires small { from + count < 2 ^ 64 }
    ensures len { length words.new ≡ length words.old }
    ensures marks { (k : ℕ) → is_marked words.new k ≡ (if is_within at (at + count) k then is_marked words.old (from + (k - at)) else is_marked words.old k) }
{
    for k in 0..count {
        let to = has(words, from + k);
        set(words, at + k, to);
    }
}

/// Gives so many bytes the marks of earlier ones, the last byte first.
fn move_up(words: &mut Words, at: usize, from: usize, count: usize)
    requires order { from < at }
    requires within { at + count ≤ 64 * length words.old }
    requires small { at + count < 2 ^ 64 }
    ensures len { length words.new ≡ length words.old }
    ensures marks { (k : ℕ) → is_marked words.new k ≡ (if is_within at (at + count) k then is_marked words.old (from + (k - at)) else is_marked words.old k) }
{
    let mut left = count;
    while left > 0 {
        left -= 1;
        let to = has(words, from + left);
        set(words, at + left, to);
    }
}
