//! Labels, and the look-ahead that they need.
ghost use Rattle.std.specs.Prelude.{◌≡◌, ◌+◌, ◌<◌, ◌≤◌, length, drop, true, IfSome};
ghost use Rattle.ir_lexer.specs.Class.{in_word, starts_with};
ghost use Rattle.ir_lexer.specs.Form.{longest, run};
ghost use Rattle.ir_lexer.specs.Label.{KnownRun, ends_name};
ghost use Rattle.ir_lexer.specs.Table.{Label, tail_of};

use crate::class::{Class, ClassSet, class_of};
use crate::run::{begins, run_of};

/// The length of what makes a label of the byte before.
fn label_of(bytes: &[u8]) -> Option<usize>
    ensures length { result ≡ longest (tail_of Label) bytes.now }
    ensures in_bytes { IfSome result (λ n. n ≤ length bytes.now) }
{
    let n = run_of(ClassSet::InName, bytes);
    if begins(ClassSet::Colons, &bytes[n..]) {
        Some(n + 1)
    } else {
        None
    }
}

/// What makes a label of the byte before, where `known` bytes from that byte on are those of a name and no colon
/// follows them, or nothing is known.
pub fn label_unless(known: usize, text: &[u8]) -> Option<usize>
    requires some { 0 < length text.now }
    requires known { KnownRun known text.now }
    ensures length { result ≡ longest (tail_of Label) (drop 1 text.now) }
    ensures in_bytes { IfSome result (λ n. n ≤ length (drop 1 text.now)) }
{
    if known > 0 {
        None
    } else {
        label_of(&text[1..])
    }
}

/// Whether a byte of the class stands behind nearly every word and number, and neither goes on with it nor makes a label
/// of it: a mark of one byte, what stands between tokens, or a byte that begins none.
#[inline(always)]
fn ends_name(class: Class) -> bool
    ensures { result ≡ ends_name class }
{
    matches!(
        class,
        Class::Mark | Class::Semicolon | Class::LineFeed | Class::Blank | Class::Other
    )
}

/// Whether the byte behind the word at the front, which has so many bytes, tells that no name goes on there and that it
/// is no label.
#[inline(always)]
pub fn is_ended_word(word: usize, text: &[u8]) -> bool
    requires { word ≡ run in_word text.now }
    ensures known { result ≡ true → KnownRun word text.now }
    ensures ends { result ≡ true → starts_with ends_name (drop word text.now) ≡ true }
{
    word < text.len() && ends_name(class_of(text[word]))
}

/// The length of the run of bytes of a name at the front, of which the first so many are those of a word, or 0 where a
/// colon follows it.
pub fn run_without_label(word: usize, text: &[u8]) -> usize
    requires { word ≡ run in_word text.now }
    ensures known { KnownRun result text.now }
    ensures in_text { result ≤ length text.now }
{
    let n = word + run_of(ClassSet::InName, &text[word..]);
    if begins(ClassSet::Colons, &text[n..]) {
        0
    } else {
        n
    }
}
