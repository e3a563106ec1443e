//! The token at the front of a text, by its first byte.
ghost use Rattle.std.specs.Prelude.{◌≡◌, ◌+◌, ◌≤◌, length, take, true, false, Some, IfSome};
ghost use Rattle.ir_lexer.specs.Class.{in_word, is_at, is_digit, is_percent, starts_with, starts_word};
ghost use Rattle.ir_lexer.specs.Form.{longest, run};
ghost use Rattle.ir_lexer.specs.Front.{next_token, token_from};
ghost use Rattle.ir_lexer.specs.Label.{KnownRun};
ghost use Rattle.ir_lexer.specs.Lines.{has_string_in};
ghost use Rattle.ir_lexer.specs.Names.{is_quoted};
ghost use Rattle.ir_lexer.specs.Table.{IsToken, Label, tail_of};
ghost use Rattle.ir_lexer.specs.declared.class.Class.TheVariants.{Quote, LetterC, Letter, Digit, Minus, Dollar, Dot, At, Percent, Bang, Hash};

use crate::class::{Class, ClassSet, class_of};
use crate::label::{is_ended_word, label_unless};
use crate::quoted::{inside_of, label_inside_of, quoted_name_of, text_of};
use crate::run::{begins, digits_of, dots_of, identifier_of, letter_word_of, run_of};
use crate::token::TokenKind;

/// What begins with a letter other than c, or with `_`. So many bytes of a word begin with it.
fn after_letter(label: Option<usize>, word: usize, bytes: &[u8]) -> Option<(TokenKind, usize)>
    requires is { label ≡ longest (tail_of Label) bytes.now }
    requires small { IfSome label (λ n. n ≤ length bytes.now) }
    requires word { word ≡ run in_word bytes.now + 1 }
    ensures { result ≡ token_from Letter bytes.now }
{
    match label {
        Some(n) => Some((TokenKind::Label, n + 1)),
        None => Some((TokenKind::Word, word)),
    }
}

/// What begins with c, and with it so many bytes of a word. Directly before a quote that is a byte string, or no token.
fn after_c(label: Option<usize>, word: usize, bytes: &[u8]) -> Option<(TokenKind, usize)>
    requires is { label ≡ longest (tail_of Label) bytes.now }
    requires small { IfSome label (λ n. n ≤ length bytes.now) }
    requires word { word ≡ run in_word bytes.now + 1 }
    ensures { result ≡ token_from LetterC bytes.now }
{
    if let Some(n) = label {
        return Some((TokenKind::Label, n + 1));
    }
    match text_of(bytes) {
        Some(n) => Some((TokenKind::ByteString, n + 1)),
        None if begins(ClassSet::Quotes, bytes) => None,
        None => Some((TokenKind::Word, word)),
    }
}

/// What begins with a digit.
fn after_digit(label: Option<usize>, bytes: &[u8]) -> Option<(TokenKind, usize)>
    requires is { label ≡ longest (tail_of Label) bytes.now }
    requires small { IfSome label (λ n. n ≤ length bytes.now) }
    ensures { result ≡ token_from Digit bytes.now }
{
    match label {
        Some(n) => Some((TokenKind::Label, n + 1)),
        None => Some((TokenKind::Integer, run_of(ClassSet::Digits, bytes) + 1)),
    }
}

/// What begins with `-`.
fn after_minus(label: Option<usize>, bytes: &[u8]) -> Option<(TokenKind, usize)>
    requires is { label ≡ longest (tail_of Label) bytes.now }
    requires small { IfSome label (λ n. n ≤ length bytes.now) }
    ensures { result ≡ token_from Minus bytes.now }
{
    if let Some(n) = label {
        return Some((TokenKind::Label, n + 1));
    }
    let n = digits_of(bytes)?;
    Some((TokenKind::Integer, n + 1))
}

/// What begins with `$`.
fn after_dollar(label: Option<usize>, bytes: &[u8]) -> Option<(TokenKind, usize)>
    requires is { label ≡ longest (tail_of Label) bytes.now }
    requires small { IfSome label (λ n. n ≤ length bytes.now) }
    ensures { result ≡ token_from Dollar bytes.now }
{
    let n = label?;
    Some((TokenKind::Label, n + 1))
}

/// What begins with a dot.
fn after_dot(label: Option<usize>, bytes: &[u8]) -> Option<(TokenKind, usize)>
    requires is { label ≡ longest (tail_of Label) bytes.now }
    requires small { IfSome label (λ n. n ≤ length bytes.now) }
    ensures { result ≡ token_from Dot bytes.now }
{
    if let Some(n) = label {
        return Some((TokenKind::Label, n + 1));
    }
    let n = dots_of(bytes)?;
    Some((TokenKind::Punctuation, n + 1))
}

/// What begins with a quote.
fn after_quote(bytes: &[u8]) -> Option<(TokenKind, usize)>
    ensures { result ≡ token_from Quote bytes.now }
{
    if let Some(n) = label_inside_of(bytes) {
        return Some((TokenKind::Label, n + 1));
    }
    let n = inside_of(bytes)?;
    Some((TokenKind::Quoted, n + 1))
}

/// What begins with `@`.
fn after_at(bytes: &[u8]) -> Option<(TokenKind, usize)>
    ensures { result ≡ token_from At bytes.now }
{
    if let Some(n) = identifier_of(bytes) {
        return Some((TokenKind::GlobalName, n + 1));
    }
    if let Some(n) = quoted_name_of(bytes) {
        return Some((TokenKind::GlobalName, n + 1));
    }
    let n = digits_of(bytes)?;
    Some((TokenKind::UnnamedGlobal, n + 1))
}

/// What begins with `%`.
fn after_percent(bytes: &[u8]) -> Option<(TokenKind, usize)>
    ensures { result ≡ token_from Percent bytes.now }
{
    if let Some(n) = identifier_of(bytes) {
        return Some((TokenKind::LocalName, n + 1));
    }
    if let Some(n) = quoted_name_of(bytes) {
        return Some((TokenKind::LocalName, n + 1));
    }
    let n = digits_of(bytes)?;
    Some((TokenKind::UnnamedLocal, n + 1))
}

/// What begins with `!`.
fn after_bang(bytes: &[u8]) -> Option<(TokenKind, usize)>
    ensures { result ≡ token_from Bang bytes.now }
{
    if let Some(n) = identifier_of(bytes) {
        return Some((TokenKind::MetaName, n + 1));
    }
    if let Some(n) = digits_of(bytes) {
        return Some((TokenKind::MetaNumber, n + 1));
    }
    Some((TokenKind::MetaMark, 1))
}

/// What begins with `#`.
fn after_hash(bytes: &[u8]) -> Option<(TokenKind, usize)>
    ensures { result ≡ token_from Hash bytes.now }
{
    if let Some(n) = digits_of(bytes) {
        return Some((TokenKind::Group, n + 1));
    }
    let n = letter_word_of(bytes)?;
    Some((TokenKind::RecordMark, n + 1))
}

/// The kind and the length of the token at the front, where so many bytes of a word stand.
#[tactic(auto, unfolding(crate::specs::Front::next_token))]
fn token_of(known: usize, word: usize, text: &[u8]) -> Option<(TokenKind, usize)>
    requires known { KnownRun known text.now }
    requires word { word ≡ run in_word text.now }
    ensures token { result ≡ next_token text.now }
{
    if text.is_empty() {
        return None;
    }
    let bytes = &text[1..];
    match class_of(text[0]) {
        Class::LetterC => after_c(label_unless(known, text), word, bytes),
        Class::Letter | Class::Underscore => after_letter(label_unless(known, text), word, bytes),
        Class::Digit => after_digit(label_unless(known, text), bytes),
        Class::Minus => after_minus(label_unless(known, text), bytes),
        Class::Dollar => after_dollar(label_unless(known, text), bytes),
        Class::Dot => after_dot(label_unless(known, text), bytes),
        Class::Quote => after_quote(bytes),
        Class::At => after_at(bytes),
        Class::Percent => after_percent(bytes),
        Class::Bang => after_bang(bytes),
        Class::Hash => after_hash(bytes),
        Class::Colon | Class::Mark => Some((TokenKind::Punctuation, 1)),
        _ => None,
    }
}

/// The kind and the length of the token at the front, which is no longer than the text and spelled as its kind is. So
/// many bytes of a word stand there.
pub fn fitting_token_of(known: usize, word: usize, text: &[u8]) -> Option<(TokenKind, usize)>
    requires known { KnownRun known text.now }
    requires word { word ≡ run in_word text.now }
    ensures token { result ≡ next_token text.now }
    ensures in_text { IfSome result (λ found. found.1 ≤ length text.now) }
    ensures spelled { IfSome result (λ found. IsToken found.0 (take found.1 text.now)) }
{
    token_of(known, word, text)
}

/// The length of the word at the front, where the byte behind it tells that it ends there. None says nothing.
#[inline(always)]
fn plain_word(text: &[u8]) -> Option<usize>
    requires begins { starts_with starts_word text.now ≡ true }
    ensures { IfSome result (λ n. Some (TokenKind.Word, n) ≡ next_token text.now) }
{
    let behind = &text[1..];
    let word = 1 + run_of(ClassSet::InWord, behind);
    if !is_ended_word(word, text) {
        return None;
    }
    Some(word)
}

/// The length of the digits at the front, where the byte behind them tells that they end there. None says nothing.
#[inline(always)]
fn plain_digits(text: &[u8]) -> Option<usize>
    requires begins { starts_with is_digit text.now ≡ true }
    ensures { IfSome result (λ n. Some (TokenKind.Integer, n) ≡ next_token text.now) }
{
    let behind = &text[1..];
    let word = 1 + run_of(ClassSet::InWord, behind);
    if !is_ended_word(word, text) {
        return None;
    }
    let count = run_of(ClassSet::Digits, behind);
    Some(1 + count)
}

/// What begins with `%`, where no string stands behind it. None says nothing.
#[inline(always)]
fn plain_local(text: &[u8]) -> Option<(TokenKind, usize)>
    requires begins { starts_with is_percent text.now ≡ true }
    ensures token { IfSome result (λ found. Some found ≡ next_token text.now) }
    ensures plain { IfSome result (λ found. has_string_in found.0 (take found.1 text.now) ≡ false) }
{
    let behind = &text[1..];
    let digits = run_of(ClassSet::Digits, behind);
    if digits > 0 {
        return Some((TokenKind::UnnamedLocal, 1 + digits));
    }
    if !begins(ClassSet::StartsName, behind) {
        return None;
    }
    let name = run_of(ClassSet::InName, behind);
    Some((TokenKind::LocalName, 1 + name))
}

/// The length of the name that begins with `@`, where no string stands behind it. None says nothing.
#[inline(always)]
fn plain_global(text: &[u8]) -> Option<usize>
    requires begins { starts_with is_at text.now ≡ true }
    ensures token { IfSome result (λ n. Some (TokenKind.GlobalName, n) ≡ next_token text.now) }
    ensures plain { IfSome result (λ n. is_quoted (take n text.now) ≡ false) }
{
    let behind = &text[1..];
    if !begins(ClassSet::StartsName, behind) {
        return None;
    }
    let name = run_of(ClassSet::InName, behind);
    Some(1 + name)
}

/// The kind and the length of the token at the front, which has no string in it, where few bytes tell them: those of a
/// mark, a word, an integer, a local or the name of a global. None says nothing.
#[inline(always)]
pub fn plain_token_of(text: &[u8]) -> Option<(TokenKind, usize)>
    ensures token { IfSome result (λ found. Some found ≡ next_token text.now) }
    ensures plain { IfSome result (λ found. has_string_in found.0 (take found.1 text.now) ≡ false) }
{
    if text.is_empty() {
        return None;
    }
    match class_of(text[0]) {
        Class::Mark => Some((TokenKind::Punctuation, 1)),
        Class::Letter | Class::LetterC | Class::Underscore => {
            Some((TokenKind::Word, plain_word(text)?))
        }
        Class::Digit => Some((TokenKind::Integer, plain_digits(text)?)),
        Class::Percent => plain_local(text),
        Class::At => Some((TokenKind::GlobalName, plain_global(text)?)),
        _ => None,
    }
}
