//! Words and tokens that the language leaves out.
ghost use Rattle.std.specs.Prelude.{◌≡◌, bytes_eq};
ghost use Rattle.std.specs.List.{list_any};
ghost use Rattle.ir_terminals.specs.LeftOut.{is_left_out, is_left_out_word, is_outside, is_listed};
ghost use Rattle.ir_terminals.specs.Words.{width_in};

use crate::cursor::Cursor;
use crate::digits::{are_digits, decimal_64};
use ir_lexer::TokenKind;
use ir_tables::WIDEST;

static LEFT_OUT: [&'static str; 69] = [
    "half",
    "bfloat",
    "float",
    "double",
    "fp128",
    "x86_fp80",
    "ppc_fp128",
    "x86_amx",
    "metadata",
    "token",
    "addrspace",
    "comdat",
    "thread_local",
    "externally_initialized",
    "ifunc",
    "module",
    "asm",
    "uselistorder",
    "uselistorder_bb",
    "blockaddress",
    "bitcast",
    "addrspacecast",
    "fneg",
    "fadd",
    "fsub",
    "fmul",
    "fdiv",
    "frem",
    "fcmp",
    "fptrunc",
    "fpext",
    "fptoui",
    "fptosi",
    "uitofp",
    "sitofp",
    "extractelement",
    "insertelement",
    "shufflevector",
    "atomic",
    "fence",
    "cmpxchg",
    "atomicrmw",
    "invoke",
    "landingpad",
    "resume",
    "cleanupret",
    "catchret",
    "catchswitch",
    "catchpad",
    "cleanuppad",
    "indirectbr",
    "callbr",
    "va_arg",
    "byval",
    "byref",
    "inalloca",
    "preallocated",
    "elementtype",
    "swiftself",
    "swifterror",
    "swiftasync",
    "personality",
    "gc",
    "prefix",
    "prologue",
    "cc",
    "strictfp",
    "naked",
    "inrange",
];

/// Whether the word is one of these.
fn is_one_of(words: &[&'static str], word: &[u8]) -> bool
    ensures { result ≡ list_any (λ other. bytes_eq other.now word.now) words.now }
{
    words.iter().any(|other| other.as_bytes() == word)
}

#[tactic(auto, unfolding(crate::specs::LeftOut::left_out_words))]
fn is_listed(word: &[u8]) -> bool
    ensures { result ≡ is_listed word.now }
{
    is_one_of(&LEFT_OUT, word)
}

/// Whether the word is `iN` with a number of bits that no type has.
fn is_outside(word: &[u8]) -> bool
    ensures { result ≡ is_outside (width_in word.now) }
{
    match word {
        [b'i', digits @ ..] if are_digits(digits) => match decimal_64(digits) {
            Some(width) => width < 1 || width > WIDEST as u64,
            None => true,
        },
        _ => false,
    }
}

/// Whether a word is one that the language leaves out.
fn is_left_out_word(word: &[u8]) -> bool
    ensures { result ≡ is_left_out_word word.now }
{
    matches!(word, [b's' | b'u', b'0', b'x', ..]) || is_listed(word) || is_outside(word)
}

impl<'t> Cursor<'t> {
    /// Whether the next token is one that the language leaves out wherever it stands: a word of the list, an integer
    /// type of no width from 1 to 128, a word that begins `s0x` or `u0x`, an unnamed global, a record mark, `*`, or an
    /// integer directly behind `<`.
    pub fn is_left_out(&self) -> bool
        ensures { result ≡ is_left_out self.now }
    {
        match self.kind() {
            Some(TokenKind::Word) => is_left_out_word(self.spelling()),
            Some(TokenKind::UnnamedGlobal) | Some(TokenKind::RecordMark) => true,
            Some(TokenKind::Integer) => self.is_behind_less(),
            Some(TokenKind::Punctuation) => self.spelling() == b"*".as_slice(),
            _ => false,
        }
    }
}
