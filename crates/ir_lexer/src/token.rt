//! What a lexer answers.
use ir_base::Place;

/// What a token is.
///
/// ```
/// TokenKind::Label // of `entry:`
/// TokenKind::GlobalName // of `@main`
/// ```
#[derive(Clone, Copy)]
pub enum TokenKind {
    /// The name of a block, with the colon that follows it: `entry:`, `5:`, `"a b":`.
    Label,
    /// A letter or `_`, then letters, digits and `_`.
    Word,
    /// Digits, or `-` and digits.
    Integer,
    /// `@main`, `@"a b"`.
    GlobalName,
    /// `%x`, `%"a b"`.
    LocalName,
    /// `@0`.
    UnnamedGlobal,
    /// `%0`.
    UnnamedLocal,
    /// `"text"`.
    Quoted,
    /// `c"text"`.
    ByteString,
    /// `!dbg`.
    MetaName,
    /// `!5`.
    MetaNumber,
    /// `!` alone.
    MetaMark,
    /// `#0`.
    Group,
    /// `#dbg_value`.
    RecordMark,
    /// One of `=,()[]{}<>*|:`, or `...`.
    Punctuation,
}

/// A token: what it is, the place of its first byte, and where its bytes start and end in the text, counted from 0.
///
/// ```
/// // `@main`, where a text begins with it
/// Token { kind: TokenKind::GlobalName, place: Place { line: 1, column: 1 }, start: 0, end: 5 }
/// ```
#[derive(Clone, Copy)]
pub struct Token {
    pub kind: TokenKind,
    pub place: Place,
    pub start: usize,
    pub end: usize,
}

/// No token begins at the byte with this place.
///
/// ```
/// BadByte { place: Place { line: 1, column: 1 } } // of a text that begins with `?`
/// ```
#[derive(Clone, Copy)]
pub struct BadByte {
    pub place: Place,
}
