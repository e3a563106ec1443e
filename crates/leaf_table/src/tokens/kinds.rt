//! The kinds of tokens by words.
use ir_lexer::TokenKind;

/// The word of a kind.
pub fn kind_word(kind: TokenKind) -> &'static str {
    match kind {
        TokenKind::Label => "Label",
        TokenKind::Word => "Word",
        TokenKind::Integer => "Integer",
        TokenKind::GlobalName => "GlobalName",
        TokenKind::LocalName => "LocalName",
        TokenKind::UnnamedGlobal => "UnnamedGlobal",
        TokenKind::UnnamedLocal => "UnnamedLocal",
        TokenKind::Quoted => "Quoted",
        TokenKind::ByteString => "ByteString",
        TokenKind::MetaName => "MetaName",
        TokenKind::MetaNumber => "MetaNumber",
        TokenKind::MetaMark => "MetaMark",
        TokenKind::Group => "Group",
        TokenKind::RecordMark => "RecordMark",
        TokenKind::Punctuation => "Punctuation",
    }
}
