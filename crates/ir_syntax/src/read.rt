//! Reads a text whole, and tells why one is refused.
ghost use Rattle.std.specs.Prelude.{◌≡◌, ◌⊎◌, ◌<◌, ◌≤◌, List, Some, length, slice_get, IfOk, IfErr, IsErrAnd};
ghost use Rattle.std.specs.Bool.{MatchBool};
ghost use Rattle.ir_syntax.specs.Answers.{HasItems, FirstBad, passed};
ghost use Rattle.ir_syntax.specs.Counts.{counted, most_counted};
ghost use Rattle.ir_syntax.specs.Forms.{AreItemsFormed};
ghost use Rattle.ir_syntax.specs.Items.{IsViable};
ghost use Rattle.ir_syntax.specs.Refusal.{IsRefused, IsTooDeep, IsLeftOut, through};
ghost use Rattle.ir_syntax.specs.Tree.{ItemTree};
ghost use Rattle.ir_syntax.specs.View.{items_view};
ghost use Rattle.ir_syntax.specs.Widths.{opens_nest, is_of_wider, is_first};
ghost use Rattle.ir_syntax.specs.declared.read.SyntaxFault.{SyntaxFault as TheFault};
ghost use Rattle.ir_lexer.specs.Ahead.{Located};
ghost use Rattle.ir_lexer.specs.declared.lexer.TheConstants.{LARGEST};
ghost use Rattle.ir_terminals.specs.PhraseRows.Row.{among};
ghost use Rattle.ir_terminals.specs.Position.{text_tokens, tokens_left};
ghost use Rattle.ir_terminals.specs.Terminal.{code};
ghost use Rattle.ir_phrases.specs.Constants.Constants.{holder_shape};

use crate::item::Items;
use crate::items::all_items;
use ir_base::{Place, Text};
use ir_lexer::TokenKind;
use ir_tables::Opcode;
use ir_terminals::{Cursor, Fault, Limits, Terminal};
use std::alloc::{AllocError, Global};
use thiserror::Error;
use type_table::NESTING_LIMIT;

/// Why a text is not read: the first place with which no list of items can go on, and why it can't.
#[derive(Debug, Drop, PartialEq, Eq, Error)]
pub enum SyntaxFault {
    /// No token begins there.
    #[error("bad byte")]
    BadByte(Place),
    /// No item goes on, or begins, with the token there.
    #[error("no item here")]
    NoItemHere(Place),
    /// The language leaves out what the token there begins or is.
    #[error("left out")]
    LeftOutWord { place: Place, word: Text },
    /// The token there opens a type or a constant one deeper than they nest at most.
    #[error("too deep")]
    TooDeep(Place),
    /// Memory ran out.
    #[error("memory ran out")]
    Memory,
}

impl From<AllocError> for SyntaxFault {
    ghost use Rattle.std.specs.Prelude.{◌≡◌};
    ghost use Rattle.ir_syntax.specs.declared.read.SyntaxFault.TheVariants.{Memory};

    ghost from_gives = { λ _ fault. fault ≡ Memory };

    fn from(_: AllocError) -> Self {
        SyntaxFault::Memory
    }
}

/// The language.
const LANGUAGE: Limits = Limits {
    nesting: NESTING_LIMIT,
    with_left_out: false,
};

/// The language with one nest more, in which what opens one too deep might stand.
const DEEPER: Limits = Limits {
    nesting: NESTING_LIMIT + 1,
    with_left_out: false,
};

/// The language in which unnamed locals name structs, and `...` ends the parameters of a definition.
const WIDER: Limits = Limits {
    nesting: NESTING_LIMIT,
    with_left_out: true,
};

/// Whether the tokens up to and with the one with this number are viable within these limits.
fn is_viable_through(
    alloc: Global,
    text: &[u8],
    limits: Limits,
    number: usize,
) -> Result<bool, AllocError>
    requires short { length text.now ≤ LARGEST }
    requires token { number < length (text_tokens text.now) }
    ensures { IfOk result (λ viable. MatchBool viable (IsViable limits (through text.now number)) (IsViable limits (through text.now number) → ⊥)) }
{
    let mut cursor = Cursor::new(alloc, text, limits);
    match all_items(&mut cursor) {
        Ok(_) => return Ok(true),
        Err(Fault::Memory) => return Err(AllocError),
        Err(Fault::Refused) => {}
    }
    Ok(number < cursor.taken())
}

/// Whether a constant expression has this opcode.
fn is_of_expression(opcode: Opcode) -> bool
    ensures { result ≡ among (code (Terminal.Opcode opcode)) holder_shape.first }
{
    matches!(
        opcode,
        Opcode::GetElementPtr
            | Opcode::PtrToInt
            | Opcode::IntToPtr
            | Opcode::Trunc
            | Opcode::Add
            | Opcode::Sub
            | Opcode::Xor
    )
}

/// Whether the token at which the cursor stands begins a type or a constant that holds others.
fn opens_a_nest(cursor: &Cursor) -> bool
    ensures { result ≡ is_first opens_nest (tokens_left cursor.now) }
{
    match cursor.terminal() {
        Some(Terminal::OpenBracket | Terminal::OpenBrace | Terminal::Less) => true,
        Some(Terminal::Opcode(opcode)) => is_of_expression(opcode),
        _ => false,
    }
}

/// Whether the wider language has the token at which the cursor stands in more places: an unnamed local, or `...`.
fn is_of_wider_language(cursor: &Cursor) -> bool
    ensures { result ≡ is_first is_of_wider (tokens_left cursor.now) }
{
    if let Some(TokenKind::UnnamedLocal) = cursor.kind() {
        return true;
    }
    cursor.is_class_next(Terminal::Dots)
}

/// Whether the token at which the cursor stands, which is the first bad one, is too deep. With one nest more the text
/// is read only where the token opens a nest: any other is as bad there.
fn is_too_deep(alloc: Global, text: &[u8], cursor: &Cursor) -> Result<bool, AllocError>
    requires short { length text.now ≤ LARGEST }
    requires text { cursor.now.text ≡ text.now }
    requires token { cursor.now.taken < length (text_tokens text.now) }
    requires first_bad { FirstBad text.now (passed cursor.now) }
    ensures { IfOk result (λ deep. MatchBool deep (IsTooDeep text.now cursor.now.taken) (IsTooDeep text.now cursor.now.taken → ⊥)) }
{
    if opens_a_nest(cursor) {
        return is_viable_through(alloc, text, DEEPER, cursor.taken());
    }
    Ok(false)
}

/// Whether the token at which the cursor stands is left out: by itself, or where the wider language has it.
fn is_left_out(alloc: Global, text: &[u8], cursor: &Cursor) -> Result<bool, AllocError>
    requires short { length text.now ≤ LARGEST }
    requires text { cursor.now.text ≡ text.now }
    requires token { cursor.now.taken < length (text_tokens text.now) }
    ensures { (t : Located) → slice_get (text_tokens text.now) cursor.now.taken ≡ Some t
        → IfOk result (λ left_out. MatchBool left_out (IsLeftOut text.now cursor.now.taken t) (IsLeftOut text.now cursor.now.taken t → ⊥)) }
{
    if cursor.is_left_out() {
        return Ok(true);
    }
    is_viable_through(alloc, text, WIDER, cursor.taken())
}

/// Whether the token at which the cursor stands, which is the first bad one, is left out. In the wider language the text
/// is read only where the token is one that this language has in more places: any other is as bad there.
fn is_bad_left_out(alloc: Global, text: &[u8], cursor: &Cursor) -> Result<bool, AllocError>
    requires short { length text.now ≤ LARGEST }
    requires text { cursor.now.text ≡ text.now }
    requires token { cursor.now.taken < length (text_tokens text.now) }
    requires first_bad { FirstBad text.now (passed cursor.now) }
    ensures { (t : Located) → slice_get (text_tokens text.now) cursor.now.taken ≡ Some t
        → IfOk result (λ left_out. MatchBool left_out (IsLeftOut text.now cursor.now.taken t) (IsLeftOut text.now cursor.now.taken t → ⊥)) }
{
    if is_of_wider_language(cursor) {
        return is_left_out(alloc, text, cursor);
    }
    Ok(cursor.is_left_out())
}

/// The refusal of a token with this spelling, which is left out.
fn left_out(alloc: Global, place: Place, spelling: &[u8]) -> SyntaxFault
    ensures { (result ≡ SyntaxFault.LeftOutWord place spelling.now) ⊎ (result ≡ SyntaxFault.Memory) }
{
    match Text::from_slice(alloc, spelling) {
        Ok(word) => SyntaxFault::LeftOutWord { place, word },
        Err(_) => SyntaxFault::Memory,
    }
}

/// Why the text is refused at the token where the cursor stands, which is the first bad one.
///
/// The text is read at most once more, since no token both opens a nest and is one of the wider language's.
fn token_refusal(alloc: Global, text: &[u8], cursor: &Cursor) -> SyntaxFault
    requires short { length text.now ≤ LARGEST }
    requires text { cursor.now.text ≡ text.now }
    requires token { cursor.now.taken < length (text_tokens text.now) }
    requires first_bad { FirstBad text.now (passed cursor.now) }
    ensures { IsRefused text.now result ⊎ (result ≡ SyntaxFault.Memory) }
{
    let place = cursor.place();
    match is_too_deep(alloc, text, cursor) {
        Ok(true) => return SyntaxFault::TooDeep(place),
        Ok(false) => {}
        Err(_) => return SyntaxFault::Memory,
    }
    match is_bad_left_out(alloc, text, cursor) {
        Ok(true) => left_out(alloc, place, cursor.spelling()),
        Ok(false) => SyntaxFault::NoItemHere(place),
        Err(_) => SyntaxFault::Memory,
    }
}

/// Why the text is refused at the place where the cursor stands, which is the first bad one.
fn refusal(alloc: Global, text: &[u8], cursor: &Cursor) -> SyntaxFault
    requires short { length text.now ≤ LARGEST }
    requires text { cursor.now.text ≡ text.now }
    requires first_bad { FirstBad text.now (passed cursor.now) }
    ensures { IsRefused text.now result ⊎ (result ≡ SyntaxFault.Memory) }
{
    let place = cursor.place();
    if cursor.is_bad() {
        return SyntaxFault::BadByte(place);
    }
    match cursor.terminal() {
        None => SyntaxFault::NoItemHere(place),
        Some(_) => token_refusal(alloc, text, cursor),
    }
}

/// The items of a text of at most 16 MiB, which is refused exactly where its tokens are no list of items: at the first
/// token with which no list of items can go on, by the first kind that applies there.
///
/// The items, parameters, blocks and instructions together are no more than the tokens, each of which has a byte.
pub fn read_items(alloc: Global, text: &[u8]) -> Result<Items, SyntaxFault>
    requires { length text.now ≤ LARGEST }
    // What is read are the text's items.
    ensures items { IfOk result (λ items. HasItems text.now (items_view items)) }
    // A text has no other items.
    ensures one { IfOk result (λ items. (others : List ItemTree) → HasItems text.now others → others ≡ items_view items) }
    // There are no more of them than the text has bytes.
    ensures count { IfOk result (λ items. counted (items_view items) ≤ most_counted) }
    // Each has the opcodes, the flags and the parts of its phrase.
    ensures shape { IfOk result (λ items. AreItemsFormed (items_view items)) }
    // What is told is the first bad place, by its kind.
    ensures refused { IfErr result (λ fault. IsRefused text.now fault ⊎ (fault ≡ SyntaxFault.Memory)) }
    // A text that has items is not refused, but for want of memory.
    ensures only { IfErr result (λ fault. (items : List ItemTree) → HasItems text.now items → fault ≡ SyntaxFault.Memory) }
    // A text that is refused is refused so, but for want of memory.
    ensures only_refused { (fault : TheFault) → IsRefused text.now fault → IsErrAnd result (λ told. (told ≡ fault) ⊎ (told ≡ SyntaxFault.Memory)) }
{
    let mut cursor = Cursor::new(alloc, text, LANGUAGE);
    match all_items(&mut cursor) {
        Ok(items) => Ok(Items::from_vec(items)),
        Err(Fault::Memory) => Err(SyntaxFault::Memory),
        Err(Fault::Refused) => Err(refusal(alloc, text, &cursor)),
    }
}
