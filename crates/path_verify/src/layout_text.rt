//! The text of a data layout.
ghost use Rattle.std.specs.Prelude.{◌≡◌, ◌+◌, not, drop};
ghost use Rattle.std.specs.List.{list_any};
ghost use Rattle.module_arena.specs.LayoutText.{pieces, first_piece, is_foreign_component};
ghost use Rattle.path_verify.specs.Pieces.{piece_length};

use bstr::ByteSlice;

/// How long the text is up to the next separator, or to its end.
fn piece_length(text: &[u8], separator: u8) -> usize
    ensures { result ≡ piece_length separator text.now }
{
    match text.find_byte(separator) {
        Some(place) => place,
        None => text.len(),
    }
}

/// The text up to the next separator, or to its end.
#[tactic(auto, using(crate::proofs::PiecesTold::first_told, crate::proofs::PiecesTold::piece_within))]
fn first_piece(text: &[u8], separator: u8) -> &[u8]
    ensures { result.now ≡ first_piece (pieces separator text.now) }
{
    &text[..piece_length(text, separator)]
}

/// The text behind its first two bytes.
fn behind_two(text: &[u8]) -> &[u8]
    ensures { result.now ≡ drop 2 text.now }
{
    if text.len() < 2 {
        return &[];
    }
    &text[2..]
}

/// The text behind the next separator, or none where there is no separator.
fn behind_piece(text: &[u8], separator: u8) -> &[u8]
    ensures { result.now ≡ drop (piece_length separator text.now + 1) text.now }
{
    let length = piece_length(text, separator);
    if length >= text.len() {
        return &[];
    }
    &text[length + 1..]
}

/// Whether a component says big endian, or pointers of another size than 64 bits.
fn is_foreign_component(component: &[u8]) -> bool
    ensures { result ≡ is_foreign_component component.now }
{
    if component == b"E".as_slice() {
        return true;
    }
    if !component.starts_with(b"p:") {
        return false;
    }
    first_piece(behind_two(component), b':') != b"64".as_slice()
}

/// Whether no component of the text of a layout is foreign.
#[tactic(auto, using(crate::proofs::PiecesTold::foreign_first, crate::proofs::PiecesTold::own_last, crate::proofs::PiecesTold::own_first))]
pub(crate) fn has_own_layout(text: &[u8]) -> bool
    ensures { result ≡ not (list_any is_foreign_component (pieces 45 text.now)) }
{
    let mut rest = text;
    loop {
        if is_foreign_component(first_piece(rest, b'-')) {
            return false;
        }
        if piece_length(rest, b'-') >= rest.len() {
            return true;
        }
        rest = behind_piece(rest, b'-');
    }
}
