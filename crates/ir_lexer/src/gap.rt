//! Separators and comments.
ghost use Rattle.std.specs.Prelude.{◌≡◌, ◌+◌, ◌^◌, ◌<◌, ◌≤◌, length, take, drop, true, false};
ghost use Rattle.ir_lexer.specs.Class.{byte_class, in_line};
ghost use Rattle.ir_lexer.specs.Form.{each};
ghost use Rattle.ir_lexer.specs.Gap.{gap_length, in_gap};
ghost use Rattle.ir_lexer.specs.Place.{place_after};

use crate::class::{Class, ClassSet, class_of};
use crate::place::{next_place, place_in_line};
use crate::run::run_of;
use ir_base::Place;

/// Whether a separator or a comment may begin with the byte. Each that does is a space, a byte below it, or `;`.
#[inline(always)]
fn may_begin_gap(byte: u8) -> bool
    ensures { in_gap byte ≡ true → result ≡ true }
{
    byte <= b' ' || byte == b';'
}

/// How many spaces stand at the front, of which one alone is looked for.
#[inline(always)]
pub fn first_space(bytes: &[u8]) -> usize
    ensures in_bytes { result ≤ length bytes.now }
    ensures gap { gap_length false bytes.now ≡ result + gap_length false (drop result bytes.now) }
    ensures in_line { each in_line (take result bytes.now) ≡ true }
{
    if !bytes.is_empty() && bytes[0] == b' ' {
        1
    } else {
        0
    }
}

/// The length of the separators and comments at the front, which begins at this place, and the place behind them.
#[inline(always)]
pub fn gap_of(place: Place, bytes: &[u8]) -> (usize, Place)
    requires line { place.line + length bytes.now < 2 ^ 32 }
    requires column { place.column + length bytes.now < 2 ^ 32 }
    requires first { 1 ≤ place.column }
    ensures length { result.0 ≡ gap_length false bytes.now }
    ensures in_bytes { result.0 ≤ length bytes.now }
    ensures place { result.1 ≡ place_after place (take result.0 bytes.now) }
{
    let mut n = 0;
    let mut here = place;
    'gap: while n < bytes.len() {
        // Nearly all that stands between tokens is a space.
        if bytes[n] == b' ' {
            here = place_in_line(here, 1);
            n += 1;
        } else if !may_begin_gap(bytes[n]) {
            return (n, here);
        } else {
            match class_of(bytes[n]) {
                Class::Blank => {
                    here = place_in_line(here, 1);
                    n += 1;
                }
                Class::LineFeed => {
                    here = next_place(here, bytes[n]);
                    n += 1;
                }
                Class::Semicolon => {
                    let comment = run_of(ClassSet::InLine, &bytes[n..]);
                    here = place_in_line(here, comment);
                    n += comment;
                }
                _ => return (n, here),
            }
        }
    }
    (n, here)
}
