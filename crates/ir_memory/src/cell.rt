//! One byte of memory, and leaves as cells.
ghost use Rattle.std.specs.Prelude.{◌≡◌, ◌+◌, ◌/◌, ◌<◌, ◌≤◌, ◌^◌, ◌%◌, length, IfSome};
ghost use Rattle.ir_memory.specs.Cell as of;
ghost use Rattle.ir_memory.specs.Given.{IsLeaf};
ghost use Rattle.ir_memory.specs.Seen.{of_number};

use crate::Leaf;
use ir_eval::{Pointer, Scalar};
use ir_tables::WIDEST;

/// What one byte of a block holds: a byte, poison, or a piece of a pointer, counted from its lowest
/// byte.
#[derive(Clone, Copy, PartialEq, Eq, Debug)]
pub enum Cell {
    /// A byte that is known.
    Byte(u8),
    /// No value: an integer or a pointer that is read with it is poison.
    Poison,
    /// The byte with that number, from 0 to 7, of a pointer's address.
    Piece(Pointer, u8),
}

/// The byte at a place of a number, the least first.
fn byte_at(number: u128, place: u8) -> u8
    ensures { result ≡ of.byte_at number place }
{
    if place >= 16 {
        return 0;
    }
    ((number >> (8 * u32::from(place))) % 256) as u8
}

impl Cell {
    /// The cell as a byte, where it is not poison.
    fn byte(self) -> Option<u8>
        ensures { result ≡ of.byte_of self }
    {
        match self {
            Cell::Byte(byte) => Some(byte),
            Cell::Poison => None,
            Cell::Piece(pointer, place) => Some(byte_at(u128::from(pointer.address), place)),
        }
    }

    fn is_piece(self, pointer: Pointer, place: usize) -> bool
        ensures { result ≡ of.is_piece pointer place self }
    {
        match self {
            Cell::Piece(other, piece) => other == pointer && usize::from(piece) == place,
            Cell::Byte(_) | Cell::Poison => false,
        }
    }
}

/// The number that cells spell, the lowest byte first, where none is poison.
fn number_of(cells: &[Cell]) -> Option<u128>
    requires { length cells.now ≤ 16 }
    ensures value { result ≡ of.number_of cells.now }
    ensures fits { IfSome result (λ n. n < 256 ^ length cells.now) }
{
    let mut number = 0;
    let mut left = cells.len();
    while left > 0 {
        left -= 1;
        let byte = cells[left].byte()?;
        number = number * 256 + u128::from(byte);
    }
    Some(number)
}

/// Whether the cells are the pieces of a pointer, in order.
fn are_pieces(pointer: Pointer, cells: &[Cell]) -> bool
    ensures { result ≡ of.are_pieces pointer 0 cells.now }
{
    for (place, cell) in cells.iter().enumerate() {
        if !cell.is_piece(pointer, place) {
            return false;
        }
    }
    true
}

/// The pointer of which the cells are the pieces, in order.
fn pointer_of(cells: &[Cell]) -> Option<Pointer>
    ensures { result ≡ of.pointer_of cells.now }
{
    if let [Cell::Piece(pointer, _), ..] = cells {
        if are_pieces(*pointer, cells) {
            return Some(*pointer);
        }
    }
    None
}

/// A number cut to a width.
#[inline]
fn low_bits(number: u128, width: u8) -> u128
    requires { width ≤ WIDEST }
    ensures { result ≡ number % 2 ^ width }
{
    if width == WIDEST {
        number
    } else {
        number % (1 << width)
    }
}

/// The value that a load of these cells gives.
pub fn read(leaf: Leaf, cells: &[Cell]) -> Scalar
    requires leaf { IsLeaf leaf }
    requires count { length cells.now ≡ of.size leaf }
    ensures { result ≡ of.read leaf cells.now }
{
    match leaf {
        Leaf::Int(width) => match number_of(cells) {
            None => Scalar::Poison,
            Some(number) => Scalar::Int(low_bits(number, width)),
        },
        Leaf::Ptr => {
            if let Some(pointer) = pointer_of(cells) {
                return Scalar::Ptr(pointer);
            }
            match number_of(cells) {
                None => Scalar::Poison,
                Some(number) => Scalar::Ptr(Pointer {
                    block: None,
                    address: number as u64,
                }),
            }
        }
    }
}

/// A number that so many bytes spell as a width takes, cut to that width.
#[inline(always)]
fn cut(number: u128, width: u8) -> u128
    requires width { width ≤ WIDEST }
    requires fits { number < 256 ^ ((width + 7) / 8) }
    ensures { result ≡ number % 2 ^ width }
{
    if width % 8 == 0 {
        // All bits of all bytes are of the width.
        return number;
    }
    low_bits(number, width)
}

/// The value of a leaf from the number that its bytes spell, where no piece stands among them.
#[inline(always)]
pub fn value_of(leaf: Leaf, number: Option<u128>) -> Scalar
    requires leaf { IsLeaf leaf }
    requires fits { IfSome number (λ n. n < 256 ^ of.size leaf) }
    ensures { result ≡ of_number leaf number }
{
    let Some(number) = number else {
        return Scalar::Poison;
    };
    match leaf {
        Leaf::Int(width) => Scalar::Int(cut(number, width)),
        Leaf::Ptr => Scalar::Ptr(Pointer {
            block: None,
            address: number as u64,
        }),
    }
}
