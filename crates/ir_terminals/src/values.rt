//! What tokens stand for.
use crate::compact::{CompactName, CompactText};
use crate::number::Number;
use ir_base::Place;

/// An integer as it is written: its sign, its magnitude, and the place of its first byte.
///
/// ```
/// // `-5`, written at 1:17.
/// let place = Place { line: 1, column: 17 };
/// Integer { negative: true, magnitude: Number::of_digits(alloc, b"5")?, place }
/// ```
#[derive(Drop)]
pub struct Integer {
    pub negative: bool,
    pub magnitude: Number,
    pub place: Place,
}

/// A name, and the place of the token that spells it.
///
/// ```
/// // `@a`, where a text begins with it.
/// let place = Place { line: 1, column: 1 };
/// PlacedName { name: CompactName::from_slice(alloc, b"a")?, place }
/// ```
#[derive(Drop)]
pub struct PlacedName {
    pub name: CompactName,
    pub place: Place,
}

/// The bytes that a string stands for, and the place of the string.
///
/// ```
/// // `"a.c"`, written at 1:19: the bytes between the quotes
/// let place = Place { line: 1, column: 19 };
/// PlacedText { text: CompactText::from_slice(alloc, b"a.c")?, place }
/// ```
#[derive(Drop)]
pub struct PlacedText {
    pub text: CompactText,
    pub place: Place,
}

/// What a local value or a label is called: by a name, or by a number, with the place of the token.
///
/// ```
/// Local::Named(x) // `%x`, or the label `x:`, where `x` is that name with its place
/// Local::Numbered(number, place) // `%0`, or the label `0:`, where the number is 0
/// ```
#[derive(Drop)]
pub enum Local {
    /// A name.
    Named(PlacedName),
    /// A number.
    Numbered(Number, Place),
}
