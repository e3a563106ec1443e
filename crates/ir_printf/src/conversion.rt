//! Conversions.

/// What a conversion writes.
///
/// ```
/// ConversionKind::Signed // of `%d` and of `%ld`
/// ConversionKind::UpperHex // of `%X`
/// ```
#[derive(Clone, Copy)]
pub enum ConversionKind {
    /// `d`, `i`: a signed number in decimal.
    Signed,
    /// `u`: an unsigned number in decimal.
    Unsigned,
    /// `x`: an unsigned number in base 16, with small letters.
    LowerHex,
    /// `X`: the same with capital letters.
    UpperHex,
    /// `o`: an unsigned number in base 8.
    Octal,
    /// `c`: one byte.
    Char,
    /// `s`: the bytes of a string.
    Bytes,
    /// `%`: itself.
    Percent,
}

/// How many bits of its argument a conversion of a number takes.
///
/// ```
/// Length::Word // of `%d`
/// Length::Long // of `%ld`
/// ```
#[derive(Clone, Copy)]
pub enum Length {
    /// 32 bits: no length is written.
    Word,
    /// The low 8 of 32 bits: `hh`.
    Byte,
    /// The low 16 of 32 bits: `h`.
    Half,
    /// 64 bits: `l`, `ll`, `j`, `z` or `t`.
    Long,
}

/// A conversion of a pattern (C, "The fprintf function").
///
/// ```
/// // `%-5ld`
/// Conversion {
///     kind: ConversionKind::Signed,
///     left_justified: true,
///     zero: false,
///     plus: false,
///     space: false,
///     width: 5,
///     precision: None,
///     length: Length::Long,
/// }
/// ```
#[derive(Clone, Copy)]
pub struct Conversion {
    pub kind: ConversionKind,
    /// `-`: what fills the width stands on the right.
    pub left_justified: bool,
    /// `0`: zeros fill the width of a number.
    pub zero: bool,
    /// `+`: a sign before a signed number that is not negative.
    pub plus: bool,
    /// A space before such a number.
    pub space: bool,
    /// The least count of bytes written, at most 4,095.
    pub width: u32,
    /// The least count of digits of a number, or the greatest count of bytes of a string; at most 4,095.
    pub precision: Option<u32>,
    pub length: Length,
}
