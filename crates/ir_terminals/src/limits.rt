//! What a cursor's phrases may be.

/// How deep types and constants may nest, each in a nest of its own, and whether the phrases are those of the wider
/// language, in which an unnamed local may name a type and a struct.
///
/// ```
/// Limits { nesting: 64, with_left_out: false } // those of the language
/// ```
#[derive(Clone, Copy)]
pub struct Limits {
    pub nesting: u8,
    pub with_left_out: bool,
}
