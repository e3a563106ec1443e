//! Places in a text.

/// A place in a text: its line and its column, both counted from 1, columns in bytes. Only a line feed
/// ends a line.
///
/// ```
/// Place { line: 2, column: 1 } // of `ret` in the text b"{\nret void }"
/// ```
#[derive(Clone, Copy, Debug, PartialEq, Eq)]
pub struct Place {
    pub line: u32,
    pub column: u32,
}
