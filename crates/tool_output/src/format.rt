//! How a result stands for a module.

/// What is written of a module: its canonical text, or the bitcode that is its one spelling.
///
/// ```
/// OutputFormat::CanonicalText // of `llvm-link -S`
/// OutputFormat::Bitcode // of `llvm-link`
/// ```
#[derive(Clone, Copy)]
pub enum OutputFormat {
    /// Canonical text.
    CanonicalText,
    /// Bitcode.
    Bitcode,
}
