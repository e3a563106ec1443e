//! What stands between tokens.
ghost use Rattle.std.specs.Prelude.{◌≡◌};
ghost use Rattle.ir_lexer.specs.Pieces.{separator_bytes};
ghost use Rattle.ir_printer.specs.Phrases.Printing.{separator_of, separator_before};

/// What stands behind a token of canonical text.
///
/// ```
/// put_token(out, sink, b"ret", Separator::Space); // `ret `
/// put_token(out, sink, b"void", Separator::Line); // `void` and a line feed
/// ```
#[derive(Clone, Copy)]
pub enum Separator {
    /// Nothing: the next token stands directly behind.
    Nothing,
    /// A space.
    Space,
    /// A line feed.
    Line,
    /// A line feed and two spaces.
    Indented,
}

impl Separator {
    /// Its bytes.
    pub fn bytes(self) -> &'static [u8]
        ensures { result.now ≡ separator_bytes (separator_of self) }
    {
        match self {
            Separator::Nothing => b"",
            Separator::Space => b" ",
            Separator::Line => b"\n",
            Separator::Indented => b"\n  ",
        }
    }

    /// What stands behind a part of a list, behind whose last part this stands: nothing where others follow, since a comma is
    /// next.
    pub fn before(self, others: usize) -> Separator
        ensures { separator_of result ≡ separator_before others (separator_of self) }
    {
        if others == 0 {
            self
        } else {
            Separator::Nothing
        }
    }
}
