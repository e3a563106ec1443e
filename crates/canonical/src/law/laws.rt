//! The laws of canonical text.
ghost use Rattle.canonical.specs.Law.Laws.{PiecesAreItsTokens, ItemsAreRead, ItemsAreOnce};

/// The most digits of a number in a module that canonical text can write (`IsWritable`): more than any number of a module
/// that is well formed has.
pub const DIGIT_LIMIT: u32 = 64;

/// The tokens of the canonical text of a module that canonical text can write (`IsWritable`) are the spellings of its pieces.
pub fn pieces_are_tokens()
    ensures { PiecesAreItsTokens }
{}

/// The canonical text of such a module has its canonical items, but for the places of their tokens.
pub fn tokens_are_items()
    ensures { ItemsAreRead }
{}

/// A text has at most one list of items, but for the places of their tokens.
pub fn one_list_of_items()
    ensures { ItemsAreOnce }
{}
