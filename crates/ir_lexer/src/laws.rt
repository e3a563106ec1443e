//! Laws of token lists.
ghost use Rattle.ir_lexer.specs.Laws.{OneList, AheadStepByStep, WhatIsAhead, ListOrBad, ListOrBadNotBoth, PiecesAreTokens, StringsStandForTheirBytes};

/// A text has at most one list of tokens.
pub fn one_list()
    ensures { OneList }
{}

/// Each text has a list of tokens or a first byte where none begins, and never both.
pub fn list_or_bad()
    ensures either { ListOrBad }
    ensures not_both { ListOrBadNotBoth }
{}

/// Spellings with separators, none of which can go on into what follows it, have exactly these as tokens.
pub fn pieces_are_tokens()
    ensures { PiecesAreTokens }
{}

/// What `unquote` finds between the quotes is what the string stands for, and where it finds nothing, that is no string.
pub fn strings_stand_for_their_bytes()
    ensures { StringsStandForTheirBytes }
{}

/// What a lexer has yet to answer is one list, which each answer shortens by its token: the tokens of the rest of the
/// text, or those before its first bad byte.
pub fn answers_ahead()
    ensures step { AheadStepByStep }
    ensures tokens { WhatIsAhead }
{}
