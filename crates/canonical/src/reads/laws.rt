//! The laws of the canonical text of modules that are well formed and valid.
ghost use Rattle.canonical.specs.Reads.Laws.{HasItsTokens, HasItsItems, IsOfItsItems, IsUnbroken, IsReadBack, IsTheirOwn};

/// The tokens of the canonical text of a module that is well formed and valid are the spellings of its pieces.
pub fn canon_has_tokens()
    ensures { HasItsTokens }
{}

/// The canonical text of a module that is well formed and valid has its canonical items, but for the places of their tokens.
pub fn canon_has_items()
    ensures { HasItsItems }
{}

/// A module that is well formed and valid is the module of its canonical items.
pub fn canon_items_are_its_module()
    ensures { IsOfItsItems }
{}

/// The canonical items of a module that is well formed and valid break no rule of names and numbers.
pub fn canon_items_are_unbroken()
    ensures { IsUnbroken }
{}

/// The canonical text of a module that is well formed and valid reads to it, and to no other module.
pub fn canon_is_read_back()
    ensures { IsReadBack }
{}

/// No two modules that are well formed and valid have one canonical text.
pub fn canon_is_of_one_module()
    ensures { IsTheirOwn }
{}
