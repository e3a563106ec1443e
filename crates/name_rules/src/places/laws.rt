//! The laws.
ghost use Rattle.name_rules.specs.Places.Laws.{DemandsInOrder, BreaksAtTheLeastPlace};

/// All that the items of a text ask for is refused at the places of tokens of the text, and the demands are listed in the
/// order of these tokens.
pub fn demands_stand_at_tokens_in_order()
    ensures { DemandsInOrder }
{}

/// Where the items of a text break, no demand that does not hold stands before the place that is told. Where a count is told,
/// there is no place. Which of several at one place is told is the order of the list.
pub fn the_first_break_stands_at_the_least_place()
    ensures { BreaksAtTheLeastPlace }
{}
