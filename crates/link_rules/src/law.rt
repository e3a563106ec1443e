//! What linking does to names and symbols.
ghost use Rattle.link_rules.specs.Laws.{FreshIsFree, NamesStayApart, StructNamesStayApart, CarriesSymbols, OneModuleStays};

/// A fresh name is none of those that are taken.
pub fn fresh_names_are_free()
    ensures { FreshIsFree }
{}

/// No two symbols of some parts have one name in the module that is made of them, and no two of its structs do.
pub fn names_stay_apart()
    ensures symbols { NamesStayApart }
    ensures structs { StructNamesStayApart }
{}

/// Linking carries over each symbol of parts that are well formed and valid, and have no conflict: in its order, with its definition
/// and with what is behind it. Each name that a part writes means in the result what it meant there, and each type has its shape.
pub fn linking_carries_symbols()
    ensures { CarriesSymbols }
{}

/// A module that is well formed and valid is its own linked module, if none of its definitions is `available_externally` and none of its
/// appending arrays is written as `zeroinitializer`.
pub fn one_module_stays()
    ensures { OneModuleStays }
{}
