//! The laws of bitcode as records.
ghost use Rattle.record_law.specs.Laws.{TreesAreReadOrRefused, TreesStandForOne, RecordsAreThosePut, OpeningsAreReadBack, ModulesAreReadBack};

/// A tree of blocks and records stands for a module, or a first record of it is refused.
pub fn trees_are_read_or_refused()
    ensures { TreesAreReadOrRefused }
{}

/// It stands for no other module.
pub fn trees_stand_for_one()
    ensures { TreesStandForOne }
{}

/// The tree that is written of a module has the records that were put, whatever abbreviations they were written by.
pub fn records_are_those_put()
    ensures { RecordsAreThosePut }
{}

/// The producer and the string table of a module whose texts are bytes are read back.
pub fn openings_are_read_back()
    ensures { OpeningsAreReadBack }
{}

/// A module that fits (`ModuleFits`) is what the tree that is written of it stands for.
pub fn modules_are_read_back()
    ensures { ModulesAreReadBack }
{}
