//! The laws of the items of canonical text.
ghost use Rattle.canonical.specs.Modules.Laws.{ItemsStandForIt, ReadsToNoOther};

/// A module that keeps what its items can say (`IsExactModule`: numbers in range and in turn) is the module of its canonical items.
pub fn items_stand_for_their_module()
    ensures { ItemsStandForIt }
{}

/// The canonical text of such a module, where it can be written (`IsWritable`), reads to no other.
pub fn canon_reads_to_no_other()
    ensures { ReadsToNoOther }
{}
