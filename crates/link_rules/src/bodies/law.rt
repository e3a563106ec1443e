//! That each struct of each part keeps its body.
ghost use Rattle.link_rules.specs.Bodies.Laws.{StructsKeepBodies};

/// A struct of a part, with its types written under their new names, has the body of the struct that it is in the linked module,
/// whatever part that was made from (LangRef, "Structure Type"). The parts are well formed.
pub fn structs_keep_bodies()
    ensures { StructsKeepBodies }
{}
