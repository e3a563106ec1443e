//! That the constants of a checked module may be asked for.
ghost use Rattle.run_initial.specs.Constants.Laws.{ConstantsCanStand};

/// Each constant that a well-formed, valid module writes, an initialiser, an operand or a callee, can stand at the type that is written
/// for it; a callee is a pointer.
pub fn constants_of_a_checked_module_can_stand()
    ensures { ConstantsCanStand }
{}
