//! That runs do not get stuck.
ghost use Rattle.run_rules.specs.NeverStuck.{ValidNeverSticks};

/// A run of a well-formed, valid module finds an instruction at each of its steps, whatever its arguments and its input are. So no
/// end of it is told for want of one.
pub fn a_valid_module_never_gets_stuck()
    ensures { ValidNeverSticks }
{}
