//! The law.
ghost use Rattle.name_rules.specs.Laws.{ReadsWell};

/// The module that bytes read to is well formed: names are names and each is there once, what is named is there, numbers are
/// in range and in order, and all is within the limits.
pub fn what_bytes_read_to_is_well_formed()
    ensures { ReadsWell }
{}
