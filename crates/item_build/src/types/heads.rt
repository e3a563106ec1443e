//! What entries have in common.
ghost use Rattle.std.specs.Prelude.{◌≡◌};
ghost use Rattle.name_rules.specs.ModuleOf.{linkage_in};
ghost use Rattle.name_rules.specs.Written.{alignment_in};
ghost use Rattle.item_build.specs.Types.Declarations.{IsShort};

use crate::types::integers::index_of;
use ir_tables::Linkage;
use ir_terminals::Integer;

/// External where none is written.
pub(crate) fn linkage_of(written: Option<Linkage>) -> Linkage
    ensures { result ≡ linkage_in written }
{
    written.unwrap_or(Linkage::External)
}

/// The alignment in bytes, where one is written.
pub fn alignment_of(written: &Option<Integer>) -> Option<u32>
    requires { IsShort written.now }
    ensures { result ≡ alignment_in written.now }
{
    match written {
        Some(integer) => Some(index_of(integer)),
        None => None,
    }
}
