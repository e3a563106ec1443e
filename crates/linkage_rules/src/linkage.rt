//! What the linkages are for linking (LangRef, "Linkage Types").
ghost use Rattle.std.specs.Prelude.{◌≡◌};
ghost use Rattle.linkage_rules.specs.Linkages as linkages;

use ir_tables::Linkage;

/// Whether the part keeps the name to itself.
pub(crate) fn is_local(linkage: Linkage) -> bool
    ensures { result ≡ linkages.is_local linkage }
{
    matches!(linkage, Linkage::Private | Linkage::Internal)
}

/// Which definition of a name is preferred: greatest first external and appending, common, weak, linkonce.
pub(crate) fn rank(linkage: Linkage) -> u8
    ensures { result ≡ linkages.rank linkage }
{
    match linkage {
        Linkage::Appending | Linkage::External | Linkage::Private | Linkage::Internal => 4,
        Linkage::Common => 3,
        Linkage::Weak | Linkage::WeakOdr => 2,
        Linkage::Linkonce | Linkage::LinkonceOdr => 1,
        Linkage::AvailableExternally | Linkage::ExternWeak => 0,
    }
}
