//! What is asked of linkages and alignments.
ghost use Rattle.std.specs.Prelude.{◌≡◌};
ghost use Rattle.module_arena.specs.EntryRules as rules;

use ir_tables::Linkage;

/// A declaration is external or extern_weak, and a definition is not extern_weak.
pub fn linkage_suits(is_defined: bool, linkage: Linkage) -> bool
    ensures { result ≡ rules.linkage_suits is_defined linkage }
{
    if is_defined {
        !matches!(linkage, Linkage::ExternWeak)
    } else {
        matches!(linkage, Linkage::External | Linkage::ExternWeak)
    }
}

/// Whether the linkage is `common`.
pub fn is_common(linkage: Linkage) -> bool
    ensures { result ≡ rules.is_common linkage }
{
    matches!(linkage, Linkage::Common)
}

/// Whether the linkage is `appending`.
pub fn is_appending(linkage: Linkage) -> bool
    ensures { result ≡ rules.is_appending linkage }
{
    matches!(linkage, Linkage::Appending)
}

/// External, private or internal: what an alias and its target may be.
pub fn is_lasting(linkage: Linkage) -> bool
    ensures { result ≡ rules.is_lasting linkage }
{
    matches!(
        linkage,
        Linkage::External | Linkage::Private | Linkage::Internal
    )
}

/// Whether an alignment, where one is stated, is a power of two of at most 65,536.
pub fn alignment_suits(alignment: Option<u32>) -> bool
    ensures { result ≡ rules.alignment_suits alignment }
{
    match alignment {
        Some(bytes) => matches!(
            bytes,
            1 | 2
                | 4
                | 8
                | 16
                | 32
                | 64
                | 128
                | 256
                | 512
                | 1024
                | 2048
                | 4096
                | 8192
                | 16_384
                | 32_768
                | 65_536
        ),
        None => true,
    }
}
