//! What the functions of a module are in a run of it: code, functions of the host, null, or nothing.
ghost use Rattle.std.specs.Prelude.{◌≡◌, ◌&&◌, not, IfOk};
ghost use Rattle.linkage_rules.specs.Linkages.{is_available_externally};
ghost use Rattle.run_names.specs.Standings.{AreStandings, function_stands};

use ir_tables::Linkage;
use module_arena::{Checked, Function, FunctionId, HostRow, host_row};
use std::alloc::{AllocError, Global};

/// What a function of a module is in a run of the module alone.
#[derive(Clone, Copy)]
pub(crate) enum Standing {
    /// It has a body that counts.
    Code,
    /// It is a function of the host.
    Host(HostRow),
    /// It is nowhere, and the module can do without it.
    Null,
    /// It is nowhere: a run in which it is used does not begin.
    Unresolved,
}

/// Whether an entry of that linkage is a definition, where an initialiser or a body of it is written or not: one that is
/// available externally is a declaration (LangRef, "Linkage Types").
pub fn is_definition(linkage: Linkage, written: bool) -> bool
    ensures { result ≡ (written && not (is_available_externally linkage)) }
{
    written && !matches!(linkage, Linkage::AvailableExternally)
}

/// What a function is.
fn standing_of(function: &Function) -> Standing
    ensures { result ≡ function_stands function.now }
{
    if is_definition(function.linkage, function.body.is_some()) {
        return Standing::Code;
    }
    if let Some(row) = host_row(function.name.text().bytes()) {
        return Standing::Host(row);
    }
    match function.linkage {
        Linkage::ExternWeak => Standing::Null,
        _ => Standing::Unresolved,
    }
}

/// What each function is, in the order of the functions.
pub(crate) fn standings(alloc: Global, program: &Checked) -> Result<Vec<Standing>, AllocError>
    ensures { IfOk result (λ standings. AreStandings program.now standings.items) }
{
    let arena = program.arena();
    let count = arena.function_count();
    let mut standings = Vec::with_capacity(alloc, count as usize)?;
    'functions: for number in 0..count {
        standings.push(standing_of(arena.function(FunctionId::new(number))))?;
    }
    Ok(standings)
}
