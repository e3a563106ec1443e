//! Parts linked to one module.
ghost use Rattle.std.specs.Prelude.{◌≡◌, ◌∷◌, [], None, IfOk, IfErr, OnOk};
ghost use Rattle.std.specs.List.{AllByRecursion};
ghost use Rattle.linkage_rules.specs.Conflicts.{first_conflict};
ghost use Rattle.linkage_rules.specs.Ids.{modules};
ghost use Rattle.module_arena.specs.Functions.{first_too_large};
ghost use Rattle.module_arena.specs.View.{module_of};
ghost use Rattle.link_rules.specs.Counts as counts;
ghost use Rattle.link_rules.specs.Linked.{link_result};
ghost use Rattle.run_rules.specs.Same.{RunAlike};
ghost use Rattle.link_names.specs.Rows.Numbers.{AreNewStructs, new_struct_names};
ghost use Rattle.module_linker.specs.Stages.Parts.{CanLink, IsResolved};
ghost use Rattle.module_linker.specs.Faults.{HasFault};

use crate::LinkFault;
use crate::making::linked;
use link_names::counts::too_many;
use link_names::rows::{StructRows, struct_rows};
use link_rules::valid::linking_keeps_modules;
use linkage_rules::{Bindings, resolve_symbols};
use linked_runs::linking_is_right;
use module_arena::Checked;
use std::alloc::Global;

/// The symbols and the structs of parts that can be linked.
#[derive(Drop)]
struct Linkable {
    bindings: Bindings,
    rows: StructRows,
}

/// The symbols and the structs of some parts, or why these are not linked.
fn resolved(alloc: Global, parts: &[Checked]) -> Result<Linkable, LinkFault>
    ensures can { OnOk result (CanLink (modules parts.now)) }
    ensures symbols { IfOk result (λ found. IsResolved parts.now found.bindings) }
    ensures names { IfOk result (λ found. found.rows.names ≡ new_struct_names (modules parts.now)) }
    ensures numbers { IfOk result (λ found. AreNewStructs (modules parts.now) found.rows.numbers) }
    ensures fault { IfErr result (HasFault (modules parts.now)) }
{
    let bindings = resolve_symbols(alloc, parts)?;
    let rows = struct_rows(alloc, parts)?;
    match too_many(parts, &bindings, rows.names.len() as u64) {
        Some(count) => return Err(LinkFault::TooMany {
            kind: count.kind,
            count: count.number,
        }),
        None => {}
    }
    // What is made of parts that have no conflict and pass no count is well formed.
    linking_keeps_modules();
    Ok(Linkable { bindings, rows })
}

/// Links parts, in their order, to one module (the tool `llvm-link`; LangRef, "Linkage Types"). It has one entry for each
/// symbol, the definition that counts or else a declaration, and is well formed and valid, as each `Checked` is. It prints what
/// the parts print that run side by side, and ends as they do, for all arguments, inputs and bounds.
///
/// `Conflict` exactly with the first conflict of the parts; else `TooMany` exactly with the first count of the linked module
/// that is past its limit: structs, variables, functions, aliases, appended bytes. Else only memory may be wanting. The time
/// is linear in the parts where the body of each struct was made before a type was its name, as in a module that was read from a text.
pub fn link(alloc: Global, parts: Vec<Checked>) -> Result<Checked, LinkFault>
    // What is answered.
    ensures agree { OnOk result (first_conflict (modules parts.items) ≡ None) }
    ensures few { OnOk result (counts.too_many (modules parts.items) ≡ None) }
    ensures fault { IfErr result (HasFault (modules parts.items)) }
    // What is made.
    ensures module { IfOk result (λ whole. module_of whole ≡ link_result (modules parts.items)) }
    ensures small { AllByRecursion (λ m. first_too_large m ≡ None) (modules parts.items) → IfOk result (λ whole. first_too_large (module_of whole) ≡ None) }
    ensures runs { IfOk result (λ whole. RunAlike (module_of whole ∷ []) (modules parts.items)) }
{
    let Linkable { bindings, rows } = match resolved(alloc, parts.as_slice()) {
        Ok(found) => found,
        Err(fault) => return Err(fault),
    };
    // What is made of them is valid, and runs as they do.
    linking_keeps_modules();
    linking_is_right();
    let whole = linked(alloc, parts, bindings, &rows)?;
    Ok(Checked::seal(whole))
}
