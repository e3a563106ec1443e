//! Symbols that no part defines, declared as in their first entries.
ghost use Rattle.std.specs.Prelude.{◌≡◌, false, All, IfOk};
ghost use Rattle.linkage_rules.specs.Globals.{is_alias};
ghost use Rattle.linkage_rules.specs.Ids.{IsEntryId, modules, seen};
ghost use Rattle.module_linker.specs.Stages.Ground.{HaveTypes};
ghost use Rattle.module_linker.specs.Entries.Definitions.{declaration_of, declared_as, linkage_among};
ghost use Rattle.module_linker.specs.Entries.Room.{HasRoom};
ghost use Rattle.module_linker.specs.Entries.Step.{IsDeclared};

use crate::entries::parameters::numbered_parameters;
use entry_copy::{Copier, add_function, add_variable, copier_of};
use ir_base::Name;
use ir_tables::Linkage;
use item_build::types::Builder;
use linkage_rules::resolving::are_extern_weak;
use linkage_rules::{EntryId, SymbolKind, arena_of};
use module_arena::{Checked, Function, FunctionId, GlobalId, Variable, VariableId};
use std::alloc::{AllocError, Global};

/// The linkage of a symbol that no part defines: null where it is nowhere defined, if each of the entries says so.
fn declared_linkage(parts: &[Checked], ids: &[EntryId]) -> Linkage
    requires { All (IsEntryId parts.now) ids.now }
    ensures { result ≡ linkage_among parts.now ids.now }
{
    if are_extern_weak(parts, ids) {
        Linkage::ExternWeak
    } else {
        Linkage::External
    }
}

/// Declares a variable as in this entry, with this linkage.
fn declare_variable(
    copiers: &[Copier],
    alloc: Global,
    parts: &[Checked],
    into: &mut Builder,
    id: EntryId,
    linkage: Linkage,
    name: &Name,
) -> Result<GlobalId, AllocError>
    requires types { HaveTypes parts.now into.old.arena copiers.now }
    requires entry { IsEntryId parts.now id }
    requires variable { id.kind ≡ SymbolKind.Variable }
    requires room { HasRoom into.old.arena (declared_as parts.now linkage id name.now) }
    ensures { IfOk result (IsDeclared parts.now into.old.arena into.new.arena copiers.now (declared_as parts.now linkage id name.now)) }
{
    let arena = arena_of(parts, id.part);
    // The types of the variables of an arena are types of the arena.
    let _good = arena.variable_count();
    let variable = arena.variable(VariableId::new(id.number));
    let copier = copier_of(copiers, id.part);
    let name = name.copy(alloc)?;
    let declared = Variable {
        name,
        linkage,
        constant: variable.constant,
        ty: copier.new_type(variable.ty),
        alignment: variable.alignment,
        initialiser: None,
    };
    let new = add_variable(into, declared)?;
    Ok(new)
}

/// Declares a function as in this entry, with this linkage. Its parameters are numbered.
fn declare_function(
    copiers: &[Copier],
    alloc: Global,
    parts: &[Checked],
    into: &mut Builder,
    id: EntryId,
    linkage: Linkage,
    name: &Name,
) -> Result<GlobalId, AllocError>
    requires types { HaveTypes parts.now into.old.arena copiers.now }
    requires entry { IsEntryId parts.now id }
    requires function { id.kind ≡ SymbolKind.Function }
    requires room { HasRoom into.old.arena (declared_as parts.now linkage id name.now) }
    ensures { IfOk result (IsDeclared parts.now into.old.arena into.new.arena copiers.now (declared_as parts.now linkage id name.now)) }
{
    let arena = arena_of(parts, id.part);
    // The types of the functions of an arena are types of the arena.
    let _good = arena.variable_count();
    let function = arena.function(FunctionId::new(id.number));
    let copier = copier_of(copiers, id.part);
    let name = name.copy(alloc)?;
    let parameters = numbered_parameters(copier, alloc, &function.parameters)?;
    let declared = Function {
        name,
        linkage,
        result: copier.new_type(function.result),
        parameters,
        variadic: function.variadic,
        body: None,
    };
    let new = add_function(into, declared)?;
    Ok(new)
}

/// Declares a symbol that no part defines, which has these entries, as in one of them, which is no alias, since an alias is a
/// definition. It gives the new id.
pub(crate) fn declare_undefined(
    copiers: &[Copier],
    alloc: Global,
    parts: &[Checked],
    into: &mut Builder,
    first: EntryId,
    ids: &[EntryId],
    name: &Name,
) -> Result<GlobalId, AllocError>
    requires types { HaveTypes parts.now into.old.arena copiers.now }
    requires entry { IsEntryId parts.now first }
    requires known { All (IsEntryId parts.now) ids.now }
    requires plain { is_alias (seen (modules parts.now) first).global ≡ false }
    requires room { HasRoom into.old.arena (declaration_of parts.now first ids.now name.now) }
    ensures { IfOk result (IsDeclared parts.now into.old.arena into.new.arena copiers.now (declaration_of parts.now first ids.now name.now)) }
{
    let linkage = declared_linkage(parts, ids);
    match first.kind {
        SymbolKind::Variable => {
            declare_variable(copiers, alloc, parts, into, first, linkage, name)
        }
        SymbolKind::Function => {
            declare_function(copiers, alloc, parts, into, first, linkage, name)
        }
        SymbolKind::Alias => unreachable!(),
    }
}
