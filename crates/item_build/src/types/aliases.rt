//! Aliases.
ghost use Rattle.std.specs.Prelude.{◌≡◌, ◌<◌, ◌+◌, map, length, slice_get, Some, None, All, IfOk, OnOk};
ghost use Rattle.ir_phrases.specs.Constants.View.{type_view};
ghost use Rattle.ir_syntax.specs.View.{alias_view, alias_type_view};
ghost use Rattle.type_table.specs.Types.{structs, trees};
ghost use Rattle.module_arena.specs.Changes.{more_aliases, targeted};
ghost use Rattle.module_arena.specs.Known.{alias_types};
ghost use Rattle.module_arena.specs.View.{module_of};
ghost use Rattle.module_arena.specs.View as view;
ghost use Rattle.module_arena.specs.declared.entry.Alias as the_alias;
ghost use Rattle.name_rules.specs.ModuleOf.{alias_of, alias_type_in};
ghost use Rattle.item_build.specs.Types.Holding.{entries, HasEntry};
ghost use Rattle.item_build.specs.Types.Stands.{Grows};
ghost use Rattle.item_build.specs.Types.Declarations.{IsFree, AreFew, one_alias_more, CanAlias, without_target, AreUntargeted};

use crate::types::builder::Builder;
use crate::types::heads::linkage_of;
use crate::types::wanting::entry_out_of_memory;
use ir_syntax::{WrittenAlias, WrittenAliasType};
use module_arena::{AliasId, AliasType};
use std::alloc::{AllocError, Global};

/// What an alias says of its target.
fn add_alias_type(
    builder: &mut Builder,
    alloc: Global,
    written: &WrittenAliasType,
) -> Result<AliasType, AllocError>
    requires { CanAlias (structs builder.old.arena.table) (alias_type_view written.now) }
    ensures grows { OnOk result (Grows builder.old.arena builder.new.arena) }
    ensures known { IfOk result (λ t. All (λ id. id < length builder.new.arena.table.types) (alias_types t)) }
    ensures is { IfOk result (λ t. view.alias_type_view (trees builder.new.arena.table) t ≡ alias_type_in (alias_type_view written.now)) }
{
    match written {
        WrittenAliasType::Plain(ty) => Ok(AliasType::Plain(builder.add_type(alloc, ty)?)),
        WrittenAliasType::Function { returns, signature } => {
            let returns = builder.add_type(alloc, returns)?;
            let parameters = builder.add_types(alloc, &signature.parameters)?;
            Ok(AliasType::Function(returns, parameters, signature.variadic))
        }
    }
}

/// Declares the alias that the text writes, without its target.
pub fn declare_alias(
    builder: &mut Builder,
    alloc: Global,
    written: &WrittenAlias,
) -> Result<AliasId, AllocError>
    requires ty { CanAlias (structs builder.old.arena.table) (alias_type_view written.now.ty) }
    requires free { IsFree builder.old.arena written.now.name.name }
    requires few { AreFew (one_alias_more builder.old.arena) }
    ensures id { IfOk result (λ id. id ≡ length builder.old.arena.aliases) }
    ensures module { OnOk result (module_of builder.new.arena
        ≡ more_aliases (module_of builder.old.arena) (without_target (alias_of (alias_view written.now)))) }
    ensures untargeted { AreUntargeted 0 builder.old.arena → OnOk result (AreUntargeted 0 builder.new.arena) }
{
    let ty = add_alias_type(builder, alloc, &written.ty)?;
    let name = written.name.name.to_name(alloc)?;
    let alias = module_arena::Alias {
        name,
        linkage: linkage_of(written.linkage),
        ty,
        target: None,
    };
    match builder.arena.declare_alias(alias) {
        Ok(id) => Ok(id),
        Err(fault) => Err(entry_out_of_memory(fault)),
    }
}

/// Gives the alias, which has none yet, the target that the text writes.
pub fn set_target(
    builder: &mut Builder,
    alloc: Global,
    id: AliasId,
    written: &WrittenAlias,
) -> Result<(), AllocError>
    requires known { id < length builder.old.arena.aliases }
    requires untargeted { (x : the_alias.Alias) → slice_get builder.old.arena.aliases id ≡ Some x → x.target ≡ None }
    requires target { HasEntry (entries builder.old.arena) written.now.target.name }
    ensures module { OnOk result (module_of builder.new.arena ≡ targeted (module_of builder.old.arena) id written.now.target.name) }
    ensures untargeted { AreUntargeted id builder.old.arena → OnOk result (AreUntargeted (id + 1) builder.new.arena) }
{
    let name = written.target.name.to_name(alloc)?;
    let Some(target) = builder.arena.lookup(&name) else {
        unreachable!();
    };
    builder.arena.set_target(id, target);
    Ok(())
}
