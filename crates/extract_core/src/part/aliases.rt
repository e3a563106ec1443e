//! Aliases: those that are kept, and those that become variables or functions.
ghost use Rattle.std.specs.Prelude.{◌≡◌, ◌<◌, length, slice_get, Some, false, IfOk};
ghost use Rattle.extract_rules.specs.Extracted.{is_constant};
ghost use Rattle.module_arena.specs.Known.{HasGlobal, counts};
ghost use Rattle.module_arena.specs.Lists.{name_at};
ghost use Rattle.module_arena.specs.View.{module_of};
ghost use Rattle.module_arena.specs.WellFormed.{IsWellFormed};
ghost use Rattle.extract_core.specs.Declaring.Declaring.{IsDeclaring};
ghost use Rattle.extract_core.specs.Declaring.Stages.{HasTypes};
ghost use Rattle.extract_core.specs.Part.AliasesThere.{WithAlias, WithAliases, aliases_through};

use crate::fates::{Fate, FateList, kept_linkage};
use crate::part::functions::numbered_parameters;
use entry_copy::{Copier, add_alias, add_function, add_variable};
use ir_tables::Linkage;
use item_build::types::Builder;
use module_arena::{Alias, AliasId, AliasType, Arena, Function, GlobalId, Variable};
use std::alloc::{AllocError, Global};
use type_table::{TypeId, TypeList};

/// Whether an entry is a variable that is never written.
fn is_constant(from: &Arena, id: GlobalId) -> bool
    requires { HasGlobal (counts from.now) id }
    ensures { result ≡ is_constant (module_of from.now) (name_at from.now id) }
{
    // No two entries of an arena have one name.
    let _count = from.variable_count();
    match id {
        GlobalId::Variable(id) => from.variable(id).constant,
        GlobalId::Function(_) => false,
        GlobalId::Alias(_) => false,
    }
}

/// Declares an alias that is kept, without its target.
fn keep_alias(
    copier: &Copier,
    alloc: Global,
    from: &Arena,
    into: &mut Builder,
    id: AliasId,
) -> Result<GlobalId, AllocError>
    requires known { id < length from.now.aliases }
    requires types { HasTypes from.now into.old.arena copier.now }
    requires declaring { IsDeclaring from.now (aliases_through from.now id) into.old.arena }
    ensures { IfOk result (λ new. WithAlias from.now copier.now into.old.arena id Fate.Kept into.new.arena (Some new)) }
{
    let _good = from.variable_count();
    let alias = from.alias(id);
    let name = alias.name.copy(alloc)?;
    let ty = copier.copy_alias_type(alloc, &alias.ty)?;
    let declared = Alias {
        name,
        linkage: kept_linkage(alias.linkage),
        ty,
        target: None,
    };
    let new = add_alias(into, declared)?;
    Ok(new)
}

/// Declares an alias of a variable of this type as a variable.
fn declare_as_variable(
    copier: &Copier,
    alloc: Global,
    from: &Arena,
    into: &mut Builder,
    id: AliasId,
    alias: &Alias,
    ty: TypeId,
) -> Result<GlobalId, AllocError>
    requires here { slice_get from.now.aliases id ≡ Some alias.now }
    requires ty { alias.now.ty ≡ AliasType.Plain ty }
    requires well_formed { IsWellFormed (module_of from.now) }
    requires types { HasTypes from.now into.old.arena copier.now }
    requires declaring { IsDeclaring from.now (aliases_through from.now id) into.old.arena }
    ensures { IfOk result (λ new. WithAlias from.now copier.now into.old.arena id Fate.Declared into.new.arena (Some new)) }
{
    let _good = from.variable_count();
    let name = alias.name.copy(alloc)?;
    let target = alias.target.unwrap();
    let declared = Variable {
        name,
        linkage: Linkage::External,
        constant: is_constant(from, target),
        ty: copier.new_type(ty),
        alignment: None,
        initialiser: None,
    };
    let new = add_variable(into, declared)?;
    Ok(new)
}

/// Declares an alias of a function that returns this, and has these parameters, as a function.
fn declare_as_function(
    copier: &Copier,
    alloc: Global,
    from: &Arena,
    into: &mut Builder,
    id: AliasId,
    alias: &Alias,
    returns: TypeId,
    parameters: &TypeList,
    variadic: bool,
) -> Result<GlobalId, AllocError>
    requires here { slice_get from.now.aliases id ≡ Some alias.now }
    requires ty { alias.now.ty ≡ AliasType.Function returns parameters.now variadic }
    requires types { HasTypes from.now into.old.arena copier.now }
    requires declaring { IsDeclaring from.now (aliases_through from.now id) into.old.arena }
    ensures { IfOk result (λ new. WithAlias from.now copier.now into.old.arena id Fate.Declared into.new.arena (Some new)) }
{
    let _good = from.variable_count();
    let name = alias.name.copy(alloc)?;
    let parameters = numbered_parameters(copier, alloc, parameters)?;
    let declared = Function {
        name,
        linkage: Linkage::External,
        result: copier.new_type(returns),
        parameters,
        variadic,
        body: None,
    };
    let new = add_function(into, declared)?;
    Ok(new)
}

/// Declares an alias that is not kept, as what it is of.
fn declare_other(
    copier: &Copier,
    alloc: Global,
    from: &Arena,
    into: &mut Builder,
    id: AliasId,
) -> Result<GlobalId, AllocError>
    requires known { id < length from.now.aliases }
    requires well_formed { IsWellFormed (module_of from.now) }
    requires types { HasTypes from.now into.old.arena copier.now }
    requires declaring { IsDeclaring from.now (aliases_through from.now id) into.old.arena }
    ensures { IfOk result (λ new. WithAlias from.now copier.now into.old.arena id Fate.Declared into.new.arena (Some new)) }
{
    let alias = from.alias(id);
    match &alias.ty {
        AliasType::Plain(ty) => declare_as_variable(copier, alloc, from, into, id, alias, *ty),
        AliasType::Function(returns, parameters, variadic) => {
            declare_as_function(
                copier, alloc, from, into, id, alias, *returns, parameters, *variadic,
            )
        }
    }
}

/// Declares what the alias with that id becomes, which is the next, and gives its new id. One that is left out has none.
fn declare_alias(
    copier: &Copier,
    alloc: Global,
    from: &Arena,
    into: &mut Builder,
    id: AliasId,
    fate: Fate,
) -> Result<Option<GlobalId>, AllocError>
    requires known { id < length from.now.aliases }
    requires well_formed { IsWellFormed (module_of from.now) }
    requires types { HasTypes from.now into.old.arena copier.now }
    requires declaring { IsDeclaring from.now (aliases_through from.now id) into.old.arena }
    ensures { IfOk result (WithAlias from.now copier.now into.old.arena id fate into.new.arena) }
{
    match fate {
        Fate::Kept => {
            let new = keep_alias(copier, alloc, from, into, id)?;
            Ok(Some(new))
        }
        Fate::Declared => {
            let new = declare_other(copier, alloc, from, into, id)?;
            Ok(Some(new))
        }
        Fate::LeftOut => Ok(None),
    }
}

/// Declares what the aliases become by these fates, none of it defined yet, and gives their new ids, in their order; one that is left out
/// has none. Only memory may be wanting.
pub fn declare_aliases(
    copier: &Copier,
    alloc: Global,
    from: &Arena,
    into: &mut Builder,
    fates: &FateList,
) -> Result<Vec<Option<GlobalId>>, AllocError>
    requires sizes { length fates.now ≡ length from.now.aliases }
    requires well_formed { IsWellFormed (module_of from.now) }
    requires types { HasTypes from.now into.old.arena copier.now }
    requires declaring { IsDeclaring from.now (aliases_through from.now 0) into.old.arena }
    ensures { IfOk result (λ ids. WithAliases from.now copier.now into.old.arena fates.now into.new.arena ids.items) }
{
    let mut ids = Vec::new(alloc);
    'aliases: for number in 0..from.alias_count() {
        let id = AliasId::new(number);
        let new = declare_alias(copier, alloc, from, into, id, *fates.at(number as usize))?;
        ids.push(new)?;
    }
    Ok(ids)
}
