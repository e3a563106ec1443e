//! Targets of aliases that are kept.
ghost use Rattle.std.specs.Prelude.{◌≡◌, ◌+◌, ◌<◌, ◌≤◌, ℕ, map, length, slice_get, Some};
ghost use Rattle.module_arena.specs.Module as m;
ghost use Rattle.module_arena.specs.View.{module_of};
ghost use Rattle.module_arena.specs.declared.entry.Alias as the_alias;
ghost use Rattle.item_build.specs.Types.Declarations.{AreUntargeted, without_target};
ghost use Rattle.extract_core.specs.Fates.Fates.{alias_as, made};
ghost use Rattle.extract_core.specs.declared.fates.fates.Fates.{Fates};
ghost use Rattle.extract_core.specs.Entries.NewIds.{HaveNewIds};
ghost use Rattle.extract_core.specs.Defining.Filling.{targeted_as, behind_made, with_aliases};
ghost use Rattle.extract_core.specs.Naming.{NamesOfAlias};

use crate::fates::{Fate, FateList};
use entry_copy::Copier;
use item_build::types::Builder;
use module_arena::{AliasId, Arena};

/// Gives the alias with that number in the new arena the target of the alias with that id.
fn target_kept(copier: &Copier, from: &Arena, into: &mut Builder, id: AliasId, new: AliasId)
    requires known { id < length from.now.aliases }
    requires here { new < length into.old.arena.aliases }
    requires untargeted { AreUntargeted new into.old.arena }
    requires ids { (fates : Fates) × HaveNewIds from.now fates into.old.arena copier.now }
    requires target { (x : the_alias.Alias) → slice_get from.now.aliases id ≡ Some x → NamesOfAlias copier.now Fate.Kept x }
    ensures module { (x : m.Alias) → slice_get (module_of from.now).aliases id ≡ Some x → module_of into.new.arena ≡ targeted_as (module_of into.old.arena) new (alias_as Fate.Kept x) }
    ensures untargeted { AreUntargeted (new + 1) into.new.arena }
    ensures ids { (fates : Fates) → HaveNewIds from.now fates into.old.arena copier.now → HaveNewIds from.now fates into.new.arena copier.now }
{
    let _good = from.variable_count();
    let old = from.alias(id).target.unwrap();
    let target = copier.new_global(old).unwrap();
    into.arena.set_target(new, target);
}

/// Gives what the alias with that id becomes its target, where that is the next alias in the new arena, and gives the number
/// behind it.
fn target_next(
    copier: &Copier,
    from: &Arena,
    into: &mut Builder,
    id: AliasId,
    fate: Fate,
    next: u32,
) -> u32
    requires known { id < length from.now.aliases }
    requires upto { next ≤ id }
    requires here { fate ≡ Fate.Kept → next < length into.old.arena.aliases }
    requires untargeted { AreUntargeted next into.old.arena }
    requires ids { (fates : Fates) × HaveNewIds from.now fates into.old.arena copier.now }
    requires target { (x : the_alias.Alias) → slice_get from.now.aliases id ≡ Some x → NamesOfAlias copier.now fate x }
    ensures module { (x : m.Alias) → slice_get (module_of from.now).aliases id ≡ Some x → module_of into.new.arena ≡ targeted_as (module_of into.old.arena) next (alias_as fate x) }
    ensures behind { (x : m.Alias) → slice_get (module_of from.now).aliases id ≡ Some x → result ≡ behind_made next (alias_as fate x) }
    ensures untargeted { AreUntargeted result into.new.arena }
    ensures ids { (fates : Fates) → HaveNewIds from.now fates into.old.arena copier.now → HaveNewIds from.now fates into.new.arena copier.now }
{
    let _count = from.alias_count();
    match fate {
        Fate::Kept => {
            target_kept(copier, from, into, id, AliasId::new(next));
            next + 1
        }
        Fate::Declared => next,
        Fate::LeftOut => next,
    }
}

/// Gives the aliases that are kept by these fates their targets.
pub(crate) fn target_aliases(copier: &Copier, from: &Arena, into: &mut Builder, fates: &FateList)
    requires sizes { length fates.now ≡ length from.now.aliases }
    requires declared { (module_of into.old.arena).aliases ≡ map without_target (made alias_as fates.now (module_of from.now).aliases) }
    requires untargeted { AreUntargeted 0 into.old.arena }
    requires ids { (all : Fates) × HaveNewIds from.now all into.old.arena copier.now }
    requires targets { (id : ℕ) (x : the_alias.Alias) (fate : Fate) → slice_get from.now.aliases id ≡ Some x → slice_get fates.now id ≡ Some fate → NamesOfAlias copier.now fate x }
    ensures { module_of into.new.arena ≡ with_aliases (module_of into.old.arena) (made alias_as fates.now (module_of from.now).aliases) }
{
    let mut next = 0;
    'aliases: for number in 0..from.alias_count() {
        let id = AliasId::new(number);
        next = target_next(copier, from, into, id, *fates.at(number as usize), next);
    }
}
