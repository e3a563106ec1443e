//! Parameters that are named by their numbers, as those of a declaration are.
ghost use Rattle.std.specs.Prelude.{◌<◌, ℕ, List, length, map, All, IfOk};
ghost use Rattle.type_table.specs.Types.{trees};
ghost use Rattle.module_arena.specs.Lists.{Lists};
ghost use Rattle.module_arena.specs.Module.{Module};
ghost use Rattle.module_arena.specs.View.{parameter_view};
ghost use Rattle.link_rules.specs.Linked.{declared_parameters};
ghost use Rattle.item_build.specs.Types.Parameters.{AreParameters};
ghost use Rattle.module_linker.specs.Stages.Ground.{HasTypes};

use entry_copy::{Copier, parameter_number};
use ir_base::ItemList;
use module_arena::{LocalName, Parameter, ParameterList};
use std::alloc::{AllocError, Global};

/// The parameters of a declaration, by those of a function: of the same types, named by their numbers from 0 on.
pub(crate) fn numbered_parameters(
    copier: &Copier,
    alloc: Global,
    parameters: &ParameterList,
) -> Result<ParameterList, AllocError>
    ensures { (ms : List Module) (i : ℕ) (a b : Lists) → HasTypes ms i a b copier.now → All (λ p. p.ty < length a.table.types) parameters.now
        → IfOk result (λ copy. AreParameters b copy (declared_parameters ms i 0 (map (parameter_view (trees a.table)) parameters.now))) }
{
    let mut numbered = ItemList::new(alloc);
    'places: for place in 0..parameters.len() {
        let ty = copier.new_type(parameters.at(place).ty);
        let number = parameter_number(place)?;
        numbered.push(Parameter {
            ty,
            name: LocalName::Numbered(number),
        })?;
    }
    Ok(numbered)
}
