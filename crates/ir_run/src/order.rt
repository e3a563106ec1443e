//! The functions that are called before main.
ghost use Rattle.std.specs.Prelude.{◌≡◌, All, IfOk, filter_map, map};
ghost use Rattle.std.specs.Option.{option_map};
ghost use Rattle.module_arena.specs.View.{module_of};
ghost use Rattle.run_initial.specs.Constants.Sound.{IsPart};
ghost use Rattle.run_names.specs.Told.{alone};
ghost use Rattle.run_rules.specs.Plan.{constructor_of, constructors, in_order};
ghost use Rattle.ir_run.specs.Constructors.{constructor_at, constructor_seen};

use crate::list::{elements, list_name};
use ir_eval::Scalar;
use module_arena::TypedConst;
use run_initial::constants::push_leaves;
use run_names::Names;
use std::alloc::{AllocError, Global};

/// A function that is called before main: its priority and its address.
#[derive(Clone, Copy)]
pub struct Constructor {
    /// Those of a lower one come first.
    pub priority: u128,
    pub address: u64,
}

/// An element of `llvm.global_ctors`, leaf by leaf; one whose function is null is passed over (LangRef, "The 'llvm.global_ctors' Global
/// Variable").
fn constructor_in(leaves: &[Scalar]) -> Option<Constructor>
    ensures { option_map constructor_seen result ≡ constructor_of leaves.now }
{
    let [Scalar::Int(priority), Scalar::Ptr(function), ..] = leaves else {
        return None;
    };
    if function.address == 0 {
        return None;
    }
    Some(Constructor {
        priority: *priority,
        address: function.address,
    })
}

/// The constructor that a constant is, if any.
fn constructor_at(
    alloc: Global,
    names: &Names<'_>,
    element: TypedConst,
) -> Result<Option<Constructor>, AllocError>
    requires { IsPart names.now element }
    ensures { IfOk result (λ found. option_map constructor_seen found ≡ constructor_at names.now element) }
{
    let mut leaves = Vec::new(alloc);
    push_leaves(names, element.ty, element.value, &mut leaves)?;
    Ok(constructor_in(&leaves))
}

/// The constructors among constants, in their order.
fn constructors_among(
    alloc: Global,
    names: &Names<'_>,
    elements: &[TypedConst],
) -> Result<Vec<Constructor>, AllocError>
    requires { All (IsPart names.now) elements.now }
    ensures { IfOk result (λ found. map constructor_seen found.items ≡ filter_map (constructor_at names.now) elements.now) }
{
    let mut found = Vec::new(alloc);
    'elements: for element in elements {
        if let Some(constructor) = constructor_at(alloc, names, *element)? {
            found.push(constructor)?;
        }
    }
    Ok(found)
}

/// The same by priority, ties in their order.
fn in_order(
    alloc: Global,
    names: &Names<'_>,
    elements: &[TypedConst],
) -> Result<Vec<Constructor>, AllocError>
    requires { All (IsPart names.now) elements.now }
    ensures { IfOk result (λ found. map constructor_seen found.items ≡ in_order (filter_map (constructor_at names.now) elements.now)) }
{
    let mut found = constructors_among(alloc, names, elements)?;
    found.sort_by_key(|constructor| constructor.priority)?;
    Ok(found)
}

/// The constructors of a module in the order in which they are called: by priority, the least first, ties in the order of the list; one
/// whose function is null is passed over. It is refused for want of memory alone.
pub fn constructors(alloc: Global, names: &Names<'_>) -> Result<Vec<Constructor>, AllocError>
    ensures { IfOk result (λ found. map constructor_seen found.items ≡ constructors (alone (module_of names.now))) }
{
    let name = list_name(alloc)?;
    match elements(names, &name) {
        Some(elements) => in_order(alloc, names, elements),
        None => Ok(Vec::new(alloc)),
    }
}
