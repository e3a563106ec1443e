//! What a text defines, at whichever place: its structs with their measures, and the names of its variables, aliases and
//! functions.
#![tactic(auto, using(crate::proofs::Parts::judged_front, crate::proofs::Parts::judged_rest, crate::proofs::Parts::judged_stop, crate::proofs::Parts::judged_next))]

ghost use Rattle.std.specs.Prelude.{◌≡◌, ◌<◌, ◌^◌, length, IfOk, OnOk, List, ℕ, [], ◌∷◌, ◌++◌, bytes_eq, option_copied};
ghost use Rattle.ir_tables.specs.Table.{is_distinct};
ghost use Rattle.ir_phrases.specs.Constants.View.{type_view};
ghost use Rattle.ir_syntax.specs.View.{item_view, items_view};
ghost use Rattle.name_rules.specs.Breaks.{known_in, global_name};
ghost use Rattle.name_rules.specs.Measured.{names_of};
ghost use Rattle.name_rules.specs.ModuleOf.{structs_in};
ghost use Rattle.name_rules.specs.TypeDemands.{has_name, measured};
ghost use Rattle.type_judge.specs.Gathered.{AreGlobals, IsKnown, global_names, known_of};

use crate::order::StructMeasures;
use indexmap::IndexSet;
use ir_phrases::constants::Type;
use ir_syntax::{Item, Items};
use ir_terminals::PlacedName;
use std::alloc::{AllocError, Global};
use type_table::Measure;

/// The names of variables, aliases and functions, and whether no two of them are the same.
#[derive(Drop)]
struct GlobalNames<'a> {
    names: IndexSet<&'a [u8]>,
    distinct: bool,
}

impl<'a> GlobalNames<'a> {
    /// None yet, with room for so many.
    fn with_capacity(alloc: Global, count: usize) -> Result<Self, AllocError>
        ensures { IfOk result (λ globals. AreGlobals globals []) }
    {
        Ok(GlobalNames {
            names: IndexSet::with_capacity(alloc, count)?,
            distinct: true,
        })
    }

    /// Adds a name.
    fn add(&mut self, name: &'a PlacedName) -> Result<(), AllocError>
        ensures { (names : List (List ℕ)) → AreGlobals self.old names → OnOk result (AreGlobals self.new (names ++ name.now.name ∷ [])) }
    {
        let is_new = self.names.insert(name.name.bytes())?;
        self.distinct &= is_new;
        Ok(())
    }
}

/// What a text defines.
#[derive(Drop)]
pub struct Known<'a> {
    items: &'a Items,
    structs: StructMeasures<'a>,
    globals: GlobalNames<'a>,
}

/// The token that names a variable, an alias or a function.
pub fn global_name(item: &Item) -> Option<&PlacedName>
    ensures { option_copied result ≡ global_name (item_view item.now) }
{
    match item {
        Item::Variable(variable) => Some(&variable.name),
        Item::Alias(alias) => Some(&alias.name),
        Item::Declaration { declaration, .. } => Some(&declaration.head.name),
        Item::Definition { definition, .. } => Some(&definition.head.name),
        Item::SourceFilename { .. }
        | Item::DataLayout { .. }
        | Item::TargetTriple { .. }
        | Item::Struct { .. }
        | Item::Attributes(_)
        | Item::Metadata(_) => None,
    }
}

/// Adds the name of the item, where it has one.
fn add_global<'a>(globals: &mut GlobalNames<'a>, item: &'a Item) -> Result<(), AllocError>
    ensures { (names : List (List ℕ)) → AreGlobals globals.old names → OnOk result (AreGlobals globals.new (names ++ global_names (item_view item.now ∷ []))) }
{
    match global_name(item) {
        None => Ok(()),
        Some(name) => globals.add(name),
    }
}

/// The names of variables, aliases and functions.
fn gather_globals<'a>(alloc: Global, items: &'a Items) -> Result<GlobalNames<'a>, AllocError>
    ensures { IfOk result (λ globals. AreGlobals globals (global_names (items_view items.now))) }
{
    // Nearly all items of a text are such.
    let mut globals = GlobalNames::with_capacity(alloc, items.len())?;
    'items: for item in items.as_slice() {
        add_global(&mut globals, item)?;
    }
    Ok(globals)
}

impl<'a> Known<'a> {
    /// What these items define.
    pub fn of_items(alloc: Global, items: &'a Items) -> Result<Self, AllocError>
        requires { length (structs_in (items_view items.now)) < 2 ^ 32 }
        ensures known { IfOk result IsKnown }
        ensures items { IfOk result (λ known. known_of known ≡ known_in (items_view items.now)) }
    {
        let structs = StructMeasures::of_items(alloc, items)?;
        let globals = gather_globals(alloc, items)?;
        Ok(Known {
            items,
            structs,
            globals,
        })
    }

    /// Whether a struct has the name.
    pub fn has_struct(&self, name: &[u8]) -> bool
        requires { IsKnown self.now }
        ensures { result ≡ has_name (names_of (known_of self.now).structs) name.now }
    {
        self.structs.has(name)
    }

    /// Whether a variable, an alias or a function has the name.
    pub fn has_global(&self, name: &[u8]) -> bool
        requires { IsKnown self.now }
        ensures { result ≡ has_name (known_of self.now).globals name.now }
    {
        self.globals.names.contains(&name)
    }

    /// Whether no two variables, aliases or functions have the same name.
    pub fn are_distinct(&self) -> bool
        requires { IsKnown self.now }
        ensures { result ≡ is_distinct bytes_eq (known_of self.now).globals }
    {
        self.globals.distinct
    }

    /// The measure of a type.
    pub fn measure_of(&self, ty: &Type) -> Option<Measure>
        requires { IsKnown self.now }
        ensures { result ≡ measured (known_of self.now) (type_view ty.now) }
    {
        self.structs.measure_of(ty)
    }
}
