//! The arena.
ghost use Rattle.std.specs.Prelude.{◌≡◌, ◌↔◌, ℕ, true, ◌<◌, ◌≤◌, ◌^◌, ◌-◌, ◌+◌, ◌⊎◌, [], ◌∷◌, length, slice_get, Some, None, Ok, Err, All, Contains, IfOk, IfErr, OnOk, OnErr, option_to_list};
ghost use Rattle.std.specs.Option.{option_copied};
ghost use Rattle.type_table.specs.Limits.{HasFault as HasTypeFault};
ghost use Rattle.type_table.specs.Types.{with_type, with_struct, with_body as with_struct_body, IsKnown, IsKnownBody, names, bodies, trees, tree_body};
ghost use Rattle.type_table.specs.Batch.{StaysWithin, with_bodies};
ghost use Rattle.module_arena.specs.Lists.{Lists, no_lists, global_name, name_at};
ghost use Rattle.module_arena.specs.Known.{Counts, counts, counted_aliases, first_excess, HasFault, HasGlobal, KnowsConst, KnowsVariable, KnowsAlias, KnowsFunction, KnowsBody, IsGood, AreDistinct};
ghost use Rattle.module_arena.specs.Changes.{with_texts, with_table, with_constant, with_variable, with_alias, with_function, with_initialiser, with_target, with_body, variable_in, alias_in, function_in, more_variables, more_aliases, more_functions, more_structs, struct_defined, initialised, targeted, defined, blocks_in};
ghost use Rattle.module_arena.specs.View.{module_of, constant_at, constants_of};

use crate::copy::{copied_items, copied_text};
use crate::names::{NameMap, add_name, copied_names, find, push_into_room};
use crate::{
    Alias, AliasId, ArenaFault, Body, Const, ConstId, CountKind, Function, FunctionId, GlobalId,
    Variable, VariableId,
};
use indexmap::IndexMap;
use ir_base::{Name, Text};
use std::alloc::{AllocError, Global};
use std::marker::Model;
use type_table::{IrType, StructBody, StructId, TypeFault, TypeId, TypeTable};

/// How many structs, variables, aliases or functions a module has at most.
pub const COUNT_LIMIT: u32 = 262_144;

/// An index of `extractvalue` or `insertvalue` is less, and so is an alignment: each has 32 bits.
pub const INDEX_LIMIT: u64 = 1 << 32;

/// How many leaves a value that is handed on has at most.
pub const LEAF_LIMIT: u64 = 65_536;

/// A module: its texts, and its types, constants, variables, aliases and functions under typed ids.
#[derive(Drop)]
pub struct Arena {
    source: Option<Text>,
    layout: Option<Text>,
    triple: Option<Text>,
    types: TypeTable,
    constants: Vec<Const>,
    variables: Vec<Variable>,
    aliases: Vec<Alias>,
    functions: Vec<Function>,
    names: NameMap,
}

impl Model for Arena {
    ghost use Rattle.module_arena.specs.Lists.{Lists};
    ghost use Rattle.module_arena.specs.Known.{IsArena};

    ghost Value = { Lists };

    ghost view = { λ a. record { source = a.source; layout = a.layout; triple = a.triple; table = a.types; constants = a.constants.items; variables = a.variables.items; aliases = a.aliases.items; functions = a.functions.items } };

    ghost invariant = { λ a.
        IsArena a.names.entries
        (record { source = a.source; layout = a.layout; triple = a.triple; table = a.types; constants = a.constants.items; variables = a.variables.items; aliases = a.aliases.items; functions = a.functions.items }) };
}

/// The first count that is past the limit, in the order in which counts are told.
fn excess(variables: usize, functions: usize, aliases: usize) -> Option<(CountKind, u64)>
    requires few { variables + functions + aliases < 2 ^ 63 }
    ensures { result ≡ first_excess (record { variables = variables; aliases = aliases; functions = functions }) }
{
    if variables > COUNT_LIMIT as usize {
        return Some((CountKind::Variables, variables as u64));
    }
    if functions > COUNT_LIMIT as usize {
        return Some((CountKind::Functions, functions as u64));
    }
    if aliases == 0 {
        return None;
    }
    let counted = aliases + variables.max(functions);
    if counted > COUNT_LIMIT as usize {
        Some((CountKind::Aliases, counted as u64))
    } else {
        None
    }
}

impl Arena {
    /// The empty module.
    pub fn new(alloc: Global) -> Arena
        ensures { result ≡ no_lists }
    {
        Arena {
            source: None,
            layout: None,
            triple: None,
            types: TypeTable::new(alloc),
            constants: Vec::new(alloc),
            variables: Vec::new(alloc),
            aliases: Vec::new(alloc),
            functions: Vec::new(alloc),
            names: IndexMap::new(alloc),
        }
    }

    /// The types and the named structs.
    pub fn types(&self) -> &TypeTable
        ensures { result.now ≡ self.now.table }
    {
        &self.types
    }

    /// Sets the three texts of the module.
    pub fn set_texts(&mut self, source: Option<Text>, layout: Option<Text>, triple: Option<Text>)
        ensures { self.new ≡ with_texts self.old source layout triple }
    {
        self.source = source;
        self.layout = layout;
        self.triple = triple;
    }

    /// Declares a variable without an initialiser. A name that is there is told first, then a count.
    pub fn declare_variable(&mut self, variable: Variable) -> Result<VariableId, ArenaFault>
        requires known { KnowsVariable (length self.old.table.types) (length self.old.constants) variable }
        requires undefined { variable.initialiser ≡ None }
        ensures id { IfOk result (λ id. id ≡ length self.old.variables) }
        ensures ok { OnOk result (self.new ≡ with_variable self.old variable) }
        ensures module { OnOk result (module_of self.new ≡ more_variables (module_of self.old) (variable_in self.old variable)) }
        ensures fits { OnOk result (first_excess (counts (with_variable self.old variable)) ≡ None) }
        ensures free { OnOk result ((g : GlobalId) → ¬ (global_name self.old g ≡ Some variable.name)) }
        ensures fault { IfErr result (HasFault self.old variable.name (counts (with_variable self.old variable))) }
        ensures err { OnErr result (self.new ≡ self.old) }
    {
        if let Some(id) = find(&self.names, &variable.name) {
            return Err(ArenaFault::Duplicate(id));
        }
        let (functions, aliases) = (self.functions.len(), self.aliases.len());
        if let Some((kind, count)) = excess(self.variables.len() + 1, functions, aliases) {
            return Err(ArenaFault::TooMany { kind, count });
        }
        let name = variable.name.copy(*self.constants.allocator())?;
        let id = VariableId::new(self.variables.len() as u32);
        self.variables.reserve(1)?;
        add_name(&mut self.names, name, GlobalId::Variable(id))?;
        push_into_room(&mut self.variables, variable);
        Ok(id)
    }

    /// Declares a function without a body. A name that is there is told first, then a count.
    pub fn declare_function(&mut self, function: Function) -> Result<FunctionId, ArenaFault>
        requires known { KnowsFunction (length self.old.table.types) (length self.old.constants) function }
        requires undefined { function.body ≡ None }
        ensures id { IfOk result (λ id. id ≡ length self.old.functions) }
        ensures ok { OnOk result (self.new ≡ with_function self.old function) }
        ensures module { OnOk result (module_of self.new ≡ more_functions (module_of self.old) (function_in self.old function)) }
        ensures fits { OnOk result (first_excess (counts (with_function self.old function)) ≡ None) }
        ensures free { OnOk result ((g : GlobalId) → ¬ (global_name self.old g ≡ Some function.name)) }
        ensures fault { IfErr result (HasFault self.old function.name (counts (with_function self.old function))) }
        ensures err { OnErr result (self.new ≡ self.old) }
    {
        if let Some(id) = find(&self.names, &function.name) {
            return Err(ArenaFault::Duplicate(id));
        }
        let (variables, aliases) = (self.variables.len(), self.aliases.len());
        if let Some((kind, count)) = excess(variables, self.functions.len() + 1, aliases) {
            return Err(ArenaFault::TooMany { kind, count });
        }
        let name = function.name.copy(*self.constants.allocator())?;
        let id = FunctionId::new(self.functions.len() as u32);
        self.functions.reserve(1)?;
        add_name(&mut self.names, name, GlobalId::Function(id))?;
        push_into_room(&mut self.functions, function);
        Ok(id)
    }

    /// Declares an alias without a target. A name that is there is told first, then a count.
    pub fn declare_alias(&mut self, alias: Alias) -> Result<AliasId, ArenaFault>
        requires known { KnowsAlias (length self.old.table.types) (counts self.old) alias }
        requires undefined { alias.target ≡ None }
        ensures id { IfOk result (λ id. id ≡ length self.old.aliases) }
        ensures ok { OnOk result (self.new ≡ with_alias self.old alias) }
        ensures module { OnOk result (module_of self.new ≡ more_aliases (module_of self.old) (alias_in self.old alias)) }
        ensures fits { OnOk result (first_excess (counts (with_alias self.old alias)) ≡ None) }
        ensures free { OnOk result ((g : GlobalId) → ¬ (global_name self.old g ≡ Some alias.name)) }
        ensures fault { IfErr result (HasFault self.old alias.name (counts (with_alias self.old alias))) }
        ensures err { OnErr result (self.new ≡ self.old) }
    {
        if let Some(id) = find(&self.names, &alias.name) {
            return Err(ArenaFault::Duplicate(id));
        }
        let (variables, functions) = (self.variables.len(), self.functions.len());
        if let Some((kind, count)) = excess(variables, functions, self.aliases.len() + 1) {
            return Err(ArenaFault::TooMany { kind, count });
        }
        let name = alias.name.copy(*self.constants.allocator())?;
        let id = AliasId::new(self.aliases.len() as u32);
        self.aliases.reserve(1)?;
        add_name(&mut self.names, name, GlobalId::Alias(id))?;
        push_into_room(&mut self.aliases, alias);
        Ok(id)
    }

    /// Adds a constant whose parts are in the arena.
    pub fn add_const(&mut self, constant: Const) -> Result<ConstId, ArenaFault>
        requires { KnowsConst (length self.old.table.types) (counts self.old) (length self.old.constants) constant }
        ensures id { IfOk result (λ id. id ≡ length self.old.constants) }
        ensures ok { OnOk result (self.new ≡ with_constant self.old constant) }
        ensures module { OnOk result (module_of self.new ≡ module_of self.old) }
        ensures memory { IfErr result (λ fault. fault ≡ ArenaFault.Memory) }
        ensures err { OnErr result (self.new ≡ self.old) }
    {
        let number = self.constants.len() as u64;
        self.constants.push(constant)?;
        Ok(ConstId::new(number))
    }

    /// Gives a variable, which has none yet, its initialiser.
    pub fn set_initialiser(&mut self, id: VariableId, constant: ConstId)
        requires known { id < length self.old.variables }
        requires undefined { (v : Variable) → slice_get self.old.variables id ≡ Some v → v.initialiser ≡ None }
        requires constant { constant < length self.old.constants }
        ensures set { self.new ≡ with_initialiser self.old id constant }
        ensures module { module_of self.new ≡ initialised (module_of self.old) id (constant_at (constants_of self.old) constant) }
    {
        let variable = &mut self.variables[id.number() as usize];
        variable.initialiser = Some(constant);
    }

    /// Gives an alias, which has none yet, its target.
    pub fn set_target(&mut self, id: AliasId, target: GlobalId)
        requires known { id < length self.old.aliases }
        requires untargeted { (x : Alias) → slice_get self.old.aliases id ≡ Some x → x.target ≡ None }
        requires target { HasGlobal (counts self.old) target }
        ensures set { self.new ≡ with_target self.old id target }
        ensures module { module_of self.new ≡ targeted (module_of self.old) id (name_at self.old target) }
    {
        let alias = &mut self.aliases[id.number() as usize];
        alias.target = Some(target);
    }

    /// Gives a function, which has none yet, its body.
    pub fn define(&mut self, id: FunctionId, body: Body)
        requires known { id < length self.old.functions }
        requires undefined { (f : Function) → slice_get self.old.functions id ≡ Some f → f.body ≡ None }
        requires body { (f : Function) → slice_get self.old.functions id ≡ Some f → KnowsBody (length self.old.table.types) (length self.old.constants) (length f.parameters) body }
        ensures set { self.new ≡ with_body self.old id body }
        ensures module { module_of self.new ≡ defined (module_of self.old) id (blocks_in self.old body) }
    {
        let function = &mut self.functions[id.number() as usize];
        function.body = Some(body);
    }

    /// The `source_filename` of the module.
    pub fn source(&self) -> Option<&Text>
        ensures { option_copied result ≡ self.now.source }
    {
        self.source.as_ref()
    }

    /// The `target datalayout` of the module.
    pub fn data_layout(&self) -> Option<&Text>
        ensures { option_copied result ≡ self.now.layout }
    {
        self.layout.as_ref()
    }

    /// The `target triple` of the module.
    pub fn triple(&self) -> Option<&Text>
        ensures { option_copied result ≡ self.now.triple }
    {
        self.triple.as_ref()
    }

    /// How many variables there are.
    pub fn variable_count(&self) -> u32
        ensures count { result ≡ length self.now.variables }
        ensures good { IsGood self.now }
        ensures distinct { AreDistinct self.now }
    {
        self.variables.len() as u32
    }

    /// How many functions there are.
    pub fn function_count(&self) -> u32
        ensures { result ≡ length self.now.functions }
    {
        self.functions.len() as u32
    }

    /// How many aliases there are.
    pub fn alias_count(&self) -> u32
        ensures { result ≡ length self.now.aliases }
    {
        self.aliases.len() as u32
    }

    /// How many constants there are.
    pub fn const_count(&self) -> u64
        ensures { result ≡ length self.now.constants }
    {
        self.constants.len() as u64
    }

    /// The entry with that name.
    pub fn lookup(&self, name: &Name) -> Option<GlobalId>
        ensures { (g : GlobalId) → (result ≡ Some g) ↔ (global_name self.now g ≡ Some name.now) }
    {
        find(&self.names, name)
    }

    /// The variable with that id.
    pub fn variable(&self, id: VariableId) -> &Variable
        requires { id < length self.now.variables }
        ensures { slice_get self.now.variables id ≡ Some result.now }
    {
        &self.variables[id.number() as usize]
    }

    /// The function with that id.
    pub fn function(&self, id: FunctionId) -> &Function
        requires { id < length self.now.functions }
        ensures { slice_get self.now.functions id ≡ Some result.now }
    {
        &self.functions[id.number() as usize]
    }

    /// The alias with that id.
    pub fn alias(&self, id: AliasId) -> &Alias
        requires { id < length self.now.aliases }
        ensures { slice_get self.now.aliases id ≡ Some result.now }
    {
        &self.aliases[id.number() as usize]
    }

    /// The constant with that id.
    pub fn constant(&self, id: ConstId) -> &Const
        requires { id < length self.now.constants }
        ensures { slice_get self.now.constants id ≡ Some result.now }
    {
        &self.constants[id.number() as usize]
    }

    /// Adds a type, as the table of types does.
    pub fn add_type(&mut self, ty: IrType) -> Result<TypeId, TypeFault>
        requires { IsKnown self.old.table ty }
        ensures id { IfOk result (λ id. id ≡ length self.old.table.types) }
        ensures ok { OnOk result (self.new ≡ with_table self.old (with_type self.old.table ty)) }
        ensures module { OnOk result (module_of self.new ≡ module_of self.old) }
        ensures fault { IfErr result (HasTypeFault (with_type self.old.table ty)) }
        ensures never { ¬ (result ≡ Err TypeFault.SelfContaining) }
        ensures err { OnErr result (self.new ≡ self.old) }
    {
        self.types.add(ty)
    }

    /// Adds a struct without a body, as the table of types does.
    pub fn name_struct(&mut self, name: Name) -> Result<StructId, TypeFault>
        requires { length self.old.table.structs < 2 ^ 32 - 1 }
        ensures id { IfOk result (λ id. id ≡ length self.old.table.structs) }
        ensures ok { OnOk result (self.new ≡ with_table self.old (with_struct self.old.table name)) }
        ensures module { OnOk result (module_of self.new ≡ more_structs (module_of self.old) name) }
        ensures duplicate { (result ≡ Err TypeFault.Duplicate) ↔ Contains (names self.old.table) name }
        ensures fault { IfErr result (λ fault. (fault ≡ TypeFault.Duplicate) ⊎ (fault ≡ TypeFault.Memory)) }
        ensures err { OnErr result (self.new ≡ self.old) }
    {
        self.types.name_struct(name)
    }

    /// Gives a struct its body, as the table of types does.
    pub fn define_struct(&mut self, id: StructId, body: StructBody) -> Result<(), TypeFault>
        requires known { id < length self.old.table.structs }
        requires fields { IsKnownBody self.old.table body }
        requires undefined { slice_get (bodies self.old.table) id ≡ Some None }
        ensures ok { OnOk result (self.new ≡ with_table self.old (with_struct_body self.old.table id body)) }
        ensures module { OnOk result (module_of self.new ≡ struct_defined (module_of self.old) id (tree_body (trees self.old.table) (Some body))) }
        ensures fault { IfErr result (HasTypeFault (with_struct_body self.old.table id body)) }
        ensures err { OnErr result (self.new ≡ self.old) }
    {
        self.types.define_struct(id, body)
    }

    /// Gives structs without bodies these, the first of them that with this id, as the table of types does: `false`
    /// where it was not seen that the table is within its limits behind each.
    pub fn define_structs(
        &mut self,
        first: StructId,
        given: &mut Vec<StructBody>,
    ) -> Result<bool, AllocError>
        requires known { first + length given.old.items ≤ length self.old.table.structs }
        requires fields { All (IsKnownBody self.old.table) given.old.items }
        requires undefined { (k : ℕ) → first ≤ k → k < first + length given.old.items
            → slice_get (bodies self.old.table) k ≡ Some None }
        ensures ok { result ≡ Ok true → self.new ≡ with_table self.old (with_bodies self.old.table first given.old.items) }
        ensures within { result ≡ Ok true → StaysWithin self.old.table first given.old.items }
        ensures kept { ¬ (result ≡ Ok true) → (self.new ≡ self.old) × (given.new ≡ given.old) }
    {
        self.types.define_structs(first, given)
    }

    /// The name of an entry.
    pub fn name(&self, id: GlobalId) -> &Name
        requires { HasGlobal (counts self.now) id }
        ensures { global_name self.now id ≡ Some result.now }
    {
        match id {
            GlobalId::Variable(id) => &self.variable(id).name,
            GlobalId::Function(id) => &self.function(id).name,
            GlobalId::Alias(id) => &self.alias(id).name,
        }
    }

    /// An equal arena of its own.
    pub(crate) fn copy(&self, alloc: Global) -> Result<Arena, AllocError>
        ensures { IfOk result (λ copy. copy ≡ self.now) }
    {
        Ok(Arena {
            source: copied_text(alloc, &self.source)?,
            layout: copied_text(alloc, &self.layout)?,
            triple: copied_text(alloc, &self.triple)?,
            types: self.types.copy(alloc)?,
            constants: copied_items(alloc, &self.constants)?,
            variables: copied_items(alloc, &self.variables)?,
            aliases: copied_items(alloc, &self.aliases)?,
            functions: copied_items(alloc, &self.functions)?,
            names: copied_names(alloc, &self.names)?,
        })
    }
}
