//! The indices of what a module's records name.
ghost use Rattle.std.specs.Prelude.{◌≡◌, ◌<◌, ◌++◌, ◌∷◌, [], map, length, All, OnOk, IfOk};
ghost use Rattle.type_table.specs.Types.{tree};
ghost use Rattle.module_arena.specs.Known.{HasGlobal, KnowsConst, counts};
ghost use Rattle.module_arena.specs.Changes.{constant_in};
ghost use Rattle.module_arena.specs.Lists.{name_at};
ghost use Rattle.module_arena.specs.View.{module_of};
ghost use Rattle.record_table.specs.Fields.{ty, global};
ghost use Rattle.record_table.specs.Layout.{counted};
ghost use Rattle.record_table.specs.StringTable.{once_each, offset_in};
ghost use Rattle.record_table.specs.Mentions.{mentioned};
ghost use Rattle.record_table.specs.Spelling.{string_table, texts_of};
ghost use Rattle.record_write.specs.Operands.Numbered.{indices, constant_of};
ghost use Rattle.record_table.specs.Standing.{is_wide};

use crate::operands::fields::put_number;
use crate::operands::put_count;
use crate::order::{TextTable, TypeOrder, text_table, type_order};
use module_arena::{Arena, Const, ConstId, GlobalId};
use std::alloc::{AllocError, Global};
use std::marker::Model;
use type_table::{IrType, TypeId};

/// How many bits an operand has.
const OPERAND_BITS: u8 = 64;

/// An arena, with the places of its types and texts among those of its module's records.
///
/// ```
/// let numbering = Numbering::new(alloc, arena)?; // of `@a = global [2 x i32] zeroinitializer`
/// numbering.types() // `i32` and `[2 x i32]`
/// numbering.table() // [97]: the name `a`
/// numbering.global_index(GlobalId::Variable(id)) // 0
/// ```
#[derive(Drop)]
pub struct Numbering<'a> {
    arena: &'a Arena,
    types: TypeOrder<'a>,
    texts: TextTable<'a>,
}

impl<'a> Model for Numbering<'a> {
    ghost use Rattle.module_arena.specs.Lists.{Lists};
    ghost use Rattle.record_write.specs.Operands.Numbered.{IsNumbering};

    ghost Value = { Lists };

    ghost view = { λ n. n.arena.now };

    ghost invariant = { λ n. IsNumbering n.arena.now n.types n.texts };
}

impl<'a> Numbering<'a> {
    /// The numbering of a module. It is refused for want of memory alone.
    pub fn new(alloc: Global, arena: &'a Arena) -> Result<Numbering<'a>, AllocError>
        ensures { IfOk result (λ numbering. numbering ≡ arena.now) }
    {
        let types = type_order(alloc, arena)?;
        let texts = text_table(alloc, arena)?;
        Ok(Numbering {
            arena,
            types,
            texts,
        })
    }

    /// The arena.
    pub fn arena(&self) -> &'a Arena
        ensures { result.now ≡ self.now }
    {
        self.arena
    }

    /// The constant with that id.
    pub(crate) fn constant(&self, id: ConstId) -> &'a Const
        requires { id < length self.now.constants }
        ensures here { constant_of self.now id ≡ constant_in self.now result.now }
        ensures known { KnowsConst (length self.now.table.types) (counts self.now) id result.now }
    {
        // What holds of each arena.
        let _count = self.arena.variable_count();
        self.arena.constant(id)
    }

    /// The types that the module mentions, in the order of their records.
    pub fn types(&self) -> &[TypeId]
        ensures trees { map (tree self.now.table) result.now ≡ mentioned (module_of self.now) }
        ensures known { All (λ id. id < length self.now.table.types) result.now }
    {
        self.types.listed()
    }

    /// The bytes of the string table, each an operand.
    pub fn table(&self) -> &[u64]
        ensures { result.now ≡ string_table (module_of self.now) }
    {
        self.texts.operands()
    }

    /// Whether integers of the type have more than 64 bits.
    pub fn is_wide(&self, ty: TypeId) -> bool
        requires { ty < length self.now.table.types }
        ensures { result ≡ is_wide (tree self.now.table ty) }
    {
        let types = self.arena.types();
        // What holds of each table of types.
        let _count = types.type_count();
        match types.get(ty) {
            IrType::Int(width) => *width > OPERAND_BITS,
            IrType::Ptr => false,
            IrType::Void => false,
            IrType::Array(_, _) => false,
            IrType::Struct(_, _) => false,
            IrType::Named(_) => false,
        }
    }

    /// Where a text of the module stands in the table, in bytes.
    pub fn offset(&self, text: &[u8]) -> u64
        ensures { result ≡ offset_in (once_each (texts_of (module_of self.now))) text.now }
    {
        self.texts.offset(text)
    }

    /// The index of a type that the module mentions.
    pub fn type_index(&self, id: TypeId) -> u64
        requires { id < length self.now.table.types }
        ensures { (ty (indices self.now)).spell (tree self.now.table id) ≡ result ∷ [] }
    {
        let count = self.types.listed().len() as u64;
        self.types.place(id).unwrap_or(count)
    }

    /// The index of a variable, function or alias: variables from 0, then functions, then aliases.
    pub fn global_index(&self, id: GlobalId) -> u64
        requires { HasGlobal (counts self.now) id }
        ensures { (global (indices self.now)).spell (name_at self.now id) ≡ result ∷ [] }
    {
        // It holds of each arena that its names are distinct.
        let variables = u64::from(self.arena.variable_count());
        match id {
            GlobalId::Variable(id) => u64::from(id.number()),
            GlobalId::Function(id) => variables + u64::from(id.number()),
            GlobalId::Alias(id) => {
                variables + u64::from(self.arena.function_count()) + u64::from(id.number())
            }
        }
    }

    /// Appends the index of a type.
    pub fn put_type(&self, operands: &mut Vec<u64>, id: TypeId) -> Result<(), AllocError>
        requires { id < length self.now.table.types }
        ensures { OnOk result (operands.new.items ≡ operands.old.items ++ (ty (indices self.now)).spell (tree self.now.table id)) }
    {
        put_number(operands, self.type_index(id))
    }

    /// Appends a count, and the indices of so many types.
    pub fn put_types(&self, operands: &mut Vec<u64>, ids: &[TypeId]) -> Result<(), AllocError>
        requires { All (λ id. id < length self.now.table.types) ids.now }
        ensures { OnOk result (operands.new.items ≡ operands.old.items ++ (counted (ty (indices self.now))).spell (map (tree self.now.table) ids.now)) }
    {
        put_count(operands, ids.len())?;
        'parts: for id in ids {
            self.put_type(operands, *id)?;
        }
        Ok(())
    }

    /// Appends the index of a variable, function or alias.
    pub fn put_global(&self, operands: &mut Vec<u64>, id: GlobalId) -> Result<(), AllocError>
        requires { HasGlobal (counts self.now) id }
        ensures { OnOk result (operands.new.items ≡ operands.old.items ++ (global (indices self.now)).spell (name_at self.now id)) }
    {
        put_number(operands, self.global_index(id))
    }
}
