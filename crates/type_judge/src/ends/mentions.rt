//! What the structs of a text hold by value.
ghost use Rattle.std.specs.Prelude.{◌≡◌, ◌<◌, ◌^◌, true, false, length, IfOk};
ghost use Rattle.ir_syntax.specs.View.{items_view};
ghost use Rattle.name_rules.specs.Measured.{contains_itself};
ghost use Rattle.name_rules.specs.ModuleOf.{structs_in};
ghost use Rattle.type_judge.specs.Ends.Mentioning.{AreMentions, structs_of};

use crate::ends::ranks::{leads_up, ranks_of};
use crate::ends::search::search_from;
use crate::order::{all_mentions, struct_numbers};
use ir_syntax::Items;
use std::alloc::{AllocError, Global};
use type_table::names::NameTable;

/// The structs of a text, and which structs each of them holds by value.
#[derive(Drop)]
pub struct StructMentions<'a> {
    items: &'a Items,
    numbers: NameTable<'a, u32>,
    lists: Vec<Vec<u32>>,
    /// A rank for each struct: none mentions one of a lower rank.
    ranks: Vec<u32>,
}

impl<'a> StructMentions<'a> {
    /// What the structs of these items hold.
    pub fn of_items(alloc: Global, items: &'a Items) -> Result<Self, AllocError>
        requires { length (structs_in (items_view items.now)) < 2 ^ 32 }
        ensures mentions { IfOk result AreMentions }
        ensures structs { IfOk result (λ all. structs_of all ≡ structs_in (items_view items.now)) }
    {
        let numbers = struct_numbers(alloc, items)?;
        let lists = all_mentions(alloc, &numbers, items)?;
        let ranks = ranks_of(alloc, &lists)?;
        Ok(StructMentions {
            items,
            numbers,
            lists,
            ranks,
        })
    }

    /// Whether the struct holds structs of higher ranks alone, and so not itself.
    fn rises(&self, name: &[u8]) -> bool
        requires { AreMentions self.now }
        ensures { result ≡ true → contains_itself (structs_of self.now) name.now ≡ false }
    {
        let Some(number) = self.numbers.get(name) else {
            return false;
        };
        leads_up(&self.ranks, &self.lists, number)
    }

    /// Whether a search from the struct comes to it.
    fn is_found(&self, alloc: Global, name: &[u8]) -> Result<bool, AllocError>
        requires { AreMentions self.now }
        ensures { IfOk result (λ found. found ≡ contains_itself (structs_of self.now) name.now) }
    {
        let Some(number) = self.numbers.get(name) else {
            return Ok(false);
        };
        let marks = search_from(alloc, &self.lists, number)?;
        Ok(marks[number as usize])
    }

    /// Whether a field of the struct is it, or holds it by value. A name of no struct is in none. Errors: want of memory.
    pub fn contains_itself(&self, alloc: Global, name: &[u8]) -> Result<bool, AllocError>
        requires { AreMentions self.now }
        ensures { IfOk result (λ found. found ≡ contains_itself (structs_of self.now) name.now) }
    {
        if self.rises(name) {
            Ok(false)
        } else {
            self.is_found(alloc, name)
        }
    }
}
