//! Reads aliases, and whether a global name names one or a variable.
ghost use Rattle.ir_syntax.specs.Aliases.{alias_type_row, target_row, alias_row, global_behind_row, global_row};
ghost use Rattle.ir_syntax.specs.View.{alias_type_view, global_view, item_view};
ghost use Rattle.ir_terminals.specs.Follows.{Follows};

use crate::heads::{GlobalHead, global_head};
use crate::item::{Item, WrittenAlias, WrittenAliasType};
use crate::variables::variable_behind;
use ir_phrases::constants::type_of;
use ir_phrases::instructions::signature;
use ir_terminals::{Cursor, Fault, PlacedName, Terminal};

/// `TYPE (( TYPE,* ))?`
#[tactic(auto, unfolding(crate::specs::Aliases::alias_type_core))]
fn alias_type(cursor: &mut Cursor) -> Result<WrittenAliasType, Fault>
    ensures { Follows alias_type_row alias_type_view cursor.old result cursor.new }
{
    let ty = type_of(cursor)?;
    match signature(cursor)? {
        Some(signature) => Ok(WrittenAliasType::Function {
            returns: ty,
            signature,
        }),
        None => Ok(WrittenAliasType::Plain(ty)),
    }
}

/// `, ptr GLOBAL`
#[tactic(auto, unfolding(crate::specs::Aliases::target_core))]
fn target(cursor: &mut Cursor) -> Result<PlacedName, Fault>
    ensures { Follows (λ _. target_row) (λ x. x) cursor.old result cursor.new }
{
    cursor.take_class(Terminal::Comma)?;
    cursor.take_class(Terminal::Ptr)?;
    cursor.global_name()
}

/// `alias ATYPE , ptr GLOBAL`, behind a name and a linkage.
#[tactic(auto, unfolding(crate::specs::Aliases::alias_core))]
fn alias_behind(cursor: &mut Cursor, head: GlobalHead) -> Result<Item, Fault>
    ensures { Follows (λ limits. alias_row limits (global_view head)) item_view cursor.old result cursor.new }
{
    let GlobalHead { name, linkage } = head;
    cursor.take_class(Terminal::Alias)?;
    let ty = alias_type(cursor)?;
    let target = target(cursor)?;
    let alias = WrittenAlias {
        name,
        linkage,
        ty,
        target,
    };
    Ok(Item::Alias(Box::new(cursor.alloc(), alias)?))
}

/// What stands behind a name and a linkage: an alias, or a variable.
#[tactic(auto, unfolding(crate::specs::Aliases::global_behind_core))]
fn global_behind(cursor: &mut Cursor, head: GlobalHead) -> Result<Item, Fault>
    ensures { Follows (λ limits. global_behind_row limits (global_view head)) item_view cursor.old result cursor.new }
{
    if cursor.is_class_next(Terminal::Alias) {
        alias_behind(cursor, head)
    } else {
        variable_behind(cursor, head)
    }
}

/// `GLOBAL = LINKAGE? GDROP* (global|constant) TYPE CONST? TAIL*`, or `GLOBAL = LINKAGE? GDROP* alias ATYPE , ptr
/// GLOBAL`.
pub fn global(cursor: &mut Cursor) -> Result<Item, Fault>
    ensures { Follows global_row item_view cursor.old result cursor.new }
{
    let head = global_head(cursor)?;
    global_behind(cursor, head)
}
