//! What is told of each entry of a module.
use ir_base::ItemList;

/// Something that is so or not of each of some entries, in their order.
pub type FlagList = ItemList<bool>;

/// Something that is so or not of each entry of a module: by kind, in the order of the arena.
///
/// ```
/// // of a module with the functions `@f` and `@g`, where of `@g` it is so
/// EntryFlags {
///     variables: FlagList::new(alloc),
///     functions, // false and true
///     aliases: FlagList::new(alloc),
/// }
/// ```
#[derive(Drop)]
pub struct EntryFlags {
    pub variables: FlagList,
    pub functions: FlagList,
    pub aliases: FlagList,
}
