//! What is asked of the type at which a constant stands.
ghost use Rattle.std.specs.Prelude.{◌≡◌, ◌<◌, ◌≤◌, length, IfSome};
ghost use Rattle.ir_tables.specs.declared.width.TheConstants.{WIDEST};
ghost use Rattle.type_table.specs.Types.{tree};
ghost use Rattle.module_arena.specs.TypeTests.{is_integer_of, is_pointer as is_pointer_tree, width_of as width_in};
ghost use Rattle.module_arena.specs.Constants.{is_bytes_of};
ghost use Rattle.type_read.specs.Arena.Kept.{tree_at};

use type_table::{IrType, TypeId, TypeTable};

/// Whether the type is that of addresses. No type stands for `void`.
pub fn is_pointer(types: &TypeTable, ty: Option<TypeId>) -> bool
    requires { IfSome ty (λ ty. ty < length types.now.types) }
    ensures { result ≡ is_pointer_tree (tree_at types.now ty) }
{
    let _good = types.type_count();
    match ty {
        Some(ty) => matches!(types.get(ty), IrType::Ptr),
        None => false,
    }
}

/// Whether the type is that of bytes.
fn is_byte(types: &TypeTable, ty: TypeId) -> bool
    requires { ty < length types.now.types }
    ensures { result ≡ is_integer_of 8 (tree types.now ty) }
{
    let _good = types.type_count();
    match types.get(ty) {
        IrType::Int(width) => *width == 8,
        _ => false,
    }
}

/// Whether so many bytes stand at the type: at an array of as many of i8. No type stands for `void`.
pub(crate) fn holds_bytes(types: &TypeTable, ty: Option<TypeId>, size: usize) -> bool
    requires { IfSome ty (λ ty. ty < length types.now.types) }
    ensures { result ≡ is_bytes_of size (tree_at types.now ty) }
{
    let _good = types.type_count();
    let Some(ty) = ty else {
        return false;
    };
    match types.get(ty) {
        IrType::Array(length, element) => *length == size as u64 && is_byte(types, *element),
        _ => false,
    }
}

/// The width of an integer type in bits. No type stands for `void`.
pub(crate) fn width_of(types: &TypeTable, ty: Option<TypeId>) -> Option<u8>
    requires { IfSome ty (λ ty. ty < length types.now.types) }
    ensures width { result ≡ width_in (tree_at types.now ty) }
    ensures bounds { IfSome result (λ width. (1 ≤ width) × (width ≤ WIDEST)) }
{
    let _good = types.type_count();
    match types.get(ty?) {
        IrType::Int(width) => Some(*width),
        _ => None,
    }
}
