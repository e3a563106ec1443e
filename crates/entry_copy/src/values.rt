//! Values and operands.
ghost use Rattle.std.specs.Prelude.{◌≡◌};
ghost use Rattle.std.specs.Option.{option_map};
ghost use Rattle.entry_copy.specs.Moved.{moved_value, moved_operand, moved_incoming, moved_case};

use crate::Copier;
use crate::moved::Moved;
use module_arena::{Case, Incoming, Operand, Value};
use std::alloc::{AllocError, Global};

/// The value by its new id. Parameters and results keep theirs.
pub(crate) fn moved_value(copier: &Copier, value: Value) -> Value
    ensures { result ≡ moved_value copier.now value }
{
    match value {
        Value::Local(id) => Value::Local(id),
        Value::Known(id) => Value::Known(copier.new_constant(id)),
    }
}

/// The operand by its new ids.
pub(crate) fn moved_operand(copier: &Copier, operand: Operand) -> Operand
    ensures { result ≡ moved_operand copier.now operand }
{
    Operand {
        ty: copier.new_type(operand.ty),
        value: moved_value(copier, operand.value),
    }
}

/// The count of an `alloca` by its new ids.
pub(crate) fn moved_count(copier: &Copier, count: Option<Operand>) -> Option<Operand>
    ensures { result ≡ option_map (moved_operand copier.now) count }
{
    match count {
        Some(count) => Some(moved_operand(copier, count)),
        None => None,
    }
}

impl Moved for Operand {
    ghost moved_by = { moved_operand };

    fn moved(&self, _alloc: Global, copier: &Copier) -> Result<Operand, AllocError> {
        Ok(moved_operand(copier, *self))
    }
}

impl Moved for Incoming {
    ghost moved_by = { moved_incoming };

    fn moved(&self, _alloc: Global, copier: &Copier) -> Result<Incoming, AllocError> {
        Ok(Incoming {
            value: moved_value(copier, self.value),
            block: self.block,
        })
    }
}

impl Moved for Case {
    ghost moved_by = { moved_case };

    fn moved(&self, _alloc: Global, copier: &Copier) -> Result<Case, AllocError> {
        Ok(Case {
            ty: copier.new_type(self.ty),
            value: copier.new_constant(self.value),
            target: self.target,
        })
    }
}
