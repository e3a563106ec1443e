//! Function types as they are written.

use crate::flat::Span;
use type_table::TypeId;

/// A function type, whose parameters stand among those of all.
#[derive(Clone, Copy)]
pub struct WrittenSignature {
    pub returns: TypeId,
    pub parameters: Span,
    pub variadic: bool,
}
