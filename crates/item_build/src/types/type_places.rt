//! Where types may be in an arena in the making.
use indexmap::IndexMap;
use std::alloc::{AllocError, Global};
use type_table::{IrType, TypeId};

/// Where each type was put that it was told of: of `ptr` and the integer types in a list by their widths, of others in a
/// map. Its answers are hints: who asks looks them up.
#[derive(Drop)]
pub(crate) struct TypePlaces {
    /// Of `ptr` at 0, which is no width, and of each integer type at its width. What it was not told of is at the first id.
    by_width: [TypeId; 256],
    others: IndexMap<IrType, TypeId>,
}

impl TypePlaces {
    /// It was told of no type.
    pub(crate) fn new(alloc: Global) -> TypePlaces {
        TypePlaces {
            by_width: [TypeId::new(0); 256],
            others: IndexMap::new(alloc),
        }
    }

    /// Where the integer type of that width may be.
    pub(crate) fn integer(&self, width: u8) -> TypeId {
        self.by_width[usize::from(width)]
    }

    /// Where `ptr` may be.
    pub(crate) fn address(&self) -> TypeId {
        self.by_width[0]
    }

    /// Where the type may be.
    pub(crate) fn get(&self, ty: &IrType) -> Option<TypeId> {
        match ty {
            IrType::Int(width) => Some(self.integer(*width)),
            IrType::Ptr => Some(self.address()),
            _ => Some(*self.others.get(ty)?),
        }
    }

    /// Tells where the type is.
    pub(crate) fn insert(&mut self, ty: IrType, id: TypeId) -> Result<(), AllocError> {
        match ty {
            IrType::Int(width) => self.by_width[usize::from(width)] = id,
            IrType::Ptr => self.by_width[0] = id,
            other => {
                self.others.insert(other, id)?;
            }
        }
        Ok(())
    }
}
