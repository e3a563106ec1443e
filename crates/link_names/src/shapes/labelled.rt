//! A shape by the numbers of its parts.
ghost use Rattle.std.proofs.Common.{ap};
ghost use Rattle.std.specs.Cmp.{decided, partial_equiv_from_equiv};
ghost use Rattle.link_names.specs.Shapes.Keys.{labelled_writes, labels_decide, same_labelled, same_label};
ghost use Rattle.std.specs.Prelude.{◌≡◌};

use ir_base::Name;
use std::hash::{Hash, Hasher};
use type_table::IrType;

/// A shape by the numbers of its parts, which stand in `head` where a type has ids. A struct with a name has it as its label;
/// an opaque one is a labelled `void` (LangRef, "Structure Type").
///
/// ```
/// // of `%T = type { i32 }`, where `fields` has the number of the shape of `i32`
/// Labelled { label: Some(name), head: IrType::Struct(false, fields) }
/// // of `%T = type opaque`
/// Labelled { label: Some(name), head: IrType::Void }
/// ```
#[derive(Drop)]
pub struct Labelled {
    pub label: Option<Name>,
    pub head: IrType,
}

/// Whether two labels are one name, or both none.
fn same_label(one: &Option<Name>, other: &Option<Name>) -> bool
    ensures { result ≡ same_label one.now other.now }
{
    match one {
        Some(name) => matches!(other, Some(found) if *name == *found),
        None => other.is_none(),
    }
}

impl PartialEq for Labelled {
    ghost eq = { same_labelled };

    ghost laws = { partial_equiv_from_equiv (decided same_labelled labels_decide) };

    fn eq(&self, other: &Labelled) -> bool {
        same_label(&self.label, &other.label) && self.head == other.head
    }
}

impl Eq for Labelled {
    ghost laws = { decided same_labelled labels_decide };
}

impl Hash for Labelled {
    ghost hash_input = { labelled_writes };

    ghost respects_eq = { λ s t same. ap labelled_writes ((labels_decide s t).0 same) };

    fn hash<H: Hasher>(&self, state: &mut H) {
        match &self.label {
            Some(name) => {
                state.write_u8(1);
                name.hash(state);
                self.head.hash(state);
            }
            None => {
                state.write_u8(0);
                self.head.hash(state);
            }
        }
    }
}
