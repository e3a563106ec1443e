//! A slot of a leaf that is known.
ghost use Rattle.std.specs.Prelude.{◌≡◌};

use ir_memory::Leaf;
use run_names::values::Slot;

/// The slot, made of its leaf anew. Where that is written out, code that is compiled for the slot knows it.
#[inline(always)]
pub(crate) fn with_leaf(slot: Slot, leaf: Leaf) -> Slot
    requires { slot.leaf ≡ leaf }
    ensures { result ≡ slot }
{
    Slot::new(slot.offset(), leaf)
}
