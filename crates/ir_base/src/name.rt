//! Names, as the text of a module may write them.
ghost use Rattle.std.specs.Prelude.{◌≡◌, ℕ, ◌↔◌, ◌==◌, List, IfOk, IfErr, IsOk, bytes_eq, not};
ghost use Rattle.std.specs.List.{list_all};
ghost use Rattle.ir_base.specs.Name.{IsName};
ghost use Rattle.std.proofs.Common.{rules};
ghost use Rattle.std.specs.Hash as fed;
ghost use Rattle.std.specs.Cmp.Rules.{comparing, hashing};

use crate::Text;
use std::alloc::{AllocError, Global};
use std::hash::{Hash, Hasher};
use std::marker::Model;

/// A name: at least one byte, and none of them zero (LangRef, "Identifiers").
///
/// ```
/// Name::from_text(Text::from_slice(alloc, b"main")?) // Ok, of the name `main`
/// Name::from_text(Text::new(alloc)) // Err, of the text again: it has no byte
/// ```
#[derive(Debug, Drop)]
pub struct Name {
    text: Text,
}

impl Model for Name {
    ghost use Rattle.std.specs.Prelude.{ℕ, List};
    ghost use Rattle.ir_base.specs.Name.{IsName};

    ghost Value = { List ℕ };

    ghost view = { λ name. name.text };

    ghost invariant = { λ name. IsName name.text };
}

pub(crate) fn has_no_zero(bytes: &[u8]) -> bool
    ensures { result ≡ list_all (λ byte. not (byte == 0)) bytes.now }
{
    bytes.iter().all(|byte| *byte != 0)
}

impl Name {
    /// The text as a name. It is handed back exactly where it is empty or holds a zero byte.
    pub fn from_text(text: Text) -> Result<Name, Text>
        ensures name { IsOk result ↔ IsName text }
        ensures ok { IfOk result (λ name. name ≡ text) }
        ensures err { IfErr result (λ back. back ≡ text) }
    {
        if !text.bytes().is_empty() && has_no_zero(text.bytes()) {
            Ok(Name { text })
        } else {
            Err(text)
        }
    }

    /// The name's bytes.
    pub fn text(&self) -> &Text
        ensures bytes { result.now ≡ self.now }
        ensures name { IsName self.now }
    {
        &self.text
    }

    /// The same name again, in a text of its own.
    pub fn copy(&self, alloc: Global) -> Result<Name, AllocError>
        ensures { IfOk result (λ name. name ≡ self.now) }
    {
        Ok(Name {
            text: self.text.copy(alloc)?,
        })
    }
}

impl PartialEq for Name {
    ghost eq = { bytes_eq };

    ghost laws = { Prim.search (comparing, rules) };

    fn eq(&self, other: &Name) -> bool {
        self.text.bytes() == other.text.bytes()
    }
}

impl Eq for Name {
    ghost laws = { Prim.search (comparing, rules) };
}

impl Hash for Name {
    ghost hash_input = { fed.slice fed.u8 };

    ghost respects_eq = { Prim.search (hashing, rules) };

    fn hash<H: Hasher>(&self, state: &mut H) {
        self.text.bytes().hash(state);
    }
}
