//! Texts and names that are kept for long: short ones in a word, longer ones behind a box.
ghost use Rattle.std.specs.Prelude.{◌≡◌, ℕ, ◌≤◌, List, IfOk, length, take};
ghost use Rattle.ir_base.specs.Name.{IsName};
ghost use Rattle.ir_terminals.specs.Compact.{IsKept};

use ir_base::{Name, Text};
use std::alloc::{AllocError, Global};
use std::marker::Model;

/// How many bytes stand in a word beside their count.
const SHORT: usize = 14;

/// A count of bytes that stand here, and the bytes with room behind them; or bytes behind a box.
#[derive(Drop)]
enum Stored {
    /// How many bytes there are, and the bytes, with room behind them.
    Short(u8, [u8; 14]),
    /// More bytes than have room here.
    Long(Box<Text>),
}

/// Bytes of any values that do not change, in 16 bytes: up to 14 of them stand in it, more stand behind a box.
#[derive(Drop)]
pub struct CompactText {
    stored: Stored,
}

impl Model for CompactText {
    ghost use Rattle.std.specs.Prelude.{ℕ, List};
    ghost use Rattle.ir_terminals.specs.Compact.{stored_bytes, IsShort};

    ghost Value = { List ℕ };

    ghost view = { λ text. stored_bytes text.stored };

    ghost invariant = { λ text. IsShort text.stored };
}

impl CompactText {
    /// A copy of the bytes, which holds no more room than they take.
    pub fn from_slice(alloc: Global, bytes: &[u8]) -> Result<CompactText, AllocError>
        ensures { IfOk result (λ text. text ≡ bytes.now) }
    {
        if bytes.len() <= SHORT {
            return Ok(CompactText {
                stored: short_of(bytes),
            });
        }
        let text = Text::from_slice(alloc, bytes)?;
        Ok(CompactText {
            stored: Stored::Long(Box::new(alloc, text)?),
        })
    }

    /// The bytes.
    pub fn bytes(&self) -> &[u8]
        ensures { result.now ≡ self.now }
    {
        match &self.stored {
            Stored::Short(count, bytes) => &bytes[..*count as usize],
            Stored::Long(text) => text.bytes(),
        }
    }

    /// The bytes as a text that can grow.
    pub fn to_text(&self, alloc: Global) -> Result<Text, AllocError>
        ensures { IfOk result (λ text. text ≡ self.now) }
    {
        Text::from_slice(alloc, self.bytes())
    }
}

/// A name that does not change, in 16 bytes: up to 14 bytes stand in it, more stand behind a box.
///
/// ```
/// let name = CompactName::from_slice(alloc, b"main")?;
/// name.bytes() // `main`
/// ```
#[derive(Drop)]
pub struct CompactName {
    text: CompactText,
}

impl Model for CompactName {
    ghost use Rattle.std.specs.Prelude.{ℕ, List};
    ghost use Rattle.ir_base.specs.Name.{IsName};

    ghost Value = { List ℕ };

    ghost view = { λ name. name.text };

    ghost invariant = { λ name. IsName name.text };
}

impl CompactName {
    /// The name with these bytes.
    pub fn from_slice(alloc: Global, bytes: &[u8]) -> Result<CompactName, AllocError>
        requires { IsName bytes.now }
        ensures { IfOk result (λ name. name ≡ bytes.now) }
    {
        Ok(CompactName {
            text: CompactText::from_slice(alloc, bytes)?,
        })
    }

    /// The name's bytes.
    pub fn bytes(&self) -> &[u8]
        ensures bytes { result.now ≡ self.now }
        ensures name { IsName self.now }
    {
        self.text.bytes()
    }

    /// A copy of the name.
    pub fn to_name(&self, alloc: Global) -> Result<Name, AllocError>
        ensures { IfOk result (λ name. name ≡ self.now) }
    {
        let text = self.text.to_text(alloc)?;
        Ok(Name::from_text(text).unwrap())
    }
}

/// So few bytes, as they stand in a word.
fn short_of(given: &[u8]) -> Stored
    requires { length given.now ≤ 14 }
    ensures { IsKept result given.now }
{
    let mut bytes = [0u8; 14];
    for i in 0..given.len() {
        bytes[i] = given[i];
    }
    Stored::Short(given.len() as u8, bytes)
}
