//! A table of texts in the making.
ghost use Rattle.std.specs.Prelude.{◌≡◌, ◌∷◌, ◌++◌, [], List, length, OnOk, unwrap_or, bytes_eq, if◌then◌else◌};
ghost use Rattle.type_table.specs.Names.Entries.{value_of};
ghost use Rattle.record_write.specs.Order.Table.{no_texts, Gains};

use std::alloc::{AllocError, Global};
use std::marker::Model;
use type_table::names::NameTable;

/// Texts, each once, one behind the other, and where each of them stands.
#[derive(Drop)]
pub struct TextTable<'a> {
    offsets: NameTable<'a, u64>,
    /// The bytes of the texts, each an operand of the table's record.
    bytes: Vec<u64>,
}

impl<'a> Model for TextTable<'a> {
    ghost use Rattle.record_write.specs.Order.Table.{PlacedTexts};

    ghost Value = { PlacedTexts };

    ghost view = { λ t. record { offsets = t.offsets; bytes = t.bytes.items } };
}

/// Puts the bytes of a text behind others, each as an operand.
fn put_bytes(bytes: &mut Vec<u64>, text: &[u8]) -> Result<(), AllocError>
    ensures { OnOk result (bytes.new.items ≡ bytes.old.items ++ text.now) }
{
    for byte in text {
        bytes.push(u64::from(*byte))?;
    }
    Ok(())
}

impl<'a> TextTable<'a> {
    /// No texts.
    pub fn new(alloc: Global) -> Self
        ensures { result ≡ no_texts }
    {
        TextTable {
            offsets: NameTable::new(alloc),
            bytes: Vec::new(alloc),
        }
    }

    /// One more text, at the end, if it is new. The empty text needs no place.
    pub fn add(&mut self, text: &'a [u8]) -> Result<(), AllocError>
        ensures { OnOk result (Gains self.old self.new (text.now ∷ [])) }
    {
        if text.is_empty() {
            return Ok(());
        }
        if self.offsets.get(text).is_some() {
            return Ok(());
        }
        self.offsets.put(text, self.bytes.len() as u64)?;
        put_bytes(&mut self.bytes, text)?;
        Ok(())
    }

    /// How many bytes stand before a text of the table, in bytes; before one that it lacks, all. The empty text stands at 0.
    pub fn offset(&self, text: &[u8]) -> u64
        ensures { result ≡ (if bytes_eq text.now [] then 0 else unwrap_or (value_of self.now.offsets text.now) (length self.now.bytes)) }
    {
        if text.is_empty() {
            return 0;
        }
        self.offsets.get(text).unwrap_or(self.bytes.len() as u64)
    }

    /// The bytes of all texts, each an operand.
    pub fn operands(&self) -> &[u64]
        ensures { result.now ≡ self.now.bytes }
    {
        &self.bytes
    }
}
