//! Abbreviations that are in force.
ghost use Rattle.std.specs.Prelude.{◌≡◌, ◌≤◌, [], ◌++◌, ◌∷◌, length, OnOk, option_copied, slice_get};
ghost use Rattle.bit_stream.specs.declared.admitted.TheConstants.{MOST_ABBREVIATIONS};

use crate::abbreviation::AdmittedAbbreviation;
use std::alloc::{AllocError, Global};
use std::marker::Model;

/// How many abbreviations a list holds at most: more than a stream of 2^30 bytes defines.
const MOST_ABBREVIATIONS: usize = 1 << 30;

/// Some abbreviations, in order.
#[derive(Drop)]
pub struct AdmittedList {
    items: Vec<AdmittedAbbreviation>,
}

impl Model for AdmittedList {
    ghost use Rattle.std.specs.Prelude.{List, ◌≤◌, length};
    ghost use Rattle.bit_stream.specs.declared.admitted.TheConstants.{MOST_ABBREVIATIONS};
    ghost use Rattle.bit_stream.specs.Abbreviation.{AdmittedAbbreviation};

    ghost Value = { List AdmittedAbbreviation };

    ghost view = { λ list. list.items.items };

    ghost invariant = { λ list. length list.items.items ≤ MOST_ABBREVIATIONS };
}

impl AdmittedList {
    /// No abbreviations.
    pub fn new(alloc: Global) -> Self
        ensures { result ≡ [] }
    {
        AdmittedList {
            items: Vec::new(alloc),
        }
    }

    /// How many there are.
    pub fn len(&self) -> usize
        ensures value { result ≡ length self.now }
        ensures few { result ≤ MOST_ABBREVIATIONS }
    {
        self.items.len()
    }

    /// The one with this index.
    pub fn get(&self, index: usize) -> Option<&AdmittedAbbreviation>
        ensures { option_copied result ≡ slice_get self.now index }
    {
        self.items.as_slice().get(index)
    }

    /// Adds one at the end. Where the list is full there is no memory for it.
    pub fn push(&mut self, abbreviation: AdmittedAbbreviation) -> Result<(), AllocError>
        ensures { OnOk result (self.new ≡ self.old ++ abbreviation ∷ []) }
    {
        if self.items.len() >= MOST_ABBREVIATIONS {
            return Err(AllocError);
        }
        self.items.push(abbreviation)?;
        Ok(())
    }
}
