//! The words of a mask.
ghost use Rattle.std.specs.Prelude.{◌≡◌, ◌∷◌, [], ◌<◌, IfOk, length, replicate, slice_index_or, slice_set};

use std::alloc::{AllocError, Global};
use std::marker::Model;

/// The words of a mask, at least one: a mask of up to 64 marks takes no memory of its own.
#[derive(Drop)]
pub struct Words {
    first: u64,
    others: Vec<u64>,
}

impl Model for Words {
    ghost use Rattle.std.specs.Prelude.{◌∷◌, List, ℕ};

    ghost Value = { List ℕ };

    ghost view = { λ w. w.first ∷ w.others.items };
}

impl Words {
    /// A word of zeros, and so many others.
    pub fn new(alloc: Global, others: usize) -> Result<Words, AllocError>
        ensures { IfOk result (λ words. words ≡ 0 ∷ replicate others 0) }
    {
        Ok(Words {
            first: 0,
            others: vec![in alloc; 0; others]?,
        })
    }

    /// One word of zeros, which takes no memory.
    pub fn one(alloc: Global) -> Words
        ensures { result ≡ 0 ∷ [] }
    {
        Words {
            first: 0,
            others: Vec::new(alloc),
        }
    }

    /// The word at a place.
    pub fn get(&self, place: usize) -> u64
        requires { place < length self.now }
        ensures { result ≡ slice_index_or self.now place 0 }
    {
        if place == 0 {
            self.first
        } else {
            self.others[place - 1]
        }
    }

    /// Sets the word at a place.
    pub fn put(&mut self, place: usize, word: u64)
        requires { place < length self.old }
        ensures { self.new ≡ slice_set self.old place word }
    {
        if place == 0 {
            self.first = word;
            return;
        }
        self.others[place - 1] = word;
    }
}
