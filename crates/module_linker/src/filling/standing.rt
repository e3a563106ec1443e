//! Which parts still stand while functions and aliases are defined.
ghost use Rattle.std.specs.Prelude.{◌≡◌, ◌+◌, List, length, map, slice_get, slice_set, true, Some, None, IfOk};
ghost use Rattle.module_arena.specs.Lists.{Lists};
ghost use Rattle.module_arena.specs.View.{module_of};
ghost use Rattle.module_arena.specs.WellFormed.{IsWellFormed};
ghost use Rattle.module_linker.specs.declared.filling.origins.SymbolOrigin.{SymbolOrigin};
ghost use Rattle.module_linker.specs.Filling.Standing.{AreLast, AreStanding};

use crate::filling::origins::{SymbolOrigin, origin_at};
use module_arena::{Arena, Checked};
use std::alloc::{AllocError, Global};

/// The parts that are still needed, each until the last symbol that is defined in it has its definition.
#[derive(Drop)]
pub(crate) struct StandingParts {
    parts: Vec<Option<Checked>>,
    /// For each part the number of that symbol; any number where none is defined in it.
    last: Vec<usize>,
}

/// All parts, each of which stands.
fn all_parts(alloc: Global, parts: Vec<Checked>) -> Result<Vec<Option<Checked>>, AllocError>
    ensures { IfOk result (λ all. all.items ≡ map Some parts.items) }
{
    parts.into_iter().map(|part| Some(part)).collect(alloc)
}

/// Notes that the symbol with that number is defined in that part.
#[tactic(auto, using(crate::proofs::OnFilling::Stands::set_past))]
fn note(last: &mut Vec<usize>, part: u64, number: usize)
    ensures { last.new.items ≡ slice_set last.old.items part number }
{
    let place = part as usize;
    if place >= last.len() {
        return;
    }
    last[place] = number;
}

/// Notes that the symbol with that number is defined where this is kept of it, if anywhere.
fn note_origin(last: &mut Vec<usize>, origin: &SymbolOrigin, number: usize)
    ensures { (origins : List SymbolOrigin) → slice_get origins number ≡ Some origin.now → AreLast number origins last.old.items → AreLast (number + 1) origins last.new.items }
{
    let Some(home) = origin.home else {
        return;
    };
    note(last, home.part, number);
}

/// For each of so many parts the number of the last symbol that is defined in it; 0 where none is.
fn last_numbers(
    alloc: Global,
    count: usize,
    origins: &[SymbolOrigin],
) -> Result<Vec<usize>, AllocError>
    ensures { IfOk result (λ last. AreLast (length origins.now) origins.now last.items) }
{
    let mut last = vec![in alloc; 0; count]?;
    'numbers: for number in 0..origins.len() {
        note_origin(&mut last, origin_at(origins, number), number);
    }
    Ok(last)
}

impl StandingParts {
    /// All parts, of whose symbols this is kept.
    pub(crate) fn new(
        alloc: Global,
        parts: Vec<Checked>,
        origins: &[SymbolOrigin],
    ) -> Result<StandingParts, AllocError>
        ensures { IfOk result (AreStanding 0 parts.items origins.now) }
    {
        let last = last_numbers(alloc, parts.len(), origins)?;
        let parts = all_parts(alloc, parts)?;
        Ok(StandingParts { parts, last })
    }

    /// The arena of a part that stands.
    pub(crate) fn arena(&self, part: u64) -> &Arena
        requires { (a : Lists) × (slice_get self.now.parts.items part ≡ Some (Some a)) }
        ensures arena { slice_get self.now.parts.items part ≡ Some (Some result.now) }
        ensures well_formed { IsWellFormed (module_of result.now) }
    {
        match &self.parts[part as usize] {
            Some(part) => part.arena(),
            None => unreachable!(),
        }
    }

    /// Whether the symbol with that number is the last that is defined in that part.
    #[tactic(auto, using(crate::proofs::OnFilling::Stands::number_read))]
    fn is_last(&self, part: u64, number: usize) -> bool
        ensures { result ≡ true → slice_get self.now.last.items part ≡ Some number }
    {
        let place = part as usize;
        if place >= self.last.len() {
            return false;
        }
        if self.last[place] != number {
            return false;
        }
        true
    }

    /// Lets that part go.
    #[tactic(auto, using(crate::proofs::OnFilling::Stands::set_past))]
    fn drop_part(&mut self, part: u64)
        ensures parts { self.new.parts.items ≡ slice_set self.old.parts.items part None }
        ensures last { self.new.last.items ≡ self.old.last.items }
    {
        let place = part as usize;
        if place >= self.parts.len() {
            return;
        }
        self.parts[place] = None;
    }

    /// Lets that part go where the symbol with that number, which has its definition now, is the last that is defined in it.
    pub(crate) fn let_go_behind(&mut self, number: usize, part: u64)
        ensures { (parts : List Lists) (origins : List SymbolOrigin) → AreStanding number parts origins self.old → AreStanding (number + 1) parts origins self.new }
    {
        if !self.is_last(part, number) {
            return;
        }
        self.drop_part(part);
    }
}
