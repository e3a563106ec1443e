//! Ids of constants under small numbers.
use module_arena::ConstId;
use std::alloc::{AllocError, Global};

/// How many ids stand in a page.
const PAGE: usize = 256;

/// Ids under small numbers, in pages that are made as they are needed: numbers that lie apart cost little room, and no id
/// is moved once it stands. What it was not told of may be at the first id.
#[derive(Drop)]
pub(crate) struct IdPages {
    pages: Vec<Vec<ConstId>>,
}

impl IdPages {
    /// It was told of no id.
    pub(crate) fn new(alloc: Global) -> IdPages {
        IdPages {
            pages: Vec::new(alloc),
        }
    }

    /// What may stand under the number.
    #[inline(always)]
    pub(crate) fn get(&self, number: u32) -> Option<ConstId> {
        let number = number as usize;
        self.pages.get(number / PAGE)?.get(number % PAGE).copied()
    }

    /// Tells what stands under the number.
    pub(crate) fn insert(
        &mut self,
        alloc: Global,
        number: u32,
        id: ConstId,
    ) -> Result<(), AllocError> {
        let (page, place) = (number as usize / PAGE, number as usize % PAGE);
        if self.pages.len() <= page {
            self.add_pages(alloc, page + 1)?;
        }
        if page < self.pages.len() {
            let ids = &mut self.pages[page];
            if ids.len() <= place {
                ids.resize(PAGE, ConstId::new(0))?;
            }
            ids[place] = id;
        }
        Ok(())
    }

    /// Adds pages, which have no room yet, until there are so many.
    #[cold]
    #[inline(never)]
    fn add_pages(&mut self, alloc: Global, count: usize) -> Result<(), AllocError> {
        for _ in self.pages.len()..count {
            self.pages.push(Vec::new(alloc))?;
        }
        Ok(())
    }
}
