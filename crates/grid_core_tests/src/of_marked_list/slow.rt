//! A plain, slow list, written straight from the definitions: the blocks in order of last use.

use std::alloc::Global;
use std::process::Abort;

#[derive(Drop)]
pub(crate) struct Slow {
    sizes: Vec<usize>,
    /// The latest block is the last one.
    blocks: Vec<usize>,
}

impl Slow {
    pub(crate) fn new(rt: &impl Abort, alloc: Global, sizes: &[usize]) -> Slow {
        Slow {
            sizes: Vec::from_slice(alloc, sizes).expect(rt, "memory"),
            blocks: Vec::new(alloc),
        }
    }

    /// The first size among whose latest blocks the block is, by how many were used after it.
    fn level(&self, number: usize) -> usize {
        let mut later = 0usize;
        for block in self.blocks.iter().rev() {
            if *block == number {
                return self.first_above(later);
            }
            later = later.wrapping_add(1);
        }
        self.sizes.len()
    }

    fn first_above(&self, later: usize) -> usize {
        for (index, size) in self.sizes.iter().enumerate() {
            if later < *size {
                return index;
            }
        }
        self.sizes.len()
    }

    /// Uses a block, and answers its level before.
    pub(crate) fn touch(&mut self, rt: &impl Abort, number: usize) -> usize {
        let level = self.level(number);
        self.blocks.retain(|block| *block != number);
        assert!(rt; self.blocks.push(number).is_ok());
        level
    }

    pub(crate) fn clear(&mut self) {
        self.blocks.clear();
    }
}
