//! Numbers for blocks.

ghost use Rattle.std.specs.Prelude.{◌≡◌, Some, IfOk, OnOk, OnErr};
ghost use Rattle.cache_core.specs.Lists.{IsBeginning};
ghost use Rattle.grid_core.specs.AtHand.{HaveRightNumbers};
ghost use Rattle.grid_core.specs.Numbers.{number_at, with_number};

use crate::at_hand::{Entry, at_hand, keep_at_hand};
use cache_core::NoMemory;
use indexmap::IndexSet;
use std::alloc::{AllocError, Global};

/// Blocks that are numbered from 0, in the order in which they were first asked for. An engine has
/// its own. Others can be told the numbers of their blocks, and do with one table for all: see
/// [`Engine::access_numbered`](crate::Engine::access_numbered).
#[derive(Drop)]
pub struct BlockNumbers {
    blocks: IndexSet<u64>,
    /// Some of the numbers, where they are found at once.
    entries: Vec<Entry>,
    ghost right: { HaveRightNumbers (number_at blocks.keys) entries.items },
}

/// The number of a block. A block that has none gets the next one.
fn number_block(blocks: &mut IndexSet<u64>, block: u64) -> Result<usize, AllocError>
    ensures number { IfOk result (λ n. number_at blocks.new.keys block ≡ Some n) }
    ensures grows { IsBeginning blocks.old.keys blocks.new.keys }
    ensures only { OnOk result (blocks.new.keys ≡ with_number block blocks.old.keys) }
    ensures refused { OnErr result (blocks.new.keys ≡ blocks.old.keys) }
{
    let Ok((number, _)) = blocks.insert_full(block) else {
        return Err(AllocError);
    };
    Ok(number)
}

#[tactic(auto, unfolding(crate::specs::Numbered::blocks_in))]
impl BlockNumbers {
    ghost use Rattle.std.specs.Prelude.{◌≡◌, [], Some, IfOk, OnOk, OnErr};
    ghost use Rattle.cache_core.specs.Lists.{IsBeginning};
    ghost use Rattle.grid_core.specs.Numbered.{blocks_in};
    ghost use Rattle.grid_core.specs.Numbers.{MayNumber, number_at, with_number};

    /// No block is numbered, and no memory is taken for any.
    pub fn new(alloc: Global) -> BlockNumbers
        ensures { blocks_in result ≡ [] }
    {
        BlockNumbers {
            blocks: IndexSet::new(alloc),
            entries: Vec::new(alloc),
        }
    }

    /// The number of a block that is not at hand. Not inlined, so that one at hand costs less.
    #[inline(never)]
    fn look_up(&mut self, block: u64) -> Result<usize, AllocError>
        ensures number { IfOk result (λ n. number_at (blocks_in self.new) block ≡ Some n) }
        ensures grows { IsBeginning (blocks_in self.old) (blocks_in self.new) }
        ensures only { OnOk result
            (blocks_in self.new ≡ with_number block (blocks_in self.old)) }
        ensures refused { OnErr result
            (MayNumber block (blocks_in self.old) (blocks_in self.new)) }
    {
        let number = number_block(&mut self.blocks, block)?;
        keep_at_hand(&mut self.entries, block, number)?;
        Ok(number)
    }

    /// The number of a block. A block that has none gets the next one. If memory is refused, the
    /// blocks that had numbers keep them, and this one may have got one. This is inlined, since
    /// most blocks are at hand.
    #[inline(always)]
    pub fn number(&mut self, block: u64) -> Result<usize, NoMemory>
        ensures number { IfOk result (λ n. number_at (blocks_in self.new) block ≡ Some n) }
        ensures grows { IsBeginning (blocks_in self.old) (blocks_in self.new) }
        ensures only { OnOk result
            (blocks_in self.new ≡ with_number block (blocks_in self.old)) }
        ensures refused { OnErr result
            (MayNumber block (blocks_in self.old) (blocks_in self.new)) }
    {
        if let Some(number) = at_hand(&self.entries, block) {
            return Ok(number);
        }
        let Ok(number) = self.look_up(block) else {
            return Err(NoMemory);
        };
        Ok(number)
    }
}
