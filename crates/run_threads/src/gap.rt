//! Small blocks of memory that are left free between the machines of a run.

use stage_core::NoMemory;
use std::alloc::Global;

/// How many small blocks of memory a gap has.
const GAP: usize = 4;

/// Allocates a gap between two machines: blocks of the size of those at the ends of a shadow's
/// list. Each access writes to the latter, and an allocator puts small blocks side by side. Without
/// a gap two threads would write to one line of the processor's caches.
///
/// A gap is freed as soon as all machines are made, which then stand apart. What is allocated later
/// may stand in it: a gap makes a shared line unlikely, and does not rule it out.
pub(crate) fn gap(alloc: Global) -> Result<Vec<Vec<u64>>, NoMemory> {
    let mut blocks = Vec::new(alloc);
    for _ in 0..GAP {
        let Ok(block) = vec![in alloc; 0u64; 3] else {
            return Err(NoMemory);
        };
        if blocks.push(block).is_err() {
            return Err(NoMemory);
        }
    }
    Ok(blocks)
}
