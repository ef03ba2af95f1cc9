//! A use of marked_list.

use marked_list::Marked;
use std::alloc::{AllocError, Global};

/// The hits of fully associative LRU caches of one, two and four blocks, from one reading.
pub fn hits_of_sizes(alloc: Global) -> Result<[u64; 3], AllocError> {
    let mut hits = [0u64; 3];
    let mut marked = Marked::new(alloc, &[1, 2, 4])?;
    for number in [7, 7, 8, 7, 9, 10, 8usize] {
        let level = marked.touch(number)?;
        for (size, hits) in hits.iter_mut().enumerate() {
            if level <= size {
                *hits = hits.saturating_add(1);
            }
        }
    }
    Ok(hits)
}
