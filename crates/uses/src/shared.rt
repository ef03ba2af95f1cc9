//! A use of shared_list.

use shared_list::SharedList;
use std::alloc::{AllocError, Global};

/// Which of two users had a block among its last two, when both use it again.
pub fn hits_of_two_users(alloc: Global) -> Result<(bool, bool), AllocError> {
    let mut list = SharedList::new(alloc, 2, 2)?;
    list.begin(7)?;
    let _first = (list.touch(0, 7), list.touch(1, 7));
    list.begin(8)?;
    let _second = list.touch(0, 8);
    list.begin(9)?;
    let _third = list.touch(0, 9);
    list.begin(7)?;
    Ok((list.touch(0, 7), list.touch(1, 7)))
}
