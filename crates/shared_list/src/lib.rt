//! The blocks that each of many users used last, in one log.
//!
//! A [`SharedList`] has a list of blocks in order of last use for each of up to 32 users. A use of
//! one block by many of them is one use in the log. It tells each user whether the block was among
//! those that it used last, as many as the size says.
#![tactic(auto)]

mod latest;
mod list;
mod log;
mod shorten;
mod stamps;
mod users;
mod window;

pub use list::SharedList;
pub use users::{MAX_USERS, Users};
