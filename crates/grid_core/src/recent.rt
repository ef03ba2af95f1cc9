//! The block that was used last.

ghost use Rattle.std.specs.Prelude.{◌≡◌, true};
ghost use Rattle.grid_core.specs.Recent.{IsAgain, after_use, none_recent};

/// What is known of the block that was used last: which block it is, whether no flush came since,
/// and whether a write is among its uses since another block was used.
#[derive(Clone, Copy, Debug)]
pub(crate) struct Recent {
    pub block: u64,
    pub used: bool,
    pub written: bool,
}

/// Nothing is known, as at the start and after a flush.
pub(crate) fn nothing_recent() -> Recent
    ensures { result ≡ none_recent }
{
    Recent {
        block: 0,
        used: false,
        written: false,
    }
}

/// Whether a write is among the uses of a block since another one was used.
fn is_written(recent: Recent, block: u64, write: bool) -> bool
    ensures { result ≡ (after_use block write recent).written }
{
    write || (recent.block == block && recent.written)
}

/// What is known after a use of a block.
pub(crate) fn used_now(recent: Recent, block: u64, write: bool) -> Recent
    ensures { result ≡ after_use block write recent }
{
    Recent {
        block,
        used: true,
        written: is_written(recent, block, write),
    }
}

/// Whether a use of a block is one more of the block that was used last, and makes it dirty
/// nowhere.
pub(crate) fn is_again(recent: Recent, block: u64, write: bool) -> bool
    ensures again { result ≡ true → IsAgain block write recent }
    ensures every { IsAgain block write recent → result ≡ true }
{
    recent.used && recent.block == block && (!write || recent.written)
}
