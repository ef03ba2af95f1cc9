//! What a cache knows of a block.

ghost use Rattle.std.specs.Prelude.{◌≡◌};
ghost use Rattle.stamped_cache.specs.Putting.{loaded};
ghost use Rattle.stamped_cache.specs.States.{is_held, was_written};

/// What a cache knows of a block: whether it holds it, and if so, whether a write used it at its
/// last load or after that.
#[derive(Clone, Copy, Debug, PartialEq, Eq)]
pub(crate) enum State {
    Absent,
    Clean,
    Written,
}

impl State {
    /// The state of a block that was just loaded, by a write or not.
    pub fn of_load(write: bool) -> State
        ensures { result ≡ loaded write }
    {
        if write { State::Written } else { State::Clean }
    }

    /// Whether the cache holds the block.
    #[inline(always)]
    pub fn is_held(self) -> bool
        ensures { result ≡ is_held self }
    {
        match self {
            State::Absent => false,
            State::Clean | State::Written => true,
        }
    }

    /// Whether a write used the block at its last load or after that.
    #[inline(always)]
    pub fn was_written(self) -> bool
        ensures { result ≡ was_written self }
    {
        match self {
            State::Absent | State::Clean => false,
            State::Written => true,
        }
    }
}
