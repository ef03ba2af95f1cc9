//! Why words give no grid.

use dinero_options::WordsFault;

/// Why the words give no grid. If several things are wrong, a refusal of clap comes first, then the
/// first option one of whose values cannot be read, then the number of threads, then that of the
/// configurations.
#[derive(Clone, Copy, Debug, PartialEq, Eq)]
pub enum GridWordsFault {
    /// The words are refused like those of one configuration. Never holds `WordsFault::Config`.
    Words(WordsFault),
    /// The value of `--threads` is no count, or above 1,024.
    Threads,
    /// The grid has more than 4,096 configurations.
    TooMany,
}

/// An allocation failed.
pub(crate) const MEMORY: GridWordsFault = GridWordsFault::Words(WordsFault::Memory);
