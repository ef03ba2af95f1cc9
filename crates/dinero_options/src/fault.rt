//! Why words give no configuration.

use crate::opt::Opt;
use stage_core::ConfigFault;

/// Why the words give no configuration. If several things are wrong, a refusal of clap comes first,
/// then the first option whose value cannot be read, then the first rule that the configuration
/// breaks.
#[derive(Clone, Copy, Debug, PartialEq, Eq)]
pub enum WordsFault {
    /// clap refused the words: an unknown option, one given twice or without a value, or one that
    /// is required and missing. Or an argument of the program is not UTF-8.
    Words,
    /// The value of the option is not a size or a count.
    Number(Opt),
    /// The value of the option is not one of its two letters.
    Choice(Opt),
    /// The configuration breaks a rule.
    Config(ConfigFault),
    /// Help was asked for.
    Help,
    /// An allocation failed.
    Memory,
}
