//! The words of a command line: the options of the simulator, and what the words ask for.
//!
//! [`parse_words`] reads the words after a program's name, and answers the configuration and the
//! selection that they ask for, or why they give none. [`help_text`] is the help, and [`put_words`]
//! writes what is wrong with refused words.
//!
//! The modules: `opt` has the names of the options, and `help` says what each one sets. `command`
//! gives them to clap. `values` reads a size, a count or a letter. `texts` takes the text of each
//! option from clap's matches, and tells which can be read. `settings` reads a text for each
//! option, and `words` turns the words into a lawful configuration and a selection. `fault` says
//! why they give none. `refusal` and `trace_refusal` have the text and the exit status of each
//! refusal of words or of a trace, which all programs share; `refusal` also has the fault of
//! arguments that cannot be read.
//!
//! A program whose options are some of these, or that reads many texts for an option, builds on the
//! same steps: [`add_options`], [`take_words`], [`matched_text`], [`can_read`],
//! [`unreadable_fault`], [`settings_in`].
//!
//! Proved: the answer to the words is the one that `specs/Answer` defines, with clap's contracts
//! for the matches. If the words are refused, the fault is the first one by those definitions, or
//! out of memory. The text of a refusal is that of `specs/Refusals`. Only tested: the text of the
//! help.
#![tactic(auto)]

mod command;
mod fault;
mod help;
mod opt;
mod refusal;
mod settings;
mod texts;
mod trace_refusal;
mod values;
mod words;

pub use command::{NoMemory, add_options, help_text};
pub use fault::WordsFault;
pub use opt::Opt;
pub use refusal::{config_text, put_words, unreadable_arguments_fault, words_status};
pub use settings::{Settings, settings_in};
pub use texts::{can_read, listed_text, matched_text, unreadable_fault};
pub use trace_refusal::{put_trace, trace_status};
pub use values::{read_count, read_size};
pub use words::{parse_words, take_words};
