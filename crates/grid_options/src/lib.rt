//! The words of a command line that ask for a grid: many configurations, from lists of values.
//!
//! [`parse_grid_words`] reads the words after a program's name, and answers the grid that they ask
//! for, or why they give none. [`grid_help_text`] is the help, [`put_grid_words`] writes what is
//! wrong with refused words, and [`grid_refusal_text`] is what clap says of them. The options,
//! their values and most refusals are those of the library dinero_options.
//!
//! The modules: `options` says which options it shares with the program of one configuration, and
//! which of them may have a list; `own` has those of its own. `command` gives them to clap, and
//! `help` has the texts around them. `values` cuts a text into its values, `product` makes the
//! points of the grid, and `grid` reads each. `written` writes what an option is set to. `words`
//! turns the words into the grid, `fault` says why they give none, and `refusal` has the text of
//! each refusal.
//!
//! Proved: the answer to the words is the one that `specs/Grid` defines, with clap's contracts for
//! the matches. Only tested: the texts of the help and of what clap says.
#![tactic(auto)]

mod command;
mod fault;
mod grid;
mod help;
mod options;
mod own;
mod product;
mod refusal;
mod values;
mod words;
mod written;

pub use command::grid_help_text;
pub use fault::GridWordsFault;
pub use grid::{GridPoint, ParsedGrid};
pub use refusal::{grid_refusal_text, put_grid_words};
pub use words::parse_grid_words;
