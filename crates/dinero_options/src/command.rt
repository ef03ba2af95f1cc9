//! The command that clap parses the words with, and its help.

ghost use Rattle.std.specs.Prelude.{◌≡◌, IfOk, false};
ghost use Rattle.clap.specs.Words.{app_of, rule_of};
ghost use Rattle.dinero_options.specs.Options.{command_app, rule_of_option, with_options};

use crate::help::{about, heading, help, more, usage, value_name};
use crate::opt::Opt;
use clap::{Arg, Command};
use std::alloc::{AllocError, Global};

/// An allocation failed.
#[derive(Clone, Copy, Debug, PartialEq, Eq)]
pub struct NoMemory;

/// The option as clap knows it.
fn argument<'a>(alloc: Global, option: Opt) -> Arg<'a>
    ensures rule { rule_of result ≡ rule_of_option option }
    ensures local { result.global ≡ false }
{
    let argument = Arg::new(alloc, option.id())
        .long(option.id())
        .value_name(value_name(option))
        .help(help(option))
        .help_heading(heading(option));
    match option.default() {
        Some(text) => argument.default_value(text),
        None => argument.required(true),
    }
}

/// The command, and these options added to it in turn, with their help.
pub fn add_options<'a>(
    alloc: Global,
    mut command: Command<'a>,
    options: &[Opt],
) -> Result<Command<'a>, AllocError>
    ensures { IfOk result (λ c. app_of c ≡ with_options (app_of command.entry) options.now) }
{
    for option in options {
        command = command.arg(argument(alloc, *option))?;
    }
    Ok(command)
}

/// The command with all options.
pub(crate) fn command<'a>(alloc: Global) -> Result<Command<'a>, AllocError>
    ensures { IfOk result (λ c. app_of c ≡ command_app) }
{
    let command = Command::new(alloc, "dinero_pipe")
        .about(about())
        .override_usage(usage())
        .after_help(more())
        .no_binary_name(true);
    add_options(alloc, command, &Opt::ALL)
}

/// The text of the help, laid out by clap. The contract says nothing about the text.
pub fn help_text(alloc: Global) -> Result<String, NoMemory> {
    let Ok(mut command) = command(alloc) else {
        return Err(NoMemory);
    };
    command.render_help().or(Err(NoMemory))
}
