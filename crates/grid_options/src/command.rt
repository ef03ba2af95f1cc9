//! The command that clap parses the words with, and its help.

ghost use Rattle.std.specs.Prelude.{◌≡◌, IfOk, codes};
ghost use Rattle.clap.specs.Words.{app_of};
ghost use Rattle.dinero_options.specs.Options.{bare_app, with_options};
ghost use Rattle.grid_options.specs.Grid.{grid_app, shared_options};

use crate::help::{about, more, usage};
use crate::options::SHARED;
use crate::own::{full_argument, threads_argument};
use clap::Command;
use dinero_options::{NoMemory, add_options};
use std::alloc::{AllocError, Global};

/// The command with the options that the program shares.
fn shared_command<'a>(alloc: Global) -> Result<Command<'a>, AllocError>
    ensures { IfOk result (λ c.
        app_of c ≡ with_options (bare_app (codes "dinero_grid")) shared_options) }
{
    let command = Command::new(alloc, "dinero_grid")
        .about(about())
        .override_usage(usage())
        .after_help(more())
        .no_binary_name(true);
    add_options(alloc, command, &SHARED)
}

/// The command with all options.
pub(crate) fn grid_command<'a>(alloc: Global) -> Result<Command<'a>, AllocError>
    ensures { IfOk result (λ c. app_of c ≡ grid_app) }
{
    let command = shared_command(alloc)?;
    let command = command.arg(threads_argument(alloc))?;
    command.arg(full_argument(alloc))
}

/// The text of the help, laid out by clap. The contract says nothing about the text.
pub fn grid_help_text(alloc: Global) -> Result<String, NoMemory> {
    let Ok(mut command) = grid_command(alloc) else {
        return Err(NoMemory);
    };
    command.render_help().or(Err(NoMemory))
}
