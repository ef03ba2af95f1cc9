//! What is said of words that are refused.

ghost use Rattle.std.specs.Prelude.{◌≡◌, ◌⊎◌, ◌∷◌, [], IfOk, IfSome, None, OnOk, false, map};
ghost use Rattle.std.specs.Prelude.{string_bytes, true};
ghost use Rattle.std.specs.Char.{is_control};
ghost use Rattle.clap.specs.Words.{fault_of, takes};
ghost use Rattle.din_trace.specs.Device.{Writes};
ghost use Rattle.grid_options.specs.Grid.{grid_app};
ghost use Rattle.grid_options.specs.Refusals.{HasNoControls, IsUnexplained, grid_fault_text};

use crate::command::grid_command;
use crate::fault::GridWordsFault;
use clap::error::ErrorKind;
use din_trace::{ByteWriter, DeviceFailed};
use dinero_options::{NoMemory, put_words};
use std::alloc::{AllocError, Global};

/// Writes what is wrong with the words, without the program's name. For help, this writes nothing.
pub fn put_grid_words<W: ByteWriter>(
    fault: GridWordsFault,
    writer: &mut W,
) -> Result<(), DeviceFailed>
    ensures { Writes W.contents W.failures writer.old writer.new result (grid_fault_text fault) }
{
    match fault {
        GridWordsFault::Words(fault) => put_words(fault, writer),
        GridWordsFault::Threads => writer.put(b"--threads: not a number from 0 to 1024"),
        GridWordsFault::TooMany => writer.put(b"grid has more than 4096 configurations"),
    }
}

/// The character, or a question mark for one that could steer a terminal.
fn shown_character(character: char) -> char
    ensures { is_control result ≡ false }
{
    if character.is_control() {
        '?'
    } else {
        character
    }
}

/// Adds a blank behind a text that is not empty.
fn add_gap(text: &mut String) -> Result<(), AllocError>
    requires { HasNoControls (string_bytes text.old) }
    ensures { OnOk result (HasNoControls (string_bytes text.new)) }
{
    if !text.is_empty() {
        text.push(' ')?;
    }
    Ok(())
}

/// Adds a line, with a question mark for each character that could steer a terminal.
fn add_line(text: &mut String, line: &str) -> Result<(), AllocError>
    requires { HasNoControls (string_bytes text.old) }
    ensures { OnOk result (HasNoControls (string_bytes text.new)) }
{
    for character in line.chars() {
        text.push(shown_character(character))?;
    }
    Ok(())
}

/// The first paragraph of a text of clap, in one line.
fn first_paragraph(alloc: Global, said: &str) -> Result<String, AllocError>
    ensures { IfOk result (λ text. HasNoControls (string_bytes text)) }
{
    let mut text = String::new(alloc);
    for line in said.strip_prefix("error: ").unwrap_or(said).lines() {
        if line.is_empty() {
            return Ok(text);
        }
        add_gap(&mut text)?;
        add_line(&mut text, line.trim())?;
    }
    Ok(text)
}

/// What clap says of words that it refuses, in one line and without the program's name: which
/// option or word it is, and what is wrong with it. `None` where it takes the words, and also where
/// it names no reason to refuse them, or where help is asked for. Of the text itself the contract
/// only says that it has no control character.
pub fn grid_refusal_text(alloc: Global, words: &[String]) -> Result<Option<String>, NoMemory>
    ensures taken { takes grid_app (map string_bytes words.now) ≡ true
        → IfOk result (λ text. text ≡ None) }
    ensures told { IfOk result (λ text. text ≡ None → IsUnexplained (map string_bytes words.now)) }
    ensures silent { let kinds = fault_of grid_app (map string_bytes words.now) in
        (kinds ≡ []) ⊎ (kinds ≡ ErrorKind.DisplayHelp ∷ []) → IfOk result (λ text. text ≡ None) }
    ensures harmless { IfOk result (λ text.
        IfSome text (λ said. HasNoControls (string_bytes said))) }
{
    let Ok(command) = grid_command(alloc) else {
        return Err(NoMemory);
    };
    let Err(error) = command.try_get_matches_from(words) else {
        return Ok(None);
    };
    match error.kind() {
        ErrorKind::OutOfMemory => Err(NoMemory),
        ErrorKind::DisplayHelp => Ok(None),
        _ => {
            let Ok(said) = format!(in alloc; "{error}") else {
                return Err(NoMemory);
            };
            match first_paragraph(alloc, said.as_str()) {
                Ok(text) => Ok(Some(text)),
                Err(_) => Err(NoMemory),
            }
        }
    }
}
