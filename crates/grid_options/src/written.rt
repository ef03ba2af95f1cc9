//! The value of an option, as the table writes it where it has a column for each.

ghost use Rattle.std.specs.Prelude.{◌≡◌, IfOk, decimal, string_bytes};
ghost use Rattle.grid_options.specs.Written.{choice_letter, replacement_letter, written};

use cache_core::Repl;
use dinero_options::{Opt, Settings};
use itoa::Buffer;
use std::alloc::{AllocError, Global};

/// A number in decimal digits.
fn number_text(alloc: Global, number: u64) -> Result<String, AllocError>
    ensures { IfOk result (λ text. string_bytes text ≡ decimal number) }
{
    let mut digits = Buffer::new();
    String::from_str(alloc, digits.format(number))
}

/// The letter of a replacement policy.
fn replacement_text(alloc: Global, repl: Repl) -> Result<String, AllocError>
    ensures { IfOk result (λ text. string_bytes text ≡ replacement_letter repl) }
{
    match repl {
        Repl::Lru => String::from_str(alloc, "l"),
        Repl::Fifo => String::from_str(alloc, "f"),
    }
}

/// The letter of "always" or "never".
fn choice_text(alloc: Global, is_always: bool) -> Result<String, AllocError>
    ensures { IfOk result (λ text. string_bytes text ≡ choice_letter is_always) }
{
    if is_always {
        String::from_str(alloc, "a")
    } else {
        String::from_str(alloc, "n")
    }
}

/// What an option is set to: a number in decimal digits, of a size its bytes; or a letter.
pub(crate) fn written(alloc: Global, settings: Settings, option: Opt) -> Result<String, AllocError>
    ensures { IfOk result (λ text. string_bytes text ≡ written settings option) }
{
    match option {
        Opt::L1Isize => number_text(alloc, settings.i.size),
        Opt::L1Ibsize => number_text(alloc, settings.i.bsize),
        Opt::L1Iassoc => number_text(alloc, settings.i.assoc),
        Opt::L1Irepl => replacement_text(alloc, settings.i.policy.repl),
        Opt::L1Dsize => number_text(alloc, settings.d.size),
        Opt::L1Dbsize => number_text(alloc, settings.d.bsize),
        Opt::L1Dassoc => number_text(alloc, settings.d.assoc),
        Opt::L1Drepl => replacement_text(alloc, settings.d.policy.repl),
        Opt::L1Dwback => choice_text(alloc, settings.d.policy.wback),
        Opt::L1Dwalloc => choice_text(alloc, settings.d.policy.walloc),
        Opt::L2Usize => number_text(alloc, settings.u.size),
        Opt::L2Ubsize => number_text(alloc, settings.u.bsize),
        Opt::L2Uassoc => number_text(alloc, settings.u.assoc),
        Opt::L2Urepl => replacement_text(alloc, settings.u.policy.repl),
        Opt::L2Uwback => choice_text(alloc, settings.u.policy.wback),
        Opt::L2Uwalloc => choice_text(alloc, settings.u.policy.walloc),
        Opt::Ring => number_text(alloc, settings.ring),
        Opt::Skipcount => number_text(alloc, settings.selection.skip),
        Opt::Maxcount => number_text(alloc, settings.selection.max),
        Opt::Flushcount => number_text(alloc, settings.selection.every),
    }
}
