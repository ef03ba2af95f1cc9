//! What is said of words that are refused, and the fault of arguments that cannot be read.

ghost use Rattle.std.specs.Prelude.{◌≡◌, ◌++◌, IfOk, string_bytes};
ghost use Rattle.din_trace.specs.Device.{Writes};
ghost use Rattle.dinero_options.specs.Refusals.{cache_name_text, config_fault_text};
ghost use Rattle.dinero_options.specs.Refusals.{geometry_fault_text, unreadable_arguments_fault};
ghost use Rattle.dinero_options.specs.Refusals.{words_fault_text, words_status};

use crate::fault::WordsFault;
use cache_core::GeometryFault;
use din_trace::{ByteWriter, DeviceFailed};
use stage_core::{CacheName, ConfigFault};
use std::alloc::{AllocError, Global};
use std::io::ErrorKind;

/// The name of a cache.
fn cache_text(name: CacheName) -> &'static str
    ensures { result.now ≡ cache_name_text name }
{
    match name {
        CacheName::I => "l1-icache",
        CacheName::D => "l1-dcache",
        CacheName::U => "l2-ucache",
    }
}

/// What is wrong with the geometry of a cache.
fn geometry_text(fault: GeometryFault) -> &'static str
    ensures { result.now ≡ geometry_fault_text fault }
{
    match fault {
        GeometryFault::SizeNotPower => "size is not a power of two",
        GeometryFault::SizeRange => "size is out of range",
        GeometryFault::BlockNotPower => "block is not a power of two",
        GeometryFault::BlockRange => "block is out of range",
        GeometryFault::AssocNotPower => "associativity is not a power of two",
        GeometryFault::AssocTooLarge => "associativity is too large",
    }
}

/// The text of a refused configuration: what it begins with, and the rest.
fn config_parts(fault: ConfigFault) -> (&'static str, &'static str, &'static str)
    ensures { result.0.now ++ (result.1.now ++ result.2.now) ≡ config_fault_text fault }
{
    match fault {
        ConfigFault::Geometry(which, fault) => (cache_text(which), ": ", geometry_text(fault)),
        ConfigFault::BlockOrder => ("l2 block is shorter than an l1 block", "", ""),
        ConfigFault::Ring => ("ring is not from 1 to 65536", "", ""),
    }
}

/// Writes the text of a refused configuration.
fn put_config<W: ByteWriter>(fault: ConfigFault, writer: &mut W) -> Result<(), DeviceFailed>
    ensures { Writes W.contents W.failures writer.old writer.new result (config_fault_text fault) }
{
    let (first, then, last) = config_parts(fault);
    writer.put(first.as_bytes())?;
    writer.put(then.as_bytes())?;
    writer.put(last.as_bytes())
}

/// The text of a refused configuration, as `put_words` writes it.
pub fn config_text(alloc: Global, fault: ConfigFault) -> Result<String, AllocError>
    ensures { IfOk result (λ text. string_bytes text ≡ config_fault_text fault) }
{
    let (first, then, last) = config_parts(fault);
    let mut text = String::from_str(alloc, first)?;
    text.push_str(then)?;
    text.push_str(last)?;
    Ok(text)
}

/// The fault if the program's arguments cannot be read: an allocation failed, or one is not UTF-8.
pub fn unreadable_arguments_fault(kind: ErrorKind) -> WordsFault
    ensures { result ≡ unreadable_arguments_fault kind }
{
    match kind {
        ErrorKind::OutOfMemory => WordsFault::Memory,
        _ => WordsFault::Words,
    }
}

/// The exit status for a refused command line: 0 if help was asked for, 3 if an allocation failed,
/// 2 for any other refusal.
pub fn words_status(fault: WordsFault) -> u8
    ensures { result ≡ words_status fault }
{
    match fault {
        WordsFault::Help => 0,
        WordsFault::Memory => 3,
        _ => 2,
    }
}

/// Writes what is wrong with the words, without the program's name. For help, this writes nothing.
pub fn put_words<W: ByteWriter>(fault: WordsFault, writer: &mut W) -> Result<(), DeviceFailed>
    ensures { Writes W.contents W.failures writer.old writer.new result (words_fault_text fault) }
{
    match fault {
        WordsFault::Words => writer.put(b"command line refused, try --help"),
        WordsFault::Number(option) => {
            writer.put(option.name().as_bytes())?;
            writer.put(b": not a number")
        }
        WordsFault::Choice(option) => {
            writer.put(option.name().as_bytes())?;
            writer.put(b": not a lawful letter")
        }
        WordsFault::Config(fault) => put_config(fault, writer),
        WordsFault::Help => Ok(()),
        WordsFault::Memory => writer.put(b"out of memory"),
    }
}
