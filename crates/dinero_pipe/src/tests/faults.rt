//! The lines and the exit statuses of the faults.

use crate::fault::{Fault, fault_text, status};
use cache_core::GeometryFault;
use din_trace::{FromWrite, TraceFault, Why};
use dinero_options::{Opt, WordsFault};
use sim_run::RunFault;
use stage_core::{CacheName, ConfigFault};
use std::io;
use std::io::Write;
use std::test::Fail;

fn bad(line: u64, why: Why) -> Fault {
    Fault::Run(RunFault::Trace(TraceFault::Bad { line, why }))
}

fn of_cache(name: CacheName, fault: GeometryFault) -> Fault {
    Fault::Words(WordsFault::Config(ConfigFault::Geometry(name, fault)))
}

/// Does the fault have this line and this exit status?
fn is_told(rt: &HostRuntime, fault: Fault, line: &str, number: u8) -> bool {
    let mut written = Vec::new(rt.alloc());
    let mut writer = FromWrite::new(&mut written);
    let told = fault_text(&fault, &mut writer).is_ok();
    told && written.as_slice() == line.as_bytes() && status(&fault) == number
}

#[test]
fn tells_each_fault_of_a_run_in_one_line(rt: HostRuntime) -> Result<(), Fail> {
    let rows = [
        (bad(3, Why::Label), "dinero_pipe: line 3: label\n", 1),
        (bad(1, Why::Gap), "dinero_pipe: line 1: gap\n", 1),
        (bad(20, Why::Address), "dinero_pipe: line 20: address\n", 1),
        (bad(1001, Why::Range), "dinero_pipe: line 1001: range\n", 1),
        (bad(7, Why::Tail), "dinero_pipe: line 7: tail\n", 1),
        (
            Fault::Run(RunFault::Trace(TraceFault::TooLong)),
            "dinero_pipe: trace too long\n",
            1,
        ),
        (
            Fault::Run(RunFault::Trace(TraceFault::Read)),
            "dinero_pipe: trace read failed\n",
            4,
        ),
        (
            Fault::Run(RunFault::Trace(TraceFault::Memory)),
            "dinero_pipe: out of memory\n",
            3,
        ),
        (
            Fault::Run(RunFault::Memory),
            "dinero_pipe: out of memory\n",
            3,
        ),
        (Fault::Run(RunFault::Threads), "dinero_pipe: no thread\n", 3),
        (Fault::Run(RunFault::Cut), "dinero_pipe: pipeline cut\n", 3),
        (
            Fault::Run(RunFault::Write),
            "dinero_pipe: report write failed\n",
            4,
        ),
    ];
    for (fault, line, number) in rows {
        assert!(rt; is_told(&rt, fault, line, number), "at {line}");
    }
    Ok(())
}

#[test]
fn tells_each_refusal_of_words_in_one_line(rt: HostRuntime) -> Result<(), Fail> {
    let rows = [
        (WordsFault::Memory, "dinero_pipe: out of memory\n", 3),
        (
            WordsFault::Words,
            "dinero_pipe: command line refused, try --help\n",
            2,
        ),
        (
            WordsFault::Number(Opt::Ring),
            "dinero_pipe: --ring: not a number\n",
            2,
        ),
        (
            WordsFault::Choice(Opt::L1Irepl),
            "dinero_pipe: --l1-irepl: not a lawful letter\n",
            2,
        ),
        (
            WordsFault::Config(ConfigFault::BlockOrder),
            "dinero_pipe: l2 block is shorter than an l1 block\n",
            2,
        ),
        (
            WordsFault::Config(ConfigFault::Ring),
            "dinero_pipe: ring is not from 1 to 65536\n",
            2,
        ),
        (WordsFault::Help, "", 0),
    ];
    for (fault, line, number) in rows {
        assert!(rt;
            is_told(&rt, Fault::Words(fault), line, number),
            "at {line}"
        );
    }
    Ok(())
}

#[test]
fn tells_each_unlawful_geometry_with_its_cache(rt: HostRuntime) -> Result<(), Fail> {
    let i = CacheName::I;
    let rows = [
        (
            i,
            GeometryFault::SizeNotPower,
            "dinero_pipe: l1-icache: size is not a power of two\n",
        ),
        (
            i,
            GeometryFault::SizeRange,
            "dinero_pipe: l1-icache: size is out of range\n",
        ),
        (
            CacheName::D,
            GeometryFault::BlockNotPower,
            "dinero_pipe: l1-dcache: block is not a power of two\n",
        ),
        (
            CacheName::D,
            GeometryFault::BlockRange,
            "dinero_pipe: l1-dcache: block is out of range\n",
        ),
        (
            CacheName::U,
            GeometryFault::AssocNotPower,
            "dinero_pipe: l2-ucache: associativity is not a power of two\n",
        ),
        (
            CacheName::U,
            GeometryFault::AssocTooLarge,
            "dinero_pipe: l2-ucache: associativity is too large\n",
        ),
    ];
    for (name, fault, line) in rows {
        assert!(rt; is_told(&rt, of_cache(name, fault), line, 2), "at {line}");
    }
    Ok(())
}

/// A writer that takes a number of bytes and then fails.
#[derive(Drop)]
struct Narrow {
    room: usize,
}

impl Write for Narrow {
    fn write(&mut self, bytes: &[u8]) -> io::Result<usize> {
        if self.room == 0 && !bytes.is_empty() {
            return Err(io::Error::from(io::ErrorKind::Other));
        }
        let count = bytes.len().min(self.room);
        self.room -= count;
        Ok(count)
    }

    fn flush(&mut self) -> io::Result<()> {
        Ok(())
    }
}

#[test]
fn tells_that_a_line_could_not_be_written(rt: HostRuntime) -> Result<(), Fail> {
    let fault = bad(3, Why::Label);
    let length = "dinero_pipe: line 3: label\n".len();
    for room in 0..=length {
        let mut writer = FromWrite::new(Narrow { room });
        assert_eq!(rt; fault_text(&fault, &mut writer).is_ok(), room == length);
    }
    Ok(())
}
