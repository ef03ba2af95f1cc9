//! The text of the help: for each option, and above and below the options.

use crate::opt::Opt;

/// The text above the options.
pub(crate) fn about<'a>() -> &'a str {
    "Simulates an instruction cache, a data cache and a second-level cache behind them. Reads a din
trace from standard input, and writes the counts of misses of each cache to standard output."
}

/// How the program is called.
pub(crate) fn usage<'a>() -> &'a str {
    "dinero_pipe --l1-isize <SIZE> --l1-ibsize <SIZE> --l1-dsize <SIZE> --l1-dbsize <SIZE>
                   --l2-usize <SIZE> --l2-ubsize <SIZE> [OPTIONS] < TRACE"
}

/// The text below the options.
pub(crate) fn more<'a>() -> &'a str {
    "An option without a default is required, and each is given at most once.
  <SIZE>   bytes: 1 to 12 decimal digits, then nothing, k (times 1024) or m (times 1048576); 8k, 1M
  <COUNT>  1 to 12 decimal digits
  <l|f>    l: the least recently used block (LRU); f: the block loaded first (FIFO)
  <a|n>    a: always; n: never

A trace has one record a line: a label, a blank and a hexadecimal address. The labels are
  0 read   1 write   2 instruction fetch   3 other data reference, as a read   4 flush of all caches

Example: first-level caches of 32 KiB with 8 ways each, a second level of 1 MiB with 16 ways, and
blocks of 64 bytes:
  dinero_pipe --l1-isize 32k --l1-ibsize 64 --l1-iassoc 8 \\
              --l1-dsize 32k --l1-dbsize 64 --l1-dassoc 8 \\
              --l2-usize 1M --l2-ubsize 64 --l2-uassoc 16 < program.din

Exit status: 0 report or help written, 1 faulty trace, 2 command line or caches refused,
3 no memory, no thread or a thread cut off, 4 trace not read or report not written."
}

/// The heading that the option stands under.
pub(crate) fn heading<'a>(option: Opt) -> &'a str {
    match option {
        Opt::L1Isize | Opt::L1Ibsize | Opt::L1Iassoc | Opt::L1Irepl => {
            "Instruction cache (l1-icache)"
        }
        Opt::L1Dsize
        | Opt::L1Dbsize
        | Opt::L1Dassoc
        | Opt::L1Drepl
        | Opt::L1Dwback
        | Opt::L1Dwalloc => "Data cache (l1-dcache)",
        Opt::L2Usize
        | Opt::L2Ubsize
        | Opt::L2Uassoc
        | Opt::L2Urepl
        | Opt::L2Uwback
        | Opt::L2Uwalloc => "Second-level cache (l2-ucache)",
        Opt::Ring => "Pipeline",
        Opt::Skipcount | Opt::Maxcount | Opt::Flushcount => "Part of the trace",
    }
}

/// What stands for the value in the help.
pub(crate) fn value_name<'a>(option: Opt) -> &'a str {
    match option {
        Opt::L1Isize
        | Opt::L1Ibsize
        | Opt::L1Dsize
        | Opt::L1Dbsize
        | Opt::L2Usize
        | Opt::L2Ubsize => "SIZE",
        Opt::L1Irepl | Opt::L1Drepl | Opt::L2Urepl => "l|f",
        Opt::L1Dwback | Opt::L1Dwalloc | Opt::L2Uwback | Opt::L2Uwalloc => "a|n",
        Opt::L1Iassoc
        | Opt::L1Dassoc
        | Opt::L2Uassoc
        | Opt::Ring
        | Opt::Skipcount
        | Opt::Maxcount
        | Opt::Flushcount => "COUNT",
    }
}

/// What the option sets, and its lawful values. clap adds the default.
pub(crate) fn help<'a>(option: Opt) -> &'a str {
    match option {
        Opt::L1Isize | Opt::L1Dsize | Opt::L2Usize => {
            "Bytes that the cache holds: a power of two from 4 to 16M"
        }
        Opt::L1Ibsize | Opt::L1Dbsize => {
            "Bytes of a block: a power of two from 4 to 4k, at most the cache"
        }
        Opt::L2Ubsize => {
            "Bytes of a block: as above, and at least as many as at the first level"
        }
        Opt::L1Iassoc | Opt::L1Dassoc | Opt::L2Uassoc => {
            "Ways of a set: a power of two, from 1 to the cache's blocks"
        }
        Opt::L1Irepl | Opt::L1Drepl | Opt::L2Urepl => "Which block of a full set is replaced",
        Opt::L1Dwback | Opt::L2Uwback => {
            "A write waits in its block (a) or is sent on at once (n)"
        }
        Opt::L1Dwalloc | Opt::L2Uwalloc => {
            "A write that misses loads its block (a) or is sent on (n)"
        }
        Opt::Ring => "Messages that each ring between two stages holds: 1 to 65536",
        Opt::Skipcount => "References left out at the front of the trace: any count",
        Opt::Maxcount => {
            "References simulated behind those: any count, 0 for all; the rest is read, too"
        }
        Opt::Flushcount => "References between two flushes put in: any count, 0 for none",
    }
}
