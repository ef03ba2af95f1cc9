//! The text of the help above and below the options.

/// The text above the options.
pub(crate) fn about<'a>() -> &'a str {
    "Simulates many configurations of an instruction cache, a data cache and a second-level cache
behind them. Reads a din trace from standard input once, and writes a table with a line for each
configuration to standard output."
}

/// How the program is called.
pub(crate) fn usage<'a>() -> &'a str {
    "dinero_grid --l1-isize <SIZE> --l1-ibsize <SIZE> --l1-dsize <SIZE> --l1-dbsize <SIZE>
                   --l2-usize <SIZE> --l2-ubsize <SIZE> [OPTIONS] < TRACE"
}

/// The text below the options.
pub(crate) fn more<'a>() -> &'a str {
    "An option without a default is required, except --full, and each is given at most once. Each
value but those of --skipcount, --maxcount and --threads may be a list, with commas between its
values: 1k,2k,4k. The table has a line for each choice of one value from each list, at most 4096
lines. The value of the last list changes from line to line.
  <SIZE>   bytes: 1 to 12 decimal digits, then nothing, k (times 1024) or m (times 1048576); 8k, 1M
  <COUNT>  1 to 12 decimal digits
  <l|f>    l: the least recently used block (LRU); f: the block loaded first (FIFO)
  <a|n>    a: always; n: never

A trace has one record a line: a label, a blank and a hexadecimal address. The labels are
  0 read   1 write   2 instruction fetch   3 other data reference, as a read   4 flush of all caches

Example: data caches of three sizes, each direct mapped and with two ways, so six configurations:
  dinero_grid --l1-isize 32k --l1-ibsize 64 --l1-dsize 8k,16k,32k --l1-dbsize 64 \\
              --l1-dassoc 1,2 --l2-usize 1M --l2-ubsize 64 --l2-uassoc 16 < program.din

Exit status: 0 table or help written, 1 faulty trace, 2 command line refused, 3 no memory,
4 trace not read or table not written, 5 table written, but some configuration refused."
}
