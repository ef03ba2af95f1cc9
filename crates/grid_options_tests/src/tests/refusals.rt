//! Words that give no grid, and what is said of them.

use super::grids::{parsed, words_of};
use din_trace::FromWrite;
use dinero_options::{Opt, WordsFault};
use grid_options::{GridWordsFault, grid_refusal_text, put_grid_words};
use std::alloc::{AllocError, Global};
use std::process::Abort;
use std::test::Fail;

/// Words that name no option, or not as they have to.
pub const UNREAD: GridWordsFault = GridWordsFault::Words(WordsFault::Words);

/// Why these words, behind those of `OTHERS`, are refused.
pub fn refusal(alloc: Global, line: &str) -> Result<Option<GridWordsFault>, AllocError> {
    match parsed(alloc, line)? {
        Ok(_) => Ok(None),
        Err(fault) => Ok(Some(fault)),
    }
}

/// Each of these lines, behind the words of `OTHERS`, has to be refused for this reason.
pub fn expect_refused(
    rt: &impl Abort,
    alloc: Global,
    lines: &[&str],
    fault: GridWordsFault,
) -> Result<(), Fail> {
    for line in lines {
        assert_eq!(rt; refusal(alloc, *line)?, Some(fault), "at {line}");
    }
    Ok(())
}

/// A list of so many values, each of them 16.
fn list(alloc: Global, values: u64) -> Result<String, AllocError> {
    let mut text = String::from_str(alloc, "16")?;
    for _ in 1..values {
        text.push_str(",16")?;
    }
    Ok(text)
}

/// Words for a grid of two lists with so many values.
fn lists(alloc: Global, sizes: u64, flushes: u64) -> Result<String, AllocError> {
    let mut line = String::from_str(alloc, "--l1-dsize ")?;
    line.push_str(list(alloc, sizes)?.as_str())?;
    line.push_str(" --flushcount ")?;
    line.push_str(list(alloc, flushes)?.as_str())?;
    Ok(line)
}

/// How many points the grid of two such lists has, or why it is refused.
fn points(
    alloc: Global,
    sizes: u64,
    flushes: u64,
) -> Result<Result<usize, GridWordsFault>, AllocError> {
    let line = lists(alloc, sizes, flushes)?;
    match parsed(alloc, line.as_str())? {
        Ok(grid) => Ok(Ok(grid.points.len())),
        Err(fault) => Ok(Err(fault)),
    }
}

#[test]
fn refuses_more_than_4096_configurations(rt: HostRuntime) -> Result<(), Fail> {
    let rows = [
        (16, 256, Ok(4096)),
        (1, 4096, Ok(4096)),
        (17, 241, Err(GridWordsFault::TooMany)),
        (4097, 1, Err(GridWordsFault::TooMany)),
        (1, 4097, Err(GridWordsFault::TooMany)),
    ];
    for (sizes, flushes, wanted) in rows {
        assert_eq!(rt;
            points(rt.alloc(), sizes, flushes)?,
            wanted,
            "{sizes} by {flushes}"
        );
    }
    Ok(())
}

#[test]
fn names_bad_threads_before_too_many_configurations(rt: HostRuntime) -> Result<(), Fail> {
    let mut line = lists(rt.alloc(), 17, 241)?;
    line.push_str(" --threads x")?;
    expect_refused(&rt, rt.alloc(), &[line.as_str()], GridWordsFault::Threads)
}

#[test]
fn refuses_an_empty_value(rt: HostRuntime) -> Result<(), Fail> {
    let lines = [
        "--l1-dsize 16,,32",
        "--l1-dsize 16,",
        "--l1-dsize ,16",
        "--l1-dsize ,",
        "--l1-dsize=",
    ];
    let size = GridWordsFault::Words(WordsFault::Number(Opt::L1Dsize));
    expect_refused(&rt, rt.alloc(), &lines, size)?;
    assert_eq!(rt; refusal(rt.alloc(), "--l1-dsize 16,32")?, None);
    Ok(())
}

/// Words with a bad value, and how they are refused like those of one configuration.
static BAD_VALUES: [(&str, WordsFault); 5] = [
    ("--l1-dsize 16,x", WordsFault::Number(Opt::L1Dsize)),
    (
        "--l1-dsize 16 --l1-irepl l,r,f",
        WordsFault::Choice(Opt::L1Irepl),
    ),
    (
        "--l1-dsize 16,x --l1-irepl l,r,f",
        WordsFault::Choice(Opt::L1Irepl),
    ),
    // These options take one value.
    (
        "--l1-dsize 16 --skipcount 1,2",
        WordsFault::Number(Opt::Skipcount),
    ),
    (
        "--l1-dsize 16 --maxcount 1,2",
        WordsFault::Number(Opt::Maxcount),
    ),
];

#[test]
fn names_the_first_option_with_a_bad_value(rt: HostRuntime) -> Result<(), Fail> {
    for (line, fault) in BAD_VALUES {
        expect_refused(&rt, rt.alloc(), &[line], GridWordsFault::Words(fault))?;
    }
    Ok(())
}

#[test]
fn leaves_rings_and_unknown_options_to_clap(rt: HostRuntime) -> Result<(), Fail> {
    let lines = [
        "--l1-dsize 16 --ring 2",
        "--l1-dsize x --l3-usize 16",
        "--l1-dassoc 1",
    ];
    expect_refused(&rt, rt.alloc(), &lines, UNREAD)?;
    let help = GridWordsFault::Words(WordsFault::Help);
    expect_refused(&rt, rt.alloc(), &["--help"], help)
}

/// Is this what is said of the fault?
fn is_told(rt: &HostRuntime, fault: GridWordsFault, text: &str) -> bool {
    let mut written = Vec::new(rt.alloc());
    let mut writer = FromWrite::new(&mut written);
    let told = put_grid_words(fault, &mut writer).is_ok();
    told && written.as_slice() == text.as_bytes()
}

#[test]
fn tells_what_is_wrong_with_the_words(rt: HostRuntime) -> Result<(), Fail> {
    let rows = [
        (
            GridWordsFault::TooMany,
            "grid has more than 4096 configurations",
        ),
        (
            GridWordsFault::Threads,
            "--threads: not a number from 0 to 1024",
        ),
        (UNREAD, "command line refused, try --help"),
        (
            GridWordsFault::Words(WordsFault::Number(Opt::L1Dsize)),
            "--l1-dsize: not a number",
        ),
        (
            GridWordsFault::Words(WordsFault::Choice(Opt::L2Urepl)),
            "--l2-urepl: not a lawful letter",
        ),
        (GridWordsFault::Words(WordsFault::Memory), "out of memory"),
        (GridWordsFault::Words(WordsFault::Help), ""),
    ];
    for (fault, text) in rows {
        assert!(rt; is_told(&rt, fault, text), "at {text}");
    }
    Ok(())
}

/// Whether clap says this of the words of `OTHERS` and of this line.
fn is_said(alloc: Global, line: &str, text: Option<&str>) -> Result<bool, AllocError> {
    let words = words_of(alloc, line)?;
    Ok(match grid_refusal_text(alloc, words.as_slice()) {
        Ok(Some(said)) => text == Some(said.as_str()),
        Ok(None) => text.is_none(),
        Err(_) => false,
    })
}

#[test]
fn tells_which_word_clap_refuses(rt: HostRuntime) -> Result<(), Fail> {
    let rows = [
        ("--l1-dsize 64", None),
        ("--help", None),
        (
            "--l1-dsize 64 --l1-dways 2",
            Some("unexpected argument '--l1-dways' found"),
        ),
        (
            "--l1-dsize 64 \x1b[2Jtrace",
            Some("unexpected argument '?[2Jtrace' found"),
        ),
        (
            "",
            Some("the following required arguments were not provided: --l1-dsize <SIZE>"),
        ),
        (
            "--l1-dsize 64 --l1-dsize 32",
            Some("the argument '--l1-dsize <SIZE>' cannot be used multiple times"),
        ),
        (
            "--l1-dsize",
            Some("a value is required for '--l1-dsize <SIZE>' but none was supplied"),
        ),
        (
            "--l1-dsize 64 --full=yes",
            Some("unexpected value 'yes' for '--full' found; no more were expected"),
        ),
    ];
    for (line, text) in rows {
        assert!(rt; is_said(rt.alloc(), line, text)?, "at {line}");
    }
    Ok(())
}
