//! Writes the lines of standard input that a pattern matches: `line_filter PATTERN`. With
//! `line_filter -v PATTERN` it writes those that the pattern doesn't match. Its exit status is 0 if
//! a line was written, 1 if none was, and 2 after a fault.
#![tactic(auto)]

mod blocks;
mod fault;
mod filter;

use fault::FilterFault;
use filter::{Selection, filter};
use regex_lite::Regex;
use std::io::{BufWriter, Write};
use std::process::ExitCode;
use std::{env, io};

fn main(rt: HostRuntime) -> ExitCode {
    match run(&rt) {
        Ok(true) => ExitCode::from(0),
        Ok(false) => ExitCode::from(1),
        Err(fault) => {
            let _ = eprintln!(rt; "line_filter: {fault}");
            ExitCode::from(2)
        }
    }
}

/// Filters standard input as the arguments ask, and returns whether a line was written.
fn run(rt: &HostRuntime) -> Result<bool, FilterFault> {
    let alloc = rt.alloc();
    let mut words: Vec<String> = Vec::new(alloc);
    for word in env::args(rt)?.skip(1) {
        words.push(word)?;
    }
    match words.as_slice() {
        [pattern] => filter_input(rt, Selection::Matching, pattern.as_str()),
        [flag, pattern] if flag.as_str() == "-v" => {
            filter_input(rt, Selection::Others, pattern.as_str())
        }
        _ => Err(FilterFault::Usage),
    }
}

/// Filters standard input with this pattern, and returns whether a line was written.
fn filter_input(
    rt: &HostRuntime,
    selection: Selection,
    pattern: &str,
) -> Result<bool, FilterFault> {
    let alloc = rt.alloc();
    let regex = Regex::new(alloc, pattern)?;
    let mut searcher = regex.searcher()?;
    let mut output = BufWriter::new(alloc, io::writer(rt))?;
    let found = filter(
        alloc,
        &mut searcher,
        selection,
        &mut rt.reader(),
        &mut output,
    )?;
    output.flush()?;
    Ok(found)
}
