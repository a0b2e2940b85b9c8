//! Searches standard input for a regular expression, or escapes a text.
//!
//! `main` gathers the arguments and the standard streams of the process; `program` does the work,
//! generic over the reader and the writers, and `fault` has the reasons why a run ends without an
//! answer.
#![tactic(auto)]

mod command;
mod commands;
mod fault;
mod output;
mod program;

use fault::Failure;
use program::run;
use std::env::Env;
use std::process::ExitCode;
use std::{env, io};

fn main(rt: HostRuntime) -> ExitCode {
    let Ok(words) = arguments(&rt) else {
        return misused(&rt);
    };
    let texts: Result<Vec<&str>, _> = words.iter().map(|word| word.as_str()).collect(rt.alloc());
    let Ok(args) = texts else {
        return misused(&rt);
    };
    let mut input = rt.reader();
    let mut out = io::writer(&rt);
    let mut err = rt.stderr();
    let status = run(rt.alloc(), args.as_slice(), &mut input, &mut out, &mut err);
    ExitCode::from(status)
}

/// The arguments of the process, without the program's name.
///
/// # Errors
///
/// If one of them isn't valid UTF-8, so that they aren't a command, or if there is no memory for
/// them.
fn arguments<R: Env + AllocGlobal>(rt: &R) -> io::Result<Vec<String>> {
    let mut words = Vec::new(rt.alloc());
    for word in env::args(rt)?.skip(1) {
        words.push(word)?;
    }
    Ok(words)
}

/// Prints the usage of the program if the arguments can't be read.
fn misused(rt: &HostRuntime) -> ExitCode {
    let _ = Failure::Usage.report(rt.alloc(), &mut rt.stderr());
    ExitCode::from(2)
}
