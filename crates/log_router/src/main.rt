//! Prints for each line of standard input the first rule that matches in it, and its fields:
//! `log_router RULE..`. A rule is a pattern, and its fields are its named groups.
#![tactic(auto)]

mod route;

use anyhow::Result;
use regex_lite::Regex;
use route::{Routed, route};
use std::env;
use std::io::{BufRead, BufReader};

fn main(rt: HostRuntime) -> Result<()> {
    let alloc = rt.alloc();
    let mut rules = Vec::new(alloc);
    for word in env::args(&rt)?.skip(1) {
        rules.push(Regex::new(alloc, word.as_str())?)?;
    }
    for line in BufReader::new(alloc, rt.reader())?.lines(alloc) {
        let line = line?;
        match route(alloc, rules.as_slice(), line.as_str())? {
            Some(routed) => print_routed(&rt, &routed)?,
            None => println!(rt; "-")?,
        }
    }
    Ok(())
}

/// Prints the number of the rule and the fields.
fn print_routed(rt: &HostRuntime, routed: &Routed<'_, '_>) -> Result<()> {
    print!(rt; "{}", routed.rule)?;
    for field in &routed.fields {
        print!(rt; " {}={:?}", field.name, field.value)?;
    }
    println!(rt; "")?;
    Ok(())
}
