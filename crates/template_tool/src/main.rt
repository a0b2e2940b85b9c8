//! Replaces the matches of a pattern in standard input: `template_tool PATTERN TEMPLATE` prints the
//! new text.
#![tactic(auto)]

mod rewrite;

use anyhow::{Result, bail};
use regex_lite::Regex;
use rewrite::rewrite;
use std::{env, io};

fn main(rt: HostRuntime) -> Result<()> {
    let alloc = rt.alloc();
    let mut words: Vec<String> = Vec::new(alloc);
    for word in env::args(&rt)?.skip(1) {
        words.push(word)?;
    }
    let [pattern, template] = words.as_slice() else {
        bail!("usage: template_tool PATTERN TEMPLATE");
    };
    let regex = Regex::new(alloc, pattern.as_str())?;
    let text = io::read_to_string(alloc, rt.reader())?;
    let new = rewrite(&regex, template.as_str(), text.as_str())?;
    write(&rt, new.as_str())
}

/// Writes the text to standard output.
fn write(rt: &HostRuntime, text: &str) -> Result<()> {
    print!(rt; "{text}")?;
    Ok(())
}
