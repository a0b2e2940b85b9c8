//! Splits standard input into tokens by rules: `tokeniser RULE..` prints the number of the rule and
//! the text of each token. A rule is a pattern, and the lowest that matches wins.
#![tactic(auto)]

mod tokens;

use anyhow::{Result, bail};
use regex_lite::RegexList;
use std::{env, io};
use tokens::tokenise;

fn main(rt: HostRuntime) -> Result<()> {
    let alloc = rt.alloc();
    let mut words: Vec<String> = Vec::new(alloc);
    for word in env::args(&rt)?.skip(1) {
        words.push(word)?;
    }
    let rules: Vec<&str> = words.iter().map(|word| word.as_str()).collect(alloc)?;
    let list = RegexList::new(alloc, rules.as_slice())?;
    let text = io::read_to_string(alloc, rt.reader())?;
    match tokenise(alloc, &list, text.as_str()) {
        Ok(tokens) => {
            for token in &tokens {
                println!(rt; "{} {:?}", token.rule, token.text)?;
            }
            Ok(())
        }
        Err(fault) => bail!("{fault}"),
    }
}
