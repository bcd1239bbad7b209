//! Reads texts, one a line, and says of each the module that it spells or its fault.
//!
//! The first letter of a line tells what is asked of its text: `=` the spelling of its module, `-` whether it is one, `c`
//! a letter for what stands in front of each token, and `+` a letter for each of some tokens behind it. The line `s` has
//! these tokens.
#![tactic(auto)]

use anyhow::{Result, bail};
use ctl_base::Memory;
use std::alloc::Global;

mod letters;
mod lines;
mod reading;
mod spelling;

fn main(rt: HostRuntime) -> Result<()> {
    let mut samples = String::new(rt.alloc());
    for line in rt.lines(rt.alloc()) {
        let line = line?;
        let (kind, text) = line.as_str().split_once(' ').unwrap_or(("", ""));
        if kind == "s" {
            samples = String::from_str(rt.alloc(), text)?;
            println!(&rt; "{} tokens", samples.as_str().split(' ').count())?;
            continue;
        }
        match said(rt.alloc(), kind, text, samples.as_str()) {
            Ok(said) => println!(&rt; "{}", said.as_str())?,
            Err(Memory) => bail!("a text without tokens, or out of memory"),
        }
    }
    Ok(())
}

// What is said of a text.
fn said(alloc: Global, kind: &str, text: &str, samples: &str) -> Result<String, Memory> {
    let text = lines::text_of(alloc, text)?;
    match kind {
        "=" => reading::told(alloc, text.as_slice()),
        "-" => reading::told_in_short(alloc, text.as_slice()),
        "c" => letters::of_cuts(alloc, text.as_slice()),
        _ => letters::of_samples(alloc, text.as_slice(), samples),
    }
}
