//! Reads lists of words, one a line, and says of each the command or the word that fails.
//!
//! A line has the kinds of the watchers that were handed in, as digits, and each word behind a bar.
#![tactic(auto)]

use anyhow::{Result, bail};
use command_line::{Command, Param, WordFault, read_words};
use ctl_base::TextArg;
use std::alloc::Global;

fn main(rt: HostRuntime) -> Result<()> {
    for line in rt.lines(rt.alloc()) {
        let line = line?;
        let kinds = kinds_of(rt.alloc(), line.as_str())?;
        let words = words_of(rt.alloc(), line.as_str())?;
        if words.len() > u32::MAX as usize {
            bail!("too many words");
        }
        match read_words(rt.alloc(), words.as_slice(), kinds.as_slice()) {
            Ok(command) => say_command(&rt, &command)?,
            Err(WordFault::Usage { word }) => println!(&rt; "usage {word}")?,
            Err(WordFault::Memory) => bail!("out of memory"),
        }
    }
    Ok(())
}

// The digits before the first bar.
fn kinds_of(alloc: Global, line: &str) -> Result<Vec<u8>> {
    let mut kinds = Vec::new(alloc);
    for b in line.as_bytes() {
        if !b.is_ascii_digit() {
            break;
        }
        kinds.push(*b - b'0')?;
    }
    Ok(kinds)
}

// The words behind bars.
fn words_of(alloc: Global, line: &str) -> Result<Vec<TextArg>> {
    let mut words = Vec::new(alloc);
    for word in line.split('|').skip(1) {
        match TextArg::new(alloc, word) {
            Ok(word) => words.push(word)?,
            Err(_) => bail!("out of memory"),
        }
    }
    Ok(words)
}

fn say_command<R: Print>(rt: &R, command: &Command) -> Result<()> {
    print!(rt; "command")?;
    for stage in command.stages.as_slice() {
        print!(rt; " stage {}", stage.file.as_str())?;
        for param in stage.params.as_slice() {
            print!(rt; " param ")?;
            say_param(rt, param)?;
        }
    }
    for param in command.globals.as_slice() {
        print!(rt; " global ")?;
        say_param(rt, param)?;
    }
    print!(rt; " format {}", command.format)?;
    if command.force {
        print!(rt; " force")?;
    }
    if command.verbose {
        print!(rt; " verbose")?;
    }
    say_watchers(rt, &command.watch)?;
    if let Some(number) = command.make {
        print!(rt; " make {number}")?;
    }
    println!(rt;
        " source [{}] destination [{}]",
        command.source.as_str(),
        command.destination.as_str()
    )?;
    Ok(())
}

fn say_watchers<R: Print>(rt: &R, watch: &[bool; 4]) -> Result<()> {
    let mut kind = 0u8;
    for asked in watch {
        kind = kind.saturating_add(1);
        if *asked {
            print!(rt; " watch {kind}")?;
        }
    }
    Ok(())
}

fn say_param<R: Print>(rt: &R, param: &Param) -> Result<()> {
    print!(rt; "{}/{}", param.name.as_str(), param.count)?;
    for value in param.values {
        print!(rt; "/{}", value.raw())?;
    }
    Ok(())
}
