//! Reads the programs of the file `texts`, and says a line for each: the first fault of a program that is refused, or the
//! typed form of one that is accepted, and then how each of its runs ends.
//!
//! A line of the file is a case: its name, behind each `#` the name of a file and its text, and behind each `$` the turns
//! and the words of the inputs of a run. A `\` stands for a line feed.
#![tactic(auto)]

use ctl_base::Memory;
use outside::{Console, DiskBox, Fetched, FileBox, OutConsole};
use std::alloc::Global;
use std::process::ExitCode;
use std::rt::Files;

mod cases;
mod inputs;
mod runs;
mod spelling;

/// The most bytes of the file.
const MOST_BYTES: u64 = 1 << 24;

fn main(rt: HostRuntime) -> ExitCode {
    match run(&rt) {
        Ok(()) => ExitCode::from(0),
        Err(Memory) => ExitCode::from(1),
    }
}

fn run<R: Files + Print + AllocGlobal + Clone + Drop>(rt: &R) -> Result<(), Memory> {
    let mut files = DiskBox::new(rt.clone()?);
    let mut console = OutConsole::new(rt.clone()?);
    let Ok(Fetched::Bytes(bytes)) = files.fetch(rt.alloc(), "texts", MOST_BYTES) else {
        return Err(Memory);
    };
    let Ok(text) = str::from_utf8(bytes.as_slice()) else {
        return Err(Memory);
    };
    say_cases(rt.alloc(), &mut console, text)
}

// A line for each case.
fn say_cases<C: Console>(alloc: Global, console: &mut C, text: &str) -> Result<(), Memory> {
    for case in text.lines() {
        let mut out = String::new(alloc);
        cases::put_case(alloc, &mut out, case)?;
        if console.say(out.as_bytes()).is_err() {
            return Err(Memory);
        }
    }
    Ok(())
}
