//! Runs the command over the files of each case of the file `cases`, and says a line for each: the number that the command
//! ends with, how many calls of the files it made, the pixels that it stored, and what it said.
//!
//! A line of the file is a case: its name, the module path, the pixels of the source as words of ten bits a code, and
//! behind each `#` the name of a file and its text, the first of them the text of the stage. A `\` stands for a line feed.
//! The file `header` begins each source.
#![tactic(auto)]

use ctl_base::{ByteText, Counter64, Memory, Steps, TextArg};
use outside::{Console, DiskBox, Fetched, FileBox, MemBox, MemConsole, OutConsole};
use render_command::render;
use std::alloc::Global;
use std::fmt::Write;
use std::process::ExitCode;
use std::rt::Files;

/// The most bytes of a file.
const MOST_BYTES: u64 = 1 << 24;

/// The bytes before the pixels of a file.
const HEADER: usize = 2048;

/// Where the number of pixels of a line stands, which is the same as that of all pixels.
const WIDTH: usize = 772;

fn main(rt: HostRuntime) -> ExitCode {
    match run(&rt) {
        Ok(()) => ExitCode::from(0),
        Err(Memory) => ExitCode::from(1),
    }
}

fn run<R: Files + Print + AllocGlobal + Clone + Drop>(rt: &R) -> Result<(), Memory> {
    let mut files = DiskBox::new(rt.clone()?);
    let mut console = OutConsole::new(rt.clone()?);
    let header = bytes_of(rt.alloc(), &mut files, "header")?;
    let cases = bytes_of(rt.alloc(), &mut files, "cases")?;
    let Ok(cases) = str::from_utf8(cases.as_slice()) else {
        return Err(Memory);
    };
    say_cases(rt.alloc(), &mut console, header.as_slice(), cases)
}

fn bytes_of<F: FileBox>(alloc: Global, files: &mut F, name: &str) -> Result<ByteText, Memory> {
    match files.fetch(alloc, name, MOST_BYTES) {
        Ok(Fetched::Bytes(bytes)) => Ok(bytes),
        _ => Err(Memory),
    }
}

// A line for each case.
fn say_cases<C: Console>(
    alloc: Global,
    console: &mut C,
    header: &[u8],
    cases: &str,
) -> Result<(), Memory> {
    for case in cases.lines() {
        let mut out = String::new(alloc);
        put_case(alloc, &mut out, header, case)?;
        if console.say(out.as_bytes()).is_err() {
            return Err(Memory);
        }
    }
    Ok(())
}

// The line of a case.
fn put_case(alloc: Global, out: &mut String, header: &[u8], case: &str) -> Result<(), Memory> {
    let (head, files) = case.split_once('#').unwrap_or((case, ""));
    let (name, rest) = head.split_once(' ').unwrap_or((head, ""));
    let (path, pixels) = rest.split_once(' ').unwrap_or((rest, ""));
    let root = files.split_once(' ').unwrap_or((files, "")).0;
    let mut held = MemBox::new(Vec::new(alloc), 0);
    put_files(alloc, &mut held, files)?;
    let source = source(alloc, header, pixels)?;
    held.put("in.dpx", &source)?;
    held.room("out.dpx", MOST_BYTES)?;
    let mut heard = MemConsole::new(alloc, 1 << 16)?;
    let code = ends(alloc, path, root, &mut held, &mut heard)?;
    let calls = held.calls();
    write!(out, "{name} {code} {calls}")?;
    put_stored(out, held.held("out.dpx"))?;
    put_said(out, heard.text())
}

// The number that the command ends with.
fn ends(
    alloc: Global,
    path: &str,
    root: &str,
    held: &mut MemBox,
    heard: &mut MemConsole,
) -> Result<u8, Memory> {
    let words = [
        TextArg::new(alloc, "-ctl")?,
        TextArg::new(alloc, root)?,
        TextArg::new(alloc, "in.dpx")?,
        TextArg::new(alloc, "out.dpx")?,
    ];
    let mut steps = Steps::new(Counter64::new());
    Ok(render(alloc, &words, path, held, heard, &mut steps).code())
}

// Makes the box hold the files of a case.
fn put_files(alloc: Global, held: &mut MemBox, files: &str) -> Result<(), Memory> {
    for file in files.split('#') {
        let (name, text) = file.split_once(' ').unwrap_or((file, ""));
        let text = text.replace(alloc, '\\', "\n")?;
        held.put(name, text.as_bytes())?;
    }
    Ok(())
}

// A file of one line with these pixels.
fn source(alloc: Global, header: &[u8], pixels: &str) -> Result<Vec<u8>, Memory> {
    let mut words = Vec::new(alloc);
    let mut width: u32 = 0;
    for pixel in pixels.split(' ') {
        let word = u32::from_str_radix(pixel, 16).unwrap_or(0);
        words.extend_from_slice(&word.to_be_bytes())?;
        width = width.saturating_add(1);
    }
    let mut file = Vec::new(alloc);
    file.extend_from_slice(header.get(..WIDTH).unwrap_or(&[]))?;
    file.extend_from_slice(&width.to_be_bytes())?;
    file.extend_from_slice(header.get(WIDTH + 4..HEADER).unwrap_or(&[]))?;
    file.extend_from_slice(&words)?;
    Ok(file)
}

// The words of the stored pixels, and a dash where nothing is stored.
fn put_stored(out: &mut String, stored: Option<&[u8]>) -> Result<(), Memory> {
    let Some(bytes) = stored else {
        return Ok(out.push_str(" -")?);
    };
    let mut rest = bytes.get(HEADER..).unwrap_or(&[]);
    'words: while let [a, b, c, d, others @ ..] = rest {
        let word = u32::from_be_bytes([*a, *b, *c, *d]);
        write!(out, " {word:08x}")?;
        rest = others;
    }
    Ok(())
}

// What was said, where it is a line, and the end of the line of the case.
fn put_said(out: &mut String, heard: &[u8]) -> Result<(), Memory> {
    match str::from_utf8(heard) {
        Ok("") => Ok(out.push_str("\n")?),
        Ok(line) => Ok(write!(out, " {line}")?),
        Err(_) => Err(Memory),
    }
}
