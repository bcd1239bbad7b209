//! `ctlrender`: applies programs of the Color Transformation Language to an image of SMPTE 268M (DPX).
//!
//! This file makes the real files, console, words and counter, and hands them to `render`.
#![tactic(auto)]

ghost use Rattle.std.specs.Prelude.{IfOk, ◌≡◌, ◌≢◌, ◌<◌, ◌^◌, vec_len};
ghost use Rattle.ctlrender.specs.Start.{exit_code, variable_fault};

use ctl_base::{Counter64, Memory, Steps, TextArg};
use outside::{DiskBox, OutConsole};
use render_command::render;
use std::alloc::{AllocError, AllocFailed, Global};
use std::env::{self, VarError};
use std::io::ErrorKind;
use std::process::ExitCode;
use std::rt::{Env, Files};

/// What keeps the command from beginning.
#[derive(Drop)]
enum StartFault {
    Memory,
    /// A word or the module path is no UTF-8 text, or there are too many words.
    NotText,
}

impl From<Memory> for StartFault {
    ghost use Rattle.ctlrender.specs.declared.StartFault.TheVariants.{Memory as NoMemory};

    ghost from_gives = { λ _ fault. fault ≡ NoMemory };

    fn from(_: Memory) -> StartFault {
        StartFault::Memory
    }
}

impl From<AllocError> for StartFault {
    ghost use Rattle.ctlrender.specs.declared.StartFault.TheVariants.{Memory as NoMemory};

    ghost from_gives = { λ _ fault. fault ≡ NoMemory };

    fn from(_: AllocError) -> StartFault {
        StartFault::Memory
    }
}

impl<T: Drop> From<AllocFailed<T>> for StartFault {
    ghost use Rattle.ctlrender.specs.declared.StartFault.TheVariants.{Memory as NoMemory};

    ghost from_gives = { λ _ fault. fault ≡ NoMemory };

    fn from(_: AllocFailed<T>) -> StartFault {
        StartFault::Memory
    }
}

// What keeps the command from beginning where the words cannot be read.
fn words_fault(kind: ErrorKind) -> StartFault
    ensures memory { kind ≡ ErrorKind.OutOfMemory → result ≡ StartFault.Memory }
    ensures text { kind ≢ ErrorKind.OutOfMemory → result ≡ StartFault.NotText }
{
    match kind {
        ErrorKind::OutOfMemory => StartFault::Memory,
        _ => StartFault::NotText,
    }
}

// The number that the program ends with: that of the status, or of what kept the command from beginning.
fn exit_code(end: &Result<u8, StartFault>) -> u8
    ensures { result ≡ exit_code end.now }
{
    match end {
        Ok(code) => *code,
        Err(StartFault::Memory) => 12,
        Err(StartFault::NotText) => 15,
    }
}

fn main(rt: HostRuntime) -> ExitCode {
    ExitCode::from(exit_code(&run(&rt)))
}

fn run<R: Env + Files + Print + AllocGlobal + Clone + Drop>(rt: &R) -> Result<u8, StartFault> {
    let words = words(rt)?;
    let module_path = module_path(rt)?;
    let mut files = DiskBox::new(rt.clone()?);
    let mut console = OutConsole::new(rt.clone()?);
    let mut steps = Steps::new(Counter64::new());
    let status = render(
        rt.alloc(),
        &words,
        module_path.as_str(),
        &mut files,
        &mut console,
        &mut steps,
    );
    Ok(status.code())
}

// The words after the program's name.
fn words<R: Env + AllocGlobal>(rt: &R) -> Result<Vec<TextArg>, StartFault>
    ensures { IfOk result (λ words. vec_len words < 2 ^ 32) }
{
    let mut words = Vec::new(rt.alloc());
    let given = match env::args(rt) {
        Ok(given) => given,
        Err(error) => return Err(words_fault(error.kind())),
    };
    for word in given.skip(1) {
        words.push(TextArg::new(rt.alloc(), word.as_str())?)?;
    }
    if words.len() > u32::MAX as usize {
        return Err(StartFault::NotText);
    }
    Ok(words)
}

// The folders in which modules are sought, separated by colons.
fn module_path<R: Env + AllocGlobal>(rt: &R) -> Result<TextArg, StartFault> {
    match env::var(rt, "CTL_MODULE_PATH") {
        Ok(path) => Ok(TextArg::new(rt.alloc(), path.as_str())?),
        Err(VarError::NotPresent) => Ok(TextArg::new(rt.alloc(), ".")?),
        Err(error) => Err(variable_fault(&error)),
    }
}

// What keeps the command from beginning where the module path cannot be read.
fn variable_fault(error: &VarError) -> StartFault
    ensures { result ≡ variable_fault error.now }
{
    match error {
        VarError::OutOfMemory => StartFault::Memory,
        _ => StartFault::NotText,
    }
}
