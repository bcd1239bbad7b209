//! The line that is said for a status.

ghost use Rattle.std.specs.Prelude.{◌++◌, codes};
ghost use Rattle.std.specs.Fmt.{decimal};
ghost use Rattle.command_status.specs.Messages.{message, message_of};
ghost use Rattle.command_status.specs.Means.{IsSaid};
ghost use Rattle.command_status.specs.Spoken.{IsHeard, Speaks};

use crate::kinds::{image_kind, source_kind, trap_kind};
use crate::status::Status;
use itoa::Buffer;
use outside::{Console, Failed};

const COMMAND: &[u8] = b"ctlrender: ";

/// Says the line of a status, nothing after Done. Nothing follows a piece at which the console fails.
pub fn say_status<C: Console>(console: &mut C, destination: &str, status: &Status)
    ensures speaks { Speaks (C.said console.old) (C.said console.new) (C.failures console.old) (C.failures console.new) (message_of destination.now status.now) }
    ensures heard { IsHeard (C.said console.old) (C.said console.new) (C.hears console.old) (C.hears console.new) (message_of destination.now status.now) }
{
    let _ = say_message(console, destination, status);
}

fn say_message<C: Console>(
    console: &mut C,
    destination: &str,
    status: &Status,
) -> Result<(), Failed>
    ensures { IsSaid C.said C.failures C.hears console.old console.new (message_of destination.now status.now) result }
{
    match status {
        Status::Done => Ok(()),
        Status::Exists => say_three(console, COMMAND, destination.as_bytes(), b" exists\n"),
        Status::NotFound { name } => say_three(
            console,
            COMMAND,
            name.as_str().as_bytes(),
            b" not found\n",
        ),
        Status::Source { file, line, fault } => say_source(
            console,
            file.as_str().as_bytes(),
            *line,
            source_kind(fault),
        ),
        Status::Image { fault } => say_three(
            console,
            b"ctlrender: image: ",
            image_kind(fault),
            b"\n",
        ),
        Status::Trap {
            line,
            column,
            stage,
            kind,
            node: _,
        } => say_trap(console, *line, *column, *stage, trap_kind(kind)),
        Status::ReadFault { name } => say_three(
            console,
            b"ctlrender: read fault on ",
            name.as_str().as_bytes(),
            b"\n",
        ),
        Status::WriteFault => console.say(b"ctlrender: write fault\n"),
        Status::Memory => console.say(b"ctlrender: out of memory\n"),
        Status::Later => console.say(b"ctlrender: not built yet\n"),
    }
}

// Says where in a file of a text which fault is.
fn say_source<C: Console>(
    console: &mut C,
    file: &[u8],
    line: u32,
    kind: &[u8],
) -> Result<(), Failed>
    ensures { IsSaid C.said C.failures C.hears console.old console.new (message (file.now ++ codes " line " ++ decimal line ++ codes ": " ++ kind.now)) result }
{
    let mut digits = Buffer::new();
    say_three(console, COMMAND, file, b" line ")?;
    say_three(console, digits.format(line).as_bytes(), b": ", kind)?;
    console.say(b"\n")
}

// Says at which pixel which trap is.
fn say_trap<C: Console>(
    console: &mut C,
    line: u32,
    column: u32,
    stage: u32,
    kind: &[u8],
) -> Result<(), Failed>
    ensures { IsSaid C.said C.failures C.hears console.old console.new (message (codes "line " ++ decimal line ++ codes " column " ++ decimal column ++ codes " stage " ++ decimal stage ++ codes ": " ++ kind.now)) result }
{
    say_number(console, b"ctlrender: line ", line)?;
    say_number(console, b" column ", column)?;
    say_number(console, b" stage ", stage)?;
    say_three(console, b": ", kind, b"\n")
}

// Says a number behind a piece.
fn say_number<C: Console>(console: &mut C, before: &[u8], number: u32) -> Result<(), Failed>
    ensures { IsSaid C.said C.failures C.hears console.old console.new (before.now ++ decimal number) result }
{
    let mut digits = Buffer::new();
    console.say(before)?;
    console.say(digits.format(number).as_bytes())
}

// Says three pieces, up to the first at which the console fails.
fn say_three<C: Console>(
    console: &mut C,
    first: &[u8],
    second: &[u8],
    third: &[u8],
) -> Result<(), Failed>
    ensures { IsSaid C.said C.failures C.hears console.old console.new (first.now ++ second.now ++ third.now) result }
{
    console.say(first)?;
    console.say(second)?;
    console.say(third)
}
