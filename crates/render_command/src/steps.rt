//! The steps before the store.

ghost use Rattle.std.specs.Prelude.{◌≡◌};
ghost use Rattle.command_status.specs.declared.status.Status.TheVariants.{Source};
ghost use Rattle.command_words.specs.Command.{named};
ghost use Rattle.render_command.specs.Means.{ReadStep, Tells};
ghost use Rattle.render_command.specs.Verdict.{IsPlan, checked, image_at, loads, look_for, plan_for, planned, planned_at, planned_by, program_of, status_of, units_of};
ghost use Rattle.render_tree.specs.Forms.{form_of};
ghost use Rattle.render_tree.specs.RenderedImage.{rendered};
ghost use Rattle.render_tree.specs.Stages.{IsStage};

use command_status::{ImageFault, SourceFault, Status};
use command_words::Command;
use ctl_base::TextArg;
use ctl_base::limits::IMAGE_BYTES;
use ctl_check::{CheckFault, check};
use ctl_program::Program;
use ctl_tree::Units;
use dpx_file::{Canvas, Image, ReadError};
use module_path::{LoadFault, load};
use outside::{FetchFault, Fetched, FileBox};
use render_tree::{RenderFault, Stage, render_image};
use std::alloc::Global;

// The image that is to be stored.
pub(crate) fn canvas_of<F: FileBox>(
    alloc: Global,
    files: &mut F,
    path: &str,
    command: &Command<'_>,
) -> Result<Canvas, Status>
    ensures { ReadStep F.held F.asked F.faults F.lost F.serves files.old files.new (λ canvas. plan_for command.now.destination.now canvas) (λ held. planned held path.now (named command.now)) result }
{
    let program = program_of(alloc, files, path, command)?;
    canvas_by(alloc, files, command, &program)
}

// The same by the program, whose entry is there and of the simple form.
fn canvas_by<F: FileBox>(
    alloc: Global,
    files: &mut F,
    command: &Command<'_>,
    program: &Program,
) -> Result<Canvas, Status>
    ensures { ReadStep F.held F.asked F.faults F.lost F.serves files.old files.new (λ canvas. plan_for command.now.destination.now canvas) (λ held. planned_by held (named command.now) program.now) result }
{
    match Stage::new(program) {
        Some(stage) => canvas_at(alloc, files, command, &stage),
        None => Err(Status::Later),
    }
}

// The same by the stage.
fn canvas_at<F: FileBox>(
    alloc: Global,
    files: &mut F,
    command: &Command<'_>,
    stage: &Stage<'_>,
) -> Result<Canvas, Status>
    requires { IsStage (form_of stage.now) }
    ensures { ReadStep F.held F.asked F.faults F.lost F.serves files.old files.new (λ canvas. plan_for command.now.destination.now canvas) (λ held. planned_at held (named command.now) (form_of stage.now)) result }
{
    let image = fetch_image(alloc, files, command)?;
    render_stage(alloc, command, stage, &image)
}

// The program of the text and what it imports.
fn program_of<F: FileBox>(
    alloc: Global,
    files: &mut F,
    path: &str,
    command: &Command<'_>,
) -> Result<Program, Status>
    ensures { ReadStep F.held F.asked F.faults F.lost F.serves files.old files.new (λ p. p) (λ held. program_of held path.now (named command.now)) result }
{
    let units = units_of(alloc, files, path, command)?;
    checked(alloc, units)
}

// The modules of the text and what it imports, where the destination is not held.
fn units_of<F: FileBox>(
    alloc: Global,
    files: &mut F,
    path: &str,
    command: &Command<'_>,
) -> Result<Units, Status>
    ensures { ReadStep F.held F.asked F.faults F.lost F.serves files.old files.new (λ u. u) (λ held. units_of held path.now (named command.now)) result }
{
    test_free(alloc, files, command)?;
    load_units(alloc, files, path, command)
}

// The destination is not held.
fn test_free<F: FileBox>(alloc: Global, files: &mut F, command: &Command<'_>) -> Result<(), Status>
    ensures { ReadStep F.held F.asked F.faults F.lost F.serves files.old files.new (λ x. x) (λ held. look_for held command.now.destination.now) result }
{
    let name = command.destination.copy(alloc)?;
    match files.has(command.destination.as_str()) {
        Ok(true) => Err(Status::Exists),
        Ok(false) => Ok(()),
        Err(_) => Err(Status::ReadFault { name }),
    }
}

fn load_units<F: FileBox>(
    alloc: Global,
    files: &mut F,
    path: &str,
    command: &Command<'_>,
) -> Result<Units, Status>
    ensures { ReadStep F.held F.asked F.faults F.lost F.serves files.old files.new (λ u. u) (λ held. loads held path.now command.now.text.now) result }
{
    match load(alloc, files, path, command.text.as_str()) {
        Ok(units) => Ok(units),
        Err(fault) => Err(loading_status(fault)),
    }
}

// The status of what keeps modules from being loaded.
fn loading_status(fault: LoadFault) -> Status
    ensures { result ≡ status_of fault }
{
    match fault {
        LoadFault::Cycle { file, name: _ } => no_line(file, SourceFault::Cycle),
        LoadFault::TooMany { file } => no_line(file, SourceFault::TooMany),
        LoadFault::NotFound { name } => Status::NotFound { name },
        LoadFault::ReadFault { name } => Status::ReadFault { name },
        LoadFault::TooLong { file } => no_line(file, SourceFault::TooLong),
        LoadFault::Lex {
            file,
            at: _,
            line,
            kind,
        } => Status::Source {
            file,
            line,
            fault: SourceFault::Lex(kind),
        },
        LoadFault::Syntax {
            file,
            at: _,
            line,
            kind,
        } => Status::Source {
            file,
            line,
            fault: SourceFault::Syntax(kind),
        },
        LoadFault::Memory => Status::Memory,
    }
}

// A fault of a file at no token.
fn no_line(file: TextArg, fault: SourceFault) -> Status
    ensures { result ≡ Source file 0 fault }
{
    Status::Source {
        file,
        line: 0,
        fault,
    }
}

// The program that modules mean.
fn checked(alloc: Global, units: Units) -> Result<Program, Status>
    ensures { Tells (λ p. p) (λ answer. checked units ≡ answer) result }
{
    match check(alloc, units) {
        Ok(program) => Ok(program),
        Err(
            CheckFault::At {
                file,
                line,
                node: _,
                kind,
            },
        ) => Err(Status::Source {
            file,
            line,
            fault: SourceFault::Check(kind),
        }),
        Err(CheckFault::Memory) => Err(Status::Memory),
    }
}

fn fetch_image<F: FileBox>(
    alloc: Global,
    files: &mut F,
    command: &Command<'_>,
) -> Result<Image, Status>
    ensures { ReadStep F.held F.asked F.faults F.lost F.serves files.old files.new (λ i. i) (λ held. image_at held command.now.source.now) result }
{
    let name = command.source.copy(alloc)?;
    let bytes = match files.fetch(alloc, command.source.as_str(), IMAGE_BYTES) {
        Ok(Fetched::Bytes(bytes)) => bytes,
        Ok(Fetched::Absent) => return Err(Status::Image {
            fault: ImageFault::Absent,
        }),
        Ok(Fetched::TooLong { limit: _ }) => return Err(Status::Image {
            fault: ImageFault::TooLong,
        }),
        Err(FetchFault::Failed) => return Err(Status::ReadFault { name }),
        Err(FetchFault::Memory) => return Err(Status::Memory),
    };
    match dpx_file::read(alloc, bytes.as_slice()) {
        Ok(image) => Ok(image),
        Err(ReadError::Dpx(fault)) => Err(Status::Image {
            fault: ImageFault::Dpx(fault),
        }),
        Err(ReadError::Memory) => Err(Status::Memory),
    }
}

// The image that the stage makes of the source.
fn render_stage(
    alloc: Global,
    command: &Command<'_>,
    stage: &Stage<'_>,
    image: &Image,
) -> Result<Canvas, Status>
    requires { IsStage (form_of stage.now) }
    ensures { Tells (λ canvas. plan_for command.now.destination.now canvas) (IsPlan command.now.destination.now (rendered (form_of stage.now) image.now)) result }
{
    let _name = command.destination;
    match render_image(alloc, stage, image) {
        Ok(canvas) => Ok(canvas),
        Err(
            RenderFault::Trap {
                line,
                column,
                kind,
                node,
            },
        ) => Err(Status::Trap {
            line,
            column,
            stage: 0,
            kind,
            node,
        }),
        Err(RenderFault::Memory) => Err(Status::Memory),
    }
}
