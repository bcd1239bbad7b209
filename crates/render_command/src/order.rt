//! The steps of the command, in their order.

ghost use Rattle.std.specs.Prelude.{◌≡◌, ◌<◌, ◌^◌, List, Some, Ok, length};
ghost use Rattle.command_status.specs.Messages.{message_of};
ghost use Rattle.command_status.specs.Spoken.{IsHeard, Speaks};
ghost use Rattle.command_words.specs.Command.{destination_of};
ghost use Rattle.outside.specs.Calls.{FileCall};
ghost use Rattle.outside.specs.Causes.{Rose};
ghost use Rattle.outside.specs.Files.{Held};
ghost use Rattle.render_command.specs.Ends.{Counted, Ends, Finishes};
ghost use Rattle.render_command.specs.Verdict.{Judges, OneVerdict, Plan, SomeVerdict};

use crate::steps::canvas_of;
use command_status::{Status, say_status};
use command_words::{destination, read_words};
use ctl_base::{Ledger, Steps, TextArg};
use outside::{Console, FileBox};
use std::alloc::Global;

/// Runs the text that the words name, with what it imports along the module path, on each pixel of the source, and stores
/// the image under the destination.
///
/// The words are `-ctl`, the name of the text, the name of the source and the name of the destination. On every
/// status but Done one line is said. The steps are for what is not built yet.
pub fn render<F: FileBox, C: Console, L: Ledger>(
    alloc: Global,
    words: &[TextArg],
    module_path: &str,
    files: &mut F,
    console: &mut C,
    steps: &mut Steps<L>,
) -> Status
    requires { length words.now < 2 ^ 32 }
    ensures ends { (held : Held) → F.held files.old ≡ Some held
        → Ends held (record { path = module_path.now; words = words.now }) (F.asked files.old) (F.asked files.new) (F.held files.new) result }
    ensures counted { Counted (F.faults files.old) (F.faults files.new) (F.lost files.old) (F.lost files.new) result }

    // Nothing but a failure of the files, or want of memory, keeps a good command from its end.
    ensures complete { (held : Held) → F.held files.old ≡ Some held → (between : List FileCall) (plan : Plan) → Judges held module_path.now words.now (F.asked files.old) between (Ok plan) →
        (Rose (F.faults files.old) (F.faults files.new) → ⊥) → (Rose (F.lost files.old) (F.lost files.new) → ⊥) → Finishes result }
    ensures served { (held : Held) → F.held files.old ≡ Some held → (between : List FileCall) (plan : Plan) → Judges held module_path.now words.now (F.asked files.old) between (Ok plan) →
        F.serves files.old plan.destination (length plan.bytes) → Finishes result }
    ensures said { Speaks (C.said console.old) (C.said console.new) (C.failures console.old) (C.failures console.new) (message_of (destination_of words.now) result) }
    ensures heard { IsHeard (C.said console.old) (C.said console.new) (C.hears console.old) (C.hears console.new) (message_of (destination_of words.now) result) }
    ensures steps_stay { steps.new ≡ steps.old }
{
    one_verdict();
    let status = carry_out(alloc, words, module_path, files);
    say_status(console, destination(words), &status);
    status
}

/// What words ask of the files has at most one verdict, and asks for it by the same calls. So each status comes exactly
/// where the verdict is it, but for want of memory and what the files answer by failing.
pub fn one_verdict()
    ensures { OneVerdict }
{
    module_path::at_most_one();
}

/// And it has one, whatever the words and the path, and whatever files are held: a plan, or a status at which a step stops.
/// Nothing is taken for granted of the files but that they are bytes, numbers below 256, as all files are. A program that
/// is checked has a meaning on each pixel of an image that is read, so no pixel is without an answer.
pub fn some_verdict()
    ensures { SomeVerdict }
{
    module_path::at_least_one();
    program_laws::loaded_programs_keep_rules();
    dpx_laws::read_images_keep_rules();
    render_tree::stages_keep_rules();
    render_tree::stages_render_well();
}

// The steps, and nothing said.
fn carry_out<F: FileBox>(
    alloc: Global,
    words: &[TextArg],
    module_path: &str,
    files: &mut F,
) -> Status
    ensures ends { (held : Held) → F.held files.old ≡ Some held
        → Ends held (record { path = module_path.now; words = words.now }) (F.asked files.old) (F.asked files.new) (F.held files.new) result }
    ensures counted { Counted (F.faults files.old) (F.faults files.new) (F.lost files.old) (F.lost files.new) result }
    ensures served { (held : Held) → F.held files.old ≡ Some held → (between : List FileCall) (plan : Plan) → Judges held module_path.now words.now (F.asked files.old) between (Ok plan) →
        F.serves files.old plan.destination (length plan.bytes) → Finishes result }
{
    one_verdict();
    let Some(command) = read_words(words) else {
        return Status::Later;
    };
    let canvas = match canvas_of(alloc, files, module_path, &command) {
        Ok(canvas) => canvas,
        Err(status) => return status,
    };
    match files.store(command.destination.as_str(), canvas.bytes()) {
        Ok(()) => Status::Done,
        Err(_) => Status::WriteFault,
    }
}
