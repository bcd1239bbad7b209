//! Stages: programs whose entry is of the simple form.

ghost use Rattle.std.specs.Prelude.{◌≡◌, IfSome};
ghost use Rattle.std.specs.Option.{option_map};
ghost use Rattle.render_tree.specs.PixelRun.{parameters_of};
ghost use Rattle.render_tree.specs.Forms.{form_of};
ghost use Rattle.render_tree.specs.Stages.{IsStage, stage_of};

use crate::simple::is_simple_entry;
use ctl_program::Program;
use ctl_types::Parameter;

/// A program with its entry, whose parameters are of the simple form.
#[derive(Clone, Copy)]
pub struct Stage<'a> {
    pub program: &'a Program,
    pub entry: u32,
}

impl<'a> Stage<'a> {
    /// The stage of a program, and None where it has no entry, or one that is not of the simple form.
    pub fn new(program: &'a Program) -> Option<Stage<'a>>
        ensures stage { option_map form_of result ≡ stage_of program.now }
        ensures rules { IfSome result (λ stage. IsStage (form_of stage)) }
    {
        program.keeps_rules();
        match program.entry() {
            Some(entry) => {
                if is_simple_entry(program.functions(), entry) {
                    Some(Stage { program, entry })
                } else {
                    None
                }
            }
            None => None,
        }
    }

    pub(crate) fn parameters(&self) -> &[Parameter]
        ensures { result.now ≡ parameters_of (form_of self.now) }
    {
        match self.program.functions().get(self.entry as usize) {
            Some(function) => function.parameters.as_slice(),
            None => &[],
        }
    }
}
