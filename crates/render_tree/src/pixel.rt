//! The run of a stage on a pixel.

ghost use Rattle.std.specs.Prelude.{◌<◌, ◌≤◌, ◌^◌, IfOk};
ghost use Rattle.render_tree.specs.Means.{InputsFit, PixelFits, PixelGives};
ghost use Rattle.render_tree.specs.Forms.{form_of};
ghost use Rattle.render_tree.specs.PixelRun.{pixel_run};
ghost use Rattle.render_tree.specs.Stages.{IsStage};

use crate::fault::PixelStop;
use crate::inputs::input_values;
use crate::outputs::written;
use crate::stage::Stage;
use ctl_base::limits::TURNS;
use ctl_eval::{PixelEnd, run};
use std::alloc::Global;

/// The codes of a pixel.
#[derive(Clone, Copy)]
pub struct Pixel {
    pub red: u16,
    pub green: u16,
    pub blue: u16,
}

// The run of a stage on a pixel. What it takes of memory is given back.
pub(crate) fn render_pixel(
    alloc: Global,
    stage: &Stage<'_>,
    depth: u8,
    pixel: Pixel,
) -> Result<Pixel, PixelStop>
    requires rules { IsStage (form_of stage.now) }
    requires depth { (8 ≤ depth) × (depth ≤ 16) }
    requires fits { PixelFits depth pixel }
    ensures gives { PixelGives result (pixel_run depth depth (form_of stage.now) pixel) }
    ensures fit { IfOk result (λ p. PixelFits depth p) }
{
    fix_num::codes_stay_in_range();
    inputs_fit();
    let inputs = input_values(alloc, stage.parameters(), depth, pixel)?;
    match run(alloc, stage.program, stage.entry, inputs.as_slice(), TURNS)? {
        PixelEnd::Values { outputs, turns: _ } => {
            Ok(written(stage.parameters(), outputs.as_slice(), depth, pixel))
        }
        PixelEnd::Trap { kind, node } => Err(PixelStop::Trap { kind, node }),
    }
}

// The inputs of a stage fit its entry.
pub(crate) fn inputs_fit()
    ensures { InputsFit }
{
    fix_num::codes_stay_in_range();
    fix_num::halves_stay_in_range();
    fix_num::wholes_stay_in_range();
    fix_num::half_keeps();
}
