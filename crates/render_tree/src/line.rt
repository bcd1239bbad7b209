//! The run of a stage on the pixels of a line.

ghost use Rattle.std.specs.Prelude.{◌≡◌, ◌<◌, ◌≤◌, ◌*◌, ◌^◌, ℕ, OnOk, length};
ghost use Rattle.ctl_base.specs.declared.limits.TheConstants.{SIDE};
ghost use Rattle.dpx_file.specs.Plain.{CodesFit};
ghost use Rattle.render_tree.specs.Means.{LineGives, PutOrMemory};
ghost use Rattle.render_tree.specs.Forms.{form_of};
ghost use Rattle.render_tree.specs.PixelRun.{pixel_run};
ghost use Rattle.render_tree.specs.RenderedImage.{codes_of, line_run};
ghost use Rattle.render_tree.specs.Stages.{IsStage};

use crate::fault::{LineFault, PixelStop};
use crate::pixel::{Pixel, render_pixel};
use crate::stage::Stage;
use std::alloc::Global;

// Puts what a stage makes of the codes of a line in the place of what stands there.
pub(crate) fn render_line(
    alloc: Global,
    stage: &Stage<'_>,
    depth: u8,
    codes: &[u16],
    line: &mut Vec<u16>,
) -> Result<(), LineFault>
    requires rules { IsStage (form_of stage.now) }
    requires depth { (8 ≤ depth) × (depth ≤ 16) }
    requires fit { CodesFit depth codes.now }
    requires short { length codes.now ≤ 3 * SIDE }
    ensures gives { LineGives result line.new.items (line_run (pixel_run depth depth (form_of stage.now)) codes.now) }
    ensures many { (k : ℕ) → length codes.now ≡ 3 * k → OnOk result (length line.new.items ≡ 3 * k) }
    ensures fits { OnOk result (CodesFit depth line.new.items) }
{
    line.clear();
    let mut rest = codes;
    let mut column = 0;
    'pixels: while let [red, green, blue, others @ ..] = rest {
        let pixel = Pixel {
            red: *red,
            green: *green,
            blue: *blue,
        };
        match render_pixel(alloc, stage, depth, pixel) {
            Ok(made) => put_pixel(made, line)?,
            Err(PixelStop::Trap { kind, node }) => {
                return Err(LineFault::Trap { column, kind, node });
            }
            Err(PixelStop::Memory) => return Err(LineFault::Memory),
        }
        rest = others;
        column += 1;
    }
    Ok(())
}

// Puts the codes of a pixel last.
fn put_pixel(pixel: Pixel, line: &mut Vec<u16>) -> Result<(), LineFault>
    ensures { PutOrMemory result line.old.items line.new.items (codes_of pixel) }
{
    let codes = [pixel.red, pixel.green, pixel.blue];
    line.extend_from_slice(&codes)?;
    Ok(())
}
