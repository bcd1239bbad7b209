//! The image that a stage makes of an image.

ghost use Rattle.std.specs.Prelude.{◌≡◌, ◌<◌, ◌*◌};
ghost use Rattle.dpx_file.specs.Plain.{codes_of_line};
ghost use Rattle.render_tree.specs.Means.{PutsLine};
ghost use Rattle.render_tree.specs.Rendering.{Renders};
ghost use Rattle.render_tree.specs.Forms.{form_of};
ghost use Rattle.render_tree.specs.PixelRun.{pixel_run};
ghost use Rattle.render_tree.specs.RenderedImage.{line_run, rendered};
ghost use Rattle.render_tree.specs.Stages.{IsStage};

use crate::fault::{LineFault, RenderFault};
use crate::line::render_line;
use crate::stage::Stage;
use dpx_file::{Canvas, Image};
use std::alloc::Global;

/// The image of the same size and depth whose each pixel is the run of the stage on that pixel; or the trap of the first
/// pixel whose run traps, from the top and then from the left.
pub fn render_image(alloc: Global, stage: &Stage<'_>, image: &Image) -> Result<Canvas, RenderFault>
    requires { IsStage (form_of stage.now) }
    ensures { Renders result (rendered (form_of stage.now) image.now) }
{
    let mut canvas = Canvas::begin(alloc, image.width(), image.height(), image.depth())?;
    let mut line = Vec::with_capacity(alloc, 3 * image.width() as usize)?;
    'lines: for y in 0..image.height() {
        put_rendered(alloc, stage, image, y, &mut line, &mut canvas)?;
    }
    Ok(canvas)
}

// Puts on a canvas of the image's size and depth what the stage makes of a line of it.
fn put_rendered(
    alloc: Global,
    stage: &Stage<'_>,
    image: &Image,
    y: u32,
    line: &mut Vec<u16>,
    canvas: &mut Canvas,
) -> Result<(), RenderFault>
    requires rules { IsStage (form_of stage.now) }
    requires line { y < image.now.height }
    requires width { canvas.old.width ≡ image.now.width }
    requires height { canvas.old.height ≡ image.now.height }
    requires depth { canvas.old.depth ≡ image.now.depth }
    ensures { PutsLine result canvas.old canvas.new y (line_run (pixel_run image.now.depth image.now.depth (form_of stage.now)) (codes_of_line image.now y)) }
{
    match render_line(alloc, stage, image.depth(), image.line(y), line) {
        Ok(()) => {
            canvas.put_line(y, line);
            Ok(())
        }
        Err(LineFault::Trap { column, kind, node }) => Err(RenderFault::Trap {
            line: y,
            column,
            kind,
            node,
        }),
        Err(LineFault::Memory) => Err(RenderFault::Memory),
    }
}
