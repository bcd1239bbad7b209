//! What holds of every stage and image.

ghost use Rattle.render_tree.specs.Laws.{RendersWell, StagesKeepRules};

use crate::pixel::inputs_fit;
use ctl_laws::entries_are_sound;

/// What is the stage of a program that keeps the rules has an entry of the simple form.
pub fn stages_keep_rules()
    ensures { StagesKeepRules }
{}

/// The run of a stage on a pixel of an image gives a pixel or traps: it is never without a meaning, where the stage is that
/// of a program that keeps the rules, and the image has a size and a depth that are read, and all its codes.
pub fn stages_render_well()
    ensures { RendersWell }
{
    inputs_fit();
    entries_are_sound();
}
