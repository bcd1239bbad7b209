//! What declarations begin with, and what they set.

ghost use Rattle.std.specs.Prelude.{◌≡◌, ℕ, None};
ghost use Rattle.ctl_types.specs.Values.{Env};
ghost use Rattle.ctl_types.specs.Run.{Normal};
ghost use Rattle.eval_values.specs.Uncounted.{Gives, pixel};
ghost use Rattle.eval_tree.specs.Scene.{declared, first_value};

use crate::scene::Scene;
use ctl_types::{Declaration, LocalShape, Value};
use eval_values::{Stop, fits, set, sizes_in, zero_of};
use std::alloc::Global;

/// The zero of a shape.
pub fn zero(alloc: Global, shape: &LocalShape, scene: &Scene<'_>) -> Result<Value, Stop>
    ensures { (env : Env) (turns : ℕ) → Gives (λ v. v) result env turns (first_value scene.now shape.now None (pixel env turns)) }
{
    let sizes = sizes_in(alloc, scene.opens(), shape.sizes.as_slice())?;
    Ok(zero_of(alloc, scene.zeros(), sizes.as_slice(), shape.base)?)
}

/// A variable gets its first value, where it is of its shape.
pub fn declare(
    alloc: Global,
    declaration: &Declaration,
    value: Value,
    scene: &Scene<'_>,
    env: &mut Vec<Option<Value>>,
) -> Result<(), Stop>
    ensures { (turns : ℕ) → Gives (λ _. Normal) result env.new.items turns (declared scene.now declaration.now.variable declaration.now.shape value (pixel env.old.items turns)) }
{
    let shape = &declaration.shape;
    let sizes = sizes_in(alloc, scene.opens(), shape.sizes.as_slice())?;
    if !fits(scene.structs(), &value, sizes.as_slice(), Some(shape.base)) {
        return Err(Stop::Wrong);
    }
    set(env, declaration.variable, value);
    Ok(())
}
