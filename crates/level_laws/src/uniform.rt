//! What does not vary is the same in two runs.

ghost use Rattle.std.specs.Prelude.{ℕ};
ghost use Rattle.ctl_types.specs.Cost.{uncounted, counted};
ghost use Rattle.level_laws.specs.Uniform.{EntersVarying, VaryingPlaces, UniformValues};

/// What is entered at a place of varying control has varying control.
pub fn enters_varying()
    ensures { EntersVarying }
{}

/// A place of varying control assigns nothing that does not vary. Without a count, and with one.
pub fn varying_places()
    ensures plain { VaryingPlaces (Unit {0}) uncounted }
    ensures counted { VaryingPlaces ℕ counted }
{}

/// Two runs of an entry of definitions that keep the rules, none of whose uniform outputs varies, from inputs that agree
/// where they are marked uniform and with any turns, agree on the uniform outputs where both give values. Without a count,
/// and with one.
pub fn uniform_values()
    ensures plain { UniformValues (Unit {0}) uncounted }
    ensures counted { UniformValues ℕ counted }
{}
