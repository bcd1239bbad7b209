//! An index that does not trap lies inside.

ghost use Rattle.std.specs.Prelude.{ℕ};
ghost use Rattle.ctl_types.specs.Cost.{uncounted, counted};
ghost use Rattle.ctl_laws.specs.Indices.{IndicesLieInside};

/// An index passes its check just where it is from 0 to below the size, and else it traps. Where the step at an index
/// goes on, what it steps into is an array, the number is below its length, and the part of that number is there.
pub fn index_lies_inside()
    ensures plain { IndicesLieInside (Unit {0}) uncounted }
    ensures counted { IndicesLieInside ℕ counted }
{}
