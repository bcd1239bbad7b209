//! What the checker accepts where a value is taken is well typed.

ghost use Rattle.initialiser_laws.specs.Laws.{InitialisersAreWell, AssignmentsAreWell, TestsAreBool, ReturnsAreWell};

use ctl_check_laws::{
    conversion_has_type, fields_stand, fitting_has_type, place_has_type, stated_sizes_fit,
    typed_is_well_typed, typed_place_is_well_typed,
};

/// An initialiser that the checker accepts for a shape is well typed, with the sizes and the depth that the checker
/// gives and the base of the shape. Its sizes fit the extents of the shape, and are those of the shape where none is
/// open. It stands: its sizes are in range, and it has no more scalars than a value may have. The shape's struct is
/// there, and no stated extent is above the limit of arrays.
pub fn initialisers_are_well()
    ensures { InitialisersAreWell }
{
    typed_is_well_typed();
    fitting_has_type();
    stated_sizes_fit();
    fields_stand();
}

/// An assignment that the checker accepts is well typed, with the depth that the checker gives.
pub fn assignments_are_well()
    ensures { AssignmentsAreWell }
{
    typed_is_well_typed();
    typed_place_is_well_typed();
    conversion_has_type();
    place_has_type();
}

/// A test that the checker accepts is taken as a bool.
pub fn tests_are_bool()
    ensures { TestsAreBool }
{
    fitting_has_type();
}

/// What the checker accepts as a return is nothing where the function gives nothing, and else has the shape of its
/// result, which stands.
pub fn returns_are_well()
    ensures { ReturnsAreWell }
{
    typed_is_well_typed();
    fitting_has_type();
    stated_sizes_fit();
}
