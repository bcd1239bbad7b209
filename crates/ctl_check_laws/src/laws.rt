//! What the checker accepts is well typed.

ghost use Rattle.ctl_check_laws.specs.WellTyped.{TypedIsWellTyped, TypedCallIsWellTyped, TypedPlaceIsWellTyped, FieldsStand};

use fix_num::{half_keeps, halves_stay_in_range, saturation_clamps};

/// An expression that the checker accepts is well typed where it stands. Its type has the sizes, the base and the
/// depth that the checker gives; its shape stands, so it has no more scalars than a value may have; and its depth is
/// below the least one that may not be called there. Around it the scope numbers the definitions, these keep the
/// rules, the shapes of the visible variables stand, and the tokens of the expression are of the scope's module. The
/// typed form may stand among more variables than the scope has, where those of the scope keep their numbers.
pub fn typed_is_well_typed()
    ensures { TypedIsWellTyped }
{
    saturation_clamps();
    halves_stay_in_range();
    half_keeps();
}

/// The same of a call, whose result may be no value.
pub fn typed_call_is_well_typed()
    ensures { TypedCallIsWellTyped }
{
    saturation_clamps();
    halves_stay_in_range();
    half_keeps();
}

/// The same of a place as it is written in an assignment.
pub fn typed_place_is_well_typed()
    ensures { TypedPlaceIsWellTyped }
{
    saturation_clamps();
    halves_stay_in_range();
    half_keeps();
}

/// The shapes of a struct's fields stand, and have no open sizes.
pub fn fields_stand()
    ensures { FieldsStand }
{}
