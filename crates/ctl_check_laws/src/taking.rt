//! How a value is taken where a shape is wanted, and which place an expression is.

ghost use Rattle.ctl_check_laws.specs.Taking.{ConversionHasType, FittingHasType, StatedSizesFit, PlaceHasType};

/// What is done to a value of a known type makes it one of the base that is wanted, with the same sizes and depth.
pub fn conversion_has_type()
    ensures { ConversionHasType }
{}

/// A value of a known type that fits where extents and a base are wanted is taken as one of that base, with its sizes,
/// which fit the extents.
pub fn fitting_has_type()
    ensures { FittingHasType }
{}

/// Where no extent is open, only the sizes of the extents fit.
pub fn stated_sizes_fit()
    ensures { StatedSizesFit }
{}

/// The place that an expression of a known type is has that type. It may be assigned among more variables where it may
/// be in the scope.
pub fn place_has_type()
    ensures { PlaceHasType }
{}
