//! Laws of the definitions.

ghost use Rattle.std.specs.Prelude.{◌≡◌};
ghost use Rattle.fix_elem.specs.Elementary.{PowerGrows, ExponentIsGreatest, FloorLog2IsFloor};

use fix_num::root_is_floor;

/// E grows strictly with f, at up to 40 fraction bits.
pub fn power_grows()
    ensures { PowerGrows }
{
    root_is_floor();
}

/// The exponent is the greatest f with E(f) at most m.
pub fn exponent_is_greatest()
    ensures { ExponentIsGreatest }
{}

/// The logarithm rounded down is pinned by the two powers around its number.
pub fn floor_log2_is_floor()
    ensures { FloorLog2IsFloor }
{}
