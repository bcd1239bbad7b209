//! Laws of the rows.

ghost use Rattle.ctl_stdlib.specs.Laws.{NamesDiffer, ResultsFit, HalvesComeOut, OnlyAssertRefuses};

use fix_num::halves_stay_in_range;

/// The law that no two functions or constants share a name.
pub fn names_differ()
    ensures { NamesDiffer }
{}

/// The law that a call fills as many words as the shapes of its result and outputs have.
pub fn results_fit()
    ensures { ResultsFit }
{}

/// The law that a function which gives a half gives one of the halves.
pub fn halves_come_out()
    ensures { HalvesComeOut }
{
    halves_stay_in_range();
}

/// The law that every function but the assertion goes on, and the assertion where its word is not 0.
pub fn only_assert_refuses()
    ensures { OnlyAssertRefuses }
{}
