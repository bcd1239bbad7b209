//! Laws of the rules.

ghost use Rattle.level_rules.specs.Levels.{LevelsAreOne};
ghost use Rattle.level_rules.specs.Listed.{ReachedIsLeast};
ghost use Rattle.level_rules.specs.Rows.{RowsTell, PutsGrow};

/// What varies in the instances of functions is told in one way.
pub fn levels_are_one()
    ensures { LevelsAreOne }
{}

/// The row of varying control and those of the parameters tell the least set of every instance.
pub fn rows_tell()
    ensures { RowsTell }
{}

/// The more varies, the more the rules put into the set.
pub fn puts_grow()
    ensures { PutsGrow }
{}

/// The instances that are reached are the least set that has the entry's and is closed under calls, each once.
pub fn reached_is_least()
    ensures { ReachedIsLeast }
{}
