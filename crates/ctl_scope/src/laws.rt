//! Laws of look-up.

ghost use Rattle.ctl_scope.specs.Laws.{FoundIsThere, InnermostIsFound, ScopesStay, BesideBegins, BesideGrow};

/// The law that what a name means is there: its number is one of those that are given.
pub fn found_is_there()
    ensures { FoundIsThere }
{}

/// The law that look-up finds the innermost.
pub fn innermost_is_found()
    ensures { InnermostIsFound }
{}

/// The law that a scope keeps its rules while a function is read.
pub fn scopes_stay()
    ensures { ScopesStay }
{}

/// The law that the scope before all modules has the numbers of the library's definitions.
pub fn beside_begins()
    ensures { BesideBegins }
{}

/// The law that a scope and the definitions that it numbers grow together.
pub fn beside_grows()
    ensures { BesideGrow }
{}
