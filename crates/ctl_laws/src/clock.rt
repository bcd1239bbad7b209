//! The count and the turns of a run.

ghost use Rattle.ctl_laws.specs.Turns.{CountChangesNothing, TurnsNeverRise, MoreTurnsEndAlike};

/// The run of an entry with a count gives what the run without one gives, once its count is forgotten: the same outputs
/// and turns left, or the same fault.
pub fn count_changes_nothing()
    ensures { CountChangesNothing }
{}

/// Where the run of an entry gives outputs, the turns that are left are no more than there were.
pub fn turns_never_rise()
    ensures { TurnsNeverRise }
{}

/// The run of an entry with more turns ends alike. Where it gave outputs, it gives the same ones with the same count, and
/// as many more turns are left; where it met a fault other than a want of turns, it meets the same one.
pub fn more_turns_end_alike()
    ensures { MoreTurnsEndAlike }
{}
