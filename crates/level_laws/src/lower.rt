//! Calls go to functions before.

ghost use Rattle.level_laws.specs.Lower.{CallsLower};

/// Of definitions that keep their rules each instance calls instances of functions before its own, so those that are
/// reached are closed under calls.
pub fn calls_lower()
    ensures { CallsLower }
{}
