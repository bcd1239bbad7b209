//! Laws of definitions.

ghost use Rattle.ctl_program.specs.Laws.{SignaturesStay};

/// The law that one more struct or constant changes the signature of no function.
pub fn signatures_stay()
    ensures { SignaturesStay }
{}
