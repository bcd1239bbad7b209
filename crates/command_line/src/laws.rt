//! Laws of what words mean.

ghost use Rattle.command_line.specs.CommandWords.{ForceIsAccepted, OneMeaning, SomeMeaning, SourceIsFirst};

use fix_num::spells_once;

/// The law that words mean one thing.
pub fn one_meaning()
    ensures { OneMeaning }
{
    spells_once();
}

/// The law that words which mean nothing are impossible.
pub fn some_meaning()
    ensures { SomeMeaning }
{}

/// The law that accepted words without `-make` stay accepted when `-force` is added at the end.
pub fn force_is_accepted()
    ensures { ForceIsAccepted }
{}

/// The law that the words of an accepted command without `-make` have the source before the destination.
pub fn source_is_first()
    ensures { SourceIsFirst }
{}
