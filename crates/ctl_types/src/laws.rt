//! Laws of the words of values.

ghost use Rattle.ctl_types.specs.Example.{ExampleStands, ExampleRuns};
ghost use Rattle.ctl_types.specs.Laws.{PartsAreStretches, WordsAreCounted, WordsGoBack};

/// The words of a part are a stretch of those of the whole, and are replaced with the part.
pub fn parts_are_stretches()
    ensures { PartsAreStretches }
{}

/// A value of a shape has as many words as the shape has scalars.
pub fn words_are_counted()
    ensures { WordsAreCounted }
{}

/// A value is told by its shape and its words.
pub fn words_go_back()
    ensures { WordsGoBack }
{}

/// There is a program that keeps the rules, and its entry gives what is meant.
pub fn example()
    ensures stands { ExampleStands }
    ensures runs { ExampleRuns }
{}
