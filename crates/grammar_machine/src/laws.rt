//! What the machine tells of tokens.

ghost use Rattle.grammar_machine.specs.Laws.{ModulesArePassed, EndsAreModules, StopsAreFaults, SinksAreFaults, RefusalsSpellNone, ModuleOrFault};

/// The machine passes over each module that tokens spell, of any nesting, and within a limit where the nesting is.
pub fn modules_are_passed()
    ensures { ModulesArePassed }
{}

/// Where the machine comes to its end, the tokens spell a module.
pub fn ends_are_modules()
    ensures { EndsAreModules }
{}

/// Where the machine has to stop, the tokens have a fault: no module goes on there.
pub fn stops_are_faults()
    ensures { StopsAreFaults }
{}

/// Where a nesting above the limit can no longer be avoided, the tokens have that fault.
pub fn sinks_are_faults()
    ensures { SinksAreFaults }
{}

/// Where the machine stops or a nesting is too deep, the tokens spell no module within the limit.
pub fn refusals_spell_none()
    ensures { RefusalsSpellNone }
{}

/// Each list of tokens spells a module within the limit or has a fault.
pub fn module_or_fault()
    ensures { ModuleOrFault }
{}
