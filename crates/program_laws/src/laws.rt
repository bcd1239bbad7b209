//! What the checker accepts as a whole keeps the rules of programs.

ghost use Rattle.program_laws.specs.Laws.{CheckedProgramsKeepRules, LoadedProgramsKeepRules};

use ctl_tree::tokens_stand;
use definition_laws::{
    accepted_constants_fit, accepted_functions_fit, accepted_structs_fit, entry_stands_checked,
    spaces_rest,
};
use fix_num::{arithmetic_stays_in_range, half_keeps};

/// The program that the checker makes of units, whose forms have tokens of their own, keeps the rules: its definitions do,
/// and its entry is the function that the rule of entries names.
pub fn checked_programs_keep_rules()
    ensures { CheckedProgramsKeepRules }
{
    half_keeps();
    arithmetic_stays_in_range();
    accepted_structs_fit();
    accepted_constants_fit();
    accepted_functions_fit();
    spaces_rest();
    entry_stands_checked();
}

/// So does the program that it makes of the units of any load order, since what is read has tokens of its own.
pub fn loaded_programs_keep_rules()
    ensures { LoadedProgramsKeepRules }
{
    tokens_stand();
    checked_programs_keep_rules();
}
