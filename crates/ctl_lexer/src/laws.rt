//! What holds of texts, of their tokens and of their faults.

ghost use Rattle.ctl_lexer.specs.Laws.{OneList, OneFault, FaultsHaveNoTokens, TokensOrFault};

use fix_num::spells_once;

/// A text has at most one list of tokens.
pub fn one_list()
    ensures { OneList }
{
    spells_once();
}

/// A text has at most one fault.
pub fn one_fault()
    ensures { OneFault }
{}

/// No tokens stand for a text that has a fault.
pub fn faults_have_no_tokens()
    ensures { FaultsHaveNoTokens }
{}

/// Tokens stand for a text, or it has a fault.
pub fn tokens_or_fault()
    ensures { TokensOrFault }
{
    spells_once();
}
