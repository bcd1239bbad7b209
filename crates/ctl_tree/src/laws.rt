//! What holds of the tokens and the forms that they spell.

ghost use Rattle.ctl_tree.specs.Laws.{OneModule, TokensStand, TokensAreSpelt, OneSyntaxFault, FaultsSpellNone};

/// The tokens spell at most one module, of any nesting.
pub fn one_module()
    ensures { OneModule }
{}

/// The own token of each form of a module that tokens spell is one of these tokens.
pub fn tokens_stand()
    ensures { TokensStand }
{}

/// The bytes of each token that stands for a text spell its kind.
pub fn tokens_are_spelt()
    ensures { TokensAreSpelt }
{}

/// Tokens have at most one fault.
pub fn one_syntax_fault()
    ensures { OneSyntaxFault }
{}

/// Tokens that have a fault spell no module of a nesting that is allowed.
pub fn faults_spell_none()
    ensures { FaultsSpellNone }
{}
