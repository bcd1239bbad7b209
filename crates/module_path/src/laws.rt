//! What holds of load orders.

ghost use Rattle.module_path.specs.Laws.{AsksForTheFirst, AtMostOne, AtLeastOne, EachOnce, ReadFaultIsLast};

/// What is held, a path and a root have at most one answer, where the files do not fail and memory does not run out, and
/// ask for the same files.
pub fn at_most_one()
    ensures { AtMostOne }
{
    ctl_lexer::one_list();
    ctl_lexer::one_fault();
    ctl_lexer::faults_have_no_tokens();
    ctl_tree::one_module();
    ctl_tree::tokens_are_spelt();
    ctl_tree::one_syntax_fault();
    ctl_tree::faults_spell_none();
}

/// They have an answer.
pub fn at_least_one()
    ensures { AtLeastOne }
{
    ctl_lexer::tokens_or_fault();
    grammar_machine::module_or_fault();
}

/// Each unit that is loaded before the root is a module's, and no module stands twice.
pub fn each_once()
    ensures { EachOnce }
{}

/// Where the files fail or memory runs out, the names asked for are the first of those that the answer asks for.
pub fn asks_for_the_first()
    ensures { AsksForTheFirst }
{
    ctl_lexer::one_list();
    ctl_lexer::one_fault();
    ctl_lexer::faults_have_no_tokens();
    ctl_tree::one_module();
    ctl_tree::tokens_are_spelt();
    ctl_tree::one_syntax_fault();
    ctl_tree::faults_spell_none();
}

/// A read fault names the file of the last call, which failed.
pub fn read_fault_is_last()
    ensures { ReadFaultIsLast }
{}
