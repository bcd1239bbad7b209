//! Cuts a source text into tokens.
#![tactic(auto)]

pub use fault::LexFault;
pub use laws::{faults_have_no_tokens, one_fault, one_list, tokens_or_fault};
pub use tokens::lex;

mod bytes;
mod comments;
mod fault;
mod front;
mod laws;
mod names;
mod numbers;
mod signs;
mod texts;
mod tokens;
mod wholes;
