//! The tokens of a text, as contracts see them: a list.

ghost use Rattle.std.specs.Prelude.{◌≡◌, List, [], ◌∷◌, ◌++◌, IfOk, IfErr};

use crate::Token;
use ctl_base::Memory;
use std::alloc::Global;
use std::marker::Model;

/// Tokens in their order.
#[derive(Debug, Drop)]
pub struct TokenList {
    tokens: Vec<Token>,
}

impl Model for TokenList {
    ghost use Rattle.std.specs.Prelude.{List};
    ghost use Rattle.ctl_tree.specs.declared.token.Token.{Token};

    ghost Value = { List Token };

    ghost view = { λ t. t.tokens.items };
}

impl TokenList {
    pub fn new(alloc: Global) -> TokenList
        ensures { result ≡ [] }
    {
        TokenList {
            tokens: Vec::new(alloc),
        }
    }

    /// The tokens of a vector, which is taken over and not copied.
    pub fn from_vec(tokens: Vec<Token>) -> TokenList
        ensures { result ≡ tokens.items }
    {
        TokenList { tokens }
    }

    /// The vector of the tokens, which is given back and not copied.
    pub fn into_vec(self) -> Vec<Token>
        ensures { result.items ≡ self }
    {
        let TokenList { tokens } = self;
        tokens
    }

    /// Puts a token last. A list that has no room for it stays as it was.
    pub fn push(&mut self, token: Token) -> Result<(), Memory>
        ensures last { IfOk result (λ _. self.new ≡ self.old ++ (token ∷ [])) }
        ensures kept { IfErr result (λ _. self.new ≡ self.old) }
    {
        let Token {
            kind,
            at,
            len,
            line,
        } = token;
        self.tokens.push(Token {
            kind,
            at,
            len,
            line,
        })?;
        Ok(())
    }

    pub fn as_slice(&self) -> &[Token]
        ensures { result.now ≡ self.now }
    {
        self.tokens.as_slice()
    }
}
