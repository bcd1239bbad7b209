//! Modules with what they were read from, in load order.

ghost use Rattle.std.specs.Prelude.{◌≡◌, ◌<◌, ◌≤◌, List, [], ◌∷◌, ◌++◌, length, slice_get, IfOk, IfErr};
ghost use Rattle.std.specs.Option.{option_copied};
ghost use Rattle.ctl_tree.specs.OwnTokens.{OwnTokensBelow};
ghost use Rattle.ctl_tree.specs.Units.{line_of_node};
ghost use Rattle.ctl_base.specs.declared.limits.TheConstants.{MODULES, TEXT_BYTES};

use crate::{Module, Token, TokenList};
use ctl_base::{Memory, Node, TextArg};
use std::alloc::Global;
use std::marker::Model;

/// A module with the name of its file and the tokens that spell it. It has at most as many tokens
/// as a text may have bytes, and the own token of each form of the module is one of them.
#[derive(Drop)]
pub struct Unit {
    file: TextArg,
    tokens: TokenList,
    module: Module,
}

impl Model for Unit {
    ghost use Rattle.std.specs.Prelude.{◌≤◌, length};
    ghost use Rattle.ctl_tree.specs.OwnTokens.{OwnTokensBelow};
    ghost use Rattle.ctl_tree.specs.Units.{SourceUnit, unit_code};
    ghost use Rattle.ctl_base.specs.declared.limits.TheConstants.{TEXT_BYTES};

    ghost Value = { SourceUnit };

    ghost coded = { unit_code };

    ghost view = { λ u. record { file = u.file; tokens = u.tokens; «module» = u.«module» } };

    ghost invariant = { λ u. (length u.tokens ≤ TEXT_BYTES) × OwnTokensBelow (length u.tokens) u.«module» };
}

impl Unit {
    pub fn new(file: TextArg, tokens: TokenList, module: Module) -> Unit
        requires few { length tokens ≤ TEXT_BYTES }
        requires own { OwnTokensBelow (length tokens) «module» }
        ensures { result ≡ record { file = file; tokens = tokens; «module» = «module» } }
    {
        Unit {
            file,
            tokens,
            module,
        }
    }

    pub fn file(&self) -> &TextArg
        ensures { result.now ≡ self.now.file }
    {
        &self.file
    }

    pub fn tokens(&self) -> &[Token]
        ensures tokens { result.now ≡ self.now.tokens }
        ensures few { length self.now.tokens ≤ TEXT_BYTES }
    {
        self.tokens.as_slice()
    }

    pub fn module(&self) -> &Module
        ensures form { result.now ≡ self.now.«module» }
        ensures own { OwnTokensBelow (length self.now.tokens) self.now.«module» }
    {
        &self.module
    }
}

/// Units in load order, the root last. There are at most as many as a stage may have modules.
#[derive(Drop)]
pub struct Units {
    units: Vec<Unit>,
}

impl Model for Units {
    ghost use Rattle.std.specs.Prelude.{List, ◌≤◌, length};
    ghost use Rattle.std.specs.Coded.{coded_list};
    ghost use Rattle.ctl_tree.specs.Units.{SourceUnit, unit_code};
    ghost use Rattle.ctl_base.specs.declared.limits.TheConstants.{MODULES};

    ghost Value = { List SourceUnit };

    ghost coded = { coded_list unit_code };

    ghost view = { λ u. u.units.items };

    ghost invariant = { λ u. length u.units.items ≤ MODULES };
}

impl Units {
    pub fn new(alloc: Global) -> Units
        ensures { result ≡ [] }
    {
        Units {
            units: Vec::new(alloc),
        }
    }

    /// Puts a unit last. Units that have no room for it stay as they were.
    pub fn push(&mut self, unit: Unit) -> Result<(), Memory>
        requires { length self.old < MODULES }
        ensures last { IfOk result (λ _. self.new ≡ self.old ++ (unit ∷ [])) }
        ensures kept { IfErr result (λ _. self.new ≡ self.old) }
    {
        self.units.push(unit)?;
        Ok(())
    }

    pub fn len(&self) -> u32
        ensures value { result ≡ length self.now }
        ensures few { result ≤ MODULES }
    {
        self.units.len() as u32
    }

    /// The unit of a place in load order, where there is one.
    pub fn get(&self, place: u32) -> Option<&Unit>
        ensures { option_copied result ≡ slice_get self.now place }
    {
        self.units.get(place as usize)
    }

    pub fn as_slice(&self) -> &[Unit]
        ensures { result.now ≡ self.now }
    {
        self.units.as_slice()
    }

    /// The line of a node's token, and 0 where there is no such token.
    pub fn line_of(&self, node: Node) -> u32
        ensures { result ≡ line_of_node self.now node }
    {
        match self.get(node.module) {
            Some(unit) => match unit.tokens().get(node.token as usize) {
                Some(token) => token.line,
                None => 0,
            },
            None => 0,
        }
    }
}
