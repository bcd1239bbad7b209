//! Checked programs.

ghost use Rattle.std.specs.Prelude.{◌≡◌, true};
ghost use Rattle.ctl_types.specs.Definitions.{entry_number};
ghost use Rattle.ctl_types.specs.Scoping.{IsProgram, entry_stands};

use crate::Definitions;
use ctl_tree::Units;
use ctl_types::{Constant, Function, Struct};
use std::marker::Model;

/// A checked program. Its definitions keep the rules, and its entry is the function that the root
/// defines outside all namespaces under the name `main`, else under that of its file.
#[derive(Drop)]
pub struct Program {
    definitions: Definitions,
    entry: Option<u32>,
}

impl Model for Program {
    ghost use Rattle.ctl_types.specs.Scoping.{ProgramForm, IsProgram, program_code};

    ghost Value = { ProgramForm };

    ghost coded = { program_code };

    ghost view = { λ p. record { definitions = p.definitions; entry = p.entry } };

    ghost invariant = { λ p. IsProgram (record { definitions = p.definitions; entry = p.entry }) };
}

impl Program {
    /// The program of these definitions, with its entry.
    pub fn new(definitions: Definitions, entry: Option<u32>) -> Program
        requires named { entry ≡ entry_number definitions }
        requires stands { entry_stands definitions entry ≡ true }
        ensures definitions { result.definitions ≡ definitions }
        ensures entry { result.entry ≡ entry }
    {
        definitions.keep_rules();
        Program { definitions, entry }
    }

    /// The rules are kept.
    pub fn keeps_rules(&self)
        ensures { IsProgram self.now }
    {
        let _entry = &self.entry;
    }

    pub fn definitions(&self) -> &Definitions
        ensures { result.now ≡ self.now.definitions }
    {
        &self.definitions
    }

    pub fn units(&self) -> &Units
        ensures { result.now ≡ self.now.definitions.units }
    {
        self.definitions.units()
    }

    pub fn structs(&self) -> &[Struct]
        ensures { result.now ≡ self.now.definitions.structs }
    {
        self.definitions.structs()
    }

    pub fn constants(&self) -> &[Constant]
        ensures { result.now ≡ self.now.definitions.constants }
    {
        self.definitions.constants()
    }

    pub fn functions(&self) -> &[Function]
        ensures { result.now ≡ self.now.definitions.functions }
    {
        self.definitions.functions()
    }

    /// The number of the entry, and None where there is none.
    pub fn entry(&self) -> Option<u32>
        ensures { result ≡ self.now.entry }
    {
        self.entry
    }
}
