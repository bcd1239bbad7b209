//! Names with what they stand for.

ghost use Rattle.std.specs.Prelude.{◌≡◌, [], ◌∷◌, ◌++◌, None, true, IfErr, IfOk};
ghost use Rattle.ctl_scope.specs.Names.{meaning_in, are_distinct};

use crate::Meaning;
use ctl_base::Memory;
use indexmap::IndexMap;
use std::alloc::Global;
use std::marker::Model;

/// Names in the order of their declarations, each with its meaning. No two are equal.
#[derive(Drop)]
pub struct NameTable {
    meanings: IndexMap<Vec<u8>, Meaning>,
}

impl Model for NameTable {
    ghost use Rattle.ctl_scope.specs.Names.{Names, names_code, names_of};

    ghost Value = { Names };

    ghost coded = { names_code };

    ghost view = { λ t. names_of t.meanings.entries };
}

impl NameTable {
    pub fn new(alloc: Global) -> NameTable
        ensures { result ≡ [] }
    {
        NameTable {
            meanings: IndexMap::new(alloc),
        }
    }

    /// What a name stands for, where it is one of these.
    pub fn get(&self, name: &[u8]) -> Option<Meaning>
        ensures { result ≡ meaning_in name.now self.now }
    {
        match self.meanings.get(name) {
            Some(meaning) => Some(*meaning),
            None => None,
        }
    }

    /// Puts a new name last. A table that has no room for it stays as it was.
    pub fn insert(&mut self, alloc: Global, name: &[u8], meaning: Meaning) -> Result<(), Memory>
        requires { meaning_in name.now self.old ≡ None }
        ensures last { IfOk result (λ _. self.new ≡ self.old ++ (name.now, meaning) ∷ []) }
        ensures kept { IfErr result (λ _. self.new ≡ self.old) }
    {
        self.meanings
            .insert(Vec::from_slice(alloc, name)?, meaning)?;
        Ok(())
    }

    /// No two names are equal.
    pub fn are_distinct(&self)
        ensures { are_distinct self.now ≡ true }
    {
        let _count = self.meanings.len();
    }
}
