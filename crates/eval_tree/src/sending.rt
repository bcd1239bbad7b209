//! Arguments on their way to a function.

ghost use Rattle.std.specs.Prelude.{◌≡◌, [], ◌∷◌, ◌++◌, length, map, IfOk};
ghost use Rattle.ctl_types.specs.Run.{Passed};
ghost use Rattle.eval_tree.specs.Calls.{passed, paired};

use ctl_base::Memory;
use ctl_types::Value;
use eval_values::Path;
use sqlite_items::Items;
use std::alloc::Global;
use std::marker::Model;

/// An argument: its value, none where the default stands for it, and the way to the part of an output.
#[derive(Drop)]
pub struct Sent {
    pub value: Option<Value>,
    pub path: Path,
}

/// Arguments in their order: the values, which become the variables of the function, and the ways.
#[derive(Drop)]
pub struct Sending {
    values: Vec<Option<Value>>,
    paths: Items<Path>,
}

impl Model for Sending {
    ghost use Rattle.std.specs.Prelude.{List, ℕ, length, ◌≡◌};
    ghost use Rattle.std.specs.Coded.{coded_list};
    ghost use Rattle.ctl_types.specs.Run.{Passed};
    ghost use Rattle.eval_tree.specs.Calls.{passed_code, paired};

    ghost Value = { List Passed };

    ghost coded = { coded_list passed_code };

    ghost view = { λ s. paired s.values.items s.paths };

    ghost invariant = { λ s. length s.values.items ≡ length s.paths };
}

impl Sending {
    pub fn new(alloc: Global) -> Sending
        ensures { result ≡ [] }
    {
        Sending {
            values: Vec::new(alloc),
            paths: Items::new(alloc),
        }
    }

    /// The same with one more argument, which comes last.
    #[tactic(auto, using(crate::proofs::Frames::paired_last))]
    pub fn with(self, sent: Sent) -> Result<Sending, Memory>
        ensures { IfOk result (λ more. more ≡ self ++ (passed sent ∷ [])) }
    {
        let Sending {
            mut values,
            mut paths,
        } = self;
        let Sent { value, path } = sent;
        values.push(value)?;
        paths.push(path)?;
        Ok(Sending { values, paths })
    }

    #[tactic(auto, using(crate::proofs::Frames::values_paired, crate::proofs::Frames::paths_paired))]
    pub fn into_parts(self) -> (Vec<Option<Value>>, Items<Path>)
        ensures values { result.0.items ≡ map (λ (q : Passed). q.value) self }
        ensures paths { result.1 ≡ map (λ (q : Passed). q.path) self }
    {
        let Sending { values, paths } = self;
        (values, paths)
    }
}
