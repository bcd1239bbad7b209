//! What stands around a form where the rules look at it.

ghost use Rattle.std.specs.Prelude.{◌≡◌, get_or, []};
ghost use Rattle.level_rules.specs.Rows.{in_row};
ghost use Rattle.level_sets.specs.Calls.{uniform_of};

use crate::tell::{Rows, in_row};
use ctl_types::Callee;
use level_rules::Holder;
use sqlite_items::Items;
use std::marker::Model;

/// The rows of the functions before, what varies in the instance as a row, its open sizes, and which parameters of each
/// function are marked uniform.
#[derive(Drop)]
pub struct Scene<'a> {
    rows: &'a [Rows],
    row: &'a [bool],
    opens: &'a [u32],
    uniforms: &'a [Items<bool>],
}

impl<'a> Model for Scene<'a> {
    ghost use Rattle.level_sets.specs.Scene.{SceneForm, scene_code};

    ghost Value = { SceneForm };

    ghost coded = { scene_code };

    ghost view = { λ s. record { rows = s.rows.now; row = s.row.now; opens = s.opens.now; uniforms = s.uniforms.now } };
}

impl<'a> Scene<'a> {
    pub fn new(
        rows: &'a [Rows],
        row: &'a [bool],
        opens: &'a [u32],
        uniforms: &'a [Items<bool>],
    ) -> Scene<'a>
        ensures { result ≡ record { rows = rows.now; row = row.now; opens = opens.now; uniforms = uniforms.now } }
    {
        Scene {
            rows,
            row,
            opens,
            uniforms,
        }
    }

    /// Whether this varies in the instance.
    pub fn varies(&self, holder: Holder) -> bool
        ensures { result ≡ in_row self.now.row holder }
    {
        in_row(self.row, holder)
    }

    pub fn rows(&self) -> &[Rows]
        ensures { result.now ≡ self.now.rows }
    {
        self.rows
    }

    pub fn opens(&self) -> &[u32]
        ensures { result.now ≡ self.now.opens }
    {
        self.opens
    }

    /// Which parameters of what is called are marked uniform.
    pub fn uniform_of(&self, callee: Callee) -> &[bool]
        ensures { result.now ≡ uniform_of self.now callee }
    {
        match callee {
            Callee::Program(function) => self.uniform(function),
            Callee::Library(_) => &[],
        }
    }

    fn uniform(&self, function: u32) -> &[bool]
        ensures { result.now ≡ get_or self.now.uniforms function [] }
    {
        let number = function as usize;
        if number < self.uniforms.len() {
            self.uniforms[number].as_slice()
        } else {
            &[]
        }
    }
}
