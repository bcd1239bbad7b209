//! What is known of the functions of a program: the rows that tell what varies in their instances.

ghost use Rattle.std.specs.Prelude.{◌≡◌, IfOk, take, slice_get, map};
ghost use Rattle.std.specs.Option.{option_copied};
ghost use Rattle.level_rules.specs.Levels.{AreLevels, found_in, uniform_marks, uniform_in};
ghost use Rattle.level_rules.specs.Rows.{in_row, tells};
ghost use Rattle.level_sets.specs.Scene.{known_of, around_of};
ghost use Rattle.level_table.specs.Known.{is_marked, found_at};

use crate::row::row_of;
use ctl_base::Memory;
use ctl_tree::Level;
use ctl_types::{Function, Parameter};
use level_rules::{Found, Instance, rows_tell};
use level_sets::{Rows, Scene, rows_of, walk};
use sqlite_items::Items;
use std::alloc::Global;
use std::marker::Model;

/// The functions of a program, with the rows that tell what varies in their instances.
#[derive(Drop)]
pub struct Knowledge<'a> {
    functions: &'a [Function],
    rows: Items<Rows>,
    uniforms: Items<Items<bool>>,
}

impl<'a> Model for Knowledge<'a> {
    ghost use Rattle.std.specs.Prelude.{◌≡◌};
    ghost use Rattle.level_rules.specs.Levels.{uniform_marks};
    ghost use Rattle.level_rules.specs.Rows.{HaveRows};
    ghost use Rattle.level_table.specs.Known.{KnownForm, known_code};

    ghost Value = { KnownForm };

    ghost coded = { known_code };

    ghost view = { λ s. record { functions = s.functions.now; rows = s.rows } };

    ghost invariant = { λ s. (s.uniforms ≡ uniform_marks s.functions.now) × HaveRows s.functions.now s.rows };
}

/// Whether a parameter is marked `uniform`.
pub fn is_uniform(parameter: &Parameter) -> bool
    ensures { result ≡ is_marked parameter.now }
{
    match parameter.level {
        Some(Level::Uniform) => true,
        Some(Level::Varying) => false,
        None => false,
    }
}

fn uniforms_in(alloc: Global, parameters: &[Parameter]) -> Result<Items<bool>, Memory>
    ensures { IfOk result (λ marks. marks ≡ uniform_in parameters.now) }
{
    let mut marks = Items::new(alloc);
    for parameter in parameters {
        marks.push(is_uniform(parameter))?;
    }
    Ok(marks)
}

fn uniforms_of(alloc: Global, functions: &[Function]) -> Result<Items<Items<bool>>, Memory>
    ensures { IfOk result (λ marks. marks ≡ uniform_marks functions.now) }
{
    let mut all = Items::new(alloc);
    for function in functions {
        let marks = uniforms_in(alloc, function.parameters.as_slice())?;
        all.push(marks)?;
    }
    Ok(all)
}

// The first of these rows.
fn before(rows: &[Rows], function: u32) -> &[Rows]
    ensures { result.now ≡ take function rows.now }
{
    let number = function as usize;
    if number < rows.len() {
        &rows[..number]
    } else {
        rows
    }
}

// What the rules find in the body of a function that is there.
fn found_at(
    alloc: Global,
    function: Option<&Function>,
    scene: &Scene<'_>,
    control: bool,
) -> Result<Found, Memory>
    ensures { IfOk result (λ found. found ≡ found_at (known_of scene.now) (option_copied function.entry) (around_of scene.now) control) }
{
    let mut found = Found::new(alloc);
    match function {
        Some(function) => {
            walk(alloc, &function.body, scene, control, &mut found)?;
            Ok(found)
        }
        None => Ok(found),
    }
}

fn function_at(functions: &[Function], number: u32) -> Option<&Function>
    ensures { option_copied result ≡ slice_get functions.now number }
{
    functions.get(number as usize)
}

// What the rules find in an instance in which this varies.
fn found_in(
    alloc: Global,
    functions: &[Function],
    rows: &[Rows],
    uniforms: &[Items<bool>],
    instance: &Instance,
    row: &[bool],
) -> Result<Found, Memory>
    requires row { in_row row.now ≡ tells rows.now instance.now }
    requires uniforms { uniforms.now ≡ uniform_marks functions.now }
    ensures { IfOk result (λ found. found ≡ found_in functions.now (tells rows.now) instance.now) }
{
    let rows = before(rows, instance.function);
    let scene = Scene::new(rows, row, instance.sizes.as_slice(), uniforms);
    let function = function_at(functions, instance.function);
    found_at(alloc, function, &scene, instance.control)
}

impl<'a> Knowledge<'a> {
    pub fn new(alloc: Global, functions: &'a [Function]) -> Result<Knowledge<'a>, Memory>
        ensures { IfOk result (λ known. known.functions ≡ functions.now) }
    {
        let rows = rows_of(alloc, functions)?;
        let uniforms = uniforms_of(alloc, functions)?;
        Ok(Knowledge {
            functions,
            rows,
            uniforms,
        })
    }

    /// What the rows tell is what varies in every instance.
    pub fn tells_levels(&self)
        ensures { AreLevels self.now.functions (tells self.now.rows) }
    {
        rows_tell();
        let _functions = self.functions;
        let _rows = &self.rows;
    }

    /// A function by its number.
    pub fn function(&self, number: u32) -> Option<&Function>
        ensures { option_copied result ≡ slice_get self.now.functions number }
    {
        self.functions.get(number as usize)
    }

    /// What varies in an instance.
    pub fn row_of(&self, alloc: Global, instance: &Instance) -> Result<Items<bool>, Memory>
        ensures { IfOk result (λ row. in_row row ≡ tells self.now.rows instance.now) }
    {
        row_of(alloc, self.rows.as_slice(), instance)
    }

    /// What the rules find in an instance in which this varies.
    pub fn found_in(
        &self,
        alloc: Global,
        instance: &Instance,
        row: &[bool],
    ) -> Result<Found, Memory>
        requires { in_row row.now ≡ tells self.now.rows instance.now }
        ensures { IfOk result (λ found. found ≡ found_in self.now.functions (tells self.now.rows) instance.now) }
    {
        found_in(
            alloc,
            self.functions,
            self.rows.as_slice(),
            self.uniforms.as_slice(),
            instance,
            row,
        )
    }

    /// The instances that an instance calls.
    pub fn calls_in(&self, alloc: Global, instance: &Instance) -> Result<Items<Instance>, Memory>
        ensures { IfOk result (λ calls. calls ≡ (found_in self.now.functions (tells self.now.rows) instance.now).calls) }
    {
        let row = self.row_of(alloc, instance)?;
        let found = self.found_in(alloc, instance, row.as_slice())?;
        Ok(found.calls)
    }
}
