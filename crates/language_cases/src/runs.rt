//! How runs end.

ghost use Rattle.std.specs.Prelude.{◌≡◌, Some, slice_get};
ghost use Rattle.std.specs.Option.{option_copied};

use crate::inputs::takes;
use crate::spelling::values::put_words;
use ctl_base::{Memory, Node, ScalarKind, TrapKind};
use ctl_eval::{PixelEnd, run};
use ctl_program::Program;
use ctl_types::{Extent, Function, Parameter, Scalar, Shape, Value};
use fix_num::Fix;
use sqlite_items::Items;
use std::alloc::Global;
use std::fmt::Write;

/// The lines of the runs of a program.
pub(crate) fn put_runs(
    alloc: Global,
    out: &mut String,
    name: &str,
    program: &Program,
    runs: &str,
) -> Result<(), Memory> {
    for given in runs.split('$') {
        if !given.is_empty() {
            write!(out, "{name}")?;
            put_run(alloc, out, program, given)?;
        }
    }
    Ok(())
}

// How a run of the entry ends, with so many turns and these words.
fn put_run(alloc: Global, out: &mut String, program: &Program, given: &str) -> Result<(), Memory> {
    let entry = program.entry().unwrap_or(0);
    let function = program.functions().get(entry as usize);
    put_run_of(alloc, out, program, entry, function, given)
}

// The same, where there is such a function.
fn put_run_of(
    alloc: Global,
    out: &mut String,
    program: &Program,
    entry: u32,
    function: Option<&Function>,
    given: &str,
) -> Result<(), Memory>
    requires { option_copied function ≡ slice_get program.now.definitions.functions entry }
{
    match function {
        Some(function) => {
            let mut words = numbers(alloc, given)?;
            let turns = u32::try_from(words.pop().unwrap_or(0)).unwrap_or(0);
            let inputs = inputs_of(alloc, function.parameters.as_slice(), &mut words)?;
            put_taken(
                alloc,
                out,
                program,
                entry,
                function,
                inputs.as_slice(),
                turns,
            )
        }
        None => Ok(out.push_str(" no entry\n")?),
    }
}

// The same, where the function takes these inputs.
fn put_taken(
    alloc: Global,
    out: &mut String,
    program: &Program,
    entry: u32,
    function: &Function,
    inputs: &[Value],
    turns: u32,
) -> Result<(), Memory>
    requires { slice_get program.now.definitions.functions entry ≡ Some function.now }
{
    if takes(program.structs(), function.parameters.as_slice(), inputs) {
        return match run(alloc, program, entry, inputs, turns)? {
            PixelEnd::Values { outputs, turns } => put_outputs(out, outputs.as_slice(), turns),
            PixelEnd::Trap { kind, node } => put_trap(out, kind, node),
        };
    }
    Ok(out.push_str(" other inputs\n")?)
}

fn put_outputs(out: &mut String, outputs: &[Value], turns: u32) -> Result<(), Memory> {
    for output in outputs {
        put_words(out, output)?;
    }
    Ok(write!(out, " with {turns} left\n")?)
}

fn put_trap(out: &mut String, kind: TrapKind, node: Node) -> Result<(), Memory> {
    let word = match kind {
        TrapKind::Turns => "Turns",
        TrapKind::Index => "Index",
        TrapKind::Assert => "Assert",
    };
    let Node { module, token } = node;
    Ok(write!(out, " {word} at {module} {token}\n")?)
}

// The numbers, the last of them first.
fn numbers(alloc: Global, given: &str) -> Result<Vec<i64>, Memory> {
    let mut numbers = Vec::new(alloc);
    for word in given.split(' ') {
        match word.parse::<i64>() {
            Ok(number) => numbers.push(number)?,
            Err(_) => numbers.push(0)?,
        }
    }
    numbers.reverse();
    Ok(numbers)
}

// A value for each input.
fn inputs_of(
    alloc: Global,
    parameters: &[Parameter],
    words: &mut Vec<i64>,
) -> Result<Items<Value>, Memory> {
    let mut inputs = Items::new(alloc);
    for parameter in parameters {
        if !parameter.is_output {
            inputs.push(value_of(alloc, &parameter.shape, words)?)?;
        }
    }
    Ok(inputs)
}

// The value of a shape from words.
fn value_of(alloc: Global, shape: &Shape, words: &mut Vec<i64>) -> Result<Value, Memory> {
    match shape {
        Shape::Scalar(kind) => Ok(Value::One(scalar_of(*kind, words.pop().unwrap_or(0)))),
        Shape::Array(elements, Extent::Stated(size)) => {
            let mut parts = Items::new(alloc);
            for _ in 0..*size {
                parts.push(value_of(alloc, elements.get(), words)?)?;
            }
            Ok(Value::List(parts))
        }
        _ => Err(Memory),
    }
}

// The scalar of a kind from a word, and zero where the word is none of the kind.
fn scalar_of(kind: ScalarKind, word: i64) -> Scalar {
    match kind {
        ScalarKind::Bool => Scalar::Bool(word != 0),
        ScalarKind::Int => Scalar::Int(i32::try_from(word).unwrap_or(0)),
        ScalarKind::Unsigned => Scalar::Unsigned(u32::try_from(word).unwrap_or(0)),
        ScalarKind::Half => Scalar::Half(fix_of(word)),
        ScalarKind::Float => Scalar::Float(fix_of(word)),
    }
}

fn fix_of(word: i64) -> Fix {
    if word == i64::MIN {
        return Fix::from_raw(0);
    }
    Fix::from_raw(word)
}
