//! The parts of values, and what stands at the end of a path into a variable.

ghost use Rattle.std.specs.Prelude.{◌≡◌, ℕ, Some};
ghost use Rattle.std.specs.Option.{option_copied};
ghost use Rattle.ctl_types.specs.declared.value.Value.{out-Value};
ghost use Rattle.ctl_types.specs.Values.{Env, part_of, part_at};
ghost use Rattle.eval_values.specs.Uncounted.{Gives, pixel, found, checked, index_in, field_in};

use crate::stop::Stop;
use crate::values::variable_of;
use ctl_base::{Node, TrapKind};
use ctl_types::Value;

/// The number of the element that an index names, where it is from 0 to the size less one.
pub fn index_in(value: &Value, index: i64, node: Node) -> Result<usize, Stop>
    ensures { (env : Env) (turns : ℕ) → Gives (λ i. i) result env turns (index_in node index (out-Value value.now) (pixel env turns)) }
{
    match value {
        Value::List(parts) => checked(index, parts.len(), node),
        _ => Err(Stop::Wrong),
    }
}

fn checked(index: i64, size: usize, node: Node) -> Result<usize, Stop>
    ensures { (env : Env) (turns : ℕ) → Gives (λ i. i) result env turns (checked node index size (pixel env turns)) }
{
    if index >= 0 && (index as u64) < size as u64 {
        return Ok(index as usize);
    }
    Err(Stop::Trap(TrapKind::Index, node))
}

/// The number of a field, where there is one.
pub fn field_in(value: &Value, number: u32) -> Result<usize, Stop>
    ensures { (env : Env) (turns : ℕ) → Gives (λ i. i) result env turns (field_in number (out-Value value.now) (pixel env turns)) }
{
    match value {
        Value::Fields(parts) => {
            if (number as usize) < parts.len() {
                Ok(number as usize)
            } else {
                Err(Stop::Wrong)
            }
        }
        _ => Err(Stop::Wrong),
    }
}

// A part of a value, where there is one.
fn part_of(value: Option<&Value>, number: usize) -> Option<&Value>
    ensures { option_copied result ≡ part_of (option_copied value.entry) number }
{
    match value {
        Some(value) => value.part(number),
        None => None,
    }
}

// The part at the end of a path.
fn part_at<'a>(value: Option<&'a Value>, path: &[usize]) -> Option<&'a Value>
    ensures { option_copied result ≡ part_at path.now (option_copied value.entry) }
{
    match path.split_first() {
        None => value,
        Some((part, rest)) => part_at(part_of(value, *part), rest),
    }
}

/// What stands at the end of a path into a variable.
pub fn found<'a>(env: &'a [Option<Value>], x: u32, path: &[usize]) -> Option<&'a Value>
    ensures { option_copied result ≡ found x path.now env.now }
{
    part_at(variable_of(env, x), path)
}
