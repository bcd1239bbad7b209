//! What is stored in variables and in parts of them.

ghost use Rattle.std.specs.Prelude.{◌≡◌, ℕ, Some, slice_get, slice_set, if◌then◌else◌, IfOk, OnOk};
ghost use Rattle.std.specs.Option.{option_copied};
ghost use Rattle.ctl_types.specs.Values.{stored, put_at, with_part, part_of};
ghost use Rattle.ctl_types.specs.Run.{Normal};
ghost use Rattle.eval_values.specs.Uncounted.{Gives, pixel, found, store};
ghost use Rattle.eval_values.specs.Stores.{alike_at, put_part};

use crate::places::found;
use crate::shapes::alike;
use crate::stop::Stop;
use ctl_base::Memory;
use ctl_types::Value;
use sqlite_items::Items;
use std::alloc::Global;

/// A variable gets a value.
pub fn set(env: &mut Vec<Option<Value>>, x: u32, value: Value)
    ensures { env.new.items ≡ slice_set env.old.items x (Some value) }
{
    let x = x as usize;
    if x < env.len() {
        env[x] = Some(value);
    }
}

/// Puts a value at the end of a path into a variable. Where the path leads nowhere, the variable is absent afterwards.
pub fn put(
    alloc: Global,
    env: &mut Vec<Option<Value>>,
    x: u32,
    path: &[usize],
    value: Value,
) -> Result<(), Memory>
    ensures { OnOk result (env.new.items ≡ stored x path.now value env.old.items) }
{
    if path.is_empty() {
        set(env, x, value);
        return Ok(());
    }
    let x = x as usize;
    if x < env.len() {
        let old = env[x].take();
        env[x] = put_at(alloc, path, value, old)?;
    }
    Ok(())
}

// A value with another part at the end of a path.
#[cycle(put)]
fn put_at(
    alloc: Global,
    path: &[usize],
    new: Value,
    old: Option<Value>,
) -> Result<Option<Value>, Memory>
    ensures { IfOk result (λ v. v ≡ put_at path.now new old) }
{
    match path.split_first() {
        None => Ok(Some(new)),
        Some((number, rest)) => match old {
            Some(whole) => put_within(alloc, *number, rest, new, whole),
            None => Ok(None),
        },
    }
}

// A value with another part in the place of that with a number, or with one inside it.
#[cycle(put)]
fn put_within(
    alloc: Global,
    number: usize,
    rest: &[usize],
    new: Value,
    whole: Value,
) -> Result<Option<Value>, Memory>
    ensures { IfOk result (λ v. v ≡ with_part (Some whole) number (put_at rest.now new (part_of (Some whole) number))) }
{
    if let Value::One(_) = &whole {
        if rest.is_empty() {
            return Ok(Some(whole));
        }
        return Ok(None);
    }
    match whole {
        Value::One(_) => Ok(None),
        Value::List(parts) => match put_part(alloc, parts, number, rest, new)? {
            Some(parts) => Ok(Some(Value::List(parts))),
            None => Ok(None),
        },
        Value::Fields(parts) => match put_part(alloc, parts, number, rest, new)? {
            Some(parts) => Ok(Some(Value::Fields(parts))),
            None => Ok(None),
        },
    }
}

// Parts with another one in the place of that with a number, or another one inside it.
#[cycle(put)]
fn put_part(
    alloc: Global,
    parts: Items<Value>,
    number: usize,
    rest: &[usize],
    new: Value,
) -> Result<Option<Items<Value>>, Memory>
    ensures { IfOk result (λ vs. vs ≡ put_part parts number (put_at rest.now new (slice_get parts number))) }
{
    if rest.is_empty() {
        return Ok(Some(with_element(parts, number, new)));
    }
    let old = copy_at(alloc, parts.as_slice(), number)?;
    match put_at(alloc, rest, new, old)? {
        Some(part) => Ok(Some(with_element(parts, number, part))),
        None => Ok(None),
    }
}

fn copy_at(alloc: Global, parts: &[Value], number: usize) -> Result<Option<Value>, Memory>
    ensures { IfOk result (λ part. part ≡ slice_get parts.now number) }
{
    match parts.get(number) {
        Some(part) => Ok(Some(part.copy(alloc)?)),
        None => Ok(None),
    }
}

fn with_element(parts: Items<Value>, number: usize, part: Value) -> Items<Value>
    ensures { result ≡ slice_set parts number part }
{
    let mut parts = parts;
    if number < parts.len() {
        parts.set(number, part);
    }
    parts
}

/// Stores a value at a place, where one of the same shape stands.
pub fn assign(
    alloc: Global,
    env: &mut Vec<Option<Value>>,
    x: u32,
    path: &[usize],
    value: Value,
) -> Result<(), Stop>
    ensures { (turns : ℕ) → Gives (λ _. Normal) result env.new.items turns (store x path.now value (pixel env.old.items turns)) }
{
    if !alike_at(env, x, path, &value) {
        return Err(Stop::Wrong);
    }
    put(alloc, env, x, path, value)?;
    Ok(())
}

fn alike_at(env: &[Option<Value>], x: u32, path: &[usize], value: &Value) -> bool
    ensures { result ≡ alike_at (found x path.now env.now) value.now }
{
    match found(env, x, path) {
        Some(old) => alike(old, value),
        None => false,
    }
}
