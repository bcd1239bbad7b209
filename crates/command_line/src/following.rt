//! The words that follow an option.

ghost use Rattle.std.specs.Prelude.{◌≡◌, ℕ, ◌≤◌, ◌∷◌, List, length};
ghost use Rattle.command_line.specs.declared.option.Kind.TheVariants.{Stage, Param as ParamKind, Format, Watch, Make};
ghost use Rattle.command_line.specs.declared.option.Count.TheVariants.{One, Two, Three};
ghost use Rattle.command_line.specs.Options.{following, numbers};
ghost use Rattle.command_line.specs.Taking.{TakesItem, TakesNumbers};

use crate::command::Param;
use crate::item::Item;
use crate::list::split;
use crate::option::{Count, Kind};
use crate::word::{depth, is_name, number, watcher, whole};
use ctl_base::{Memory, TextArg};
use fix_num::Fix;
use std::alloc::Global;

/// Why an item is not read.
#[derive(Drop)]
pub(crate) enum Refusal {
    /// The word fails that stands behind so many others.
    At(usize),
    /// There was no memory.
    Memory,
}

impl From<Memory> for Refusal {
    ghost use Rattle.command_line.specs.declared.following.Refusal.TheVariants.{Memory as NoMemory};

    ghost from_gives = { λ _ e. e ≡ NoMemory };

    fn from(_: Memory) -> Refusal {
        Refusal::Memory
    }
}

/// What an option asks for with the words behind it, of which there are enough, or a plain word by itself.
pub(crate) fn read_item(
    alloc: Global,
    word: &TextArg,
    kind: Kind,
    words: &[TextArg],
    kinds: &[u8],
) -> Result<Item, Refusal>
    requires { length (following kind) ≤ length words.now }
    ensures { TakesItem kinds.now word.now kind words.now result }
{
    match kind {
        Kind::Plain => Ok(Item::Plain(word.copy(alloc)?)),
        Kind::Stage => read_stage(alloc, words),
        Kind::Param { is_global, count } => read_param(alloc, is_global, count, words),
        Kind::Format => read_format(words),
        Kind::Force => Ok(Item::Force),
        Kind::Watch => read_watch(words, kinds),
        Kind::Verbose => Ok(Item::Verbose),
        Kind::Make => read_make(words),
    }
}

fn read_stage(alloc: Global, words: &[TextArg]) -> Result<Item, Refusal>
    requires { 1 ≤ length words.now }
    ensures { (kinds word : List ℕ) → TakesItem kinds word Stage words.now result }
{
    match split(words) {
        Some((file, _)) => Ok(Item::Stage(file.copy(alloc)?)),
        None => unreachable!(),
    }
}

fn read_format(words: &[TextArg]) -> Result<Item, Refusal>
    requires { 1 ≤ length words.now }
    ensures { (kinds word : List ℕ) → TakesItem kinds word Format words.now result }
{
    match split(words) {
        Some((format, _)) => match depth(format.as_str().as_bytes()) {
            Some(depth) => Ok(Item::Format(depth)),
            None => Err(Refusal::At(1)),
        },
        None => unreachable!(),
    }
}

fn read_watch(words: &[TextArg], kinds: &[u8]) -> Result<Item, Refusal>
    requires { 1 ≤ length words.now }
    ensures { (word : List ℕ) → TakesItem kinds.now word Watch words.now result }
{
    match split(words) {
        Some((name, _)) => match watcher(name.as_str().as_bytes(), kinds) {
            Some(kind) => Ok(Item::Watch(kind)),
            None => Err(Refusal::At(1)),
        },
        None => unreachable!(),
    }
}

fn read_make(words: &[TextArg]) -> Result<Item, Refusal>
    requires { 1 ≤ length words.now }
    ensures { (kinds word : List ℕ) → TakesItem kinds word Make words.now result }
{
    match split(words) {
        Some((digits, _)) => match whole(digits.as_str().as_bytes()) {
            Some(number) => Ok(Item::Make(number)),
            None => Err(Refusal::At(1)),
        },
        None => unreachable!(),
    }
}

fn read_param(
    alloc: Global,
    is_global: bool,
    count: Count,
    words: &[TextArg],
) -> Result<Item, Refusal>
    requires { length (following (ParamKind is_global count)) ≤ length words.now }
    ensures { (kinds word : List ℕ) → TakesItem kinds word (ParamKind is_global count) words.now result }
{
    match split(words) {
        Some((name, behind)) => {
            if !is_name(name.as_str().as_bytes()) {
                return Err(Refusal::At(1));
            }
            match read_numbers(count, behind) {
                Ok(values) => Ok(Item::Param {
                    is_global,
                    param: Param {
                        name: name.copy(alloc)?,
                        count: number_count(count),
                        values,
                    },
                }),
                Err(refusal) => Err(refusal),
            }
        }
        None => unreachable!(),
    }
}

fn number_count(count: Count) -> u8
    ensures { result ≡ length (numbers count) }
{
    match count {
        Count::One => 1,
        Count::Two => 2,
        Count::Three => 3,
    }
}

// The numbers of a parameter, before whose words two others stand.
fn read_numbers(count: Count, words: &[TextArg]) -> Result<[Fix; 3], Refusal>
    requires { length (numbers count) ≤ length words.now }
    ensures { (kinds : List ℕ) → TakesNumbers kinds count words.now result }
{
    match count {
        Count::One => read_one(words),
        Count::Two => read_two(words),
        Count::Three => read_three(words),
    }
}

fn read_one(words: &[TextArg]) -> Result<[Fix; 3], Refusal>
    requires { 1 ≤ length words.now }
    ensures { (kinds : List ℕ) → TakesNumbers kinds One words.now result }
{
    match split(words) {
        Some((first, _)) => one_number(first),
        None => unreachable!(),
    }
}

fn read_two(words: &[TextArg]) -> Result<[Fix; 3], Refusal>
    requires { 2 ≤ length words.now }
    ensures { (kinds : List ℕ) → TakesNumbers kinds Two words.now result }
{
    match split(words) {
        Some((first, behind)) => match split(behind) {
            Some((second, _)) => two_numbers(first, second),
            None => unreachable!(),
        },
        None => unreachable!(),
    }
}

fn read_three(words: &[TextArg]) -> Result<[Fix; 3], Refusal>
    requires { 3 ≤ length words.now }
    ensures { (kinds : List ℕ) → TakesNumbers kinds Three words.now result }
{
    match split(words) {
        Some((first, behind)) => match split(behind) {
            Some((second, others)) => match split(others) {
                Some((third, _)) => three_numbers(first, second, third),
                None => unreachable!(),
            },
            None => unreachable!(),
        },
        None => unreachable!(),
    }
}

fn one_number(first: &TextArg) -> Result<[Fix; 3], Refusal>
    ensures { (kinds : List ℕ) (rest : List (List ℕ)) → TakesNumbers kinds One (first.now ∷ rest) result }
{
    let Some(x) = number(first.as_str().as_bytes()) else {
        return Err(Refusal::At(2));
    };
    let none = Fix::from_raw(0);
    Ok([x, none, none])
}

fn two_numbers(first: &TextArg, second: &TextArg) -> Result<[Fix; 3], Refusal>
    ensures { (kinds : List ℕ) (rest : List (List ℕ)) → TakesNumbers kinds Two (first.now ∷ second.now ∷ rest) result }
{
    let Some(x) = number(first.as_str().as_bytes()) else {
        return Err(Refusal::At(2));
    };
    let Some(y) = number(second.as_str().as_bytes()) else {
        return Err(Refusal::At(3));
    };
    Ok([x, y, Fix::from_raw(0)])
}

fn three_numbers(first: &TextArg, middle: &TextArg, last: &TextArg) -> Result<[Fix; 3], Refusal>
    ensures { (kinds : List ℕ) (rest : List (List ℕ)) → TakesNumbers kinds Three (first.now ∷ middle.now ∷ last.now ∷ rest) result }
{
    let Some(x) = number(first.as_str().as_bytes()) else {
        return Err(Refusal::At(2));
    };
    let Some(y) = number(middle.as_str().as_bytes()) else {
        return Err(Refusal::At(3));
    };
    let Some(z) = number(last.as_str().as_bytes()) else {
        return Err(Refusal::At(4));
    };
    Ok([x, y, z])
}
