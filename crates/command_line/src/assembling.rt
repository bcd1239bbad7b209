//! The command that items make together.

ghost use Rattle.std.specs.Prelude.{◌≡◌, [], ◌∷◌, count_by, IfOk, MatchOption, None};
ghost use Rattle.std.specs.List.{filter_map, last_or, list_any};
ghost use Rattle.std.specs.Option.{unwrap_or};
ghost use Rattle.command_line.specs.Items.{command_of, depth_in, first_word, global_in, is_force, is_plain, is_stage, is_verbose, is_watch, is_whole, made, may_follow, own_params, plains, rest, stages};

use crate::command::{Command, Param, ParamList, StageFile, StageWords};
use crate::item::Item;
use crate::option::Kind;
use ctl_base::limits::STAGES;
use ctl_base::{Memory, TextArg};
use std::alloc::Global;

// The command of the items.
pub(crate) fn command_of(alloc: Global, items: &[Item]) -> Result<Command, Memory>
    ensures { IfOk result (λ command. command ≡ command_of items.now) }
{
    Ok(Command {
        stages: StageWords::from_vec(stages_of(alloc, items)?),
        globals: ParamList::from_vec(globals_of(alloc, items)?),
        format: depth_of(items),
        force: is_forced(items),
        watch: [
            is_watched(items, 1),
            is_watched(items, 2),
            is_watched(items, 3),
            is_watched(items, 4),
        ],
        verbose: is_verbose(items),
        make: made(items),
        source: first_word(alloc, items)?,
        destination: first_word(alloc, behind_first(items))?,
    })
}

fn is_forced(items: &[Item]) -> bool
    ensures { result ≡ list_any is_force items.now }
{
    items.iter().any(|item| item.is_force())
}

fn is_verbose(items: &[Item]) -> bool
    ensures { result ≡ list_any is_verbose items.now }
{
    items.iter().any(|item| item.is_verbose())
}

fn is_watched(items: &[Item], kind: u8) -> bool
    ensures { result ≡ list_any (is_watch kind) items.now }
{
    items.iter().any(|item| item.is_watch(kind))
}

// The stages, each with the parameters up to the next.
fn stages_of(alloc: Global, items: &[Item]) -> Result<Vec<StageFile>, Memory>
    ensures { IfOk result (λ all. all.items ≡ stages items.now) }
{
    let mut all = Vec::new(alloc);
    let mut rest = items;
    'each: while let [item, behind @ ..] = rest {
        if let Some(file) = item.file() {
            all.push(stage_of(alloc, file, behind)?)?;
        }
        rest = behind;
    }
    Ok(all)
}

// The stage that a file begins before these items.
fn stage_of(alloc: Global, file: &TextArg, behind: &[Item]) -> Result<StageFile, Memory>
    ensures { IfOk result (λ stage. stage ≡ record { file = file.now; params = own_params behind.now }) }
{
    let mut params = Vec::new(alloc);
    'each: for item in behind {
        if item.is_stage() {
            break;
        }
        if let Some(param) = item.own() {
            params.push(param.copy(alloc)?)?;
        }
    }
    Ok(StageFile {
        file: file.copy(alloc)?,
        params: ParamList::from_vec(params),
    })
}

// The parameters of all stages.
fn globals_of(alloc: Global, items: &[Item]) -> Result<Vec<Param>, Memory>
    ensures { IfOk result (λ params. params.items ≡ filter_map global_in items.now) }
{
    let mut params = Vec::new(alloc);
    'each: for item in items {
        if let Some(param) = item.global() {
            params.push(param.copy(alloc)?)?;
        }
    }
    Ok(params)
}

// The depth of the last format.
fn depth_of(items: &[Item]) -> u8
    ensures { result ≡ unwrap_or (last_or None (filter_map depth_in items.now)) 0 }
{
    let mut last = None;
    'each: for item in items {
        if let Some(depth) = item.depth() {
            last = Some(depth);
        }
    }
    last.unwrap_or(0)
}

// The first plain word, empty where there is none.
fn first_word(alloc: Global, items: &[Item]) -> Result<TextArg, Memory>
    ensures { IfOk result (λ word. word ≡ first_word (plains items.now)) }
{
    match first_plain(items) {
        Some((word, _)) => word.copy(alloc),
        None => TextArg::new(alloc, ""),
    }
}

// The items behind the first plain word.
fn behind_first(items: &[Item]) -> &[Item]
    ensures { plains result.now ≡ rest (plains items.now) }
{
    match first_plain(items) {
        Some((_, behind)) => behind,
        None => &[],
    }
}

// The first plain word, and the items behind it.
fn first_plain(items: &[Item]) -> Option<(&TextArg, &[Item])>
    ensures { MatchOption result (plains items.now ≡ []) (λ found. plains items.now ≡ found.0.now ∷ plains found.1.now) }
{
    let mut left = items;
    'each: while let [item, behind @ ..] = left {
        if let Some(word) = item.plain() {
            return Some((word, behind));
        }
        left = behind;
    }
    None
}

// The number of `-make`, which can only be the first.
fn made(items: &[Item]) -> Option<u32>
    ensures { result ≡ made items.now }
{
    match items {
        [Item::Make(number), ..] => Some(*number),
        _ => None,
    }
}

fn stage_count(items: &[Item]) -> usize
    ensures { result ≡ count_by is_stage items.now }
{
    items.iter().filter(|item| item.is_stage()).count()
}

fn plain_count(items: &[Item]) -> usize
    ensures { result ≡ count_by is_plain items.now }
{
    items.iter().filter(|item| item.is_plain()).count()
}

fn has_stage(items: &[Item]) -> bool
    ensures { result ≡ list_any is_stage items.now }
{
    items.iter().any(|item| item.is_stage())
}

// Whether an option or a plain word may stand behind the items.
pub(crate) fn may_follow(items: &[Item], kind: Kind) -> bool
    ensures { result ≡ may_follow items.now kind }
{
    match kind {
        Kind::Plain => made(items).is_none() && plain_count(items) < 2,
        Kind::Stage => made(items).is_none() && stage_count(items) < STAGES as usize,
        Kind::Param {
            is_global: false,
            ..
        } => has_stage(items),
        Kind::Param { .. } | Kind::Format | Kind::Force => made(items).is_none(),
        Kind::Watch | Kind::Verbose => true,
        Kind::Make => items.is_empty(),
    }
}

// Whether a stage, the source and the destination are there, or none is needed.
pub(crate) fn is_whole(items: &[Item]) -> bool
    ensures { result ≡ is_whole items.now }
{
    made(items).is_some() || (has_stage(items) && plain_count(items) >= 2)
}
