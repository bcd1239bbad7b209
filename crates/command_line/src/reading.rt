//! The reading of the words.

ghost use Rattle.std.specs.Prelude.{◌≡◌, ◌<◌, ◌^◌, [], Err, MatchResult, length};
ghost use Rattle.ctl_base.specs.Answers.{Answers};
ghost use Rattle.command_line.specs.CommandWords.{CommandWords, Spell};
ghost use Rattle.command_line.specs.Refusal.{word_refusal};
ghost use Rattle.command_line.specs.Taking.{TakesNext};

use crate::assembling::{command_of, is_whole, may_follow};
use crate::command::Command;
use crate::following::{Refusal, read_item};
use crate::item::Item;
use crate::list::split;
use crate::option::kind_of;
use ctl_base::{Memory, TextArg};
use std::alloc::{AllocError, AllocFailed, Global};

/// Why the words are no command.
#[derive(Debug, Drop)]
pub enum WordFault {
    /// The word at this place fails first, counted from 0. It is the number of words where all pass and a stage, the
    /// source or the destination is missing.
    Usage { word: u32 },
    /// There was no memory.
    Memory,
}

impl From<Memory> for WordFault {
    ghost use Rattle.command_line.specs.declared.reading.WordFault.TheVariants.{Memory as NoMemory};

    ghost from_gives = { λ _ e. e ≡ NoMemory };

    fn from(_: Memory) -> WordFault {
        WordFault::Memory
    }
}

impl From<AllocFailed<Item>> for WordFault {
    ghost use Rattle.command_line.specs.declared.reading.WordFault.TheVariants.{Memory as NoMemory};

    ghost from_gives = { λ _ e. e ≡ NoMemory };

    fn from(_: AllocFailed<Item>) -> WordFault {
        WordFault::Memory
    }
}

/// The command that the words spell, or the first word that fails, where watchers of these kinds were handed in.
pub fn read_words(alloc: Global, words: &[TextArg], kinds: &[u8]) -> Result<Command, WordFault>
    requires few { length words.now < 2 ^ 32 }
    ensures { Answers (λ command. command) word_refusal result (CommandWords kinds.now words.now) }
{
    let items = read_items(alloc, words, kinds)?;
    if !is_whole(items.as_slice()) {
        return Err(WordFault::Usage {
            word: words.len() as u32,
        });
    }
    Ok(command_of(alloc, items.as_slice())?)
}

// The items that the words spell, or the first word that fails.
fn read_items(alloc: Global, words: &[TextArg], kinds: &[u8]) -> Result<Vec<Item>, WordFault>
    requires few { length words.now < 2 ^ 32 }
    ensures { MatchResult result (λ items. Spell kinds.now [] items.items words.now []) (λ fault. word_refusal (λ place. CommandWords kinds.now words.now (Err place)) fault) }
{
    let mut items = Vec::new(alloc);
    let mut rest = words;
    'each: while let Some((word, behind)) = split(rest) {
        let before = (words.len() - rest.len()) as u32;
        let (item, count) = match read_next(alloc, items.as_slice(), word, behind, kinds) {
            Ok(taken) => taken,
            Err(Refusal::At(place)) => {
                return Err(WordFault::Usage {
                    word: before + place as u32,
                });
            }
            Err(Refusal::Memory) => return Err(WordFault::Memory),
        };
        items.push(item)?;
        rest = &behind[count..];
    }
    Ok(items)
}

// What the first word asks for behind these items, with how many words follow it.
fn read_next(
    alloc: Global,
    items: &[Item],
    word: &TextArg,
    behind: &[TextArg],
    kinds: &[u8],
) -> Result<(Item, usize), Refusal>
    ensures { TakesNext kinds.now items.now word.now behind.now result }
{
    let Some(kind) = kind_of(word) else {
        return Err(Refusal::At(0));
    };
    let count = kind.following();
    if behind.len() < count {
        return Err(Refusal::At(0));
    }
    if !may_follow(items, kind) {
        return Err(Refusal::At(0));
    }
    match read_item(alloc, word, kind, behind, kinds) {
        Ok(item) => Ok((item, count)),
        Err(refusal) => Err(refusal),
    }
}
