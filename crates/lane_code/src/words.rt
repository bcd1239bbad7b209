//! The words of one lane.

ghost use Rattle.std.specs.Prelude.{◌≡◌, ◌≤◌, ◌<◌, ◌+◌, ◌^◌, ℤ, pos, true, length, get_or, slice_set};
ghost use Rattle.lane_code.specs.Slots.{word_in, put, moved, shifted, first_of};
ghost use Rattle.lane_code.specs.LaneMeaning.{words_of, with_words, pay};
ghost use Rattle.lane_code.specs.Valid.{is_inside};
ghost use Rattle.lane_code.specs.Running.{counted};

use crate::instr::Slot;
use crate::lane::Lane;
use crate::valid::Numbers;
use fix_num::Fix;
use sqlite_items::Items;

fn word_at(words: &Items<Fix>, k: u32) -> Fix
    ensures { result ≡ get_or words.now k (pos 0) }
{
    match words.get(k as usize) {
        Some(word) => *word,
        None => Fix::from_raw(0),
    }
}

fn set_word(words: &mut Items<Fix>, k: u32, word: Fix)
    ensures { words.new ≡ slice_set words.old k word }
{
    if (k as usize) < words.len() {
        words.set(k as usize, word);
    }
}

/// The word in a slot, and 0 where there is no such slot.
pub fn word_in(lane: &Lane, slot: Slot) -> Fix
    ensures { result ≡ word_in (words_of lane.now) slot }
{
    match slot {
        Slot::Varying(k) => word_at(&lane.words, k),
        Slot::Uniform(k) => word_at(&lane.uniform, k),
    }
}

/// Sets the word in a slot, and nothing where there is no such slot.
pub fn put(lane: &mut Lane, slot: Slot, word: Fix)
    ensures { lane.new ≡ with_words (put slot word (words_of lane.old)) lane.old }
{
    match slot {
        Slot::Varying(k) => set_word(&mut lane.words, k, word),
        Slot::Uniform(k) => set_word(&mut lane.uniform, k, word),
    }
}

/// Adds to the cost.
pub fn pay(lane: &mut Lane, n: u64)
    ensures { lane.new ≡ counted (pay n lane.old) }
{
    lane.cost = lane.cost.saturating_add(n);
}

/// The slot that is n further on.
pub fn shifted(slot: Slot, n: u32) -> Slot
    requires { first_of slot + n < 2 ^ 32 }
    ensures { result ≡ shifted slot n }
{
    match slot {
        Slot::Varying(k) => Slot::Varying(k + n),
        Slot::Uniform(k) => Slot::Uniform(k + n),
    }
}

/// Moves words one after the other, from the first.
pub fn move_words(n: Numbers, lane: &mut Lane, count: u32, dst: Slot, src: Slot)
    requires target { is_inside n dst count ≡ true }
    requires source { is_inside n src count ≡ true }
    ensures { lane.new ≡ with_words (moved count dst src (words_of lane.old)) lane.old }
{
    'each: for i in 0..count {
        let word = word_in(lane, shifted(src, i));
        put(lane, shifted(dst, i), word);
    }
}
