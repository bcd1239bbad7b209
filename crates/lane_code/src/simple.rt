//! The instructions that name no block, on one lane.

ghost use Rattle.std.specs.Prelude.{◌≡◌, true, false, if◌then◌else◌, IfOk};
ghost use Rattle.lane_code.specs.declared.lane.Lane.{Lane as LaneForm};
ghost use Rattle.lane_code.specs.Slots.{moved, word_in};
ghost use Rattle.lane_code.specs.Instructions.{is_index, has_room, behind};
ghost use Rattle.lane_code.specs.LaneMeaning.{Normal, Trapped, words_of, with_words, simple};
ghost use Rattle.lane_code.specs.Valid.{is_inside, is_sound};
ghost use Rattle.lane_code.specs.Running.{counted_done, ended};

use crate::end::LaneEnd;
use crate::instr::{Instr, Slot};
use crate::kinds::{converted, on_one, on_two};
use crate::lane::Lane;
use crate::library::call_library;
use crate::valid::Numbers;
use crate::words::{move_words, pay, put, shifted, word_in};
use ctl_base::{Memory, Node, TrapKind};
use fix_num::Fix;
use std::alloc::Global;

fn is_index(o: Fix, size: u32) -> bool
    ensures { result ≡ is_index o size }
{
    0 <= o.raw() && o.raw() < size as i64
}

fn has_room(o: Fix, count: u32, span: u32) -> bool
    ensures { result ≡ has_room o count span }
{
    0 <= o.raw() && o.raw() as i128 + count as i128 <= span as i128
}

fn normal_or(goes_on: bool, kind: TrapKind, node: Node) -> LaneEnd
    ensures { (l : LaneForm) → ended result l ≡ if goes_on then Normal l else Trapped kind node l }
{
    if goes_on {
        LaneEnd::Normal
    } else {
        LaneEnd::Trapped { kind, node }
    }
}

// Copies from behind `base`, where there is room.
fn gather(
    n: Numbers,
    lane: &mut Lane,
    dst: Slot,
    base: Slot,
    span: u32,
    at: Slot,
    count: u32,
) -> bool
    requires target { is_inside n dst count ≡ true }
    requires source { is_inside n base span ≡ true }
    ensures room { result ≡ has_room (word_in (words_of lane.old) at) count span }
    ensures done { result ≡ true → lane.new ≡ with_words (moved count dst (behind (words_of lane.old) base at) (words_of lane.old)) lane.old }
    ensures kept { result ≡ false → lane.new ≡ lane.old }
{
    let o = word_in(lane, at);
    if !has_room(o, count, span) {
        return false;
    }
    move_words(n, lane, count, dst, shifted(base, o.raw() as u32));
    true
}

// Copies to behind `base`, where there is room.
fn scatter(
    n: Numbers,
    lane: &mut Lane,
    base: Slot,
    span: u32,
    at: Slot,
    count: u32,
    src: Slot,
) -> bool
    requires target { is_inside n base span ≡ true }
    requires source { is_inside n src count ≡ true }
    ensures room { result ≡ has_room (word_in (words_of lane.old) at) count span }
    ensures done { result ≡ true → lane.new ≡ with_words (moved count (behind (words_of lane.old) base at) src (words_of lane.old)) lane.old }
    ensures kept { result ≡ false → lane.new ≡ lane.old }
{
    let o = word_in(lane, at);
    if !has_room(o, count, span) {
        return false;
    }
    move_words(n, lane, count, shifted(base, o.raw() as u32), src);
    true
}

/// Runs an instruction that names no block.
pub fn run_simple(alloc: Global, n: Numbers, x: &Instr, lane: &mut Lane) -> Result<LaneEnd, Memory>
    requires sound { is_sound n x.now ≡ true }
    ensures { IfOk result (λ end. ended end lane.new ≡ counted_done (simple x.now lane.old)) }
{
    match x {
        Instr::Set { dst, word } => {
            pay(lane, 1);
            put(lane, *dst, *word);
            Ok(LaneEnd::Normal)
        }
        Instr::Copy { dst, src, count } => {
            pay(lane, *count as u64);
            move_words(n, lane, *count, *dst, *src);
            Ok(LaneEnd::Normal)
        }
        Instr::Do1 { op, kind, dst, a } => {
            pay(lane, 1);
            let word = on_one(*op, *kind, word_in(lane, *a));
            put(lane, *dst, word);
            Ok(LaneEnd::Normal)
        }
        Instr::Do2 {
            op,
            kind,
            dst,
            a,
            b,
        } => {
            pay(lane, 1);
            let word = on_two(*op, *kind, word_in(lane, *a), word_in(lane, *b));
            put(lane, *dst, word);
            Ok(LaneEnd::Normal)
        }
        Instr::Convert { from, to, dst, a } => {
            pay(lane, 1);
            let word = converted(*from, *to, word_in(lane, *a));
            put(lane, *dst, word);
            Ok(LaneEnd::Normal)
        }
        Instr::Bound { index, size, node } => {
            pay(lane, 1);
            let goes_on = is_index(word_in(lane, *index), *size);
            Ok(normal_or(goes_on, TrapKind::Index, *node))
        }
        Instr::Gather {
            dst,
            base,
            span,
            at,
            count,
            node,
        } => {
            pay(lane, *count as u64);
            let goes_on = gather(n, lane, *dst, *base, *span, *at, *count);
            Ok(normal_or(goes_on, TrapKind::Index, *node))
        }
        Instr::Scatter {
            base,
            span,
            at,
            count,
            src,
            node,
        } => {
            pay(lane, *count as u64);
            let goes_on = scatter(n, lane, *base, *span, *at, *count, *src);
            Ok(normal_or(goes_on, TrapKind::Index, *node))
        }
        Instr::Library {
            id,
            sizes,
            dst,
            args,
            node,
        } => {
            pay(lane, 1);
            let goes_on = call_library(
                alloc,
                n,
                lane,
                *id,
                sizes.as_slice(),
                *dst,
                args.as_slice(),
            )?;
            Ok(normal_or(goes_on, TrapKind::Assert, *node))
        }
        Instr::If { .. } | Instr::Loop { .. } | Instr::Frame { .. } | Instr::Leave => {
            pay(lane, 0);
            Ok(LaneEnd::Normal)
        }
    }
}
