//! The run of one lane, by the meaning of the code.

ghost use Rattle.std.specs.Prelude.{◌≡◌, true, IfOk};
ghost use Rattle.lane_code.specs.declared.lane.Lane.{Lane as LaneForm};
ghost use Rattle.lane_code.specs.declared.instr.Instr.TheVariants.{Loop};
ghost use Rattle.lane_code.specs.LaneMeaning.{choose, framed, act, run_list, run_block, whole_run};
ghost use Rattle.lane_code.specs.Valid.{is_sound, valid_blocks};
ghost use Rattle.lane_code.specs.Running.{all_sound, counted, counted_done, ended, is_normal};

use crate::code::Code;
use crate::end::LaneEnd;
use crate::instr::{Instr, Slot};
use crate::lane::Lane;
use crate::laws::turns_never_rise;
use crate::simple::run_simple;
use crate::valid::Numbers;
use crate::words::{pay, word_in};
use ctl_base::{Memory, Node, TrapKind};
use sqlite_items::Items;
use std::alloc::Global;

fn framed(end: LaneEnd) -> LaneEnd
    ensures { (l : LaneForm) → ended result l ≡ framed (ended end l) }
{
    match end {
        LaneEnd::Normal | LaneEnd::Left => LaneEnd::Normal,
        LaneEnd::Trapped { kind, node } => LaneEnd::Trapped { kind, node },
    }
}

fn is_normal(end: LaneEnd) -> bool
    ensures { result ≡ is_normal end }
{
    matches!(end, LaneEnd::Normal)
}

// The cost that a lane shows is at most 2^64 - 1.
fn cost_fits(lane: &Lane)
    ensures { lane.now ≡ counted lane.now }
{
    let _cost = lane.cost;
}

/// Runs the code on one lane, which ends and is left as the meaning of the code says. The cost that the lane shows stops
/// at 2^64 - 1. The end is never Left.
pub fn run_lane(alloc: Global, code: &Code, lane: &mut Lane) -> Result<LaneEnd, Memory>
    ensures { IfOk result (λ end. ended end lane.new ≡ counted_done (whole_run code.now.blocks code.now.entry lane.old)) }
{
    let n = Numbers {
        varying: code.varying,
        uniform: code.uniform,
    };
    let depth = code.entry as u64 + 1;
    let end = run_block(alloc, n, code.blocks.as_slice(), depth, code.entry, lane)?;
    Ok(framed(end))
}

#[cycle(run)]
fn run_block(
    alloc: Global,
    n: Numbers,
    blocks: &[Items<Instr>],
    depth: u64,
    block: u32,
    lane: &mut Lane,
) -> Result<LaneEnd, Memory>
    requires valid { valid_blocks n 0 blocks.now ≡ true }
    ensures { IfOk result (λ end. ended end lane.new ≡ counted_done (run_block blocks.now depth block lane.old)) }
{
    if depth == 0 {
        return Ok(LaneEnd::Normal);
    }
    if block as usize >= blocks.len() {
        return Ok(LaneEnd::Normal);
    }
    let list_end = run_list(
        alloc,
        n,
        blocks,
        depth - 1,
        blocks[block as usize].as_slice(),
        lane,
    )?;
    Ok(list_end)
}

#[cycle(run)]
fn run_list(
    alloc: Global,
    n: Numbers,
    blocks: &[Items<Instr>],
    depth: u64,
    list: &[Instr],
    lane: &mut Lane,
) -> Result<LaneEnd, Memory>
    requires valid { valid_blocks n 0 blocks.now ≡ true }
    requires sound { all_sound n list.now ≡ true }
    ensures { IfOk result (λ end. ended end lane.new ≡ counted_done (run_list (run_block blocks.now depth) list.now lane.old)) }
{
    'each: for i in 0..list.len() {
        let end = run_instr(alloc, n, blocks, depth, &list[i], lane)?;
        if !is_normal(end) {
            return Ok(end);
        }
    }
    cost_fits(lane);
    Ok(LaneEnd::Normal)
}

#[cycle(run)]
fn run_instr(
    alloc: Global,
    n: Numbers,
    blocks: &[Items<Instr>],
    depth: u64,
    x: &Instr,
    lane: &mut Lane,
) -> Result<LaneEnd, Memory>
    requires valid { valid_blocks n 0 blocks.now ≡ true }
    requires sound { is_sound n x.now ≡ true }
    ensures { IfOk result (λ end. ended end lane.new ≡ counted_done (act (run_block blocks.now depth) x.now lane.old)) }
{
    match x {
        Instr::If { cond, yes, no } => {
            let end = run_if(alloc, n, blocks, depth, *cond, *yes, *no, lane)?;
            Ok(end)
        }
        Instr::Loop {
            test,
            cond,
            body,
            node,
        } => {
            let end = run_loop(alloc, n, blocks, depth, *test, *cond, *body, *node, lane)?;
            Ok(end)
        }
        Instr::Frame { block } => {
            let end = run_block(alloc, n, blocks, depth, *block, lane)?;
            Ok(framed(end))
        }
        Instr::Leave => {
            cost_fits(lane);
            Ok(LaneEnd::Left)
        }
        _ => {
            let end = run_simple(alloc, n, x, lane)?;
            Ok(end)
        }
    }
}

#[cycle(run)]
fn run_if(
    alloc: Global,
    n: Numbers,
    blocks: &[Items<Instr>],
    depth: u64,
    cond: Slot,
    one: u32,
    other: u32,
    lane: &mut Lane,
) -> Result<LaneEnd, Memory>
    requires valid { valid_blocks n 0 blocks.now ≡ true }
    ensures { IfOk result (λ end. ended end lane.new ≡ counted_done (choose cond (run_block blocks.now depth one) (run_block blocks.now depth other) lane.old)) }
{
    let holds = word_in(lane, cond).truth();
    pay(lane, 1);
    if holds {
        let end = run_block(alloc, n, blocks, depth, one, lane)?;
        Ok(end)
    } else {
        let end = run_block(alloc, n, blocks, depth, other, lane)?;
        Ok(end)
    }
}

#[cycle(run)]
fn run_loop(
    alloc: Global,
    n: Numbers,
    blocks: &[Items<Instr>],
    depth: u64,
    test: u32,
    cond: Slot,
    body: u32,
    node: Node,
    lane: &mut Lane,
) -> Result<LaneEnd, Memory>
    requires valid { valid_blocks n 0 blocks.now ≡ true }
    ensures { IfOk result (λ end. ended end lane.new ≡ counted_done (act (run_block blocks.now depth) (Loop test cond body node) lane.old)) }
{
    turns_never_rise();
    'turns: loop {
        let end = run_block(alloc, n, blocks, depth, test, lane)?;
        if !is_normal(end) {
            return Ok(end);
        }
        let holds = word_in(lane, cond).truth();
        pay(lane, 1);
        if !holds {
            return Ok(LaneEnd::Normal);
        }
        if lane.turns == 0 {
            return Ok(LaneEnd::Trapped {
                kind: TrapKind::Turns,
                node,
            });
        }
        lane.turns -= 1;
        let end = run_block(alloc, n, blocks, depth, body, lane)?;
        if !is_normal(end) {
            return Ok(end);
        }
    }
}
