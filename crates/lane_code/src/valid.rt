//! The test that code is valid.

ghost use Rattle.std.specs.Prelude.{◌≡◌, ◌≤◌, ◌^◌, ◌&&◌, true, length, sum_by};
ghost use Rattle.std.specs.List.{list_all};
ghost use Rattle.ctl_stdlib.specs.Rows.{row};
ghost use Rattle.ctl_stdlib.specs.Shapes.{is_table, stated_words, elements, table_words, input_words, output_words, filled_words, open_sizes};
ghost use Rattle.lane_code.specs.Kinds.{has_numbers, has_bits, is_bool, works_alone, works_on_two};
ghost use Rattle.lane_code.specs.Slots.{is_uniform};
ghost use Rattle.lane_code.specs.Instructions.{inputs, writes_uniform, reads_uniform};
ghost use Rattle.lane_code.specs.Valid.{is_inside, arguments_inside, slots_inside, works, fits_row, fits_library, names_below, is_sound, valid_block, valid_blocks};

use crate::instr::{Instr, Op1, Op2, Slot};
use crate::row_words::{arguments_inside, filled_words, fits_row};
use ctl_base::ScalarKind;
use ctl_stdlib::{LibraryId, params};
use sqlite_items::Items;

/// How many slots there are of each kind.
#[derive(Clone, Copy, Debug, PartialEq, Eq)]
pub struct Numbers {
    pub varying: u32,
    pub uniform: u32,
}

// There are count slots from this one on.
pub fn is_inside(n: Numbers, slot: Slot, count: u64) -> bool
    requires { count ≤ 2 ^ 62 }
    ensures { result ≡ is_inside n slot count }
{
    match slot {
        Slot::Varying(k) => k as u64 + count <= n.varying as u64,
        Slot::Uniform(k) => k as u64 + count <= n.uniform as u64,
    }
}

pub fn is_uniform(slot: Slot) -> bool
    ensures { result ≡ is_uniform slot }
{
    match slot {
        Slot::Varying(_) => false,
        Slot::Uniform(_) => true,
    }
}

fn has_numbers(kind: ScalarKind) -> bool
    ensures { result ≡ has_numbers kind }
{
    !matches!(kind, ScalarKind::Bool)
}

fn has_bits(kind: ScalarKind) -> bool
    ensures { result ≡ has_bits kind }
{
    matches!(kind, ScalarKind::Int | ScalarKind::Unsigned)
}

fn works_alone(op: Op1, kind: ScalarKind) -> bool
    ensures { result ≡ works_alone op kind }
{
    match op {
        Op1::Neg => has_numbers(kind),
        Op1::Not => matches!(kind, ScalarKind::Bool),
        Op1::Flip => has_bits(kind),
    }
}

fn works_on_two(op: Op2, kind: ScalarKind) -> bool
    ensures { result ≡ works_on_two op kind }
{
    match op {
        Op2::Rem | Op2::And | Op2::Or | Op2::Xor | Op2::Shl | Op2::Shr => has_bits(kind),
        _ => has_numbers(kind),
    }
}

fn works(x: &Instr) -> bool
    ensures { result ≡ works x.now }
{
    match x {
        Instr::Do1 { op, kind, .. } => works_alone(*op, *kind),
        Instr::Do2 { op, kind, .. } => works_on_two(*op, *kind),
        _ => true,
    }
}

fn writes_uniform(x: &Instr) -> bool
    ensures { result ≡ writes_uniform x.now }
{
    match x {
        Instr::Set { dst, .. } => is_uniform(*dst),
        Instr::Copy { dst, .. } => is_uniform(*dst),
        Instr::Do1 { dst, .. } => is_uniform(*dst),
        Instr::Do2 { dst, .. } => is_uniform(*dst),
        Instr::Convert { dst, .. } => is_uniform(*dst),
        Instr::Gather { dst, .. } => is_uniform(*dst),
        Instr::Scatter { base, .. } => is_uniform(*base),
        Instr::Library { dst, .. } => is_uniform(*dst),
        _ => false,
    }
}

fn all_uniform(slots: &[Slot]) -> bool
    ensures { result ≡ list_all (λ s. is_uniform s) slots.now }
{
    slots.iter().all(|s| is_uniform(*s))
}

fn reads_uniform(x: &Instr) -> bool
    ensures { result ≡ reads_uniform x.now }
{
    match x {
        Instr::Copy { src, .. } => is_uniform(*src),
        Instr::Do1 { a, .. } => is_uniform(*a),
        Instr::Do2 { a, b, .. } => is_uniform(*a) && is_uniform(*b),
        Instr::Convert { a, .. } => is_uniform(*a),
        Instr::Bound { index, .. } => is_uniform(*index),
        Instr::Gather { base, at, .. } => is_uniform(*base) && is_uniform(*at),
        Instr::Scatter { at, src, .. } => is_uniform(*at) && is_uniform(*src),
        Instr::Library { args, .. } => all_uniform(args.as_slice()),
        Instr::If { cond, .. } => is_uniform(*cond),
        Instr::Loop { cond, .. } => is_uniform(*cond),
        _ => true,
    }
}

fn names_below(k: u64, x: &Instr) -> bool
    ensures { result ≡ names_below k x.now }
{
    match x {
        Instr::If { yes, no, .. } => (*yes as u64) < k && (*no as u64) < k,
        Instr::Loop { test, body, .. } => (*test as u64) < k && (*body as u64) < k,
        Instr::Frame { block } => (*block as u64) < k,
        _ => true,
    }
}

// Whether all slots of an instruction are there.
fn slots_inside(n: Numbers, x: &Instr) -> bool
    requires { fits_library x.now ≡ true }
    ensures { result ≡ slots_inside n x.now }
{
    match x {
        Instr::Set { dst, .. } => is_inside(n, *dst, 1),
        Instr::Copy { dst, src, count } => {
            is_inside(n, *dst, *count as u64) && is_inside(n, *src, *count as u64)
        }
        Instr::Do1 { dst, a, .. } => is_inside(n, *dst, 1) && is_inside(n, *a, 1),
        Instr::Do2 { dst, a, b, .. } => {
            is_inside(n, *dst, 1) && is_inside(n, *a, 1) && is_inside(n, *b, 1)
        }
        Instr::Convert { dst, a, .. } => is_inside(n, *dst, 1) && is_inside(n, *a, 1),
        Instr::Bound { index, .. } => is_inside(n, *index, 1),
        Instr::Gather {
            dst,
            base,
            span,
            at,
            count,
            ..
        } => {
            is_inside(n, *dst, *count as u64)
                && is_inside(n, *base, *span as u64)
                && is_inside(n, *at, 1)
        }
        Instr::Scatter {
            base,
            span,
            at,
            count,
            src,
            ..
        } => {
            is_inside(n, *base, *span as u64)
                && is_inside(n, *at, 1)
                && is_inside(n, *src, *count as u64)
        }
        Instr::Library {
            id,
            sizes,
            dst,
            args,
            ..
        } => library_inside(n, *id, sizes.as_slice(), *dst, args.as_slice()),
        Instr::If { cond, .. } => is_inside(n, *cond, 1),
        Instr::Loop { cond, .. } => is_inside(n, *cond, 1),
        Instr::Frame { .. } | Instr::Leave => true,
    }
}

fn library_inside(n: Numbers, id: LibraryId, sizes: &[u32], dst: Slot, args: &[Slot]) -> bool
    requires { fits_row (row id) sizes.now args.now ≡ true }
    ensures { result ≡ (is_inside n dst (filled_words (row id)) && arguments_inside n sizes.now (inputs (row id)) args.now) }
{
    is_inside(n, dst, filled_words(id)) && arguments_inside(n, sizes, params(id), args)
}

fn fits_library(x: &Instr) -> bool
    ensures { result ≡ fits_library x.now }
{
    match x {
        Instr::Library {
            id,
            sizes,
            args,
            ..
        } => fits_row(*id, sizes.as_slice(), args.as_slice()),
        _ => true,
    }
}

/// Whether an instruction is valid by itself, with so many slots.
pub fn is_sound(n: Numbers, x: &Instr) -> bool
    ensures { result ≡ is_sound n x.now }
{
    fits_library(x) && slots_inside(n, x) && (!writes_uniform(x) || reads_uniform(x)) && works(x)
}

fn valid_block(n: Numbers, k: u64, block: &[Instr]) -> bool
    ensures { result ≡ valid_block n k block.now }
{
    block.iter().all(|x| names_below(k, x) && is_sound(n, x))
}

/// Whether all blocks are valid.
pub fn valid_blocks(n: Numbers, blocks: &[Items<Instr>]) -> bool
    ensures { result ≡ valid_blocks n 0 blocks.now }
{
    'each: for k in 0..blocks.len() {
        if !valid_block(n, k as u64, blocks[k].as_slice()) {
            return false;
        }
    }
    true
}

/// Whether each of these slots is there.
pub fn all_inside(n: Numbers, slots: &[Slot]) -> bool
    ensures { result ≡ list_all (λ s. is_inside n s 1) slots.now }
{
    slots.iter().all(|s| is_inside(n, *s, 1))
}
