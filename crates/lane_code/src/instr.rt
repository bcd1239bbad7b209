//! Slots, operations and instructions.

use ctl_base::{Node, ScalarKind};
use ctl_stdlib::LibraryId;
use fix_num::Fix;
use sqlite_items::Items;

/// A slot holds one word. Slots of an operand of several words follow each other, and an instruction has the first.
#[derive(Clone, Copy, Debug, PartialEq, Eq)]
pub enum Slot {
    /// Each lane has a word of its own.
    Varying(u32),
    /// All lanes share one word.
    Uniform(u32),
}

/// An operation on one word.
#[derive(Clone, Copy, Debug, PartialEq, Eq)]
pub enum Op1 {
    /// The number with its sign changed.
    Neg,
    /// The other truth value.
    Not,
    /// All bits changed.
    Flip,
}

/// An operation on two words. The comparisons give a bool.
#[derive(Clone, Copy, Debug, PartialEq, Eq)]
pub enum Op2 {
    Add,
    Sub,
    Mul,
    Div,
    Rem,
    And,
    Or,
    Xor,
    Shl,
    Shr,
    Eq,
    Ne,
    Lt,
    Le,
    Gt,
    Ge,
}

/// An instruction. It names blocks by their numbers.
#[derive(Drop)]
pub enum Instr {
    /// A word is set.
    Set {
        dst: Slot,
        word: Fix,
    },
    /// Slots are copied one after the other, from the first.
    Copy {
        dst: Slot,
        src: Slot,
        count: u32,
    },
    /// The operand is taken into the kind first.
    Do1 {
        op: Op1,
        kind: ScalarKind,
        dst: Slot,
        a: Slot,
    },
    /// Both operands are taken into the kind first.
    Do2 {
        op: Op2,
        kind: ScalarKind,
        dst: Slot,
        a: Slot,
        b: Slot,
    },
    /// The operand is taken into the first kind, and converted to the second.
    Convert {
        from: ScalarKind,
        to: ScalarKind,
        dst: Slot,
        a: Slot,
    },
    /// Traps unless the word is from 0 to below the size.
    Bound {
        index: Slot,
        size: u32,
        node: Node,
    },
    /// Copies from the slots that begin as far behind `base` as the word of `at` says.
    /// Traps unless they are among the first `span` of them.
    Gather {
        dst: Slot,
        base: Slot,
        span: u32,
        at: Slot,
        count: u32,
        node: Node,
    },
    /// Copies to the slots that begin as far behind `base` as the word of `at` says.
    /// Traps unless they are among the first `span` of them.
    Scatter {
        base: Slot,
        span: u32,
        at: Slot,
        count: u32,
        src: Slot,
        node: Node,
    },
    /// Calls a function of the library. `sizes` has the open sizes of its table, `args` the first slots of its inputs
    /// in their order. Its results stand from `dst` on. Traps where an assertion is false.
    Library {
        id: LibraryId,
        sizes: Items<u32>,
        dst: Slot,
        args: Items<Slot>,
        node: Node,
    },
    /// Runs one block where the word is not 0, else the other.
    If {
        cond: Slot,
        yes: u32,
        no: u32,
    },
    /// Runs `test`, and while the word is not 0 takes a turn and runs `body` and `test` again.
    /// Traps where a turn is to be taken and none is left.
    Loop {
        test: u32,
        cond: Slot,
        body: u32,
        node: Node,
    },
    /// Runs a block. A Leave in it ends here.
    Frame {
        block: u32,
    },
    /// Ends the blocks up to the innermost Frame, and all where there is none.
    Leave,
}
