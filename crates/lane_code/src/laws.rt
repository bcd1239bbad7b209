//! Laws of what code means.

ghost use Rattle.lane_code.specs.Laws.{OneMeaning, BlocksAdded, ListsJoin, MoreChangesNothing, TurnsNeverRise, LoopsGoRound, MarksSuffice, InstructionsKeepApart, SlotsBehindStay, ValidBlocksStand};

use ctl_stdlib::results_fit;

/// The recursion on the depth, and the runs of blocks from the first block on, give the same run of a block.
pub fn one_meaning()
    ensures { OneMeaning }
{}

/// A block that is added runs by the blocks before it, and changes nothing in their runs.
pub fn blocks_added()
    ensures { BlocksAdded }
{}

/// Two lists of instructions run one after the other.
pub fn lists_join()
    ensures { ListsJoin }
{}

/// More blocks behind, and more depth than is needed, change nothing.
pub fn more_changes_nothing()
    ensures { MoreChangesNothing }
{}

/// A run leaves no more turns than there were.
pub fn turns_never_rise()
    ensures { TurnsNeverRise }
{}

/// A loop runs its test, and where the word is not 0 takes a turn or traps, runs its body, and goes on as the loop.
pub fn loops_go_round()
    ensures { LoopsGoRound }
{}

/// Code that fits its marks is ordered, regular and level-safe, and where no mark is divided it is undivided.
pub fn marks_suffice()
    ensures { MarksSuffice }
{}

/// An instruction changes the words of the kind of its target alone. Where that is Uniform, it reads no other words.
pub fn instructions_keep_apart()
    ensures { InstructionsKeepApart }
{}

/// The run of valid code leaves the words behind the code's slots as they are.
pub fn slots_behind_stay()
    ensures { SlotsBehindStay }
{
    results_fit();
}

/// Valid blocks are ordered and regular, and each instruction in them fits the slots and the rows of the library.
pub fn valid_blocks_stand()
    ensures { ValidBlocksStand }
{}
