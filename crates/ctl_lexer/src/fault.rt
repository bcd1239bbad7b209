//! Why a text has no tokens, and where.

ghost use Rattle.std.specs.Prelude.{◌≡◌};

use ctl_base::Memory;
use ctl_tree::LexKind;

/// Why a text gives no list of tokens.
#[derive(Clone, Copy, Debug, PartialEq, Eq)]
pub enum LexFault {
    /// At the byte `at`, in this line, begins no token, blank or whole comment.
    At { at: u32, line: u32, kind: LexKind },
    Memory,
}

impl From<Memory> for LexFault {
    ghost use Rattle.ctl_lexer.specs.declared.fault.LexFault.TheVariants.{Memory};

    ghost from_gives = { λ _ e. e ≡ Memory };

    fn from(_: Memory) -> LexFault {
        LexFault::Memory
    }
}
