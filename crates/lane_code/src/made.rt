//! Code from its parts.

ghost use Rattle.std.specs.Prelude.{◌≡◌, false, MatchResult};
ghost use Rattle.lane_code.specs.Valid.{is_valid};
ghost use Rattle.lane_code.specs.Made.{IsMadeOf, numbers_of};

use crate::code::{Code, NotValid};
use crate::parts::Parts;
use crate::valid::{Numbers, all_inside, valid_blocks};

impl Code {
    /// Code of these parts, and NotValid exactly where they make no valid code.
    pub fn new(parts: Parts) -> Result<Code, NotValid>
        ensures { MatchResult result (λ code. IsMadeOf code parts) (λ _. is_valid (numbers_of parts) parts.blocks parts.entry parts.inputs parts.outputs ≡ false) }
    {
        let n = Numbers {
            varying: parts.varying,
            uniform: parts.uniform,
        };
        let valid = (parts.entry as usize) < parts.blocks.len()
            && valid_blocks(n, parts.blocks.as_slice())
            && all_inside(n, parts.inputs.as_slice())
            && all_inside(n, parts.outputs.as_slice());
        if !valid {
            return Err(NotValid);
        }
        let Parts {
            blocks,
            entry,
            varying,
            uniform,
            inputs,
            outputs,
        } = parts;
        Ok(Code {
            blocks,
            entry,
            varying,
            uniform,
            inputs,
            outputs,
        })
    }
}
