//! Why a file does not read as an image.

ghost use Rattle.std.specs.Prelude.{◌≡◌};
ghost use Rattle.dpx_file.specs.declared.fault.ReadError.TheVariants.{Dpx, Memory};

use ctl_base::Memory as NoMemory;
use thiserror::Error;

/// The first rule that a file breaks. The variants stand in the order in which the rules are looked at, but for the
/// second kind of `Truncated`, which is looked for last.
#[derive(Clone, Copy, Debug, PartialEq, Eq, Error)]
pub enum DpxFault {
    /// The magic number is missing, or neither `SDPX` nor `XPDS`.
    #[error("no magic number of DPX")]
    NotDpx,
    /// The file has fewer bytes than its header, or its header and its pixels, need.
    #[error("{have} bytes where {need} are needed")]
    Truncated { need: u64, have: u64 },
    /// The encryption key is set.
    #[error("encrypted")]
    Encrypted,
    /// The image orientation is not left to right and top to bottom.
    #[error("image orientation {0}")]
    Orientation(u16),
    /// The number of image elements is not 1.
    #[error("{0} image elements")]
    Elements(u16),
    /// Pixels per line or lines per image element are 0 or above 16384, or there are more than 2^26 pixels.
    #[error("{width} pixels per line, {height} lines")]
    Size { width: u32, height: u32 },
    /// The data sign says that codes are signed.
    #[error("data sign {0}")]
    Sign(u32),
    /// The descriptor is not 50, red, green and blue.
    #[error("descriptor {0}")]
    Descriptor(u8),
    /// The bit size is neither 10 nor 16.
    #[error("{0} bits")]
    Depth(u8),
    /// The packing is none of 1 and 2 at ten bits, or of 0, 1 and 2 at sixteen.
    #[error("packing {0}")]
    Packing(u16),
    /// The encoding says that the pixels are compressed.
    #[error("encoding {0}")]
    Compressed(u16),
}

/// Why an image could not be read.
#[derive(Clone, Copy, Debug, PartialEq, Eq)]
pub enum ReadError {
    /// The file breaks a rule.
    Dpx(DpxFault),
    /// Want of memory.
    Memory,
}

impl From<DpxFault> for ReadError {
    ghost from_gives = { λ fault e. e ≡ Dpx fault };

    fn from(fault: DpxFault) -> ReadError {
        ReadError::Dpx(fault)
    }
}

impl From<NoMemory> for ReadError {
    ghost from_gives = { λ _ e. e ≡ Memory };

    fn from(_: NoMemory) -> ReadError {
        ReadError::Memory
    }
}
