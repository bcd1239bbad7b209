//! Writing.

ghost use Rattle.std.specs.Prelude.{◌≡◌, IfOk};
ghost use Rattle.dpx_file.specs.Writing.{dpx_writing};

use crate::file::blank_file;
use crate::header::HEADER_SIZE;
use crate::image::Image;
use crate::pixels::encode;
use ctl_base::{ByteText, Memory};
use std::alloc::Global;

/// The file of an image, written at its depth.
pub fn write(alloc: Global, image: &Image, depth: u8) -> Result<ByteText, Memory>
    requires { depth ≡ image.now.depth }
    ensures { IfOk result (λ t. t ≡ dpx_writing image.now) }
{
    let mut bytes = blank_file(alloc, image.width(), image.height(), depth)?;
    encode(depth, image.codes(), &mut bytes[HEADER_SIZE as usize..]);
    Ok(ByteText::from_vec(bytes))
}
